//! The layout of the nested kernel, a row each: frames by number, which every opening has at the same place, and the
//! linear addresses at which those of the nested area stand.

ghost use Rattle.std.specs.Prelude.{◌≡◌};
ghost use Rattle.nk_bits.specs.KernelLayout.{area_directory, area_start, area_table, body_address, exit_address, gate_address, gate_text, handler_slot, idt_and_tss, image_directory, nested_stack, nested_stack_top, opening_root, pool_end, pool_frame, pool_start, slot_table, trap_stack, trap_stack_top, tss_address};

/// Frame of the interrupt descriptor table and the task-state segment.
pub const IDT_AND_TSS: u32 = 0;

/// Frame of the gates' text.
pub const GATE_TEXT: u32 = 1;

/// Frame of the address of the outer kernel's trap handler.
pub const HANDLER_FRAME: u32 = 2;

/// Frame of the stack on which every delivery begins to push.
pub const TRAP_STACK: u32 = 3;

/// Frame of the nested kernel's stack.
pub const NESTED_STACK: u32 = 4;

/// Frame of the opening's table of level 4.
pub const OPENING_ROOT: u32 = 5;

/// Frame of the kernel slot's table of level 3.
pub const SLOT_TABLE: u32 = 6;

/// Frame of the nested area's table of level 2.
pub const AREA_DIRECTORY: u32 = 7;

/// Frame of the nested area's table of level 1.
pub const AREA_TABLE: u32 = 8;

/// Frame of the image's table of level 2.
pub const IMAGE_DIRECTORY: u32 = 9;

/// First frame of the pool of regions.
pub const POOL_FRAME: u32 = 10;

/// The frame behind the pool's last.
pub const POOL_END: u32 = 26;

/// The nested area's first address, where the interrupt descriptor table stands.
pub const AREA_START: u64 = 0xFFFF_FF80_0000_0000;

/// The task-state segment.
pub const TSS_ADDRESS: u64 = 0xFFFF_FF80_0000_0400;

/// The gates' text, at which the outer kernel calls.
pub const GATE: u64 = 0xFFFF_FF80_0000_1000;

/// The place in the entry gate at which the nested kernel does its work.
pub const BODY: u64 = 0xFFFF_FF80_0000_101B;

/// The exit gate, which goes on behind the body.
pub const EXIT: u64 = 0xFFFF_FF80_0000_101D;

/// The end of the trap stack, where every delivery begins to push.
pub const TRAP_STACK_TOP: u64 = 0xFFFF_FF80_0000_4000;

/// The end of the nested kernel's stack.
pub const NESTED_STACK_TOP: u64 = 0xFFFF_FF80_0000_5000;

/// The pool of regions, 65,536 bytes.
pub const POOL_START: u64 = 0xFFFF_FF80_0001_0000;

/// The constants are the definition's.
pub fn layout_law()
    ensures idt_and_tss { IDT_AND_TSS ≡ idt_and_tss }
    ensures gate_text { GATE_TEXT ≡ gate_text }
    ensures handler_slot { HANDLER_FRAME ≡ handler_slot }
    ensures trap_stack { TRAP_STACK ≡ trap_stack }
    ensures nested_stack { NESTED_STACK ≡ nested_stack }
    ensures opening_root { OPENING_ROOT ≡ opening_root }
    ensures slot_table { SLOT_TABLE ≡ slot_table }
    ensures area_directory { AREA_DIRECTORY ≡ area_directory }
    ensures area_table { AREA_TABLE ≡ area_table }
    ensures image_directory { IMAGE_DIRECTORY ≡ image_directory }
    ensures pool_frame { POOL_FRAME ≡ pool_frame }
    ensures pool_end { POOL_END ≡ pool_end }
    ensures area_start { AREA_START ≡ area_start }
    ensures tss { TSS_ADDRESS ≡ tss_address }
    ensures gate { GATE ≡ gate_address }
    ensures body { BODY ≡ body_address }
    ensures exit { EXIT ≡ exit_address }
    ensures trap_stack_top { TRAP_STACK_TOP ≡ trap_stack_top }
    ensures nested_stack_top { NESTED_STACK_TOP ≡ nested_stack_top }
    ensures pool_start { POOL_START ≡ pool_start }
{}
