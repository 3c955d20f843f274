//! HLT, ports, control registers, tables and pages (SDM volume 2, IN, OUT, MOV of control registers, LIDT, INVLPG).

ghost use Rattle.std.specs.Prelude.{◌≡◌, ◌*◌, ◌<◌, ◌^◌, Ok};
ghost use Rattle.decode_fields.specs.Bounds.{IsPlace};
ghost use Rattle.x86_alu.specs.SignedNumbers.{bit, cut};
ghost use Rattle.x86_regs.specs.Registers.{written};
ghost use Rattle.x86_regs.specs.OperandOutcomes.{change, control_act, control_loaded, control_value, going_on, is_cr0, is_cr3, is_cr4, page_dropped, quietly};

use decode_fields::Place;
use nk_bits::{Control, canonical};
use x86_regs::{Act, Change, Fault, Regs, bit, control_value, going_on, written};

/// Goes on at the next instruction with an act, as HLT, IN, OUT, LIDT and INVLPG do.
pub(crate) fn acting(next: u64, regs: &Regs, act: Act) -> Change
    ensures { Ok result ≡ change (going_on regs.now regs.now.general regs.now.flags next) 0 act }
{
    Change {
        regs: going_on(regs, regs.general, regs.flags, next),
        value: 0,
        act,
    }
}

/// IN from the port of this number, whose low 16 bits count.
pub(crate) fn input(port: u64, next: u64, regs: &Regs) -> Change
    ensures { Ok result ≡ change (going_on regs.now regs.now.general regs.now.flags next) 0 (Act.In (cut 16 port)) }
{
    acting(next, regs, Act::In(low_16(port)))
}

/// OUT of a byte to the port of this number, whose low 16 bits count.
pub(crate) fn output(byte: u64, port: u64, next: u64, regs: &Regs) -> Change
    ensures { Ok result ≡ change (going_on regs.now regs.now.general regs.now.flags next) 0
        (Act.Out (cut 8 byte) (cut 16 port)) }
{
    acting(next, regs, Act::Out(low_8(byte), low_16(port)))
}

/// LIDT of a base and a limit.
pub(crate) fn load_table(base: u64, limit: u64, next: u64, regs: &Regs) -> Change
    ensures { Ok result ≡ change (going_on regs.now regs.now.general regs.now.flags next) 0
        (Act.Idt (cut 64 base) (cut 16 limit)) }
{
    acting(next, regs, Act::Idt(base, low_16(limit)))
}

/// INVLPG at an address: its page is dropped where it is canonical.
pub(crate) fn drop_page(va: u64, next: u64, regs: &Regs) -> Change
    ensures { Ok result ≡ change (going_on regs.now regs.now.general regs.now.flags next) 0
        (page_dropped (cut 64 va)) }
{
    acting(next, regs, page_dropped(va))
}

pub(crate) fn low_8(number: u64) -> u8
    ensures { result ≡ cut 8 number }
{
    (number % 0x100) as u8
}

pub(crate) fn low_16(number: u64) -> u16
    ensures { result ≡ cut 16 number }
{
    (number % 0x1_0000) as u16
}

pub(crate) fn page_dropped(va: u64) -> Act
    ensures { result ≡ page_dropped va }
{
    if canonical(va) {
        Act::DropPage(va / 4096)
    } else {
        Act::Quiet
    }
}

/// MOV from the control register of this number to a general register.
pub(crate) fn from_control(
    number: u64,
    to: &Place,
    next: u64,
    regs: &Regs,
    control: &Control,
) -> Change
    requires root { 4096 * control.now.root < 2 ^ 64 }
    requires place { IsPlace to.now }
    ensures { Ok result ≡ quietly (going_on regs.now (written regs.now.general to.now 64
        (control_value control.now number)) regs.now.flags next) }
{
    let general = written(&regs.general, to, 64, control_value(control, number));
    Change {
        regs: going_on(regs, general, regs.flags, next),
        value: 0,
        act: Act::Quiet,
    }
}

/// MOV of a value to the control register of this number, where memory has so many frames.
///
/// Fails with #GP where the register doesn't take the value.
pub(crate) fn to_control(
    number: u64,
    next: u64,
    regs: &Regs,
    frames: u32,
    value: u64,
) -> Result<Change, Fault>
    ensures { result ≡ control_loaded number regs.now next frames (cut 64 value) }
{
    match number {
        0 => control_act(is_cr0(value), next, regs, Act::Cr0(value)),
        2 => control_act(true, next, regs, Act::Cr2(value)),
        3 => control_act(is_cr3(frames, value), next, regs, Act::Cr3(value)),
        _ => control_act(is_cr4(value), next, regs, Act::Cr4(value)),
    }
}

fn control_act(admitted: bool, next: u64, regs: &Regs, act: Act) -> Result<Change, Fault>
    ensures { result ≡ control_act admitted regs.now next act }
{
    if admitted {
        Ok(acting(next, regs, act))
    } else {
        Err(Fault::General(0))
    }
}

/// A value that CR0 takes: PE and PG are set, NW only where CD is, and no bit from 32 on.
pub(crate) fn is_cr0(value: u64) -> bool
    ensures { result ≡ is_cr0 value }
{
    (value < 1 << 32) & bit(value, 0) & bit(value, 31) & (!bit(value, 29) | bit(value, 30))
}

/// A value that CR3 takes: its frame is in memory.
pub(crate) fn is_cr3(frames: u32, value: u64) -> bool
    ensures { result ≡ is_cr3 frames value }
{
    value / 4096 < u64::from(frames)
}

/// A value that CR4 takes: PAE, and SMEP or not.
pub(crate) fn is_cr4(value: u64) -> bool
    ensures { result ≡ is_cr4 value }
{
    value == 0x20 || value == 0x10_0020
}
