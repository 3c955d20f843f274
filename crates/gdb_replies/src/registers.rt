//! The registers, in the order of the description.

ghost use Rattle.std.specs.Prelude.{◌≡◌, ◌<◌, ◌++◌, ℕ, OnOk, slice_index};
ghost use Rattle.gate_state.specs.MachineOf.{whole_of};
ghost use Rattle.trap_unit.specs.TrapDelivery.{cs_of};
ghost use Rattle.gdb_replies.specs.RegisterTexts.{control_bytes, four_text, general_text, stand_bytes, register_bytes};

use crate::words::{put_4_bytes, put_8_bytes, put_untold};
use gate_state::Machine;
use nk_bits::Control;
use std::alloc::AllocError;
use step_trace::put_bytes;
use x86_regs::Regs;

/// The selectors of code by CPL (SDM volume 3, 3.4.2).
fn code_selector(cpl: u8) -> u32
    ensures { result ≡ cs_of cpl }
{
    if cpl == 0 { 0x08 } else { 0x1B }
}

/// Four of the general registers, by number.
#[tactic(auto, unfolding(crate::specs::RegisterTexts::four_text))]
fn put_four(reply: &mut Vec<u8>, general: &[u64; 16], numbers: [usize; 4]) -> Result<(), AllocError>
    requires { (i : ℕ) → i < 4 → slice_index numbers i < 16 }
    ensures { OnOk result (reply.new.items ≡ reply.old.items
        ++ four_text general.now (slice_index numbers 0) (slice_index numbers 1) (slice_index numbers 2) (slice_index numbers 3)) }
{
    put_8_bytes(reply, general[numbers[0]])?;
    put_8_bytes(reply, general[numbers[1]])?;
    put_8_bytes(reply, general[numbers[2]])?;
    put_8_bytes(reply, general[numbers[3]])
}

/// RAX, RBX, RCX, RDX, RSI, RDI, RBP, RSP and R8 to R15.
fn put_general(reply: &mut Vec<u8>, general: &[u64; 16]) -> Result<(), AllocError>
    ensures { OnOk result (reply.new.items ≡ reply.old.items ++ general_text general.now) }
{
    put_four(reply, general, [0, 3, 1, 2])?;
    put_four(reply, general, [6, 7, 5, 4])?;
    put_four(reply, general, [8, 9, 10, 11])?;
    put_four(reply, general, [12, 13, 14, 15])
}

fn put_place(reply: &mut Vec<u8>, regs: &Regs) -> Result<(), AllocError>
    ensures { OnOk result (reply.new.items ≡ reply.old.items ++ stand_bytes regs.now) }
{
    put_8_bytes(reply, regs.rip)?;
    put_bytes(reply, &regs.flags.to_le_bytes()[..4])?;
    put_4_bytes(reply, code_selector(regs.cpl))?;
    put_4_bytes(reply, u32::from(regs.ss))?;
    put_untold(reply)
}

fn put_control(reply: &mut Vec<u8>, control: &Control, cpl: u8) -> Result<(), AllocError>
    ensures { OnOk result (reply.new.items ≡ reply.old.items ++ control_bytes control.now cpl) }
{
    put_8_bytes(reply, control.cr0)?;
    put_8_bytes(reply, control.cr2)?;
    put_8_bytes(reply, 4096 * u64::from(control.root))?;
    put_8_bytes(reply, control.cr4)?;
    put_8_bytes(reply, u64::from(cpl))
}

/// All registers of a machine behind so many steps.
pub fn put_registers(
    reply: &mut Vec<u8>,
    machine: &Machine<'_>,
    steps: u64,
) -> Result<(), AllocError>
    ensures { OnOk result (reply.new.items ≡ reply.old.items ++ register_bytes (whole_of machine.now).state steps) }
{
    let cpu = machine.processor();
    put_general(reply, &cpu.regs().general)?;
    put_place(reply, cpu.regs())?;
    put_control(reply, cpu.control(), cpu.regs().cpl)?;
    put_8_bytes(reply, machine.turns())?;
    put_8_bytes(reply, steps)
}
