//! Products and quotients of twice the width.

ghost use Rattle.std.specs.Prelude.{◌≡◌, Ok};
ghost use Rattle.decode_fields.specs.Widths.{IsWidth};
ghost use Rattle.x86_decode.specs.WellFormed.{IsWellFormed};
ghost use Rattle.x86_alu.specs.SignedNumbers.{cut};
ghost use Rattle.x86_regs.specs.OperandOutcomes.{divided, halves_written, is_signed, multiplied_wide};

use crate::changes::quietly;
use x86_alu::{divide, multiply};
use x86_decode::Instr;
use x86_regs::{Change, Fault, RAX, Regs, going_on, is_signed, set_halves, upper_half};

fn halves_written(general: &[u64; 16], width: u8, low: u64, high: u64) -> [u64; 16]
    requires { IsWidth width }
    ensures { result ≡ halves_written general.now width low high }
{
    let mut after = *general;
    set_halves(&mut after, width, low, high);
    after
}

/// MUL, and IMUL of one operand.
pub(crate) fn multiply_wide(instr: &Instr, next: u64, regs: &Regs, to: u64) -> Change
    requires { IsWellFormed instr.now }
    ensures { Ok result ≡ multiplied_wide instr.now regs.now next (is_signed instr.now.op)
        (cut instr.now.width to) }
{
    let signed = is_signed(instr.op);
    let accumulator = regs.general[RAX as usize];
    let low = multiply(signed, false, instr.width, accumulator, to, regs.flags);
    let high = multiply(signed, true, instr.width, accumulator, to, regs.flags);
    let general = halves_written(&regs.general, instr.width, low.value, high.value);
    quietly(going_on(regs, general, low.flags, next))
}

/// DIV and IDIV.
pub(crate) fn divide_wide(instr: &Instr, next: u64, regs: &Regs, to: u64) -> Result<Change, Fault>
    requires { IsWellFormed instr.now }
    ensures { result ≡ divided instr.now regs.now next (is_signed instr.now.op) (cut instr.now.width to) }
{
    let high = upper_half(&regs.general, instr.width);
    let low = regs.general[RAX as usize];
    match divide(is_signed(instr.op), instr.width, high, low, to) {
        Ok(it) => {
            let general = halves_written(&regs.general, instr.width, it.value, it.rest);
            Ok(quietly(going_on(regs, general, regs.flags, next)))
        }
        Err(_) => Err(Fault::Divide),
    }
}
