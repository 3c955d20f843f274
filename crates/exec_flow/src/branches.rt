//! Branches, calls and returns (SDM volume 1, 6.4 and 7.3.8).

ghost use Rattle.std.specs.Prelude.{◌≡◌, ◌+◌, true, Ok, slice_index};
ghost use Rattle.x86_alu.specs.SignedNumbers.{bit, cut};
ghost use Rattle.x86_alu.specs.Flags.{zero_flag};
ghost use Rattle.x86_regs.specs.Operands.{rcx, rsp, wrapped, with_register};
ghost use Rattle.x86_regs.specs.OperandOutcomes.{branched, change, count_after, is_taken_by_count, fallen, going_on, is_taken, target_by};

use decode_fields::Place;
use nk_bits::canonical;
use x86_alu::ZF;
use x86_decode::Op;
use x86_regs::{
    Act, Change, Fault, RSP, Regs, bit, count_by, count_taken, fallen, going_on, is_taken,
    set_count, with_register,
};

/// Jcc and JMP, whose operand holds `from`.
///
/// Fails with #GP where the target of a branch that is taken isn't canonical.
pub(crate) fn branch(
    op: Op,
    place: &Place,
    next: u64,
    regs: &Regs,
    from: u64,
) -> Result<Change, Fault>
    ensures { result ≡ branched regs.now next regs.now.general (is_taken op regs.now.flags)
        (target_by place.now next from) 0 }
{
    let taken = is_taken(op, regs.flags);
    branched(
        regs,
        next,
        regs.general,
        taken,
        target_by(place, next, from),
        0,
    )
}

/// CALL, whose operand holds `from`. What it pushes is the address of the next instruction.
///
/// Fails with #GP where the target isn't canonical.
pub(crate) fn call(place: &Place, next: u64, regs: &Regs, from: u64) -> Result<Change, Fault>
    ensures { result ≡ branched regs.now next (fallen regs.now 64) true (target_by place.now next from) next }
{
    branched(
        regs,
        next,
        fallen(regs, 64),
        true,
        target_by(place, next, from),
        next,
    )
}

/// RET to the address that it popped, which lets `more` bytes go beyond.
///
/// Fails with #GP where the address isn't canonical.
pub(crate) fn ret(more: u64, next: u64, regs: &Regs, popped: u64) -> Result<Change, Fault>
    ensures { result ≡ branched regs.now next
        (with_register regs.now.general rsp (wrapped (slice_index regs.now.general rsp + 8 + more)))
        true (cut 64 popped) 0 }
{
    let top = regs.general[RSP as usize]
        .wrapping_add(8)
        .wrapping_add(more);
    branched(
        regs,
        next,
        with_register(&regs.general, RSP, top),
        true,
        popped,
        0,
    )
}

/// LOOP, LOOPE, LOOPNE and JRCXZ, over a displacement.
///
/// Fails with #GP where the target of a branch that is taken isn't canonical.
pub(crate) fn count_down(op: Op, displacement: u64, next: u64, regs: &Regs) -> Result<Change, Fault>
    ensures { result ≡ branched regs.now next (count_after op regs.now.general)
        (is_taken_by_count op (slice_index (count_after op regs.now.general) rcx) (bit regs.now.flags zero_flag))
        (wrapped (next + displacement)) 0 }
{
    let count = count_by(op, &regs.general);
    let taken = count_taken(op, count, bit(regs.flags, ZF));
    let mut counted = *regs;
    set_count(op, count, &mut counted);
    branched(
        regs,
        next,
        counted.general,
        taken,
        next.wrapping_add(displacement),
        0,
    )
}

/// Goes on at the target where the branch is taken, and else at the next instruction. `value` is what a call pushes.
fn branched(
    regs: &Regs,
    next: u64,
    general: [u64; 16],
    taken: bool,
    target: u64,
    value: u64,
) -> Result<Change, Fault>
    ensures { result ≡ branched regs.now next general taken target value }
{
    if !taken {
        return Ok(quiet(regs, general, next, value));
    }
    if !canonical(target) {
        return Err(Fault::General(0));
    }
    Ok(quiet(regs, general, target, value))
}

fn quiet(regs: &Regs, general: [u64; 16], rip: u64, value: u64) -> Change
    ensures { Ok result ≡ change (going_on regs.now general regs.now.flags rip) value Act.Quiet }
{
    Change {
        regs: going_on(regs, general, regs.flags, rip),
        value,
        act: Act::Quiet,
    }
}

/// The target of a branch whose operand holds `from`: a displacement, or the address itself.
fn target_by(place: &Place, next: u64, from: u64) -> u64
    ensures { result ≡ target_by place.now next from }
{
    match place {
        Place::Value => next.wrapping_add(from),
        _ => from,
    }
}
