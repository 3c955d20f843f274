//! The string instructions, one turn of each.

ghost use Rattle.std.specs.Prelude.{◌≡◌, ◌<◌, Ok, true, false};
ghost use Rattle.decode_fields.specs.Widths.{IsWidth};
ghost use Rattle.x86_decode.specs.WellFormed.{IsWellFormed};
ghost use Rattle.x86_alu.specs.SignedNumbers.{bit, cut};
ghost use Rattle.x86_alu.specs.Flags.{zero_flag};
ghost use Rattle.x86_alu.specs.Sums.{difference_flags};
ghost use Rattle.x86_regs.specs.Registers.{held, written};
ghost use Rattle.x86_regs.specs.OperandPlans.{is_idle};
ghost use Rattle.x86_regs.specs.OperandOutcomes.{counted, is_again, is_asked, pointer_moved, string_turn, unless_idle_turn};

use crate::changes::quietly;
use decode_fields::Place;
use x86_alu::ZF;
use x86_decode::Instr;
use x86_regs::{
    Act, Change, DF, RAX, RCX, RDI, RSI, Regs, bit, difference, going_on, held, is_asked,
    is_repeated, low, lowered, with_register, written,
};

/// A repeated instruction whose count is 0 does nothing.
pub(crate) fn is_idle(instr: &Instr, regs: &Regs) -> bool
    ensures { result ≡ is_idle instr.now regs.now }
{
    is_repeated(instr.rep) & (regs.general[RCX as usize] == 0)
}

/// The registers with a pointer moved by an operand of `width` bits, down where DF is set.
fn pointer_moved(regs: &Regs, width: u8, number: u8, general: &[u64; 16]) -> [u64; 16]
    requires width { IsWidth width }
    requires number { number < 16 }
    ensures { result ≡ pointer_moved regs.now width number general.now }
{
    let at = general[number as usize];
    let step = u64::from(width / 8);
    let moved = if bit(regs.flags, DF) {
        lowered(at, step)
    } else {
        at.wrapping_add(step)
    };
    with_register(general, number, moved)
}

fn counted(instr: &Instr, general: &[u64; 16]) -> [u64; 16]
    ensures { result ≡ counted instr.now general.now }
{
    if is_repeated(instr.rep) {
        with_register(general, RCX, lowered(general[RCX as usize], 1))
    } else {
        *general
    }
}

fn is_again(instr: &Instr, general: &[u64; 16], asked: bool) -> bool
    ensures { result ≡ is_again instr.now general.now asked }
{
    is_repeated(instr.rep) & (general[RCX as usize] != 0) & asked
}

/// One turn, or none where the count is 0.
fn turn(
    instr: &Instr,
    regs: &Regs,
    next: u64,
    general: &[u64; 16],
    flags: u64,
    asked: bool,
    value: u64,
) -> Change
    ensures { Ok result ≡ unless_idle_turn instr.now regs.now next
        (string_turn instr.now regs.now next general.now flags asked value) }
{
    if is_idle(instr, regs) {
        return quietly(going_on(regs, regs.general, regs.flags, next));
    }
    let after = counted(instr, general);
    let rip = if is_again(instr, &after, asked) {
        regs.rip
    } else {
        next
    };
    Change {
        regs: going_on(regs, after, flags, rip),
        value,
        act: Act::Quiet,
    }
}

/// The registers with both pointers moved.
fn both_moved(regs: &Regs, width: u8) -> [u64; 16]
    requires { IsWidth width }
    ensures { result ≡ pointer_moved regs.now width 7 (pointer_moved regs.now width 6 regs.now.general) }
{
    let general = pointer_moved(regs, width, RSI, &regs.general);
    pointer_moved(regs, width, RDI, &general)
}

/// MOVS.
pub(crate) fn move_string(instr: &Instr, next: u64, regs: &Regs, from: u64) -> Change
    requires { IsWellFormed instr.now }
    ensures { Ok result ≡ unless_idle_turn instr.now regs.now next (string_turn instr.now regs.now next
        (pointer_moved regs.now instr.now.width 7 (pointer_moved regs.now instr.now.width 6 regs.now.general))
        regs.now.flags true (cut instr.now.width from)) }
{
    let general = both_moved(regs, instr.width);
    turn(
        instr,
        regs,
        next,
        &general,
        regs.flags,
        true,
        low(instr.width, from),
    )
}

/// STOS.
pub(crate) fn store_string(instr: &Instr, next: u64, regs: &Regs) -> Change
    requires { IsWellFormed instr.now }
    ensures { Ok result ≡ unless_idle_turn instr.now regs.now next (string_turn instr.now regs.now next
        (pointer_moved regs.now instr.now.width 7 regs.now.general) regs.now.flags true
        (held regs.now.general (Place.Reg 0) instr.now.width)) }
{
    let general = pointer_moved(regs, instr.width, RDI, &regs.general);
    let value = held(&regs.general, &Place::Reg(RAX), instr.width);
    turn(instr, regs, next, &general, regs.flags, true, value)
}

/// LODS.
pub(crate) fn load_string(instr: &Instr, next: u64, regs: &Regs, from: u64) -> Change
    requires { IsWellFormed instr.now }
    ensures { Ok result ≡ unless_idle_turn instr.now regs.now next (string_turn instr.now regs.now next
        (written (pointer_moved regs.now instr.now.width 6 regs.now.general) (Place.Reg 0) instr.now.width
        (cut instr.now.width from)) regs.now.flags true 0) }
{
    let general = pointer_moved(regs, instr.width, RSI, &regs.general);
    let general = written(
        &general,
        &Place::Reg(RAX),
        instr.width,
        low(instr.width, from),
    );
    turn(instr, regs, next, &general, regs.flags, true, 0)
}

/// CMPS.
pub(crate) fn compare_strings(instr: &Instr, next: u64, regs: &Regs, to: u64, from: u64) -> Change
    requires { IsWellFormed instr.now }
    ensures { let flags = difference_flags instr.now.width
        (cut instr.now.width to) (cut instr.now.width from) false regs.now.flags in
        Ok result ≡ unless_idle_turn instr.now regs.now next (string_turn instr.now regs.now next
        (pointer_moved regs.now instr.now.width 7 (pointer_moved regs.now instr.now.width 6 regs.now.general))
        flags (is_asked instr.now.rep (bit flags zero_flag)) 0) }
{
    let flags = difference(instr.width, to, from, false, regs.flags).flags;
    let general = both_moved(regs, instr.width);
    turn(
        instr,
        regs,
        next,
        &general,
        flags,
        is_asked(instr.rep, bit(flags, ZF)),
        0,
    )
}

/// SCAS.
pub(crate) fn scan_string(instr: &Instr, next: u64, regs: &Regs, from: u64) -> Change
    requires { IsWellFormed instr.now }
    ensures { let flags = difference_flags instr.now.width
        (held regs.now.general (Place.Reg 0) instr.now.width) (cut instr.now.width from) false regs.now.flags in
        Ok result ≡ unless_idle_turn instr.now regs.now next (string_turn instr.now regs.now next
        (pointer_moved regs.now instr.now.width 7 regs.now.general)
        flags (is_asked instr.now.rep (bit flags zero_flag)) 0) }
{
    let flags = difference(
        instr.width,
        regs.general[RAX as usize],
        from,
        false,
        regs.flags,
    )
    .flags;
    let general = pointer_moved(regs, instr.width, RDI, &regs.general);
    turn(
        instr,
        regs,
        next,
        &general,
        flags,
        is_asked(instr.rep, bit(flags, ZF)),
        0,
    )
}
