//! Calls through the gates: 18 turns from the call to the turn behind RET. The gates' flags and stack come back, and RAX
//! has the answer.

use super::HALTS;
use super::cases::{BEHIND, Case, Due, HOME, Wanted, wrong_case};
use super::programs::Program;
use nk_bits::GATE;

/// The call is the eighth turn, so INT3 is the 27th, and HLT the 38th. Rule 1 is that of a number that is no call, rule 2
/// that of a frame outside memory, 3 that of a level that no table has, 12 that of the root, which isn't removed, 14 that of
/// a frame that isn't a table of level 4, 15 that of a range or a size that no region has, 19 that of a region that doesn't
/// live, and 27 that of an address that isn't canonical.
#[rattlefmt::skip]
const CALLS: [Case; 14] = [
    (Program::Call(1, BEHIND), Due::Never, Wanted::Answered(0, BEHIND, 38)),
    (Program::Call(1, HALTS), Due::Never, Wanted::Answered(0, HALTS, 38)),
    (Program::Call(1, 0x8000_0000_0000), Due::Never, Wanted::Answered(27, HALTS, 38)),
    (Program::Call(0, BEHIND), Due::Never, Wanted::Answered(1, HALTS, 38)),
    (Program::Call(2, BEHIND), Due::Never, Wanted::Answered(3, HALTS, 38)),
    (Program::Call(3, BEHIND), Due::Never, Wanted::Answered(2, HALTS, 38)),
    (Program::Call(4, 5), Due::Never, Wanted::Answered(12, HALTS, 38)),
    (Program::Call(5, 3), Due::Never, Wanted::Answered(14, HALTS, 38)),
    (Program::Call(6, BEHIND), Due::Never, Wanted::Answered(15, HALTS, 38)),
    (Program::Call(7, BEHIND), Due::Never, Wanted::Answered(15, HALTS, 38)),
    (Program::Call(8, BEHIND), Due::Never, Wanted::Answered(19, HALTS, 38)),
    (Program::Call(9, BEHIND), Due::Never, Wanted::Answered(19, HALTS, 38)),
    (Program::Call(10, BEHIND), Due::Never, Wanted::Answered(1, HALTS, 38)),
    (Program::Call(0x8000_0000_0000_0001, BEHIND), Due::Never, Wanted::Answered(1, HALTS, 38)),
];

#[test]
fn calls_and_the_trap_behind_them(rt: HostRuntime) {
    assert_eq!(rt; wrong_case(rt.alloc(), 60, &CALLS), None);
}

/// An interrupt between any two instructions. IF is clear from the gate's CLI to its POPFQ; delivery, trap gate and handler
/// are 13 turns. The halted machine is woken, and halts again.
#[rattlefmt::skip]
const DUE: [Case; 10] = [
    (Program::Twice, Due::Each(8, 23), Wanted::Resumed(GATE + 54, 58)),
    (Program::Twice, Due::After(24), Wanted::Resumed(HOME + 0x26, 58)),
    (Program::Twice, Due::After(25), Wanted::Resumed(HOME + 0x28, 58)),
    (Program::Twice, Due::After(26), Wanted::Resumed(GATE, 58)),
    (Program::Twice, Due::After(27), Wanted::Resumed(GATE + 1, 58)),
    (Program::Twice, Due::Each(28, 43), Wanted::Resumed(GATE + 54, 58)),
    (Program::Twice, Due::After(44), Wanted::Resumed(HOME + 0x2A, 58)),
    (Program::Twice, Due::After(45), Wanted::Resumed(HOME + 0x2B, 60)),
    (Program::Twice, Due::After(46), Wanted::Resumed(HOME + 0x2B, 60)),
    (Program::Twice, Due::After(999), Wanted::Resumed(HOME + 0x2B, 60)),
];

/// Before the handler is named an interrupt halts the machine.
#[rattlefmt::skip]
const EARLY: [Case; 6] = [
    (Program::Twice, Due::After(0), Wanted::Interrupted(HOME + 0x10, 15)),
    (Program::Twice, Due::After(3), Wanted::Interrupted(HOME + 0x10, 15)),
    (Program::Twice, Due::After(4), Wanted::Interrupted(HOME + 0x1A, 16)),
    (Program::Twice, Due::After(5), Wanted::Interrupted(HOME + 0x24, 17)),
    (Program::Twice, Due::After(6), Wanted::Interrupted(GATE, 18)),
    (Program::Twice, Due::After(7), Wanted::Interrupted(GATE + 1, 19)),
];

#[test]
fn an_interrupt_before_and_behind_the_call_that_names_its_handler(rt: HostRuntime) {
    assert_eq!(rt; wrong_case(rt.alloc(), 90, &EARLY), None);
    assert_eq!(rt; wrong_case(rt.alloc(), 90, &DUE), None);
}

/// An event takes no turn.
#[test]
fn bytes_and_events_are_shown(rt: HostRuntime) {
    let shown = [(
        Program::Console,
        Due::DropAndFill,
        Wanted::Console(0x41, 2, 3),
    )];
    assert_eq!(rt; wrong_case(rt.alloc(), 20, &shown), None);
}
