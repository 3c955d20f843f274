//! Runs as rows of tables: a program, the interrupt that comes into it, and what the run shows and leaves.

use super::programs::{CONSOLE, Program, TO_USER, TWICE, UNDEFINED, call, jump, with_stack, write};
use super::{HALTS, Ran, interrupt, run};
use gate_state::{Called, Took};
use nk_bits::{Answer, CallWords, Delivery, GATE};
use std::alloc::Global;
use test_kit::first_wrong;

/// The image's first address: one page is mapped from there on, and none behind it.
pub(super) const HOME: u64 = 0xFFFF_FFFF_8000_0000;

/// The top of the first free frame, 71, in the direct map.
const STACK: u64 = 0xFFFF_8000_0004_8000;

/// Where the INT3 behind a call returns to.
pub(super) const BEHIND: u64 = HOME + 0x3B;

/// The handler that the program of two calls names.
const HANDLER: u64 = HOME + 0x2D;

/// When interrupt 33 is due: after so many turns, or from so many to so many, in a run for each.
#[derive(Clone, Copy)]
pub(super) enum Due {
    Never,
    After(u32),
    Each(u32, u32),
    /// No interrupt, but translations are dropped at once, and after two turns those of page FFFF800000047000 are filled.
    DropAndFill,
}

/// What a run shows and leaves. The turns in all stand last.
#[derive(Clone, Copy)]
pub(super) enum Wanted {
    /// The machine rests in the halt loop of the handler at the opening, and with WP clear it always stood at a gate point;
    /// nothing was delivered.
    Halted(u64),
    /// The same, behind a first delivery, a page fault: its code, RIP and its address.
    PageFault(u64, u64, u64, u64),
    /// The same behind another fault or a trap: its vector, code and RIP.
    Fault(u8, Option<u64>, u64, u64),
    /// The same behind the interrupt, which came at this address.
    Interrupted(u64, u64),
    /// The call was answered by this number, and INT3 led to this handler, at whose HLT the machine rests.
    Answered(u64, u64, u64),
    /// The interrupt came at this address, and the handler of `TWICE` led back there: the machine rests behind HLT, with
    /// the answer 1.
    Resumed(u64, u64),
    /// The last byte that went to the console, and how many events were taken.
    Console(u8, u32, u64),
    /// Call 7 was answered by this identifier and place.
    Allocated(u64, u64, u64),
    /// Call 9 took these bytes or none, and was answered by this number.
    Written(Took, [u8; 4], u64, u64),
    /// How many turns are left in the first states with WP clear.
    Lefts([u8; 12]),
    /// The numbers at the top of the trap stack.
    Pushed([u64; 5]),
}

pub(super) type Case = (Program, Due, Wanted);

/// So many steps of a program under a plan.
fn ran(alloc: Global, program: &Program, plan: &[u8], steps: u32) -> Option<Ran> {
    match program {
        Program::Call(number, a) => run(alloc, &call(*number, *a), plan, steps),
        Program::Jump(sets_if, offset, rax) => {
            run(alloc, &jump(*sets_if, *offset, *rax), plan, steps)
        }
        Program::Twice => run(alloc, &TWICE, plan, steps),
        Program::Stack(rsp) => run(alloc, &with_stack(*rsp), plan, steps),
        Program::Write(source) => run(alloc, &write(*source), plan, steps),
        Program::ToUser => run(alloc, &TO_USER, plan, steps),
        Program::Console => run(alloc, &CONSOLE, plan, steps),
        Program::Undefined => run(alloc, &UNDEFINED, plan, steps),
    }
}

/// The call of a program: call 9 where it writes.
fn words(program: &Program) -> Option<CallWords> {
    let (number, a, b, c, d) = match program {
        Program::Call(number, a) => (*number, *a, 2, 3, 4),
        Program::Write(source) => (9, 256, 0, *source, 4),
        _ => return None,
    };
    Some(CallWords { number, a, b, c, d })
}

/// Whether the last call was this one, and was answered by a number alone.
fn is_called(ran: &Ran, program: &Program, source: Took, value: u64) -> bool {
    match (ran.log.called, words(program)) {
        (Some(called), Some(call)) => {
            called.call == call
                && called.source == source
                && called.answer
                    == Answer {
                        value,
                        place: None,
                        flush: false,
                    }
                && ran.regs.general[0] == value
        }
        _ => false,
    }
}

/// Whether the machine rests in the halt loop, behind this first delivery.
fn is_halted(ran: &Ran, first: Option<Delivery>, turns: u64) -> bool {
    ran.log.stood
        && ran.regs.rip == GATE + 475
        && ran.trap == [HALTS, HALTS]
        && ran.log.delivered[0] == first
        && ran.turns == turns
}

/// Whether the machine rests at the HLT of a handler that INT3 led to.
fn is_trapped(ran: &Ran, handler: u64, turns: u64) -> bool {
    ran.log.delivered[1] == Some(delivery(3, None, BEHIND, None))
        && ran.trap == [handler, handler]
        && ran.regs.rip == handler.wrapping_add(1)
        && ran.turns == turns
}

/// Whether the machine rests behind the HLT of `TWICE`, and the last delivery came at this address.
fn is_resumed(ran: &Ran, rip: u64, turns: u64) -> bool {
    ran.log.delivered[1] == Some(delivery(33, None, rip, None))
        && ran.log.stood
        && ran.regs.general[0] == 1
        && ran.regs.general[4] == STACK
        && ran.regs.rip == HOME + 0x2B
        && ran.trap == [HANDLER, HANDLER]
        && ran.turns == turns
}

/// Whether call 7 was the last call, and was answered so.
fn is_allocated(ran: &Ran, value: u64, place: u64, turns: u64) -> bool {
    let called = Called {
        call: CallWords {
            number: 7,
            a: 4,
            b: 1,
            c: 0,
            d: 0,
        },
        source: Took::NotTaken,
        answer: Answer {
            value,
            place: Some(place),
            flush: false,
        },
    };
    ran.log.called == Some(called)
        && ran.log.read == [0; 4]
        && ran.regs.general[0] == value
        && ran.regs.general[2] == place
        && ran.turns == turns
}

fn delivery(vector: u8, code: Option<u64>, rip: u64, cr2: Option<u64>) -> Delivery {
    Delivery {
        vector,
        code,
        rip,
        cr2,
    }
}

/// Whether a run of a program is as it is to be.
fn is_as(ran: &Ran, program: &Program, wanted: &Wanted) -> bool {
    match wanted {
        Wanted::Halted(turns) => is_halted(ran, None, *turns),
        Wanted::PageFault(code, rip, address, turns) => {
            let fault = delivery(14, Some(*code), *rip, Some(*address));
            is_halted(ran, Some(fault), *turns)
        }
        Wanted::Fault(vector, code, rip, turns) => {
            is_halted(ran, Some(delivery(*vector, *code, *rip, None)), *turns)
        }
        Wanted::Interrupted(rip, turns) => {
            is_halted(ran, Some(delivery(33, None, *rip, None)), *turns)
        }
        Wanted::Answered(value, handler, turns) => {
            is_called(ran, program, Took::NotTaken, *value) && is_trapped(ran, *handler, *turns)
        }
        Wanted::Resumed(rip, turns) => is_resumed(ran, *rip, *turns),
        Wanted::Console(byte, events, turns) => {
            ran.log.console == Some(*byte) && ran.log.events == *events && ran.turns == *turns
        }
        Wanted::Allocated(value, place, turns) => is_allocated(ran, *value, *place, *turns),
        Wanted::Written(source, read, value, turns) => {
            is_called(ran, program, *source, *value)
                && ran.log.read == *read
                && ran.regs.general[2] == 0
                && ran.turns == *turns
        }
        Wanted::Lefts(lefts) => ran.log.lefts == *lefts,
        Wanted::Pushed(frame) => ran.frame == *frame,
    }
}

/// Whether a run under a plan is as it is to be.
fn shows(alloc: Global, case: &Case, plan: &[u8], steps: u32) -> bool {
    let (program, _, wanted) = case;
    match ran(alloc, program, plan, steps) {
        Some(ran) => is_as(&ran, program, wanted),
        None => false,
    }
}

/// Whether it is for each interrupt that is due from so many to so many turns.
fn shows_each(alloc: Global, case: &Case, turns: (u32, u32), steps: u32) -> bool {
    for due in turns.0..=turns.1 {
        if !shows(alloc, case, &interrupt(due, b'3'), steps) {
            return false;
        }
    }
    true
}

/// Whether a run of so many steps is as it is to be.
fn is_so(alloc: Global, case: &Case, steps: u32) -> bool {
    match case.1 {
        Due::Never => shows(alloc, case, b"", steps),
        Due::After(due) => shows_each(alloc, case, (due, due), steps),
        Due::DropAndFill => shows(alloc, case, b"0 drop 0\n2 fill ffff800000047000\n", steps),
        Due::Each(first, last) => shows_each(alloc, case, (first, last), steps),
    }
}

/// The place of the first run of so many steps that isn't as it is to be.
pub(super) fn wrong_case(alloc: Global, steps: u32, cases: &[Case]) -> Option<usize> {
    first_wrong(cases, |case| is_so(alloc, case, steps))
}
