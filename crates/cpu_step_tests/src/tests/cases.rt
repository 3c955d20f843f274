//! Cases: what is done to a processor and its memory, step by step, and what must be found.

ghost use Rattle.std.specs.Prelude.{◌≡◌, true, length};
ghost use Rattle.cpu_step.specs.Processor.{IsSound};
ghost use Rattle.irq_plan.specs.PlannedEvents.{IsPlannable, is_page_address};

use super::after::{After, Change, Leaves, Start, begun, changed, left, set};
use super::machine::{cpu, holds_run, left_by, memory, next, put, store_run};
use cpu_step::Cpu;
use irq_plan::What;
use nk_bits::{Leaf, Rights, Upper, canonical};
use phys_mem::PhysMem;
use std::alloc::Global;
use test_kit::first_wrong;
use x86_regs::RSP;

/// One turn: where it begins, the code from addresses 0 and 6000 on, and what the turn leaves.
pub(super) type Row = (Start, &'static [u8], Leaves);

/// What is done, or what must be found.
pub(super) enum Step {
    /// A case begins, as a row does.
    Begins(Start, &'static [u8]),
    /// Up to sixteen bytes of code are put at a place in memory, and zeros behind them.
    Put(u64, &'static [u8]),
    /// One byte is stored.
    Byte(u64, u8),
    /// Numbers of eight bytes are stored, one behind the other.
    Store(u64, &'static [u64]),
    /// An event of a plan is taken.
    Takes(What),
    /// The nested kernel's body sets a general register, RIP or the root, and all else stays.
    Sets(Change),
    /// A turn is made, and leaves this.
    Turn(Leaves),
    /// At most so many quick turns are asked for, so many are made, and these changed.
    Quick(u64, u64, &'static [Change]),
    /// No turn is to be made: the body is to run, or the processor is halted and no interrupt wakes it.
    Rests,
    /// The body is to run.
    Body,
    /// The vectors that wait.
    Pending(u16),
    /// The vector that is due.
    Due(Option<u8>),
    /// Numbers of eight bytes stand in memory, one behind the other.
    Holds(u64, &'static [u64]),
    /// What is kept of the page of this number.
    Looks(u64, Option<Leaf>),
    /// The frame that is kept for a level and a page, with all rights.
    Kept(u8, u64, Option<u32>),
}

/// The index of the first row whose turn leaves something else.
pub(super) fn wrong_row(alloc: Global, rows: &[Row]) -> Option<usize> {
    first_wrong(
        rows,
        |(start, code, leaves)| is_turn_right(alloc, start, code, leaves),
    )
}

/// The index of the first code of which a turn from one place leaves something else.
pub(super) fn wrong_code(
    alloc: Global,
    start: &Start,
    leaves: &Leaves,
    codes: &[&[u8]],
) -> Option<usize> {
    first_wrong(codes, |code| is_turn_right(alloc, start, code, leaves))
}

/// The index of the first code at the user's address 6008 of which the turn behind an IRETQ to there leaves something else.
pub(super) fn wrong_code_behind_iretq(
    alloc: Global,
    leaves: &Leaves,
    codes: &[&[u8]],
) -> Option<usize> {
    first_wrong(
        codes,
        |code| is_turn_right_behind_iretq(alloc, code, leaves),
    )
}

/// Whether an IRETQ of the supervisor goes to the code at the user's address 6008, and the turn there leaves this.
fn is_turn_right_behind_iretq(alloc: Global, code: &[u8], leaves: &Leaves) -> bool {
    let mut now = begun(&Start::Supervisor);
    let Ok(mut mem) = memory(alloc) else {
        return false;
    };
    put(&mut mem, 0x8000, b"\x48\xCF");
    put(&mut mem, 0x8008, code);
    store_run(&mut mem, 0x9800, &[0x6008, 0x1B, 0x202, 0x7900, 0x23]);
    let Ok(mut cpu) = cpu(alloc, &now) else {
        return false;
    };
    let entered = Leaves::Changed(
        0x6008,
        &[
            Change::Register(RSP, 0x7900),
            Change::Flags(0x202),
            Change::Cpl(3),
            Change::Ss(0x23),
        ],
    );
    if !turns(&mut cpu, &mut mem, &mut now, &entered) {
        return false;
    }
    turns(&mut cpu, &mut mem, &mut now, leaves)
}

/// Whether a turn leaves this; not for want of memory.
fn is_turn_right(alloc: Global, start: &Start, code: &[u8], leaves: &Leaves) -> bool {
    let mut now = begun(start);
    let Ok(mut mem) = memory(alloc) else {
        return false;
    };
    put(&mut mem, 0x8000, code);
    match cpu(alloc, &now) {
        Ok(mut cpu) => turns(&mut cpu, &mut mem, &mut now, leaves),
        Err(_) => false,
    }
}

/// The index of the first step where something else is found; 0 where no case begins.
pub(super) fn first_failing(alloc: Global, steps: &[Step]) -> Option<usize> {
    let Some(Step::Begins(..)) = steps.first() else {
        return Some(0);
    };
    for (index, step) in steps.iter().enumerate() {
        if let Step::Begins(start, code) = step {
            let case = &steps[index + 1..];
            if let Some(behind) = first_failing_behind(alloc, begun(start), code, case) {
                return Some(index.saturating_add(behind));
            }
        }
    }
    None
}

/// The number of the first step of a case, from 1 on, where something else is found; 0 for want of memory.
fn first_failing_behind(alloc: Global, start: After, code: &[u8], steps: &[Step]) -> Option<usize> {
    let Ok(mut mem) = memory(alloc) else {
        return Some(0);
    };
    put(&mut mem, 0x8000, code);
    match cpu(alloc, &start) {
        Ok(mut cpu) => first_failing_of(steps, &mut cpu, &mut mem, start),
        Err(_) => Some(0),
    }
}

/// The number of the first step, from 1 on, where something else is found before another case begins.
fn first_failing_of(steps: &[Step], cpu: &mut Cpu, mem: &mut PhysMem, start: After) -> Option<usize>
    requires sound { IsSound 40960 cpu.old }
    requires length { length mem.old ≡ 40960 }
{
    let mut now = start;
    for (index, step) in steps.iter().enumerate() {
        if let Step::Begins(..) = step {
            return None;
        }
        if !is_step_right(step, cpu, mem, &mut now) {
            return Some(index + 1);
        }
    }
    None
}

/// Makes a step, and says whether what is wanted `now` is found.
fn is_step_right(step: &Step, cpu: &mut Cpu, mem: &mut PhysMem, now: &mut After) -> bool
    requires sound { IsSound 40960 cpu.old }
    requires length { length mem.old ≡ 40960 }
    ensures sound { IsSound 40960 cpu.new }
    ensures length { length mem.new ≡ 40960 }
{
    match step {
        Step::Put(place, bytes) => put(mem, *place, bytes),
        Step::Byte(at, byte) => {
            if *at > 40959 {
                return false;
            }
            mem.store8(*at, *byte);
        }
        Step::Store(at, words) => store_run(mem, *at, words),
        Step::Takes(what) => return takes(cpu, mem, *what),
        Step::Sets(change) => return sets(cpu, mem, now, change),
        Step::Turn(leaves) => return turns(cpu, mem, now, leaves),
        Step::Quick(most, count, changes) => {
            return turns_quickly(cpu, mem, now, *most, *count, changes);
        }
        Step::Rests => return next(cpu, mem).is_none(),
        _ => return is_found(step, cpu, mem),
    }
    true
}

/// Whether a step finds what it names.
fn is_found(step: &Step, cpu: &Cpu, mem: &PhysMem) -> bool
    requires { length mem.now ≡ 40960 }
{
    match step {
        Step::Body => cpu.enters_body(),
        Step::Pending(vectors) => cpu.pending() == *vectors,
        Step::Due(vector) => cpu.deliverable() == *vector,
        Step::Holds(at, words) => holds_run(mem, *at, words),
        Step::Looks(page, leaf) => cpu.tlb().look(*page) == *leaf,
        Step::Kept(level, page, frame) => {
            *level >= 2 && *level <= 4 && cpu.tlb().kept(*level, *page) == frame.map(all_rights)
        }
        _ => false,
    }
}

/// What an upper entry names whose frame is this one, with all rights.
fn all_rights(frame: u32) -> Upper {
    Upper {
        frame,
        rights: Rights {
            can_write: true,
            user: true,
            exec: true,
        },
    }
}

/// Takes an event that a plan may name.
fn takes(cpu: &mut Cpu, mem: &PhysMem, what: What) -> bool
    requires sound { IsSound 40960 cpu.old }
    requires length { length mem.now ≡ 40960 }
    ensures sound { IsSound 40960 cpu.new }
{
    let may = is_plannable(&what);
    if may {
        cpu.take_event(mem, what);
    }
    may
}

fn is_plannable(what: &What) -> bool
    ensures { result ≡ true → IsPlannable what.now }
{
    match *what {
        What::Irq(vector) => vector >= 32 && vector <= 47,
        What::Drop(page) | What::Fill(page) => is_page(page),
        What::Keep(level, page) | What::Forget(level, page) => {
            level >= 2 && level <= 4 && is_page(page)
        }
    }
}

fn is_page(address: u64) -> bool
    ensures { result ≡ is_page_address address }
{
    canonical(address) && address % 4096 == 0
}

/// Sets what the body may set, and says whether that alone is changed.
fn sets(cpu: &mut Cpu, mem: &PhysMem, now: &mut After, change: &Change) -> bool
    requires sound { IsSound 40960 cpu.old }
    requires length { length mem.now ≡ 40960 }
    ensures sound { IsSound 40960 cpu.new }
{
    match *change {
        Change::Register(number, value) if number < 16 => cpu.set_reg(number, value),
        Change::Rip(rip) => cpu.set_rip(rip),
        Change::Root(root) if root < 10 => cpu.set_root(root),
        _ => return false,
    }
    set(now, change);
    left_by(now.stepped, cpu, mem) == *now
}

/// Makes a turn, and says whether it leaves this.
fn turns(cpu: &mut Cpu, mem: &mut PhysMem, now: &mut After, leaves: &Leaves) -> bool
    requires sound { IsSound 40960 cpu.old }
    requires length { length mem.old ≡ 40960 }
    ensures sound { IsSound 40960 cpu.new }
    ensures length { length mem.new ≡ 40960 }
{
    *now = left(now, leaves);
    match next(cpu, mem) {
        Some(stepped) => left_by(stepped, cpu, mem) == *now,
        None => false,
    }
}

/// Makes quick turns, and says whether they are so many and change this alone.
fn turns_quickly(
    cpu: &mut Cpu,
    mem: &mut PhysMem,
    now: &mut After,
    most: u64,
    count: u64,
    changes: &[Change],
) -> bool
    requires sound { IsSound 40960 cpu.old }
    requires length { length mem.old ≡ 40960 }
    ensures sound { IsSound 40960 cpu.new }
    ensures length { length mem.new ≡ 40960 }
{
    *now = changed(now, changes);
    cpu.quick_turns(mem, most) == count && left_by(now.stepped, cpu, mem) == *now
}
