//! Steps over a memory and its translations, one after the other, each with what it is to give.

ghost use Rattle.std.specs.Prelude.{◌≡◌, ◌*◌, ◌<◌, length};
ghost use Rattle.nk_bits.specs.Accesses.{IsAccessSize};
ghost use Rattle.nk_bits.specs.Translations.{NamesFramesIn};

use super::changes::{Change, is_changed};
use super::plan::{Operand, Plan, is_checked, is_gathered};
use super::window::{Question, are_answered};
use super::{ALL, WITHOUT_WP, check_store, commit, fetch_byte, load, memory, store};
use mem_access::{AccessFault, Gathered, SpanFault, Target, kept_number, page_bytes};
use memory_kit::CONTROL;
use nk_bits::Control;
use phys_mem::PhysMem;
use std::alloc::Global;
use test_kit::first_wrong;
use tlb_model::Tlb;

/// The bytes of an access.
#[derive(Clone, Copy)]
pub enum Width {
    One,
    Two,
    Four,
    Eight,
}

/// What is done, and what it is to give. An access names its CPL, its address and its width.
#[derive(Clone, Copy)]
pub enum Step {
    /// A read of data.
    Load(u8, u64, Width, Result<u64, AccessFault>),
    /// A write of a number's low bytes.
    Store(u8, u64, Width, u64, Result<(), AccessFault>),
    /// The check of a write, which finds its places.
    Check(u8, u64, Width, Result<Target, AccessFault>),
    /// A check that finds these places, and the write of a number's low bytes to them.
    Commit(u8, u64, Width, u64, Target),
    /// Writes of a width over the end of page 0, where WP is set or not: page 1 refuses so many
    /// with this code.
    Refuse(u8, Width, bool, u64, u8),
    /// The fetch of an instruction's byte.
    Fetch(u8, u64, Result<u8, AccessFault>),
    /// The bytes of an instruction's first page.
    Lend(u8, u64, Result<&'static [u8], AccessFault>),
    /// The accesses of a plan but its last check.
    Gather(u8, Plan, Result<Gathered, SpanFault>),
    /// The check of a plan's write.
    CheckSpan(u8, Operand, Result<Option<Target>, SpanFault>),
    /// Questions to a new window, one after the other.
    Ask(&'static [Question]),
    /// What memory holds at a place.
    Holds(u64, u64),
    /// The number of a width at a place that was found kept.
    HoldsKept(u64, Width, u64),
    /// Whether a page's translation is kept.
    Keeps(u64, bool),
    /// Something else is changed.
    Set(Change),
}

impl Width {
    pub fn bytes(self) -> u8
        ensures { IsAccessSize result }
    {
        match self {
            Width::One => 1,
            Width::Two => 2,
            Width::Four => 4,
            Width::Eight => 8,
        }
    }
}

/// A memory of sixteen frames, and the translations that are kept of it.
#[derive(Drop)]
struct Small {
    mem: PhysMem,
    tlb: Tlb,
    ghost sized: { length mem ≡ 65536 },
    ghost frames: { NamesFramesIn 65536 tlb },
}

impl Small {
    fn is_met(&mut self, step: &Step) -> bool {
        is_met(&mut self.mem, &mut self.tlb, step)
    }
}

/// The index of the first step that gives something else. Want of memory fails at 0.
pub fn wrong_step(alloc: Global, steps: &[Step]) -> Option<usize> {
    let Ok(mem) = memory(alloc) else {
        return Some(0);
    };
    let Ok(tlb) = Tlb::new(alloc) else {
        return Some(0);
    };
    let mut small = Small { mem, tlb };
    first_wrong(steps, |step| small.is_met(step))
}

/// Whether a step gives what it is to give.
fn is_met(mem: &mut PhysMem, tlb: &mut Tlb, step: &Step) -> bool
    requires length { length mem.old ≡ 65536 }
    requires frames { NamesFramesIn (length mem.old) tlb.old }
    ensures length { length mem.new ≡ 65536 }
    ensures frames { NamesFramesIn (length mem.new) tlb.new }
{
    match *step {
        Step::Load(cpl, va, width, found) => {
            load(mem, tlb, &CONTROL, cpl, va, width.bytes()) == found
        }
        Step::Store(cpl, va, width, value, found) => {
            store(mem, tlb, &CONTROL, cpl, va, width.bytes(), value) == found
        }
        Step::Check(cpl, va, width, found) => {
            check_store(mem, tlb, &CONTROL, cpl, va, width.bytes()) == found
        }
        Step::Commit(cpl, va, width, value, places) => {
            is_committed(mem, tlb, cpl, va, width, value, places)
        }
        Step::Refuse(cpl, width, wp, code, count) => {
            let control = if wp { CONTROL } else { WITHOUT_WP };
            refusals(mem, tlb, &control, cpl, width.bytes(), code) == count
        }
        Step::Fetch(cpl, va, found) => fetch_byte(mem, tlb, &CONTROL, cpl, va) == found,
        Step::Lend(cpl, va, found) => is_lent(mem, tlb, cpl, va, found),
        Step::Gather(cpl, plan, found) => is_gathered(mem, tlb, cpl, &plan, found),
        Step::CheckSpan(cpl, operand, found) => is_checked(mem, tlb, cpl, operand, found),
        Step::Ask(questions) => are_answered(mem, tlb, &CONTROL, questions),
        Step::Holds(at, value) => at <= 0xFFF8 && mem.load64(at) == value,
        Step::HoldsKept(at, width, value) => {
            at <= 0xFFF8 && kept_number(mem, at, width.bytes()) == value
        }
        Step::Keeps(page, kept) => tlb.look(page).is_some() == kept,
        Step::Set(change) => is_changed(mem, tlb, change),
    }
}

/// Whether the check finds these places; then the write to them is made.
fn is_committed(
    mem: &mut PhysMem,
    tlb: &mut Tlb,
    cpl: u8,
    va: u64,
    width: Width,
    value: u64,
    places: Target,
) -> bool
    requires length { length mem.old ≡ 65536 }
    requires frames { NamesFramesIn (length mem.old) tlb.old }
    ensures length { length mem.new ≡ 65536 }
    ensures frames { NamesFramesIn (length mem.new) tlb.new }
{
    let width = width.bytes();
    let Ok(target) = check_store(mem, tlb, &CONTROL, cpl, va, width) else {
        return false;
    };
    commit(mem, &target, va, width, value);
    target == places
}

/// Whether the bytes of the first page from an address on are these.
fn is_lent(
    mem: &PhysMem,
    tlb: &mut Tlb,
    cpl: u8,
    va: u64,
    found: Result<&[u8], AccessFault>,
) -> bool
    requires length { length mem.now ≡ 65536 }
    requires frames { NamesFramesIn (length mem.now) tlb.old }
    ensures frames { NamesFramesIn (length mem.now) tlb.new }
{
    page_bytes(mem, tlb, &CONTROL, cpl, va) == found
}

/// How many stores of `width` bytes over the end of page 0 are refused with this code at page 1,
/// and write nothing.
fn refusals(
    mem: &mut PhysMem,
    tlb: &mut Tlb,
    control: &Control,
    cpl: u8,
    width: u8,
    code: u64,
) -> u8
    requires width { IsAccessSize width }
    requires length { length mem.old ≡ 65536 }
    requires root { 4096 * control.now.root < length mem.old }
    requires frames { NamesFramesIn (length mem.old) tlb.old }
    ensures length { length mem.new ≡ 65536 }
    ensures frames { NamesFramesIn (length mem.new) tlb.new }
{
    let refusal = Err(AccessFault::Page {
        code,
        address: 0x1000,
    });
    let mut count = 0;
    for part in 1..width {
        let va = 0x1000 - u64::from(part);
        let result = store(mem, tlb, control, cpl, va, width, u64::MAX);
        if result == refusal && mem.load64(0x8FF8) == 0 {
            count += 1;
        }
    }
    count
}

/// The second step's number, and the second answer of a window, are others.
#[test]
fn wrong_step_is_found(rt: HostRuntime) {
    let steps = &[
        Step::Holds(0x8000, 0),
        Step::Holds(0x8000, 1),
        Step::Holds(0x8000, 0),
    ];
    assert_eq!(rt; wrong_step(rt.alloc(), steps), Some(1));
    let steps = &[
        Step::Set(Change::Start(ALL, ALL)),
        Step::Load(3, 0, Width::One, Ok(0)),
        Step::Ask(&[
            Question::Readable(0, Width::One, Some(0x8000)),
            Question::Readable(1, Width::One, Some(0x8000)),
            Question::Readable(2, Width::One, Some(0x8002)),
        ]),
        Step::Holds(0x8000, 0),
    ];
    assert_eq!(rt; wrong_step(rt.alloc(), steps), Some(2));
}
