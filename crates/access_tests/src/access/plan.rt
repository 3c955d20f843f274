//! Plans over small memories, by the rules of SDM volume 3, 4.7: the first fault in the order of
//! the accesses counts. Page 0 may be written and page 1 may be read alone; no other page has a
//! translation.

ghost use Rattle.std.specs.Prelude.{◌≡◌, length};
ghost use Rattle.nk_bits.specs.Translations.{NamesFramesIn};
ghost use Rattle.page_walk.specs.AccessPlans.{IsSource, IsSized, IsAccessPlan};

use super::changes::Change::{Put, Start};
use super::steps::Step::{CheckSpan, Gather, Keeps, Set};
use super::steps::Width::{Eight, Four, One};
use super::steps::{Width, wrong_step};
use super::{ALL, READ_ONLY};
use mem_access::AccessFault::{NonCanonical, Page};
use mem_access::{AccessPlan, Gathered, Origin, Span, SpanFault, Target, check_span, gather};
use memory_kit::CONTROL;
use phys_mem::PhysMem;
use tlb_model::Tlb;

/// Where an operand stands.
#[derive(Clone, Copy)]
pub enum Operand {
    /// There is none.
    Nothing,
    /// It is at hand, and is this number.
    Is(u64),
    /// So many bytes in memory that aren't addressed by the stack.
    Data(u64, Width),
    /// So many bytes of the stack.
    Stack(u64, Width),
}

use Operand::{Data, Is, Nothing, Stack};

/// The operands of a plan, in the order of its accesses: both read and written, the first and the
/// second that are read, and the one that is written.
pub type Plan = [Operand; 4];

fn span(operand: Operand) -> Option<Span>
    ensures { IsSized result }
{
    match operand {
        Data(va, width) => Some(Span {
            va,
            width: width.bytes(),
            stack: false,
        }),
        Stack(va, width) => Some(Span {
            va,
            width: width.bytes(),
            stack: true,
        }),
        Is(_) | Nothing => None,
    }
}

fn origin(operand: Operand) -> Origin
    ensures { IsSource result }
{
    match span(operand) {
        Some(span) => Origin::At(span),
        None => match operand {
            Is(value) => Origin::Is(value),
            _ => Origin::Is(0),
        },
    }
}

fn access_plan(plan: &Plan) -> AccessPlan
    ensures { IsAccessPlan result }
{
    AccessPlan {
        both: span(plan[0]),
        to: origin(plan[1]),
        from: origin(plan[2]),
        last: span(plan[3]),
    }
}

/// Whether the accesses of a plan but the last check give this.
pub fn is_gathered(
    mem: &PhysMem,
    tlb: &mut Tlb,
    cpl: u8,
    plan: &Plan,
    found: Result<Gathered, SpanFault>,
) -> bool
    requires length { length mem.now ≡ 65536 }
    requires frames { NamesFramesIn (length mem.now) tlb.old }
    ensures frames { NamesFramesIn (length mem.now) tlb.new }
{
    gather(mem, tlb, &CONTROL, cpl, &access_plan(plan)) == found
}

/// Whether the last check of a plan gives this.
pub fn is_checked(
    mem: &PhysMem,
    tlb: &mut Tlb,
    cpl: u8,
    operand: Operand,
    found: Result<Option<Target>, SpanFault>,
) -> bool
    requires length { length mem.now ≡ 65536 }
    requires frames { NamesFramesIn (length mem.now) tlb.old }
    ensures frames { NamesFramesIn (length mem.now) tlb.new }
{
    check_span(mem, tlb, &CONTROL, cpl, span(operand)) == found
}

/// The last check of each plan would fault.
#[rattlefmt::skip]
#[test]
fn first_fault_in_order_counts(rt: HostRuntime) {
    let off = 0x8000_0000_0000;
    let last = Data(0x4000, One);
    let steps = &[
        Set(Start(ALL, READ_ONLY)),
        Set(Put(0x8010, 0x8877_6655_4433_2211)),
        Set(Put(0x9018, 5)),
        Gather(3, [Data(0x1008, Eight), Stack(0x2010, Eight), Data(0x3018, Eight), last],
            Err(SpanFault { fault: Page { code: 7, address: 0x1008 }, stack: false })),
        Gather(3, [Data(8, Eight), Stack(0x2010, Eight), Data(0x3018, Eight), last],
            Err(SpanFault { fault: Page { code: 4, address: 0x2010 }, stack: true })),
        Gather(3, [Data(8, Eight), Stack(0x10, Eight), Data(0x3018, Eight), last],
            Err(SpanFault { fault: Page { code: 4, address: 0x3018 }, stack: false })),
        Gather(3, [Data(8, Eight), Stack(0x10, Eight), Data(0x1018, Eight), last],
            Ok(Gathered { both: Some(Target { first: 0x8008, second: 0 }),
                to: 0x8877_6655_4433_2211, from: 5 })),
        CheckSpan(3, last,
            Err(SpanFault { fault: Page { code: 6, address: 0x4000 }, stack: false })),
        // A fault tells whether its access addressed the stack.
        Set(Start(ALL, READ_ONLY)),
        Gather(0, [Stack(off, Eight), Data(off, Eight), Data(off, Eight), last],
            Err(SpanFault { fault: NonCanonical, stack: true })),
        Gather(0, [Data(8, Eight), Stack(off, Eight), Data(off, Eight), last],
            Err(SpanFault { fault: NonCanonical, stack: true })),
        Gather(0, [Stack(8, Eight), Stack(8, Eight), Data(off, Eight), last],
            Err(SpanFault { fault: NonCanonical, stack: false })),
        Gather(0, [Stack(0x1000, Eight), Data(off, Eight), Data(off, Eight), last],
            Err(SpanFault { fault: Page { code: 3, address: 0x1000 }, stack: true })),
        // What isn't reached fills no translation, and the page that faults keeps none.
        Set(Start(ALL, READ_ONLY)),
        Gather(3, [Data(0x1000, Eight), Data(0, Eight), Data(0, Eight), last],
            Err(SpanFault { fault: Page { code: 7, address: 0x1000 }, stack: false })),
        Keeps(0, false),
        Keeps(1, false),
        Gather(3, [Data(0, Eight), Data(0x2000, Eight), Data(0x1000, Eight), last],
            Err(SpanFault { fault: Page { code: 4, address: 0x2000 }, stack: false })),
        Keeps(0, true),
        Keeps(1, false),
    ];
    assert_eq!(rt; wrong_step(rt.alloc(), steps), None);
}

/// Plans that ask little or nothing of memory, and checks of a write.
#[rattlefmt::skip]
#[test]
fn each_access_is_its_own(rt: HostRuntime) {
    let steps = &[
        // A plan may ask nothing of memory.
        Set(Start(ALL, READ_ONLY)),
        Gather(3, [Nothing, Is(u64::MAX), Is(7), Nothing],
            Ok(Gathered { both: None, to: u64::MAX, from: 7 })),
        CheckSpan(3, Nothing, Ok(None)),
        // Each read has its own width.
        Set(Start(ALL, READ_ONLY)),
        Set(Put(0x8FF8, 0x8877_6655_4433_2211)),
        Set(Put(0x9000, 0xFFEE_DDCC_BBAA_9900)),
        Gather(3, [Nothing, Stack(0xFFE, Four), Data(0xFF9, One), Nothing],
            Ok(Gathered { both: None, to: 0x9900_8877, from: 0x22 })),
        // The check of a write is a write's.
        Set(Start(ALL, READ_ONLY)),
        CheckSpan(3, Data(0xFFC, Eight),
            Err(SpanFault { fault: Page { code: 7, address: 0x1000 }, stack: false })),
        CheckSpan(0, Stack(0x1000, Eight),
            Err(SpanFault { fault: Page { code: 3, address: 0x1000 }, stack: true })),
        CheckSpan(3, Stack(0x2000, Eight),
            Err(SpanFault { fault: Page { code: 6, address: 0x2000 }, stack: true })),
        CheckSpan(3, Stack(0x7FFF_FFFF_FFFC, Eight),
            Err(SpanFault { fault: NonCanonical, stack: true })),
        CheckSpan(3, Data(0x7FFF_FFFF_FFFC, Eight),
            Err(SpanFault { fault: NonCanonical, stack: false })),
        CheckSpan(3, Data(0xFF8, Eight), Ok(Some(Target { first: 0x8FF8, second: 0 }))),
    ];
    assert_eq!(rt; wrong_step(rt.alloc(), steps), None);
}
