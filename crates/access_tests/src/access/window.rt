//! Accesses that change nothing, over the tables of `tests`: SDM volume 3, 4.6 and 4.10.2.

ghost use Rattle.std.specs.Prelude.{length};
ghost use Rattle.nk_bits.specs.Translations.{NamesFramesIn};
ghost use Rattle.mem_access.specs.Windows.{IsWindow};

use super::changes::Change::{KeepPage, Put, PutKept, Start};
use super::steps::Step::{Ask, Holds, HoldsKept, Load, Set};
use super::steps::Width::{Eight, Four, One, Two};
use super::steps::{Width, wrong_step};
use super::{ALL, READ_ONLY};
use mem_access::{Window, kept_frame};
use nk_bits::{Access, Control};
use phys_mem::PhysMem;
use tlb_model::Tlb;

/// A question to a window of the user's, and its answer: the place of the access, if its page is
/// kept and serves it.
#[derive(Clone, Copy)]
pub enum Question {
    Readable(u64, Width, Option<u64>),
    Writable(u64, Width, Option<u64>),
    /// The frame for an access at this CPL, whatever the window is.
    Frame(Access, u8, u64, Option<u64>),
    /// The page of this place is kept off from now on, under this number, which is below four.
    KeptOff(usize, u64),
}

use Question::{Frame, KeptOff, Readable, Writable};

/// A window of the user's, without a page.
fn empty(mem: &PhysMem, tlb: &Tlb, control: &Control) -> Window
    ensures { IsWindow (length mem.now) control.now 3 tlb.now result }
{
    Window::new()
}

/// Whether a new window answers each question so, in turn.
pub fn are_answered(mem: &PhysMem, tlb: &Tlb, control: &Control, questions: &[Question]) -> bool
    requires frames { NamesFramesIn (length mem.now) tlb.now }
{
    let mut window = empty(mem, tlb, control);
    for question in questions {
        if !is_answered(&mut window, mem, tlb, control, question) {
            return false;
        }
    }
    true
}

fn is_answered(
    window: &mut Window,
    mem: &PhysMem,
    tlb: &Tlb,
    control: &Control,
    question: &Question,
) -> bool
    requires frames { NamesFramesIn (length mem.now) tlb.now }
    requires window { IsWindow (length mem.now) control.now 3 tlb.now window.old }
    ensures { IsWindow (length mem.now) control.now 3 tlb.now window.new }
{
    match *question {
        Readable(va, width, place) => {
            window.readable(mem, tlb, control, 3, va, width.bytes()) == place
        }
        Writable(va, width, place) => {
            window.writable(mem, tlb, control, 3, va, width.bytes()) == place
        }
        Frame(access, cpl, va, frame) => { kept_frame(mem, tlb, access, control, cpl, va) == frame }
        KeptOff(number, place) => {
            if number > 3 {
                return false;
            }
            window.keep_off(number, place);
            true
        }
    }
}

/// Where a page is kept and serves, its place is found, and nothing is walked for.
#[test]
fn places_on_pages_that_are_kept(rt: HostRuntime) {
    let steps = &[
        // Page 0 is kept and may be read alone, page 1 is kept and may be written, page 2 isn't
        // kept.
        Set(Start(READ_ONLY, ALL)),
        Load(3, 0, One, Ok(0)),
        Load(3, 0x1000, One, Ok(0)),
        Ask(&[
            Readable(0x1002, Four, Some(0x9002)),
            Readable(0xFF8, Eight, Some(0x8FF8)),
            Readable(0, Eight, Some(0x8000)),
            Readable(0xFFF, One, Some(0x8FFF)),
            Readable(0xFF9, Eight, None),
            Readable(0x2000, One, None),
        ]),
        // Writes on the same pages.
        Set(Start(READ_ONLY, ALL)),
        Load(3, 0, One, Ok(0)),
        Load(3, 0x1000, One, Ok(0)),
        Ask(&[
            Readable(0xFF8, Eight, Some(0x8FF8)),
            Writable(0xFF8, Eight, None),
            Writable(0x1002, Four, Some(0x9002)),
            Writable(0x1FF8, Eight, Some(0x9FF8)),
            Writable(0x1FFD, Four, None),
        ]),
        // Page 1 is kept and may be written, and the supervisor may not execute it; page 2 isn't
        // kept.
        Set(Start(READ_ONLY, ALL)),
        Load(3, 0x1000, One, Ok(0)),
        Ask(&[
            Frame(Access::Write, 3, 0x1FFF, Some(0x9000)),
            Frame(Access::Fetch, 0, 0x1002, None),
            Frame(Access::Read, 3, 0x2000, None),
        ]),
        // The last page of the lower half is kept and serves; the one behind it is kept and serves
        // no access.
        Set(Start(ALL, ALL)),
        Set(KeepPage(0x7_FFFF_FFFF, 9)),
        Set(KeepPage(0x8_0000_0000, 8)),
        Ask(&[
            Readable(0x7FFF_FFFF_FFFF, One, Some(0x9FFF)),
            Readable(0x8000_0000_0000, One, None),
            Frame(Access::Read, 3, 0x8000_0000_0000, None),
        ]),
        // Numbers at places that were found kept.
        Set(Start(ALL, ALL)),
        Set(Put(0x8010, u64::MAX)),
        Set(PutKept(0x8012, Four, 0x99_1234_5678)),
        Holds(0x8010, 0xFFFF_1234_5678_FFFF),
        HoldsKept(0x8013, Two, 0x3456),
        HoldsKept(0x8010, Eight, 0xFFFF_1234_5678_FFFF),
    ];
    assert_eq!(rt; wrong_step(rt.alloc(), steps), None);
}

/// Pages of one number take each other's place; no write is served on a page that is kept off, whatever address leads to
/// it, until another page is kept off in its place.
#[test]
fn pages_that_are_kept_off(rt: HostRuntime) {
    let steps = &[
        Set(Start(ALL, ALL)),
        Set(KeepPage(1, 9)),
        Set(KeepPage(2, 9)),
        Set(KeepPage(9, 8)),
        Ask(&[
            Writable(0x1002, Four, Some(0x9002)),
            Writable(0x9002, Four, Some(0x8002)),
            Writable(0x1FF8, Eight, Some(0x9FF8)),
            Writable(0x2010, One, Some(0x9010)),
            KeptOff(2, 0x9123),
            Writable(0x1002, Four, None),
            Writable(0x2010, One, None),
            Readable(0x2010, One, Some(0x9010)),
            Writable(0x9002, Four, Some(0x8002)),
            KeptOff(0, 0x8000),
            Writable(0x9002, Four, None),
            Writable(0x1002, Four, None),
            KeptOff(2, 0x7000),
            Writable(0x1002, Four, Some(0x9002)),
            Writable(0x9002, Four, None),
        ]),
    ];
    assert_eq!(rt; wrong_step(rt.alloc(), steps), None);
}
