//! Steps over what is kept, one after the other, and what they are to find. Each leaf and each
//! entry grants writes to the supervisor alone, so that its frame tells it.

use nk_bits::{Leaf, Rights, Upper};
use std::alloc::Global;
use test_kit::{first_wrong, first_wrong_case};
use tlb_model::Tlb;

/// A call, or several, and what it is to give. Levels are 2 to 4.
#[derive(Clone, Copy)]
pub enum Step {
    /// A page's leaf is kept, with this frame.
    Fill(u64, u32),
    /// The same for each number of a range, times a factor.
    FillEach(u64, u64, u64, u32),
    /// Two pages are filled in turn, so many times each.
    FillInTurn(u32, (u64, u32), (u64, u32)),
    /// The frame that is kept for a page.
    Look(u64, Option<u32>),
    /// How many pages of a range are kept.
    Count(u64, u64, usize),
    /// A page's leaf alone is forgotten.
    DropPage(u64),
    /// The same with the entries that serve the page.
    DropFault(u64),
    /// The same with all entries.
    Invalidate(u64),
    Flush,
    /// A page's entry of a level is kept, with this frame.
    Keep(u8, u64, u32),
    /// The entries of level 2 of the first so many are kept.
    KeepEach(u64, u32),
    /// Leaves and entries of the pages 5 and 600 are kept.
    KeepAll,
    /// The frame that a page's entry of a level names, where it is kept.
    Kept(u8, u64, Option<u32>),
    /// A page's entry of a level is forgotten.
    Forget(u8, u64),
}

const RIGHTS: Rights = Rights {
    can_write: true,
    user: false,
    exec: false,
};

fn leaf(frame: u32) -> Leaf {
    Leaf {
        frame,
        rights: RIGHTS,
    }
}

fn upper(frame: u32) -> Upper {
    Upper {
        frame,
        rights: RIGHTS,
    }
}

/// The first case, and in it the first step, that gives something else; each case begins with
/// nothing kept. Want of memory fails at the case's first step.
pub fn wrong_case(alloc: Global, cases: &[&[Step]]) -> Option<(usize, usize)> {
    first_wrong_case(cases, |steps| wrong_step(alloc, steps))
}

fn wrong_step(alloc: Global, steps: &[Step]) -> Option<usize> {
    let Ok(mut tlb) = Tlb::new(alloc) else {
        return Some(0);
    };
    first_wrong(steps, |step| is_met(&mut tlb, step))
}

/// Whether a step gives what it is to give; a step of another level doesn't.
fn is_met(tlb: &mut Tlb, step: &Step) -> bool {
    match *step {
        Step::Fill(page, frame) => tlb.fill(page, leaf(frame)),
        Step::FillEach(from, to, factor, frame) => fill_each(tlb, from, to, factor, frame),
        Step::FillInTurn(times, one, other) => fill_in_turn(tlb, times, one, other),
        Step::Look(page, Some(frame)) => return tlb.look(page) == Some(leaf(frame)),
        Step::Look(page, None) => return tlb.look(page).is_none(),
        Step::Count(from, to, count) => return kept_pages(tlb, from, to) == count,
        Step::DropPage(page) => tlb.drop_page(page),
        Step::DropFault(page) => tlb.drop_fault(page),
        Step::Invalidate(page) => tlb.invalidate(page),
        Step::Flush => tlb.flush(),
        Step::KeepEach(count, frame) => keep_each(tlb, count, frame),
        Step::KeepAll => keep_all(tlb),
        Step::Keep(level @ 2..=4, page, frame) => tlb.keep(level, page, upper(frame)),
        Step::Forget(level @ 2..=4, page) => tlb.forget(level, page),
        Step::Kept(level @ 2..=4, page, Some(frame)) => {
            return tlb.kept(level, page) == Some(upper(frame));
        }
        Step::Kept(level @ 2..=4, page, None) => {
            return tlb.kept(level, page).is_none();
        }
        _ => return false,
    }
    true
}

fn fill_each(tlb: &mut Tlb, from: u64, to: u64, factor: u64, frame: u32) {
    for number in from..to {
        tlb.fill(number.wrapping_mul(factor), leaf(frame));
    }
}

fn fill_in_turn(tlb: &mut Tlb, times: u32, one: (u64, u32), other: (u64, u32)) {
    for _turn in 0..times {
        tlb.fill(one.0, leaf(one.1));
        tlb.fill(other.0, leaf(other.1));
    }
}

fn kept_pages(tlb: &Tlb, from: u64, to: u64) -> usize {
    let mut kept = 0;
    for page in from..to {
        if kept < usize::MAX && tlb.look(page).is_some() {
            kept += 1;
        }
    }
    kept
}

fn keep_each(tlb: &mut Tlb, count: u64, frame: u32) {
    for bits in 0..count {
        tlb.keep(2, bits.wrapping_mul(512), upper(frame));
    }
}

/// Page 600 shares the entries of page 5 of the levels 3 and 4.
fn keep_all(tlb: &mut Tlb) {
    tlb.fill(5, leaf(1));
    tlb.fill(600, leaf(2));
    tlb.keep(2, 5, upper(12));
    tlb.keep(3, 5, upper(13));
    tlb.keep(4, 5, upper(14));
    tlb.keep(2, 600, upper(22));
}
