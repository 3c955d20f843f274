//! The body's place, FFFFFF800000101B, where no instruction is made: with WP clear the body is to run, and with WP set its
//! first push would be to FFFFFF8000004FF8, which the supervisor may not write. IF is set there.

use super::after::Change::{Cr0, Flags, Rip};
use super::after::Leaves::{Delivered, PageFault};
use super::after::Start::{SupervisorBut, UserBut};
use super::cases::Step::{Begins, Body, Due, Kept, Looks, Rests, Takes, Turn};
use super::cases::{Step, first_failing};
use super::events::CODE;
use irq_plan::What;
use nk_bits::Leaf;

/// The body's place.
const BODY: u64 = 0xFFFF_FF80_0000_101B;

/// The page of the body's first push.
const PUSHED: u64 = 0xFFFF_FF80_0000_4;

/// A vector is pending too: with WP clear the body comes first. With WP set the vector comes before the page fault.
#[test]
fn interrupt_at_the_body(rt: HostRuntime) {
    let steps: &[Step] = &[
        Begins(
            SupervisorBut(&[Rip(BODY), Flags(0x202), Cr0(0x8000_0001)]),
            b"",
        ),
        Takes(What::Irq(32)),
        Body,
        Rests,
        Due(Some(32)),
        Begins(SupervisorBut(&[Rip(BODY), Flags(0x202)]), b""),
        Takes(What::Irq(32)),
        Turn(Delivered(32, None)),
    ];
    assert_eq!(rt; first_failing(rt.alloc(), steps), None);
}

/// The page's translation is kept before, and goes with the upper entries that serve the page. The user has no body there:
/// the fetch is a page fault at CPL 3.
#[test]
fn page_faults(rt: HostRuntime) {
    let steps: &[Step] = &[
        Begins(SupervisorBut(&[Rip(BODY), Flags(0x202)]), b""),
        Takes(What::Fill(0xFFFF_FF80_0000_4000)),
        Takes(What::Fill(0xFFFF_FF80_0000_3000)),
        Takes(What::Keep(2, 0xFFFF_FF80_0000_0000)),
        Takes(What::Keep(2, 0x1000)),
        Looks(
            PUSHED,
            Some(Leaf {
                frame: 6,
                rights: CODE,
            }),
        ),
        Kept(2, PUSHED, Some(4)),
        Turn(PageFault(3, 0xFFFF_FF80_0000_4FF8)),
        Looks(PUSHED, None),
        Looks(
            0xFFFF_FF80_0000_3,
            Some(Leaf {
                frame: 7,
                rights: CODE,
            }),
        ),
        Kept(2, PUSHED, None),
        Kept(2, 1, Some(4)),
        Begins(UserBut(&[Rip(BODY)]), b""),
        Turn(PageFault(0x15, BODY)),
    ];
    assert_eq!(rt; first_failing(rt.alloc(), steps), None);
}
