//! The events of a plan.

use super::after::Start::Supervisor;
use super::cases::Step::{Begins, Kept, Looks, Pending, Store, Takes};
use super::cases::{Step, first_failing};
use irq_plan::What;
use nk_bits::{Leaf, Rights};

/// The rights of the supervisor's data, which isn't executed.
pub(super) const DATA: Rights = Rights {
    can_write: true,
    user: false,
    exec: false,
};

/// The rights of the supervisor's code, which may be written.
pub(super) const CODE: Rights = Rights {
    can_write: true,
    user: false,
    exec: true,
};

/// Code of the supervisor that may be read alone.
const READ_ALONE: Rights = Rights {
    can_write: false,
    user: false,
    exec: true,
};

/// Bit v - 32 is that of the vector v.
#[test]
fn vectors(rt: HostRuntime) {
    let steps: &[Step] = &[
        Begins(Supervisor, b""),
        Takes(What::Irq(32)),
        Pending(1),
        Takes(What::Irq(47)),
        Pending(0x8001),
        Takes(What::Irq(47)),
        Pending(0x8001),
    ];
    assert_eq!(rt; first_failing(rt.alloc(), steps), None);
}

/// Page 1 is filled with its leaf, and so is the kernel slot's page 4; page 2 has none. A drop leaves the others. A fill
/// where the walk finds nothing leaves what is kept, and one where it finds another leaf replaces it.
#[test]
fn translations(rt: HostRuntime) {
    let steps: &[Step] = &[
        Begins(Supervisor, b""),
        Takes(What::Fill(0x1000)),
        Looks(
            1,
            Some(Leaf {
                frame: 9,
                rights: DATA,
            }),
        ),
        Takes(What::Fill(0xFFFF_FF80_0000_4000)),
        Looks(
            0xFFFF_FF80_0000_4,
            Some(Leaf {
                frame: 6,
                rights: CODE,
            }),
        ),
        Takes(What::Fill(0x2000)),
        Looks(2, None),
        Takes(What::Drop(0xFFFF_FF80_0000_4000)),
        Looks(0xFFFF_FF80_0000_4, None),
        Looks(
            1,
            Some(Leaf {
                frame: 9,
                rights: DATA,
            }),
        ),
        Store(0x4008, &[0]),
        Takes(What::Fill(0x1000)),
        Looks(
            1,
            Some(Leaf {
                frame: 9,
                rights: DATA,
            }),
        ),
        Store(0x4008, &[0x7001]),
        Takes(What::Fill(0x1000)),
        Looks(
            1,
            Some(Leaf {
                frame: 7,
                rights: READ_ALONE,
            }),
        ),
    ];
    assert_eq!(rt; first_failing(rt.alloc(), steps), None);
}

/// Page 1 is under the entries that name frame 4 by level 2, frame 3 by level 3 and frame 2 by level 4. Page 200
/// (hexadecimal) has no entry of level 2, and shares the two others.
#[test]
fn upper_entries(rt: HostRuntime) {
    let steps: &[Step] = &[
        Begins(Supervisor, b""),
        Takes(What::Keep(2, 0x1000)),
        Takes(What::Keep(2, 0x20_0000)),
        Takes(What::Keep(3, 0x20_0000)),
        Takes(What::Keep(4, 0x1000)),
        Kept(2, 0, Some(4)),
        Kept(2, 0x200, None),
        Kept(3, 1, Some(3)),
        Kept(4, 0x200, Some(2)),
        Takes(What::Forget(3, 0x3000)),
        Kept(3, 1, None),
        Kept(2, 1, Some(4)),
        Kept(4, 1, Some(2)),
    ];
    assert_eq!(rt; first_failing(rt.alloc(), steps), None);
}

/// The entry of level 2 goes from memory: a fill begins at the one that is kept, which a drop leaves. A walk from the root
/// finds no entry any more, and leaves what is kept.
#[test]
fn fills_below_upper_entries(rt: HostRuntime) {
    let steps: &[Step] = &[
        Begins(Supervisor, b""),
        Takes(What::Keep(2, 0x3000)),
        Store(0x3000, &[0]),
        Takes(What::Drop(0x3000)),
        Takes(What::Fill(0x1000)),
        Looks(
            1,
            Some(Leaf {
                frame: 9,
                rights: DATA,
            }),
        ),
        Takes(What::Keep(2, 0x3000)),
        Kept(2, 1, Some(4)),
        Takes(What::Forget(2, 0x1000)),
        Takes(What::Fill(0x3000)),
        Looks(3, None),
    ];
    assert_eq!(rt; first_failing(rt.alloc(), steps), None);
}
