//! The lists at worked values: youngest last, 1,024 translations and 64 upper entries at most.
//! Pages whose numbers are 1,024 apart share a bucket of the table. An entry of level 2 serves 512
//! pages, and the pages below 2^18 share those above.
mod listed;
mod steps;

use steps::Step::{
    Count, DropFault, DropPage, Fill, FillEach, FillInTurn, Flush, Forget, Invalidate, Keep,
    KeepAll, KeepEach, Kept, Look,
};
use steps::{Step, wrong_case};

#[test]
fn translations_are_kept(rt: HostRuntime) {
    let cases: &[&[Step]] = &[
        // The last leaf of a page is kept.
        &[
            Look(5, None),
            Fill(5, 1),
            Fill(6, 2),
            Fill(5, 3),
            Look(5, Some(3)),
            Look(6, Some(2)),
            DropPage(5),
            Look(5, None),
            Look(6, Some(2)),
            Flush,
            Look(6, None),
        ],
        // Pages share a bucket.
        &[
            Fill(5, 1),
            Fill(1029, 2),
            Fill(2053, 3),
            Look(5, Some(1)),
            Look(1029, Some(2)),
            Look(2053, Some(3)),
            Look(3077, None),
            DropPage(1029),
            Look(5, Some(1)),
            Look(1029, None),
            Look(2053, Some(3)),
            DropPage(5),
            Fill(3077, 4),
            Look(5, None),
            Look(2053, Some(3)),
            Look(3077, Some(4)),
        ],
        // No linear address has the page with the largest number; the table keeps it like any
        // other.
        &[
            Look(u64::MAX, None),
            Fill(1023, 1),
            Fill(u64::MAX, 2),
            Look(u64::MAX, Some(2)),
            Look(1023, Some(1)),
            DropPage(u64::MAX),
            Look(u64::MAX, None),
        ],
    ];
    assert_eq!(rt; wrong_case(rt.alloc(), cases), None);
}

#[test]
fn oldest_translation_goes(rt: HostRuntime) {
    let cases: &[&[Step]] = &[
        // Page 0 is filled again and so is younger than page 1, which goes as the 1,025th page
        // comes.
        &[
            FillEach(0, 1024, 1, 7),
            Fill(0, 8),
            Fill(1024, 9),
            Look(0, Some(8)),
            Look(1, None),
            Look(2, Some(7)),
            Look(1024, Some(9)),
        ],
        // There is room for 1,024 and not for 1,025.
        &[
            FillEach(0, 1024, 3, 7),
            Count(0, 3072, 1024),
            Fill(3072, 8),
            Count(0, 3073, 1024),
            Look(0, None),
            Look(3, Some(7)),
            Look(3072, Some(8)),
        ],
        // Two pages that are filled in turn, behind pages 7 and 8, take all places of the ring many
        // times. With 1,020 more the table is full: then the oldest go, page 7 and then page 8.
        &[
            Fill(7, 1),
            Fill(8, 2),
            FillInTurn(5000, (1, 3), (1025, 4)),
            FillEach(2000, 3020, 1, 5),
            Look(7, Some(1)),
            Fill(3020, 5),
            Look(7, None),
            Look(8, Some(2)),
            Fill(3021, 5),
            Look(8, None),
            Look(1, Some(3)),
            Look(1025, Some(4)),
        ],
    ];
    assert_eq!(rt; wrong_case(rt.alloc(), cases), None);
}

#[test]
fn upper_entries_are_kept(rt: HostRuntime) {
    let cases: &[&[Step]] = &[
        // The last entry of its pages is kept.
        &[
            Keep(2, 5, 1),
            Keep(2, 511, 2),
            Kept(2, 5, Some(2)),
            Kept(2, 512, None),
            Kept(3, 5, None),
            Forget(2, 7),
            Kept(2, 5, None),
        ],
        // An entry is forgotten alone.
        &[
            KeepAll,
            Forget(3, 600),
            Kept(3, 5, None),
            Kept(2, 5, Some(12)),
            Kept(4, 600, Some(14)),
            Kept(2, 600, Some(22)),
            Look(600, Some(2)),
        ],
        // A fault drops the entries of its page.
        &[
            KeepAll,
            DropFault(600),
            Look(600, None),
            Look(5, Some(1)),
            Kept(2, 600, None),
            Kept(3, 5, None),
            Kept(4, 5, None),
            Kept(2, 5, Some(12)),
        ],
        // An invalidation drops every entry.
        &[
            KeepAll,
            DropPage(5),
            Look(5, None),
            Kept(2, 5, Some(12)),
            Invalidate(5),
            Look(600, Some(2)),
            Kept(2, 600, None),
            Kept(3, 600, None),
            Keep(4, 5, 14),
            Flush,
            Look(600, None),
            Kept(4, 5, None),
        ],
        // The entry of page 0 is kept again and so is younger than that of page 512, which goes as
        // the 65th comes.
        &[
            KeepEach(64, 7),
            Keep(2, 0, 8),
            Keep(2, 32768, 9),
            Kept(2, 0, Some(8)),
            Kept(2, 512, None),
            Kept(2, 1024, Some(7)),
            Kept(2, 32768, Some(9)),
        ],
    ];
    assert_eq!(rt; wrong_case(rt.alloc(), cases), None);
}

/// The second case begins with nothing kept, and its second step is wrong.
#[test]
fn wrong_step_is_found(rt: HostRuntime) {
    let cases: &[&[Step]] = &[
        &[Fill(5, 1), Look(5, Some(1))],
        &[Look(5, None), Look(5, Some(1)), Look(5, None)],
        &[Look(5, None)],
    ];
    assert_eq!(rt; wrong_case(rt.alloc(), cases), Some((1, 1)));
}
