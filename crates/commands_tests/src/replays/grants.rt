//! The call of a journal that was answered with an identifier.

use super::{Around, WRITE_AND_FREE, text};
use nk_bits::CallWords;
use replay_core::granted;
use std::alloc::{AllocError, Global};
use std::process::Abort;
use std::test::Fail;

/// 64 bytes of the pool are allocated, under policy 4.
const ALLOCATION: &str = "k 7 40 4 0 0 - 256 ffffff8000010000\n";

/// The words of that call.
const GIVEN: CallWords = CallWords {
    number: 7,
    a: 0x40,
    b: 4,
    c: 0,
    d: 0,
};

/// The words of a call that names its arguments by their places.
const PLAIN: CallWords = CallWords {
    number: 0,
    a: 1,
    b: 2,
    c: 3,
    d: 4,
};

/// The words of the call for a region of eight bytes.
const EIGHT: CallWords = CallWords {
    number: 7,
    a: 8,
    b: 4,
    c: 0,
    d: 0,
};

/// A journal or its front, the identifier that is looked for, and the call.
type Row = (&'static str, u64, Option<CallWords>);

#[rattlefmt::skip]
static ANSWERS: [Row; 15] = [
    ("", 256, None),
    (ALLOCATION, 256, Some(GIVEN)),
    (ALLOCATION, 255, None),
    (ALLOCATION, 257, None),
    (ALLOCATION, 0, None),
    (ALLOCATION, u64::MAX, None),
    ("k 7 40 4 0 0 - 256 ffffff8000010000", 256, Some(GIVEN)),
    ("k 7 40 4 0 0 - 256 -", 256, Some(GIVEN)),
    ("k 0 1 2 3 4 - 1 -\n", 1, Some(PLAIN)),
    ("k 0 1 2 3 4 - 0 -", 0, Some(PLAIN)),
    ("k 0 1 2 3 4 - 18446744073709551615 -", u64::MAX, Some(PLAIN)),
    ("k 7 40 4 0 0 - 0256 ffffff8000010000", 256, None),
    ("k 7 40 4 0 0 - 100 ffffff8000010000", 256, None),
    ("c 00\nend halted\n", 256, None),
    // A region of eight bytes that is written and freed.
    (WRITE_AND_FREE, 256, Some(EIGHT)),
];

/// The search goes on behind each line in form, but for the end and for a call with that answer; and ends at each other
/// line.
#[rattlefmt::skip]
static FRONTS: [Row; 17] = [
    ("c 41\ni 32 - ffffff8000001010 -\n", 256, Some(GIVEN)),
    ("k 0 1 2 3 4 - 257 -\n", 256, Some(GIVEN)),
    ("k 0 1 2 3 4 - 256 -\n", 256, Some(PLAIN)),
    ("k 9 100 0 1000 4 0aff 0 -\n", 256, Some(GIVEN)),
    ("k 9 100 0 1000 4  0 -\n", 256, Some(GIVEN)),
    ("k 9 100 0 1000 4 ! 22 -\n", 256, Some(GIVEN)),
    ("k 9 100 0 1000 4 0af 0 -\n", 256, None),
    ("k 9 100 0 1000 4 0aFF 0 -\n", 256, None),
    ("k 9 100 0 1000 4 0ag0 0 -\n", 256, None),
    ("k 9 100 0 1000 4 !! 0 -\n", 256, None),
    ("k 0 1 2 3 4 -- 256 -\n", 256, None),
    ("end halted\n", 256, None),
    ("c 41\nend steps\n", 256, None),
    ("\n", 256, None),
    ("root 5\n", 256, None),
    ("c 4A\n", 256, None),
    ("c 41\r\n", 256, None),
];

/// The end of a line that writes, and the allocation.
const BEHIND_A_LINE: &str = " 0 -\nk 7 40 4 0 0 - 256 ffffff8000010000\n";

/// What stands around a part, how often that stands, the part, and the call.
type Long = (Around, usize, &'static str, Option<CallWords>);

/// A line may have a megabyte, with whole bytes or not, and there may be many.
#[rattlefmt::skip]
static LONG: [Long; 3] = [
    (("k 9 100 0 1000 4 ", BEHIND_A_LINE), 1_000_001 - 17, "0", Some(GIVEN)),
    (("k 9 100 0 1000 4 ", BEHIND_A_LINE), 1_000_000 - 17, "0", None),
    (("", ALLOCATION), 5_000, "k 1 0 0 0 0 - 0 -\n", Some(GIVEN)),
];

/// The call of each row's journal, or of its front before this, is the row's; and whatever stands behind the
/// allocation, that is the call.
fn assert_rows(
    rt: &impl Abort,
    alloc: Global,
    behind: &'static str,
    rows: &[Row],
) -> Result<(), AllocError> {
    for (index, (front, id, call)) in rows.iter().enumerate() {
        let before = text(alloc, ("", behind), 1, front)?;
        assert!(rt; granted(&before, *id) == *call, "row {index}");
        let later = text(alloc, (ALLOCATION, ""), 1, front)?;
        assert!(rt;
            granted(&later, 256) == Some(GIVEN),
            "row {index} behind it"
        );
    }
    Ok(())
}

#[test]
fn answers_name_their_calls(rt: HostRuntime) -> Result<(), Fail> {
    assert_rows(&rt, rt.alloc(), "", &ANSWERS)?;
    assert_rows(&rt, rt.alloc(), ALLOCATION, &FRONTS)?;
    Ok(())
}

#[test]
fn long_journals_are_searched(rt: HostRuntime) -> Result<(), Fail> {
    for (index, (around, times, part, call)) in LONG.iter().enumerate() {
        let journal = text(rt.alloc(), *around, *times, part)?;
        assert!(rt; granted(&journal, 256) == *call, "row {index}");
    }
    Ok(())
}
