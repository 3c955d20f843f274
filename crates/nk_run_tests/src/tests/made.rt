//! Worked cases of `make` and `work`: images that are made of numbers, and the summaries of their runs.
use super::cases::Failing::{Fetch, No, Put};
use super::cases::File::Written;
use super::cases::Table::{Cases, Forms};
use super::cases::Wanted::{Any, Front, Lines, Long, Text};
use super::cases::{Case, INPUT, PLAN, first_other};
use super::run::{NO_INPUT, NO_PLAN};
use super::{ADMITTED, NAME, SCAN};
use std::test::Fail;

const MAKE: [&str; 2] = ["make", "1"];

const WORK: [&str; 2] = ["work", "1"];

/// The summary of the first image's run.
const SUMMARY: &str = "end halted\nturns 10035\ncalls 18 accepted 18\ndeliveries 1\ntables 15\n\
    regions 1\nlog 1 56\n";

/// An image is made whole. Without any file: a fetch would fail.
static MADE: [Case; 3] = [
    (&MAKE, &[], Fetch(1), 0, Long(12_297, &[])),
    (&SCAN, &[(NAME, Written)], No, 0, Text(ADMITTED)),
    (&["make", "100"], &[], Fetch(1), 0, Any),
];

/// The first instruction of the first image is listed: MOV RBX, the image's second page.
static LISTED: [Case; 2] = [
    (&MAKE, &[], Fetch(1), 0, Any),
    (
        &["list", NAME, "ffffffff80000000", "1"],
        &[(NAME, Written)],
        No,
        0,
        Text("ffffffff80000000 48c7c300100080 mov.64 r3 value ffffffff80001000\n"),
    ),
];

/// A made image goes out in pieces.
static PIECES: [Case; 5] = [
    (&MAKE, &[], Fetch(1), 0, Any),
    (&MAKE, &[], Put(1, 0), 4, Front(0)),
    (&MAKE, &[], Put(1, 7), 4, Front(7)),
    (&MAKE, &[], Put(2, 3), 4, Front(4099)),
    (&MAKE, &[], Put(4, 2), 4, Front(12_290)),
];

/// That of the last one's.
const MILLION: &str =
    "end halted\nturns 1000035\ncalls 1701 accepted 1701\ndeliveries 100\ntables 411\n\
    regions 100\nlog 100 5600\n";

/// The run of a made image is summed up.
static SUMMED: [Case; 3] = [
    (&WORK, &[], Fetch(1), 0, Text(SUMMARY)),
    // The text is the same at each run.
    (&WORK, &[], Fetch(1), 0, Text(SUMMARY)),
    // A million turns.
    (&["work", "100"], &[], Fetch(1), 0, Text(MILLION)),
];

/// Each line of a summary may be cut.
static CUTS: [Case; 7] = [
    (&WORK, &[], Put(1, 2), 4, Text("en")),
    (&WORK, &[], Put(2, 2), 4, Text("end halted\ntu")),
    (
        &WORK,
        &[],
        Put(3, 2),
        4,
        Text("end halted\nturns 10035\nca"),
    ),
    (
        &WORK,
        &[],
        Put(4, 2),
        4,
        Text("end halted\nturns 10035\ncalls 18 accepted 18\nde"),
    ),
    (
        &WORK,
        &[],
        Put(5, 2),
        4,
        Text("end halted\nturns 10035\ncalls 18 accepted 18\ndeliveries 1\nta"),
    ),
    (
        &WORK,
        &[],
        Put(6, 2),
        4,
        Text("end halted\nturns 10035\ncalls 18 accepted 18\ndeliveries 1\ntables 15\nre"),
    ),
    (
        &WORK,
        &[],
        Put(7, 2),
        4,
        Text(
            "end halted\nturns 10035\ncalls 18 accepted 18\ndeliveries 1\ntables 15\nregions 1\nlo",
        ),
    ),
];

/// The summary of the third image's run. Each number adds 17 calls and 4 tables, from the first one's to the last one's.
const THIRD: &str =
    "end halted\nturns 30035\ncalls 52 accepted 52\ndeliveries 3\ntables 23\nregions 3\nlog 3 168\n";

/// The counts of a summary are those of the lines that `run` writes of the same image.
static COUNTED: [Case; 3] = [
    (&["work", "3"], &[], Fetch(1), 0, Text(THIRD)),
    (&["make", "3"], &[], Fetch(1), 0, Any),
    (
        &["run", NAME, INPUT, PLAN, "2000000", "4096"],
        &[(NAME, Written), NO_INPUT, NO_PLAN],
        No,
        0,
        Lines(&[(b'k', 52), (b'i', 3), (b'r', 3), (b'l', 3)]),
    ),
];

/// Numbers are 1 to 100.
static NUMBERS: [&[&str]; 20] = [
    &["make", "0"],
    &["make", "101"],
    &["make", "01"],
    &["make", "+1"],
    &["make", ""],
    &["make", "1 "],
    &["make", "0x1"],
    &["make", "18446744073709551617"],
    &["work", "0"],
    &["work", "101"],
    &["work", "01"],
    &["work", "+1"],
    &["work", ""],
    &["work", "1 "],
    &["work", "0x1"],
    &["work", "18446744073709551617"],
    &["make"],
    &["work"],
    &["make", "1", "1"],
    &["work", "1", NAME],
];

#[test]
fn made_images_are_as_worked_out(rt: HostRuntime) -> Result<(), Fail> {
    let tables = [
        Cases(&MADE),
        Cases(&LISTED),
        Cases(&PIECES),
        Cases(&SUMMED),
        Cases(&COUNTED),
        Cases(&CUTS),
        Forms(&NUMBERS),
    ];
    assert_eq!(rt; first_other(rt.alloc(), &tables)?, None);
    Ok(())
}
