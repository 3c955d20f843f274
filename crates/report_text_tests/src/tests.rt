//! Texts that were written by hand, of lines of a run, of closing sections, of audits, and of lines on an image.

use crate::audits::{Write, audited};
use crate::lines::{Line, OnImage, line_on, put_lines};
use crate::sections::{Call, close};
use elf_image::FaultKind;
use nk_bits::Delivery;
use nk_body::Source;
use nk_host::{MemSink, SinkFault};
use std::alloc::Global;
use test_kit::first_wrong;

/// What is written to a sink.
#[derive(Clone, Copy)]
enum Text {
    Lines(&'static [Line<'static>]),
    /// The closing section behind calls, of whose source this is the first part.
    Section(&'static [Call], &'static [u8]),
    /// The audit of a region of so many bytes behind writes.
    Audit(u32, &'static [Write<'static>]),
}

/// What the sink takes.
#[derive(Clone, Copy)]
enum Taken {
    All(&'static [u8]),
    /// This put, counted from 1, fails after so many bytes.
    Cut(u64, usize, &'static [u8]),
}

type Row = (Text, Taken);

/// A sink with room for a page, in which this put fails after so many bytes; the puts count from 1.
fn sink(alloc: Global, failing: u64, cut: usize) -> Option<MemSink> {
    match vec![in alloc; failing] {
        Ok(failing) => MemSink::new(alloc, 4096, failing, cut).ok(),
        Err(_) => None,
    }
}

/// Writes the text; None for want of memory, or where a call or a write isn't accepted.
fn write(alloc: Global, text: &Text, sink: &mut MemSink) -> Option<Result<(), SinkFault>> {
    match *text {
        Text::Lines(lines) => Some(put_lines(sink, lines)),
        Text::Section(calls, data) => close(alloc, calls, data, sink),
        Text::Audit(size, writes) => audited(alloc, size, writes, sink),
    }
}

/// Whether the sink takes this of the text, and the text fails where it is cut.
fn is_taken(alloc: Global, text: &Text, taken: &Taken) -> bool {
    let (failing, cut, bytes, result) = match *taken {
        Taken::All(bytes) => (0, 0, bytes, Ok(())),
        Taken::Cut(failing, cut, bytes) => (failing, cut, bytes, Err(SinkFault)),
    };
    let Some(mut sink) = sink(alloc, failing, cut) else {
        return false;
    };
    write(alloc, text, &mut sink) == Some(result) && sink.taken() == bytes
}

/// The first row whose text isn't taken so.
fn wrong_row(alloc: Global, rows: &[Row]) -> Option<usize> {
    first_wrong(rows, |(text, taken)| is_taken(alloc, text, taken))
}

/// The second row has another text, the fourth one isn't cut.
static WRONG: [Row; 4] = [
    (Text::Lines(&[]), Taken::All(b"")),
    (Text::Lines(&[Line::Console(0x0a)]), Taken::All(b"c 0b\n")),
    (Text::Lines(&[Line::Console(0xf0)]), Taken::All(b"c f0\n")),
    (
        Text::Lines(&[Line::Console(0xf0)]),
        Taken::Cut(2, 3, b"c f0\n"),
    ),
];

#[test]
fn a_wrong_text_is_found(rt: HostRuntime) {
    assert_eq!(rt; wrong_row(rt.alloc(), &WRONG), Some(1));
    assert_eq!(rt; wrong_row(rt.alloc(), &WRONG[2..]), Some(1));
}

/// The last one is cut in its second line.
static LINES: [Row; 5] = [
    (
        Text::Lines(&[Line::Console(0x0a), Line::Console(0xf0)]),
        Taken::All(b"c 0a\nc f0\n"),
    ),
    (
        Text::Lines(&[
            Line::Delivery(Delivery {
                vector: 14,
                code: Some(3),
                rip: 0xffff_ffff_8000_0060,
                cr2: Some(0x8000_a002),
            }),
            Line::Delivery(Delivery {
                vector: 13,
                code: Some(0x7fa),
                rip: 1,
                cr2: None,
            }),
            Line::Delivery(Delivery {
                vector: 0,
                code: None,
                rip: 0,
                cr2: None,
            }),
        ]),
        Taken::All(
            b"i 14 3 ffffffff80000060 000000008000a002\ni 13 7fa 0000000000000001 -\n\
            i 0 - 0000000000000000 -\n",
        ),
    ),
    (
        Text::Lines(&[
            Line::Called(
                [9, 256, 2, 0xffff_8000_0004_7000, 4],
                Source::Bytes(b"\x00abc"),
                0,
                None,
            ),
            Line::Called(
                [9, 256, 2, 0xffff_8000_0004_7000, 4],
                Source::Unreadable,
                22,
                None,
            ),
            Line::Called(
                [7, 16, 1, 0, u64::MAX],
                Source::NotTaken,
                256,
                Some(0xffff_ff80_0001_0000),
            ),
        ]),
        Taken::All(
            b"k 9 100 2 ffff800000047000 4 00616263 0 -\nk 9 100 2 ffff800000047000 4 ! 22 -\n\
            k 7 10 1 0 ffffffffffffffff - 256 ffffff8000010000\n",
        ),
    ),
    (
        Text::Lines(&[Line::Ending(true, 72), Line::Ending(false, 4_294_967_296)]),
        Taken::All(b"end halted\nturns 72\nend steps\nturns 4294967296\n"),
    ),
    (
        Text::Lines(&[Line::Ending(true, 72)]),
        Taken::Cut(2, 3, b"end halted\ntur"),
    ),
];

#[test]
fn lines_of_a_run(rt: HostRuntime) {
    assert_eq!(rt; wrong_row(rt.alloc(), &LINES), None);
}

/// Regions and records; kinds and entries, where frame 71 is read alone, becomes a page table, and maps itself, and the
/// handler's address is 400000; a section that is cut.
static SECTIONS: [Row; 3] = [
    (
        Text::Section(
            &[
                [7, 8, 4, 0, 0],
                [7, 3, 2, 0, 0],
                [9, 256, 2, 0, 4],
                [9, 257, 0, 0, 3],
                [9, 256, 6, 0, 1],
            ],
            b"abcd",
        ),
        Taken::All(
            b"root 5\ntrap ffffff80000011da\nr 256 4 ffffff8000010000 8 0000616263646100\n\
            r 257 2 ffffff8000010010 3 616263\nl 0 256 2 61626364\nl 1 256 6 61\n",
        ),
    ),
    (
        Text::Section(
            &[
                [1, 0x40_0000, 0, 0, 0],
                [3, 70, 71, 0x8000_0000_0004_7021, 0],
                [2, 1, 71, 0, 0],
                [3, 71, 511, 0x8000_0000_0004_7021, 0],
            ],
            b"",
        ),
        Taken::All(
            b"root 5\ntrap 0000000000400000\nf 71 table1\nt 70 71 8000000000047021\n\
            t 71 511 8000000000047021\n",
        ),
    ),
    (Text::Section(&[], b""), Taken::Cut(2, 4, b"root 5\ntrap")),
];

#[test]
fn closing_sections(rt: HostRuntime) {
    assert_eq!(rt; wrong_row(rt.alloc(), &SECTIONS), None);
}

/// Three slots, of processes 0, 1 and 7, in a chain.
#[rattlefmt::skip]
const THREE: [u8; 48] = [
    0, 0, 0, 0, 0, 0, 0, 0, 2, 0, 0, 0, 0, 0, 0, 0,
    1, 0, 0, 0, 0, 0, 0, 0, 3, 0, 0, 0, 0, 0, 0, 0,
    7, 0, 0, 0, 0, 0, 0, 0, 0, 0, 0, 0, 0, 0, 0, 0,
];

/// All three slots are written; then the second one's next becomes 0, so that the third hides its process.
const HIDING: [Write<'static>; 2] = [
    Write {
        region: 256,
        offset: 0,
        bytes: &THREE,
    },
    Write {
        region: 256,
        offset: 24,
        bytes: &[0; 8],
    },
];

/// And the first one's next becomes 1, which leads to itself.
const LOOPING: [Write<'static>; 3] = [
    Write {
        region: 256,
        offset: 0,
        bytes: &THREE,
    },
    Write {
        region: 256,
        offset: 24,
        bytes: &[0; 8],
    },
    Write {
        region: 256,
        offset: 8,
        bytes: &[1, 0, 0, 0, 0, 0, 0, 0],
    },
];

/// Records of other regions are numbered, and are not put over the region's bytes.
const OTHERS: [Write<'static>; 5] = [
    Write {
        region: 255,
        offset: 0,
        bytes: &[9; 48],
    },
    Write {
        region: 256,
        offset: 0,
        bytes: &THREE,
    },
    Write {
        region: 257,
        offset: 24,
        bytes: &[0; 8],
    },
    Write {
        region: 256,
        offset: 24,
        bytes: &[0; 8],
    },
    Write {
        region: 512,
        offset: 8,
        bytes: &[1],
    },
];

/// A hidden slot's process becomes another one, and is found again at last.
const BECOMING: [Write<'static>; 4] = [
    Write {
        region: 256,
        offset: 0,
        bytes: &THREE,
    },
    Write {
        region: 256,
        offset: 24,
        bytes: &[0; 8],
    },
    Write {
        region: 256,
        offset: 32,
        bytes: &[0xFF; 8],
    },
    Write {
        region: 256,
        offset: 24,
        bytes: &[3],
    },
];

/// A chain breaks and is good again: a next of 4 leads to none of three slots.
const BREAKING: [Write<'static>; 3] = [
    Write {
        region: 256,
        offset: 8,
        bytes: &[4],
    },
    Write {
        region: 256,
        offset: 8,
        bytes: &[0],
    },
    Write {
        region: 256,
        offset: 15,
        bytes: &[1],
    },
];

/// Fifteen bytes have no slot.
const FIFTEEN: [Write<'static>; 1] = [Write {
    region: 256,
    offset: 0,
    bytes: &[1; 15],
}];

/// Sixteen bytes have one slot, which leads to itself, and hides nothing.
const SIXTEEN: [Write<'static>; 1] = [Write {
    region: 256,
    offset: 8,
    bytes: &[1],
}];

/// The first one's next becomes 1 as in `LOOPING`.
const CUT: [Write<'static>; 3] = [
    Write {
        region: 256,
        offset: 0,
        bytes: &THREE,
    },
    Write {
        region: 256,
        offset: 24,
        bytes: &[0; 8],
    },
    Write {
        region: 256,
        offset: 8,
        bytes: &[1],
    },
];

static AUDITS: [Row; 8] = [
    (
        Text::Audit(48, &HIDING),
        Taken::All(b"h 1 2 7\nrecords 2\nhidden 1\nchain good\n"),
    ),
    (
        Text::Audit(48, &LOOPING),
        Taken::All(b"h 1 2 7\nb 2\nh 2 1 1\nrecords 3\nhidden 2\nchain broken\n"),
    ),
    (
        Text::Audit(48, &OTHERS),
        Taken::All(b"h 3 2 7\nrecords 2\nhidden 1\nchain good\n"),
    ),
    (
        Text::Audit(48, &BECOMING),
        Taken::All(
            b"h 1 2 7\nu 2 2 7\nh 2 2 18446744073709551615\nu 3 2 18446744073709551615\n\
            records 4\nhidden 0\nchain good\n",
        ),
    ),
    (
        Text::Audit(48, &BREAKING),
        Taken::All(b"b 0\ng 1\nb 2\nrecords 3\nhidden 0\nchain broken\n"),
    ),
    (
        Text::Audit(15, &FIFTEEN),
        Taken::All(b"records 1\nhidden 0\nchain good\n"),
    ),
    (
        Text::Audit(16, &SIXTEEN),
        Taken::All(b"b 0\nrecords 1\nhidden 0\nchain broken\n"),
    ),
    (
        Text::Audit(48, &CUT),
        Taken::Cut(3, 3, b"h 1 2 7\nb 2\nh 2"),
    ),
];

#[test]
fn audits_of_regions(rt: HostRuntime) {
    assert_eq!(rt; wrong_row(rt.alloc(), &AUDITS), None);
}

/// What a line on an image tells, and the line.
type Shown = (OnImage<'static>, &'static [u8]);

/// Whether a row's line is told.
fn is_told((line, text): &Shown) -> bool {
    line_on(line).as_bytes() == *text
}

static OTHER: [Shown; 3] = [
    (OnImage::Fault(FaultKind::Align, 0), b"image 8 Align 0\n"),
    (OnImage::Fault(FaultKind::Align, 1), b"image 8 Align 0\n"),
    (OnImage::Fault(FaultKind::Align, 1), b"image 8 Align 1\n"),
];

/// The last one is the longest.
static ON_IMAGES: [Shown; 6] = [
    (
        OnImage::Admitted(0xffff_ffff_8000_0000, 2),
        b"admitted entry ffffffff80000000 pages 2\n",
    ),
    (
        OnImage::Protected(0xffff_ffff_8000_0fff, &[0x0f, 0x30]),
        b"protected ffffffff80000fff 0f30\n",
    ),
    (
        OnImage::Protected(0xffff_ffff_8000_0000, &[0x0f, 0x22, 0xd8]),
        b"protected ffffffff80000000 0f22d8\n",
    ),
    (OnImage::Fault(FaultKind::Align, 0), b"image 8 Align 0\n"),
    (OnImage::Fault(FaultKind::Short, 63), b"image 1 Short 63\n"),
    (
        OnImage::Fault(FaultKind::WritableCode, u64::MAX),
        b"image 11 WritableCode 18446744073709551615\n",
    ),
];

#[test]
fn lines_on_an_image(rt: HostRuntime) {
    assert_eq!(rt; first_wrong(&OTHER, is_told), Some(1));
    assert_eq!(rt; first_wrong(&ON_IMAGES, is_told), None);
}
