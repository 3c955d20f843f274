//! Lines of a run, over a sink in memory, and lines on an image.

use crate::sections::{Call, words};
use elf_image::{FaultKind, ImageFault};
use nk_bits::{Answer, Delivery};
use nk_body::Source;
use nk_host::{MemSink, SinkFault};
use report_text::{
    ShortLine, admitted_line, called, console, delivery, ending, image_line, protected_line,
};

/// What a line of a run tells.
#[derive(Clone, Copy)]
pub(crate) enum Line<'a> {
    Console(u8),
    Delivery(Delivery),
    /// A call with what was read for it; the value and the place that are answered.
    Called(Call, Source<'a>, u64, Option<u64>),
    /// Whether the run is halted, and how many turns it took.
    Ending(bool, u64),
}

/// Writes these lines, to the first that fails.
pub(crate) fn put_lines(sink: &mut MemSink, lines: &[Line]) -> Result<(), SinkFault> {
    for line in lines {
        put_line(sink, line)?;
    }
    Ok(())
}

fn put_line(sink: &mut MemSink, line: &Line) -> Result<(), SinkFault> {
    match *line {
        Line::Console(byte) => console(sink, byte),
        Line::Delivery(it) => delivery(sink, &it),
        Line::Called(call, source, value, place) => {
            let answer = Answer {
                value,
                place,
                flush: false,
            };
            called(sink, &words(&call), &source, &answer)
        }
        Line::Ending(halted, turns) => ending(sink, halted, turns),
    }
}

/// What a line on an image tells.
#[derive(Clone, Copy)]
pub(crate) enum OnImage<'a> {
    /// The entry and the number of executable pages.
    Admitted(u64, u32),
    /// An address and the bytes at it, at most 3.
    Protected(u64, &'a [u8]),
    Fault(FaultKind, u64),
}

pub(crate) fn line_on(it: &OnImage) -> ShortLine {
    match *it {
        OnImage::Admitted(entry, pages) => admitted_line(entry, pages),
        OnImage::Protected(address, bytes) => {
            protected_line(address, &bytes[..bytes.len().min(3)])
        }
        OnImage::Fault(kind, value) => image_line(&ImageFault { kind, value }),
    }
}
