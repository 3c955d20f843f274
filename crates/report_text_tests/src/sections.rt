//! Closing sections, over a sink in memory. A section is that of the opening of an image of one byte, F4, in 512 frames,
//! behind some calls. Its page is frame 67; frame 71 is the first free one, and entry 71 of frame 70 maps it. The pool
//! stands from frame 10 on.

ghost use Rattle.std.specs.Prelude.{◌≡◌, ◌≤◌, IfSome};
ghost use Rattle.nk_body.specs.CallRules.{IsSourceOf};
ghost use Rattle.nk_body.specs.NestedRecord.{HoldsBooks};
ghost use Rattle.nk_body.specs.SourceWords.{sourced_of};

use boot_map::{Layout, prepare};
use elf_image::Image;
use nk_bits::CallWords;
use nk_body::{Kernel, Source};
use nk_host::{MemSink, SinkFault};
use phys_mem::PhysMem;
use report_text::section;
use std::alloc::Global;
use test_kit::halting_file;

/// A call's number and its four arguments.
pub(crate) type Call = [u64; 5];

pub(crate) fn words(call: &Call) -> CallWords {
    CallWords {
        number: call[0],
        a: call[1],
        b: call[2],
        c: call[3],
        d: call[4],
    }
}

/// What was read for a call that takes so many bytes.
fn read<'s>(wanted: Option<u64>, data: &'s [u8]) -> Source<'s>
    ensures { IsSourceOf wanted (sourced_of result) }
{
    match wanted {
        None => Source::NotTaken,
        Some(count) => {
            if count <= data.len() as u64 {
                Source::Bytes(&data[..count as usize])
            } else {
                Source::Unreadable
            }
        }
    }
}

/// Makes the call, of whose source this is the first part, and says whether it was accepted.
fn serve(kernel: &mut Kernel, mem: &mut PhysMem, call: &CallWords, data: &[u8]) -> bool
    requires { HoldsBooks kernel.old mem.old }
    ensures { HoldsBooks kernel.new mem.new }
{
    if kernel.regions().next() >= 1 << 63 {
        return false;
    }
    let source = read(kernel.wants(mem, call), data);
    let value = kernel.serve(mem, call, source).value;
    value == 0 || value >= 256
}

/// Writes the closing section behind these calls, which are accepted; None for want of memory, or where one isn't.
pub(crate) fn close(
    alloc: Global,
    calls: &[Call],
    data: &[u8],
    sink: &mut MemSink,
) -> Option<Result<(), SinkFault>> {
    let Ok(file) = halting_file(alloc) else {
        return None;
    };
    let Ok(image) = Image::read(file) else {
        return None;
    };
    let Ok(layout) = Layout::of(&image, 512) else {
        return None;
    };
    let Ok(mut mem) = prepare(alloc, &image, &layout) else {
        return None;
    };
    let Ok(mut kernel) = Kernel::start(alloc, &mut mem, &image, &layout) else {
        return None;
    };
    for call in calls {
        if !serve(&mut kernel, &mut mem, &words(call), data) {
            return None;
        }
    }
    if mem.frames() != layout.frames() {
        return None;
    }
    Some(section(sink, &image, &layout, &mem, &kernel))
}
