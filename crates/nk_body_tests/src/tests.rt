//! Calls on the opening of an image of one byte, F4. In 512 frames its page is frame 67, the direct map's tables are 68, 69
//! and 70, and frame 71 is the first free one, which entry 71 of frame 70 maps for writing. The handler stands in memory
//! from 2000 on, the pool from A000 on.

mod books;
mod calls;
mod cases;
mod counts;
mod descriptors;
mod rule_order;

ghost use Rattle.std.specs.Prelude.{◌≡◌, IfSome};
ghost use Rattle.nk_body.specs.CallRules.{IsSourceOf};
ghost use Rattle.nk_body.specs.NestedRecord.{HoldsBooks};
ghost use Rattle.nk_body.specs.SourceWords.{sourced_of};

use boot_map::{Layout, prepare};
use elf_image::Image;
use memory_kit::CONTROL;
use nk_bits::{Answer, CallWords, Control};
use nk_body::{Kernel, Source};
use phys_mem::PhysMem;
use std::alloc::Global;
use test_kit::halting_file;
use tlb_model::Tlb;

/// The handler at the opening: the halt loop of the gates' text.
const HALTS: u64 = 0xFFFF_FF80_0000_11DA;

/// The opening's leaf of frame 71: P, R/W, A, D and XD.
const WRITABLE: u64 = 0x8000_0000_0004_7063;

/// The leaf of frame 71 that can only be read.
const READABLE: u64 = 0x8000_0000_0004_7021;

/// The page of frame 71 in the direct map.
const PAGE: u64 = 0xFFFF_8000_0004_7000;

/// The pool's first linear address.
const POOL: u64 = 0xFFFF_FF80_0001_0000;

/// Books, and the memory that they are of.
#[derive(Drop)]
struct Opened {
    kernel: Kernel,
    mem: PhysMem,
}

/// Memory and books of the opening in so many frames; None for another number than a machine has, and for want of memory.
fn open(alloc: Global, frames: u32) -> Option<Opened>
    ensures { IfSome result (λ it. HoldsBooks it.kernel it.mem) }
{
    if frames < 512 || frames > 65_536 {
        return None;
    }
    let Ok(file) = halting_file(alloc) else {
        return None;
    };
    let Ok(image) = Image::read(file) else {
        return None;
    };
    let Ok(layout) = Layout::of(&image, frames) else {
        return None;
    };
    let Ok(mut mem) = prepare(alloc, &image, &layout) else {
        return None;
    };
    match Kernel::start(alloc, &mut mem, &image, &layout) {
        Ok(kernel) => Some(Opened { kernel, mem }),
        Err(_) => None,
    }
}

/// A call by its number and its first three arguments; of call 7 the last is the place that the region is to have, of call
/// 9 the number of bytes. A source of at most 8 bytes are the gates' first, a longer one zeros of free frames; with NOWHERE
/// beside the number it is at address 0, where no page is mapped.
type Row = (u64, u64, u64, u64);

const NOWHERE: u64 = 1 << 63;

/// The gates' text, and frame 300 in the direct map.
const TEXT: u64 = 0xFFFF_FF80_0000_1000;

const ZEROS: u64 = 0xFFFF_8000_0012_C000;

fn source_of(count: u64) -> u64 {
    if count >= NOWHERE {
        0
    } else if count <= 8 {
        TEXT
    } else {
        ZEROS
    }
}

fn words(call: &Row) -> CallWords {
    CallWords {
        number: call.0,
        a: call.1,
        b: call.2,
        c: if call.0 == 9 {
            source_of(call.3)
        } else {
            call.3
        },
        d: if call.0 == 9 { call.3 % NOWHERE } else { 4 },
    }
}

/// The control registers of the opening, over this root.
fn control_of(root: u32) -> Control
    ensures { result.root ≡ root }
{
    Control {
        cr0: 0x8001_0001,
        root,
        ..CONTROL
    }
}

/// So many bytes from an address on, each loaded at CPL 0, with no translation kept before the first; None where a load
/// faults, and for want of memory.
fn bytes_at(alloc: Global, mem: &PhysMem, root: u32, va: u64, count: u64) -> Option<Vec<u8>> {
    if root >= mem.frames() {
        return None;
    }
    let Ok(mut tlb) = Tlb::new(alloc) else {
        return None;
    };
    let control = control_of(root);
    let mut bytes = Vec::new(alloc);
    for offset in 0..count {
        let Some(at) = va.checked_add(offset) else {
            return None;
        };
        let Ok(byte) = mem_access::load(mem, &mut tlb, &control, 0, at, 1) else {
            return None;
        };
        let Ok(()) = bytes.push(byte as u8) else {
            return None;
        };
    }
    Some(bytes)
}

/// What was read for a call that takes so many bytes.
fn read<'s>(wanted: Option<u64>, data: &'s Option<Vec<u8>>) -> Source<'s>
    ensures { IsSourceOf wanted (sourced_of result) }
{
    let Some(count) = wanted else {
        return Source::NotTaken;
    };
    match data {
        None => Source::Unreadable,
        Some(bytes) => {
            if count <= bytes.len() as u64 {
                Source::Bytes(&bytes[..count as usize])
            } else {
                Source::Unreadable
            }
        }
    }
}

/// Makes a call, the source of which is loaded.
fn serve(alloc: Global, kernel: &mut Kernel, mem: &mut PhysMem, call: &Row) -> Option<Answer>
    requires { HoldsBooks kernel.old mem.old }
    ensures { HoldsBooks kernel.new mem.new }
{
    if kernel.regions().next() >= 1 << 63 {
        return None;
    }
    let call = words(call);
    let wanted = kernel.wants(mem, &call);
    let data = match wanted {
        None => None,
        Some(count) => bytes_at(alloc, mem, kernel.root(), call.c, count),
    };
    Some(kernel.serve(mem, &call, read(wanted, &data)))
}

/// Every translation goes where one of these is accepted; the number of a rule is at most 27.
fn is_flushing(number: u64, value: u64) -> bool {
    (value == 0 && (number == 2 || number == 4 || number == 5)) || (value >= 256 && number == 6)
}

fn answered(call: &Row, value: u64) -> Answer {
    Answer {
        value,
        place: if call.0 == 7 && value >= 256 {
            Some(call.3)
        } else {
            None
        },
        flush: is_flushing(call.0, value),
    }
}

/// Makes the calls in turn, to the first that isn't answered by the number beside it; gives how many were.
fn play(alloc: Global, kernel: &mut Kernel, mem: &mut PhysMem, rows: &[(Row, u64)]) -> usize
    requires books { HoldsBooks kernel.old mem.old }
    ensures books { HoldsBooks kernel.new mem.new }
{
    for (index, (call, value)) in rows.iter().enumerate() {
        if serve(alloc, kernel, mem, call) != Some(answered(call, *value)) {
            return index;
        }
    }
    rows.len()
}

/// Regions of a byte each, 256 of them, and some more that are refused; None where fewer are made.
fn filled(alloc: Global) -> Option<Opened>
    ensures { IfSome result (λ it. HoldsBooks it.kernel it.mem) }
{
    let Some(mut it) = open(alloc, 512) else {
        return None;
    };
    let mut made = 0;
    for k in 0..300u64 {
        let row = ((7, 1, 1, POOL + 16 * k), 256 + k);
        if play(alloc, &mut it.kernel, &mut it.mem, &[row]) == 1 {
            made = k + 1;
        }
    }
    if made == 256 { Some(it) } else { None }
}

/// Frames 71 to 206 are mapped for reading, and declared by 16 pages, of which 8 are taken; None where it isn't so.
fn pages_declared(alloc: Global) -> Option<Opened>
    ensures { IfSome result (λ it. HoldsBooks it.kernel it.mem) }
{
    let Some(mut it) = open(alloc, 512) else {
        return None;
    };
    let mut made = 0;
    for frame in 71..207u64 {
        let row = ((3, 70, frame, 0x8000_0000_0000_0021 + 4096 * frame), 0);
        let _answered = play(alloc, &mut it.kernel, &mut it.mem, &[row]);
    }
    for k in 0..9u64 {
        let row = ((6, PAGE + 0x1_0000 * k, 0x1_0000, 2), 256 + k);
        if play(alloc, &mut it.kernel, &mut it.mem, &[row]) == 1 {
            made = k + 1;
        }
    }
    if made == 8 { Some(it) } else { None }
}

/// A logged region fills the log.
const LOGGED: [(Row, u64); 4] = [
    ((7, 32_745, 4, POOL), 256),
    ((9, 256, 0, 32_743), 0),
    ((9, 256, 0, 32_745), 0),
    ((9, 256, 0, 1), 26),
];

/// The log is full; None where a call isn't answered so.
fn logged(alloc: Global) -> Option<Opened>
    ensures { IfSome result (λ it. HoldsBooks it.kernel it.mem) }
{
    let Some(mut it) = open(alloc, 512) else {
        return None;
    };
    if play(alloc, &mut it.kernel, &mut it.mem, &LOGGED) == LOGGED.len() {
        Some(it)
    } else {
        None
    }
}
