//! Loads, stores and lent frames of the memory, at worked values, and beside a plain vector.

ghost use Rattle.std.specs.Prelude.{◌≡◌, ◌≤◌, ◌+◌, length, true};

use phys_mem::PhysMem;
use std::alloc::Global;
use test_kit::first_wrong;

/// What is done with the memory and the plain vector, and what they are to give.
#[derive(Clone, Copy)]
enum Step {
    /// A place, and what is stored there.
    Store8(u64, u8),
    Store16(u64, u16),
    Store32(u64, u32),
    Store64(u64, u64),
    /// A frame that is zeroed.
    Zero(u32),
    /// A frame that is lent, and the places in it that are written, each with its byte.
    Lend(u32, &'static [(usize, u8)]),
    /// A frame that is lent, a place in it, and the bytes that are copied there.
    Copy(u32, usize, &'static [u8]),
    /// A place, and the byte that the plain vector alone gets.
    Plain(u64, u8),
    /// A place, and what is read there.
    Load8(u64, u8),
    Load16(u64, u16),
    Load32(u64, u32),
    Load64(u64, u64),
    /// A frame, and the bytes that it begins with.
    Begins(u32, &'static [u8]),
    /// A frame of 4,096 bytes that are 0.
    IsZero(u32),
    /// How many frames there are.
    Frames(u32),
    /// The first place at which the memory isn't so many zeros.
    Other(usize, Option<usize>),
}

use Step::{
    Begins, Copy, Frames, IsZero, Lend, Load8, Load16, Load32, Load64, Other, Plain, Store8,
    Store16, Store32, Store64, Zero,
};

/// The memory, and the plain program: a vector as long, whose bytes are written one by one.
#[derive(Drop)]
struct Both {
    memory: PhysMem,
    plain: Vec<u8>,
    zeros: Vec<u8>,
}

/// Both, all 0. None for want of memory.
fn begin(alloc: Global, frames: u32) -> Option<Both> {
    if frames < 1 || frames > 3 {
        return None;
    }
    Some(Both {
        memory: PhysMem::new(alloc, frames).ok()?,
        plain: vec![in alloc; 0; 4096 * frames as usize].ok()?,
        zeros: vec![in alloc; 0; 4096 * frames as usize].ok()?,
    })
}

/// Whether so many bytes from a place on are in the memory.
fn is_inside(memory: &PhysMem, at: u64, count: u64) -> bool
    ensures { result ≡ true → at + count ≤ length memory.now }
{
    let size = 4096 * u64::from(memory.frames());
    count <= size && at <= size - count
}

/// Writes the bytes one by one; whether all are inside.
fn put(plain: &mut [u8], at: u64, bytes: &[u8]) -> bool {
    for (index, byte) in bytes.iter().enumerate() {
        let place = at.saturating_add(index as u64);
        if place >= plain.len() as u64 {
            return false;
        }
        plain[place as usize] = *byte;
    }
    true
}

fn store8(both: &mut Both, at: u64, value: u8) -> bool {
    if !is_inside(&both.memory, at, 1) {
        return false;
    }
    both.memory.store8(at, value);
    put(&mut both.plain, at, &[value])
}

fn store16(both: &mut Both, at: u64, value: u16) -> bool {
    if !is_inside(&both.memory, at, 2) {
        return false;
    }
    both.memory.store16(at, value);
    put(&mut both.plain, at, &value.to_le_bytes())
}

fn store32(both: &mut Both, at: u64, value: u32) -> bool {
    if !is_inside(&both.memory, at, 4) {
        return false;
    }
    both.memory.store32(at, value);
    put(&mut both.plain, at, &value.to_le_bytes())
}

fn store64(both: &mut Both, at: u64, value: u64) -> bool {
    if !is_inside(&both.memory, at, 8) {
        return false;
    }
    both.memory.store64(at, value);
    put(&mut both.plain, at, &value.to_le_bytes())
}

fn zero(both: &mut Both, frame: u32) -> bool {
    if frame >= both.memory.frames() {
        return false;
    }
    both.memory.zero_frame(frame);
    put(&mut both.plain, 4096 * u64::from(frame), &[0; 4096])
}

/// Writes bytes at places that count from `start`; whether all are inside.
fn write_each(bytes: &mut [u8], start: usize, places: &[(usize, u8)]) -> bool {
    for (at, byte) in places {
        let place = start.saturating_add(*at);
        if place >= bytes.len() {
            return false;
        }
        bytes[place] = *byte;
    }
    true
}

fn lend(both: &mut Both, frame: u32, places: &[(usize, u8)]) -> bool {
    frame < both.memory.frames()
        && write_each(both.memory.frame_mut(frame), 0, places)
        && write_each(&mut both.plain, 4096 * frame as usize, places)
}

fn copy(both: &mut Both, frame: u32, at: usize, bytes: &[u8]) -> bool {
    if frame >= both.memory.frames() || at > 4096 || bytes.len() > 4096 - at {
        return false;
    }
    let lent = both.memory.frame_mut(frame);
    lent[at..at + bytes.len()].copy_from_slice(bytes);
    put(&mut both.plain, 4096 * u64::from(frame) + at as u64, bytes)
}

fn is_zero(bytes: &[u8]) -> bool {
    for byte in bytes {
        if *byte != 0 {
            return false;
        }
    }
    true
}

fn is_zero_frame(memory: &PhysMem, frame: u32) -> bool {
    frame < memory.frames() && memory.frame(frame).len() == 4096 && is_zero(memory.frame(frame))
}

/// The first place at which they differ; the length, where that isn't the same.
fn first_other(memory: &PhysMem, plain: &[u8]) -> Option<usize> {
    if 4096 * memory.frames() as usize != plain.len() {
        return Some(plain.len());
    }
    for (at, byte) in plain.iter().enumerate() {
        if memory.load8(at as u64) != *byte {
            return Some(at);
        }
    }
    None
}

fn is_other(both: &Both, count: usize, wanted: Option<usize>) -> bool {
    count <= both.zeros.len() && first_other(&both.memory, &both.zeros[..count]) == wanted
}

/// Whether a step gives what it is to give.
fn is_met(both: &mut Both, step: &Step) -> bool {
    match *step {
        Store8(at, value) => store8(both, at, value),
        Store16(at, value) => store16(both, at, value),
        Store32(at, value) => store32(both, at, value),
        Store64(at, value) => store64(both, at, value),
        Zero(frame) => zero(both, frame),
        Lend(frame, places) => lend(both, frame, places),
        Copy(frame, at, bytes) => copy(both, frame, at, bytes),
        Plain(at, byte) => put(&mut both.plain, at, &[byte]),
        told => is_told(both, &told),
    }
}

/// Whether memory tells what a step is to give.
fn is_told(both: &Both, step: &Step) -> bool {
    let memory = &both.memory;
    match *step {
        Load8(at, value) => is_inside(memory, at, 1) && memory.load8(at) == value,
        Load16(at, value) => is_inside(memory, at, 2) && memory.load16(at) == value,
        Load32(at, value) => is_inside(memory, at, 4) && memory.load32(at) == value,
        Load64(at, value) => is_inside(memory, at, 8) && memory.load64(at) == value,
        Begins(frame, bytes) => frame < memory.frames() && memory.frame(frame).starts_with(bytes),
        IsZero(frame) => is_zero_frame(memory, frame),
        Frames(count) => memory.frames() == count,
        Other(count, place) => is_other(both, count, place),
        _ => false,
    }
}

/// The index of the first step that gives something else, or after which memory isn't as the plain vector. Want of memory
/// fails at 0.
fn wrong_step(alloc: Global, frames: u32, steps: &[Step]) -> Option<usize> {
    let Some(mut both) = begin(alloc, frames) else {
        return Some(0);
    };
    first_wrong(
        steps,
        |step| is_met(&mut both, step) && first_other(&both.memory, &both.plain).is_none(),
    )
}

/// How many frames the memory has, steps, and the index of the first that is answered otherwise.
type Case = (u32, &'static [Step], Option<usize>);

static CASES: [Case; 9] = [
    // A new memory is 0.
    (3, &[Frames(3), IsZero(2), Load64(12_280, 0)], None),
    // A word across frames is least significant first.
    (
        2,
        &[
            Store64(4093, 0x1122_3344_5566_7788),
            Store8(4101, 0x99),
            Load8(4092, 0),
            Load8(4093, 0x88),
            Load8(4095, 0x66),
            Load8(4100, 0x11),
            Begins(1, &[0x55, 0x44, 0x33, 0x22, 0x11, 0x99]),
            Load64(4094, 0x9911_2233_4455_6677),
        ],
        None,
    ),
    // Parts of a word are least significant first.
    (
        2,
        &[
            Store64(4092, 0x8877_6655_4433_2211),
            Load16(4095, 0x5544),
            Load32(4094, 0x6655_4433),
            Store16(4095, 0xABCD),
            Load64(4092, 0x8877_66AB_CD33_2211),
            Store32(4094, 0x0102_0304),
            Load64(4092, 0x8877_0102_0304_2211),
            Store32(8188, u32::MAX),
            Load16(8190, 0xFFFF),
            Load32(8188, 0xFFFF_FFFF),
        ],
        None,
    ),
    // A lent frame is read by words.
    (
        2,
        &[
            Lend(1, &[(8, 0x11), (9, 0x22), (15, 0x88)]),
            Frames(2),
            Load64(4104, 0x8800_0000_0000_2211),
            Load8(4105, 0x22),
            Load64(0, 0),
        ],
        None,
    ),
    // Bytes that are copied into a lent frame stand beside others.
    (
        2,
        &[
            Store8(7, 9),
            Copy(0, 2, &[1, 2, 3]),
            Begins(0, &[0, 0, 1, 2, 3, 0, 0, 9]),
            Load8(3, 2),
        ],
        None,
    ),
    // A zeroed frame leaves its neighbours.
    (
        3,
        &[
            Store64(4092, u64::MAX),
            Store64(8188, u64::MAX),
            Zero(1),
            Load64(4092, 0xffff_ffff),
            Load64(8188, 0xffff_ffff_0000_0000),
            IsZero(1),
        ],
        None,
    ),
    // After many steps bytes of 0 are another program.
    (
        2,
        &[
            Store64(0, 0x0102_0304_0506_0708),
            Store64(4090, 0xa1a2_a3a4_a5a6_a7a8),
            Store8(4095, 0x5a),
            Lend(1, &[(0, 0xfe)]),
            Store64(8184, u64::MAX),
            Zero(0),
            Lend(0, &[(4095, 0x7f)]),
            Store64(4089, 1),
            Store8(8191, 0),
            Other(8192, Some(4089)),
            Other(8191, Some(8191)),
        ],
        None,
    ),
    // A step with another answer is found, at its place.
    (1, &[Store8(5, 1), Load8(5, 2), Load8(5, 1)], Some(1)),
    // A byte that the plain vector alone has is found.
    (1, &[Store8(5, 1), Plain(4095, 1)], Some(1)),
];

#[test]
fn memory_is_as_the_plain_vector(rt: HostRuntime) {
    for (frames, steps, wrong) in &CASES {
        assert!(rt; wrong_step(rt.alloc(), *frames, steps) == *wrong);
    }
}
