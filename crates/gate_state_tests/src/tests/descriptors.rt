//! Worked cases of the books as memory holds them, in a run's closing memory and behind each call of a run: the bytes of
//! descriptors are what is told of kind, loose leaves and links, and the counts are those of the tables, entry by entry.
ghost use Rattle.std.specs.Prelude.{◌≤◌, IfSome};
ghost use Rattle.page_desc.specs.DescriptorBytes.{HoldsDescriptors};
ghost use Rattle.nk_body.specs.CallRules.{IsSourceOf};
ghost use Rattle.nk_body.specs.NestedRecord.{HoldsBooks};
ghost use Rattle.nk_body.specs.SourceWords.{sourced_of};

use super::books::{Books, are_slots_right};
use super::{Opened, admitted, begun, file, open};
use boot_map::Layout;
use gate_state::{Called, Finished, Machine};
use image_maker::make_image;
use irq_plan::Plan;
use nk_bits::{AREA_TABLE, Entry, IMAGE_DIRECTORY, Kind};
use nk_body::Source;
use page_desc::Frames;
use phys_mem::PhysMem;
use std::alloc::{AllocError, Global};
use std::test::Fail;

/// Where the descriptors stand, and how many bytes each has.
const DESCRIPTORS: u64 = 0x4_0000;

const SIZE: u64 = 16;

/// The number of entries of a table.
const ENTRIES: u32 = 512;

/// More turns and steps than a test takes.
const MOST: u64 = 100_000;

/// A byte of memory; 0 past its end.
fn byte(mem: &PhysMem, at: u64) -> u8 {
    if at < 4096 * u64::from(mem.frames()) {
        mem.load8(at)
    } else {
        0
    }
}

/// The bytes of a frame's descriptor.
fn descriptor(mem: &PhysMem, frame: u32) -> [u8; 16] {
    let mut bytes = [0; 16];
    for at in 0..16 {
        bytes[at] = byte(mem, DESCRIPTORS + SIZE * u64::from(frame) + at as u64);
    }
    bytes
}

/// The bytes that stand for what is told of a frame.
fn told(frames: &Frames, mem: &PhysMem, frame: u32) -> [u8; 16]
    requires { HoldsDescriptors frames.now mem.now }
{
    let (code, level) = match frames.kind(mem, frame) {
        Kind::Data => (0, 0),
        Kind::Code => (1, 0),
        Kind::Table(level) => (2, level),
        Kind::Fixed => (3, 0),
        Kind::Trap => (4, 0),
        Kind::Guarded => (5, 0),
        Kind::Hidden => (6, 0),
    };
    let loose = u32::to_le_bytes(frames.loose(mem, frame));
    let links = u32::to_le_bytes(frames.links(mem, frame));
    [
        code, level, 0, 0, loose[0], loose[1], loose[2], loose[3], links[0], links[1], links[2],
        links[3], 0, 0, 0, 0,
    ]
}

/// How often tables name each frame.
#[derive(Drop)]
struct Counts {
    loose: Vec<u32>,
    links: Vec<u32>,
}

/// The frame is named once more.
fn raise(list: &mut [u32], frame: u64) {
    if frame < list.len() as u64 {
        let frame = frame as usize;
        list[frame] = list[frame].saturating_add(1);
    }
}

/// How often the frame is named; more than ever past the list.
fn named(list: &[u32], frame: u32) -> u32 {
    if (frame as usize) < list.len() {
        list[frame as usize]
    } else {
        u32::MAX
    }
}

/// An entry of a frame; 0 past the end of memory.
fn entry(mem: &PhysMem, frame: u32, index: u32) -> Entry {
    if frame < mem.frames() && index < ENTRIES {
        Entry(mem.entry(frame, index))
    } else {
        Entry(0)
    }
}

/// Whether the kernel slot's table of level 2 for the image names the frame.
fn is_named(mem: &PhysMem, frame: u32) -> bool {
    for index in 0..ENTRIES {
        let entry = entry(mem, IMAGE_DIRECTORY, index);
        if entry.is_present() && entry.frame() == u64::from(frame) {
            return true;
        }
    }
    false
}

/// The level of the table in a frame; 0 where it holds none whose entries count.
fn level(mem: &PhysMem, kind: Kind, frame: u32) -> u8 {
    match kind {
        Kind::Table(level) => level,
        Kind::Fixed => u8::from(frame == AREA_TABLE || is_named(mem, frame)),
        _ => 0,
    }
}

/// Counts an entry of a table of this level.
fn count_entry(counts: &mut Counts, level: u8, entry: Entry) {
    let rights = entry.rights();
    if !entry.is_present() {
        return;
    }
    if level > 1 {
        raise(counts.links.as_mut_slice(), entry.frame());
    } else if rights.can_write || rights.user {
        raise(counts.loose.as_mut_slice(), entry.frame());
    }
}

/// The counts by all entries of all tables.
fn counted(alloc: Global, frames: &Frames, mem: &PhysMem) -> Result<Counts, AllocError>
    requires { HoldsDescriptors frames.now mem.now }
{
    let mut counts = Counts {
        loose: vec![in alloc; 0; frames.frames() as usize]?,
        links: vec![in alloc; 0; frames.frames() as usize]?,
    };
    for frame in 0..frames.frames() {
        let level = level(mem, frames.kind(mem, frame), frame);
        if level > 0 {
            for index in 0..ENTRIES {
                count_entry(&mut counts, level, entry(mem, frame, index));
            }
        }
    }
    Ok(counts)
}

/// The first frame whose descriptor isn't what is told and counted of it.
fn wrong_frame(alloc: Global, frames: &Frames, mem: &PhysMem) -> Result<Option<u32>, AllocError>
    requires { HoldsDescriptors frames.now mem.now }
{
    let counts = counted(alloc, frames, mem)?;
    for frame in 0..frames.frames() {
        let is_told = descriptor(mem, frame) == told(frames, mem, frame);
        let is_counted = frames.loose(mem, frame) == named(&counts.loose, frame)
            && frames.links(mem, frame) == named(&counts.links, frame);
        if !is_told || !is_counted {
            return Ok(Some(frame));
        }
    }
    Ok(None)
}

/// What was read for a call that takes so many bytes.
fn read<'s>(wanted: Option<u64>, data: &'s [u8]) -> Source<'s>
    ensures { IsSourceOf wanted (sourced_of result) }
{
    match wanted {
        None => Source::NotTaken,
        Some(count) => {
            if count <= data.len() as u64 {
                Source::Bytes(&data[..count as usize])
            } else {
                Source::Unreadable
            }
        }
    }
}

/// The calls of a run, and how many of them left a book that isn't right, or were answered otherwise.
#[derive(Clone, Copy, Debug, PartialEq, Eq)]
struct Made {
    calls: u32,
    wrong: u32,
}

/// Makes a call as a run made it; whether it is answered as there, and all books are right behind it.
fn serve(
    alloc: Global,
    beside: &mut Opened,
    books: &mut Books,
    called: &Called,
    source: &[u8],
) -> bool
    requires { HoldsBooks beside.old.kernel beside.old.mem }
    ensures { HoldsBooks beside.new.kernel beside.new.mem }
{
    let Opened { kernel, mem } = beside;
    if kernel.regions().next() >= 1 << 63 {
        return false;
    }
    books.follow(mem, called, source);
    let source = read(kernel.wants(mem, &called.call), source);
    let answer = kernel.serve(mem, &called.call, source);
    if !books.are_in(mem) || !are_slots_right(kernel, mem) {
        return false;
    }
    match wrong_frame(alloc, &kernel.tables().frames, mem) {
        Ok(wrong) => answer == called.answer && wrong.is_none(),
        Err(_) => false,
    }
}

/// A step of a run, where one is left and the turns are few, with the call that it makes made beside it.
fn step<'i>(
    alloc: Global,
    machine: Machine<'i>,
    plan: &Plan,
    beside: &mut Opened,
    books: &mut Books,
    made: &mut Made,
) -> Machine<'i>
    requires { HoldsBooks beside.old.kernel beside.old.mem }
    ensures { HoldsBooks beside.new.kernel beside.new.mem }
{
    match machine {
        Machine::Outer(outer) => {
            if outer.done(plan) || outer.turns() >= MOST {
                return Machine::Outer(outer);
            }
            let (next, _) = outer.step(plan);
            next
        }
        Machine::Gate(gate) => {
            if gate.turns() >= MOST {
                return Machine::Gate(gate);
            }
            let (next, _) = gate.step(plan);
            next
        }
        Machine::Nested(nested) => {
            if nested.turns() >= MOST {
                return Machine::Nested(nested);
            }
            let (next, called) = nested.serve();
            let is_right = serve(alloc, beside, books, &called, next.source());
            made.calls = made.calls.saturating_add(1);
            made.wrong = made.wrong.saturating_add(u32::from(!is_right));
            Machine::Gate(next)
        }
    }
}

/// What a run left, and what came of its calls beside it.
#[derive(Drop)]
struct Ran {
    end: Finished,
    beside: Opened,
    noted: (u64, usize),
    made: Made,
}

/// Runs the image in a file; None where it isn't admitted, or for want of memory.
fn run(alloc: Global, file: Vec<u8>, frames: u32) -> Option<Ran>
    requires { (512 ≤ frames) × (frames ≤ 65536) }
    ensures end { IfSome result (λ it. HoldsBooks it.end.kernel it.end.mem) }
    ensures beside { IfSome result (λ it. HoldsBooks it.beside.kernel it.beside.mem) }
{
    let Some(image) = admitted(file) else {
        return None;
    };
    let Ok(layout) = Layout::of(&image, frames) else {
        return None;
    };
    let Ok(plan) = Plan::read(alloc, b"") else {
        return None;
    };
    let Ok(mut books) = Books::new(alloc) else {
        return None;
    };
    let Some(mut beside) = open(alloc, &image, &layout) else {
        return None;
    };
    let Some(start) = begun(alloc, &image, &layout, Vec::new(alloc)) else {
        return None;
    };
    let mut made = Made { calls: 0, wrong: 0 };
    let mut machine = Machine::Outer(start);
    for _ in 0..MOST {
        machine = step(alloc, machine, &plan, &mut beside, &mut books, &mut made);
    }
    Some(Ran {
        end: machine.finish(),
        beside,
        noted: books.noted(),
        made,
    })
}

/// Whether both memories hold the same descriptors of so many frames.
fn are_same(one: &PhysMem, other: &PhysMem, frames: u32) -> bool {
    for frame in 0..frames {
        if descriptor(one, frame) != descriptor(other, frame) {
            return false;
        }
    }
    true
}

/// What the run of an image leaves: the descriptors of two frames in the closing memory, the first frame whose descriptor
/// isn't right there, whether the calls alone left the same ones, how many records and bytes the log has, and what came of them.
#[derive(Clone, Copy, Debug, PartialEq, Eq)]
struct Left {
    shown: [[u8; 16]; 2],
    wrong: Option<u32>,
    same: bool,
    noted: (u64, usize),
    made: Made,
}

/// What the run of the image in a file leaves; None for want of memory.
fn leave(alloc: Global, file: Vec<u8>, frames: u32, shown: [u32; 2]) -> Option<Left>
    requires { (512 ≤ frames) × (frames ≤ 65536) }
{
    let Some(ran) = run(alloc, file, frames) else {
        return None;
    };
    let Ran {
        end,
        beside,
        noted,
        made,
    } = ran;
    let Ok(wrong) = wrong_frame(alloc, &end.kernel.tables().frames, &end.mem) else {
        return None;
    };
    Some(Left {
        shown: [
            descriptor(&end.mem, shown[0]),
            descriptor(&end.mem, shown[1]),
        ],
        wrong,
        same: are_same(&end.mem, &beside.mem, frames),
        noted,
        made,
    })
}

/// MOV RBX, the direct map's address of frame 71, which is the first free one; MOV [RBX], AL. MOV EDI, 3; MOV ESI, 70;
/// MOV EDX, 71; MOV RCX, a leaf of frame 71 that grants reads alone; MOV RAX, the gates; CALL RAX; MOV [RBX], AL. MOV
/// EDI, 2; MOV ESI, 1; MOV EDX, 71; MOV RAX, the gates; CALL RAX; MOV [RBX], AL. The second store goes through the
/// translation that the first one kept. The declaration empties the translations, so the third store faults.
const DECLARES: [u8; 80] = [
    0x48, 0xbb, 0x00, 0x70, 0x04, 0x00, 0x00, 0x80, 0xff, 0xff, 0x88, 0x03, 0xbf, 0x03, 0x00, 0x00,
    0x00, 0xbe, 0x46, 0x00, 0x00, 0x00, 0xba, 0x47, 0x00, 0x00, 0x00, 0x48, 0xb9, 0x21, 0x70, 0x04,
    0x00, 0x00, 0x00, 0x00, 0x80, 0x48, 0xb8, 0x00, 0x10, 0x00, 0x00, 0x80, 0xff, 0xff, 0xff, 0xff,
    0xd0, 0x88, 0x03, 0xbf, 0x02, 0x00, 0x00, 0x00, 0xbe, 0x01, 0x00, 0x00, 0x00, 0xba, 0x47, 0x00,
    0x00, 0x00, 0x48, 0xb8, 0x00, 0x10, 0x00, 0x00, 0x80, 0xff, 0xff, 0xff, 0xff, 0xd0, 0x88, 0x03,
];

#[test]
fn a_closing_memory_holds_the_descriptors(rt: HostRuntime) -> Result<(), Fail> {
    let alloc = rt.alloc();
    // Frame 70 is a table of level 1, which one entry links; the run makes one of frame 71, and links it nowhere.
    let left = Left {
        shown: [
            [2, 1, 0, 0, 0, 0, 0, 0, 1, 0, 0, 0, 0, 0, 0, 0],
            [2, 1, 0, 0, 0, 0, 0, 0, 0, 0, 0, 0, 0, 0, 0, 0],
        ],
        wrong: None,
        same: true,
        noted: (0, 0),
        made: Made { calls: 2, wrong: 0 },
    };
    let file = file(alloc, &DECLARES)?;
    assert_eq!(rt; leave(alloc, file, 512, [70, 71]), Some(left));
    Ok(())
}

#[test]
fn each_call_leaves_the_books_right(rt: HostRuntime) -> Result<(), Fail> {
    let alloc = rt.alloc();
    // Frame 5 is the opening's root, and frame 26 the first one of the books.
    let left = Left {
        shown: [
            [2, 4, 0, 0, 0, 0, 0, 0, 0, 0, 0, 0, 0, 0, 0, 0],
            [6, 0, 0, 0, 0, 0, 0, 0, 0, 0, 0, 0, 0, 0, 0, 0],
        ],
        wrong: None,
        same: true,
        noted: (3, 168),
        made: Made {
            calls: 52,
            wrong: 0,
        },
    };
    let file = make_image(alloc, 3)?;
    assert_eq!(rt; leave(alloc, file, 4096, [5, 26]), Some(left));
    Ok(())
}
