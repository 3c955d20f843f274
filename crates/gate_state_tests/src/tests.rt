//! Runs of short programs over an opening of 512 frames, with values by the manual: what each step shows, and where the
//! machine stands with WP clear. A program's text begins at FFFFFFFF80000000.

mod attacks;
mod books;
mod calls;
mod cases;
mod descriptors;
mod jumps;
mod opening;
mod programs;
mod regions;
mod stretches;
mod windows;

ghost use Rattle.std.specs.Prelude.{◌≡◌, IfSome, None};
ghost use Rattle.boot_map.specs.Division.{IsLayout};
ghost use Rattle.boot_map.specs.Opening.{IsOpening};
ghost use Rattle.boot_map.specs.OpeningKinds.{kinds};
ghost use Rattle.byte_scanner.specs.FirstFound.{first_found};
ghost use Rattle.phys_mem.specs.MaskedMemory.{seen};
ghost use Rattle.page_desc.specs.DescriptorBytes.{kinds_in};
ghost use Rattle.nk_body.specs.NestedRecord.{HoldsBooks, books_in};
ghost use Rattle.nk_body.specs.SourceWords.{opening_ledger};

use boot_map::{Layout, prepare};
use byte_scanner::scan;
use elf_image::Image;
use gate_state::{Called, Finished, Machine, OuterMachine, Seen};
use gate_text::is_point;
use irq_plan::Plan;
use nk_bits::{BODY, Delivery, GATE};
use nk_body::Kernel;
use phys_mem::PhysMem;
use std::alloc::{AllocError, Global};
use test_kit::image_file;
use x86_regs::Regs;

/// The handler at the opening: the halt loop of the gates' text.
const HALTS: u64 = 0xFFFF_FF80_0000_11DA;

/// More turns than a test takes.
const MOST: u64 = 1_000_000;

/// The file of a program's text with zeros behind it, 256 bytes.
fn file(alloc: Global, text: &[u8]) -> Result<Vec<u8>, AllocError> {
    let mut text = text.to_vec(alloc)?;
    text.resize(256, 0)?;
    image_file(alloc, &text, 256)
}

/// What the steps of a run showed.
#[derive(Clone, Copy)]
struct Log {
    /// The first delivery, and the last one.
    delivered: [Option<Delivery>; 2],
    /// The last call, and the first bytes that were read for it.
    called: Option<Called>,
    read: [u8; 4],
    /// The last byte that went to the console.
    console: Option<u8>,
    /// How many events were taken.
    events: u32,
    /// With WP clear the machine always stood at a gate point.
    stood: bool,
    /// How many turns are left in the first states with WP clear, as many as there are places; zeros behind.
    lefts: [u8; 12],
    states: usize,
    /// The turns in a row that began with WP clear: the latest ones, and the most. An event is no turn.
    row: u32,
    longest: u32,
}

const NOTHING: Log = Log {
    delivered: [None; 2],
    called: None,
    read: [0; 4],
    console: None,
    events: 0,
    stood: true,
    lefts: [0; 12],
    states: 0,
    row: 0,
    longest: 0,
};

/// What a run showed, and what it left.
#[derive(Clone, Copy)]
struct Ran {
    log: Log,
    turns: u64,
    regs: Regs,
    /// Whether the machine rests for good.
    rests: bool,
    /// The handler of traps, by the books and in memory.
    trap: [u64; 2],
    /// The five numbers at the top of the trap stack: RIP, CS, RFLAGS, RSP and SS (SDM volume 3, figure 6-9).
    frame: [u64; 5],
}

/// Notes what a step shows.
fn note(log: &mut Log, seen: &Seen) {
    match seen {
        Seen::Event => log.events = log.events.saturating_add(1),
        Seen::Quiet => {}
        Seen::Console(byte) => log.console = Some(*byte),
        Seen::Delivered(it) => {
            let [first, _] = log.delivered;
            log.delivered = [first.or(Some(*it)), Some(*it)];
        }
    }
}

/// How many turns are left, where WP is clear.
fn left(machine: &Machine) -> Option<u8> {
    match machine {
        Machine::Outer(_) => None,
        Machine::Gate(gate) => Some(gate.left()),
        Machine::Nested(nested) => Some(nested.left()),
    }
}

/// Notes how many turns are left.
fn note_left(log: &mut Log, left: Option<u8>) {
    if let Some(left) = left
        && log.states < 12
    {
        log.lefts[log.states] = left;
        log.states += 1;
    }
}

/// Notes a turn that began with WP clear or set.
fn note_turn(log: &mut Log, clear: bool) {
    log.row = if clear { log.row.saturating_add(1) } else { 0 };
    log.longest = log.longest.max(log.row);
}

/// Whether the machine stands where it may with WP clear.
fn stands(machine: &Machine) -> bool {
    let rip = machine.processor().regs().rip;
    match machine {
        Machine::Outer(_) => true,
        Machine::Gate(_) => {
            let offset = rip.wrapping_sub(GATE);
            offset != BODY - GATE && offset < 4096 && is_point(offset as usize)
        }
        Machine::Nested(_) => rip == BODY,
    }
}

/// The registers, and how many turns were taken.
fn seen_in(machine: &Machine) -> (Regs, u64) {
    (*machine.processor().regs(), machine.turns())
}

/// The first bytes of a source, where it has as many.
fn first_bytes(source: &[u8]) -> [u8; 4] {
    match source.first_chunk() {
        Some(first) => *first,
        None => [0; 4],
    }
}

/// A step, where one is left and the turns are few.
fn advanced<'i>(machine: Machine<'i>, plan: &Plan, log: &mut Log) -> Machine<'i> {
    log.stood = log.stood && stands(&machine);
    match machine {
        Machine::Outer(outer) => {
            if outer.done(plan) || outer.turns() >= MOST {
                return Machine::Outer(outer);
            }
            let (next, seen) = outer.step(plan);
            note(log, &seen);
            next
        }
        Machine::Gate(gate) => {
            if gate.turns() >= MOST {
                return Machine::Gate(gate);
            }
            let (next, seen) = gate.step(plan);
            note(log, &seen);
            next
        }
        Machine::Nested(nested) => {
            if nested.turns() >= MOST {
                return Machine::Nested(nested);
            }
            let (next, called) = nested.serve();
            log.called = Some(called);
            log.read = first_bytes(next.source());
            Machine::Gate(next)
        }
    }
}

fn finished(machine: Machine) -> Finished
    ensures { HoldsBooks result.kernel result.mem }
{
    match machine {
        Machine::Outer(outer) => outer.finish(),
        Machine::Gate(gate) => gate.finish(),
        Machine::Nested(nested) => nested.finish(),
    }
}

/// The handler of traps by the books, and in memory.
fn handlers(end: &Finished) -> [u64; 2]
    requires { HoldsBooks end.now.kernel end.now.mem }
{
    [end.kernel.trap(), end.mem.load64(0x2000)]
}

/// The numbers at the top of the trap stack.
fn frame(end: &Finished) -> [u64; 5]
    requires { HoldsBooks end.now.kernel end.now.mem }
{
    [
        end.mem.load64(0x3FD8),
        end.mem.load64(0x3FE0),
        end.mem.load64(0x3FE8),
        end.mem.load64(0x3FF0),
        end.mem.load64(0x3FF8),
    ]
}

/// So many steps of a machine, or fewer where it rests.
fn driven(start: OuterMachine, plan: &Plan, steps: u32) -> Ran {
    let mut log = NOTHING;
    let mut machine = Machine::Outer(start);
    for _ in 0..steps {
        let left = left(&machine);
        let before = machine.turns();
        note_left(&mut log, left);
        machine = advanced(machine, plan, &mut log);
        if machine.turns() != before {
            note_turn(&mut log, left.is_some());
        }
    }
    ended(machine, plan, log)
}

/// What a run under a plan showed, and what it left.
fn ended(machine: Machine, plan: &Plan, log: Log) -> Ran {
    let (regs, turns) = seen_in(&machine);
    let rests = machine.done(plan);
    let end = finished(machine);
    Ran {
        log,
        turns,
        regs,
        rests,
        trap: handlers(&end),
        frame: frame(&end),
    }
}

/// Books, and the memory that they are of.
#[derive(Drop)]
struct Opened {
    kernel: Kernel,
    mem: PhysMem,
}

/// Memory and books of the opening; None for want of memory.
fn open(alloc: Global, image: &Image, layout: &Layout) -> Option<Opened>
    requires { IsLayout image.now layout.now }
    ensures opening { IfSome result (λ it. IsOpening image.now layout.now.frames (seen it.mem)) }
    ensures kinds { IfSome result (λ it. kinds_in it.mem ≡ kinds image.now layout.now.frames) }
    ensures root { IfSome result (λ it. it.kernel.root ≡ 5) }
    ensures ledger { IfSome result (λ it. (books_in it.kernel it.mem).ledger ≡ opening_ledger) }
    ensures books { IfSome result (λ it. HoldsBooks it.kernel it.mem) }
{
    let Ok(mut mem) = prepare(alloc, image, layout) else {
        return None;
    };
    match Kernel::start(alloc, &mut mem, image, layout) {
        Ok(kernel) => Some(Opened { kernel, mem }),
        Err(_) => None,
    }
}

/// The image in a file, in which nothing is protected.
fn admitted(file: Vec<u8>) -> Option<Image>
    ensures { IfSome result (λ image. first_found image ≡ None) }
{
    let Ok(image) = Image::read(file) else {
        return None;
    };
    match scan(&image) {
        Some(_) => None,
        None => Some(image),
    }
}

/// The machine as a run of the image begins; None for want of memory.
fn begun<'i>(
    alloc: Global,
    image: &'i Image,
    layout: &'i Layout,
    input: Vec<u8>,
) -> Option<OuterMachine<'i>>
    requires layout { IsLayout image.now layout.now }
    requires clean { first_found image.now ≡ None }
{
    let Some(it) = open(alloc, image, layout) else {
        return None;
    };
    let Opened { kernel, mem } = it;
    OuterMachine::start(alloc, mem, kernel, image, layout, input).ok()
}

/// The image of a program, in which nothing is protected.
fn program(alloc: Global, text: &[u8]) -> Option<Image>
    ensures { IfSome result (λ image. first_found image ≡ None) }
{
    match file(alloc, text) {
        Ok(file) => admitted(file),
        Err(_) => None,
    }
}

/// So many steps of a program under the plan that these bytes are, or fewer where it rests; None for want of memory.
fn run(alloc: Global, text: &[u8], plan: &[u8], steps: u32) -> Option<Ran> {
    let Some(image) = program(alloc, text) else {
        return None;
    };
    let Ok(plan) = Plan::read(alloc, plan) else {
        return None;
    };
    let Ok(layout) = Layout::of(&image, 512) else {
        return None;
    };
    match begun(alloc, &image, &layout, Vec::new(alloc)) {
        Some(machine) => Some(driven(machine, &plan, steps)),
        None => None,
    }
}

/// A decimal digit of a number, the last one.
fn digit(number: u32) -> u8 {
    b'0' + (number % 10) as u8
}

/// The plan of one interrupt, 32 or 33 by its last digit, that is due after so many turns.
fn interrupt(due: u32, last: u8) -> [u8; 11] {
    [
        digit(due / 1000),
        digit(due / 100),
        digit(due / 10),
        digit(due),
        b' ',
        b'i',
        b'r',
        b'q',
        b' ',
        b'3',
        last,
    ]
}
