//! The tables of the machine's opening layout, and entries that are missing.

ghost use Rattle.std.specs.Prelude.{◌≡◌, length};

use nk_bits::{Leaf, Rights, Upper, canonical};
use page_walk::{Missing, upper, walk, walk_below};
use phys_mem::PhysMem;
use std::alloc::Global;
use test_kit::first_wrong;

/// What is done with a memory of sixteen frames, and what it is to give.
#[derive(Clone, Copy)]
enum Step {
    /// A place, and the number that is stored there.
    Store(u64, u64),
    /// The frame of the root, an address, and what its walk finds.
    Walk(u32, u64, Result<Leaf, Missing>),
    /// The frame of the root, and an address whose walk finds a leaf, whichever it is.
    Leads(u32, u64),
    /// An address, a level, and what the entry of that level names on the walk from frame 1.
    Names(u64, u8, Option<Upper>),
    /// A level, what its entry names, an address, and what the walk below the entry finds.
    Below(u8, Upper, u64, Result<Leaf, Missing>),
}

/// A memory of sixteen frames.
#[derive(Drop)]
struct Small {
    memory: PhysMem,
    ghost sized: { length memory ≡ 65536 },
}

impl Small {
    fn is_met(&mut self, step: &Step) -> bool {
        is_met(&mut self.memory, step)
    }
}

/// Whether a step gives what it is to give.
fn is_met(memory: &mut PhysMem, step: &Step) -> bool
    requires { length memory.old ≡ 65536 }
    ensures { length memory.new ≡ 65536 }
{
    match *step {
        Step::Store(at, value) => is_stored(memory, at, value),
        Step::Walk(root, va, found) => {
            root < 16 && canonical(va) && walk(memory, root, va) == found
        }
        Step::Leads(root, va) => root < 16 && canonical(va) && walk(memory, root, va).is_ok(),
        Step::Names(va, level, found) => {
            2 <= level && level <= 4 && canonical(va) && upper(memory, 1, va, level) == found
        }
        Step::Below(level, from, va, found) => is_below(memory, level, &from, va, found),
    }
}

/// Stores a number, where its place is in memory.
fn is_stored(memory: &mut PhysMem, at: u64, value: u64) -> bool
    requires { length memory.old ≡ 65536 }
    ensures { length memory.new ≡ 65536 }
{
    if at <= 0xFFF8 {
        memory.store64(at, value);
    }
    at <= 0xFFF8
}

/// Whether a walk below an entry finds this.
fn is_below(
    memory: &PhysMem,
    level: u8,
    from: &Upper,
    va: u64,
    found: Result<Leaf, Missing>,
) -> bool
    requires { length memory.now ≡ 65536 }
{
    2 <= level
        && level <= 4
        && from.frame < 16
        && canonical(va)
        && walk_below(memory, level, from, va) == found
}

/// The index of the first step that gives something else. Want of memory fails at 0.
fn wrong_step(alloc: Global, steps: &[Step]) -> Option<usize> {
    let Ok(memory) = PhysMem::new(alloc, 16) else {
        return Some(0);
    };
    let mut small = Small { memory };
    first_wrong(steps, |step| small.is_met(step))
}

/// The address of the gate's text.
const GATE: u64 = 0xFFFF_FF80_0000_1000;

const NONE: Rights = Rights {
    can_write: false,
    user: false,
    exec: false,
};

const ALL: Rights = Rights {
    can_write: true,
    user: true,
    exec: true,
};

const TEXT: Leaf = Leaf {
    frame: 1,
    rights: Rights {
        can_write: false,
        user: false,
        exec: true,
    },
};

const STACK: Leaf = Leaf {
    frame: 3,
    rights: Rights {
        can_write: true,
        user: false,
        exec: false,
    },
};

/// What the entries of a chain of tables name: at level 4 one denies fetches, at level 3 writes, at level 2 the user.
const FOURTH: Upper = Upper {
    frame: 2,
    rights: Rights {
        can_write: true,
        user: true,
        exec: false,
    },
};

const THIRD: Upper = Upper {
    frame: 3,
    rights: Rights {
        can_write: false,
        user: true,
        exec: false,
    },
};

const SECOND: Upper = Upper {
    frame: 4,
    rights: NONE,
};

/// Entries of the chain with other rights than its own, for walks that begin below them.
const FREE_FOURTH: Upper = Upper {
    frame: 2,
    rights: ALL,
};

const FREE_THIRD: Upper = Upper {
    frame: 3,
    rights: ALL,
};

const GIVEN_SECOND: Upper = Upper {
    frame: 4,
    rights: Rights {
        can_write: true,
        user: false,
        exec: true,
    },
};

/// What those walks find: the chain's page, with the rights of the given entry, as those below it narrow them.
const PAGE: Leaf = Leaf {
    frame: 9,
    rights: Rights {
        can_write: true,
        user: false,
        exec: true,
    },
};

const NARROWED: Leaf = Leaf {
    frame: 9,
    rights: Rights {
        can_write: false,
        user: false,
        exec: true,
    },
};

/// Steps over a memory of zeros, and the index of the first that is to give something else.
type Case = (&'static [Step], Option<usize>);

#[rattlefmt::skip]
static CASES: [Case; 11] = [
    // The leaf of the gate, and its neighbours.
    (&[
        Step::Store(0x5FF8, 0x6027),
        Step::Store(0x6000, 0x7027),
        Step::Store(0x7000, 0x8027),
        Step::Store(0x8008, 0x1021),
        Step::Store(0x8018, 0x8000_0000_0000_3063),
        Step::Walk(5, GATE, Ok(TEXT)),
        Step::Walk(5, GATE + 0xFFF, Ok(TEXT)),
        Step::Walk(5, GATE + 0x2000, Ok(STACK)),
        Step::Walk(5, GATE + 0x1000, Err(Missing { level: 1 })),
        Step::Walk(5, GATE + 0x20_0000, Err(Missing { level: 2 })),
        Step::Walk(5, GATE + 0x4000_0000, Err(Missing { level: 3 })),
        Step::Walk(5, 0, Err(Missing { level: 4 })),
    ], None),
    // Rights are common to all levels.
    (&[
        Step::Store(0x1000, 0x8000_0000_0000_2027),
        Step::Store(0x2000, 0x3025),
        Step::Store(0x3000, 0x4023),
        Step::Store(0x4000, 0x9067),
        Step::Walk(1, 0, Ok(Leaf { frame: 9, rights: NONE })),
        Step::Store(0x1000, 0x2027),
        Step::Store(0x2000, 0x3027),
        Step::Store(0x3000, 0x4027),
        Step::Walk(1, 0, Ok(Leaf { frame: 9, rights: ALL })),
    ], None),
    // Large pages and frames outside memory are missing.
    (&[
        Step::Store(0x1000, 0x20A7),
        Step::Store(0x2000, 0x30A7),
        Step::Walk(1, 0, Err(Missing { level: 3 })),
        Step::Store(0x2000, 0x3027),
        Step::Store(0x3000, 0x40A7),
        Step::Walk(1, 0, Err(Missing { level: 2 })),
        Step::Store(0x3000, 0x4027),
        Step::Store(0x4000, 0x10067),
        Step::Walk(1, 0, Err(Missing { level: 1 })),
        Step::Store(0x4000, 0xF0E7),
        Step::Leads(1, 0),
    ], None),
    // Upper entries down to the first that is missing, in the chain.
    (&[
        Step::Store(0x1000, 0x8000_0000_0000_2027),
        Step::Store(0x2000, 0x3025),
        Step::Store(0x3000, 0x4023),
        Step::Store(0x4000, 0x9067),
        Step::Names(0, 4, Some(FOURTH)),
        Step::Names(0, 3, Some(THIRD)),
        Step::Names(0, 2, Some(SECOND)),
        Step::Names(0x1000, 2, Some(SECOND)),
        Step::Names(0x20_0000, 3, Some(THIRD)),
        Step::Names(0x20_0000, 2, None),
        Step::Names(0x4000_0000, 4, Some(FOURTH)),
        Step::Names(0x4000_0000, 3, None),
        Step::Names(0x4000_0000, 2, None),
        Step::Names(0x80_0000_0000, 4, None),
        Step::Store(0x3000, 0x40A3),
        Step::Names(0, 3, Some(THIRD)),
        Step::Names(0, 2, None),
        Step::Store(0x2000, 0x1_0025),
        Step::Names(0, 3, None),
    ], None),
    // Walks below upper entries keep their rights, in the chain.
    (&[
        Step::Store(0x1000, 0x8000_0000_0000_2027),
        Step::Store(0x2000, 0x3025),
        Step::Store(0x3000, 0x4023),
        Step::Store(0x4000, 0x9067),
        Step::Below(2, GIVEN_SECOND, 0, Ok(PAGE)),
        Step::Below(2, GIVEN_SECOND, 0xFFFF_FFFF_8000_0FFF, Ok(PAGE)),
        Step::Below(3, FREE_THIRD, 0, Ok(PAGE)),
        Step::Below(4, FREE_FOURTH, 0, Ok(NARROWED)),
        Step::Below(2, GIVEN_SECOND, 0x1000, Err(Missing { level: 1 })),
        Step::Below(3, FREE_THIRD, 0x20_0000, Err(Missing { level: 2 })),
        Step::Below(4, FREE_FOURTH, 0x4000_0000, Err(Missing { level: 3 })),
    ], None),
    // A step of each kind that gives something else is found. No table names anything here.
    (&[Step::Store(0xFFF8, 1), Step::Store(0x1_0000, 1)], Some(1)),
    (&[Step::Walk(1, 0, Err(Missing { level: 4 })), Step::Walk(1, 0, Err(Missing { level: 3 }))], Some(1)),
    (&[Step::Walk(1, 0, Err(Missing { level: 4 })), Step::Walk(1, 0, Ok(TEXT))], Some(1)),
    (&[Step::Walk(1, 0, Err(Missing { level: 4 })), Step::Leads(1, 0)], Some(1)),
    (&[Step::Names(0, 4, None), Step::Names(0, 4, Some(FOURTH))], Some(1)),
    (&[Step::Below(4, FOURTH, 0, Err(Missing { level: 3 })), Step::Below(4, FOURTH, 0, Ok(PAGE))], Some(1)),
];

#[test]
fn walks_over_small_memories(rt: HostRuntime) {
    for (steps, wrong) in &CASES {
        assert!(rt; wrong_step(rt.alloc(), steps) == *wrong);
    }
}
