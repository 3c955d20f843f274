//! Worked values of the processor's manual and of the machine's opening layout.

use bitflags::Flags;
use nk_bits::{
    Answer, CallWords, Delivery, Entry, EntryFlags, Kind, Leaf, Rights, Rule, Target, canonical,
    index,
};

/// The address of the gate's text.
const GATE: u64 = 0xFFFF_FF80_0000_1000;

/// An address of the direct map.
const MAPPED: u64 = 0xFFFF_8000_0004_7000;

/// A level, and the indices of the gate and of the address of the direct map there.
static INDICES: [(u8, usize, usize); 4] = [(4, 511, 256), (3, 0, 0), (2, 0, 0), (1, 1, 71)];

#[test]
fn indices_of_two_addresses(rt: HostRuntime) {
    for (level, gate, mapped) in &INDICES {
        assert!(rt; 1 <= *level && *level <= 4);
        assert!(rt; index(GATE, *level) == *gate && index(MAPPED, *level) == *mapped);
    }
}

/// The ends of both halves, and whether they are canonical.
static HALVES: [(u64, bool); 6] = [
    (0, true),
    (0x7FFF_FFFF_FFFF, true),
    (0x8000_0000_0000, false),
    (0xFFFF_7FFF_FFFF_FFFF, false),
    (0xFFFF_8000_0000_0000, true),
    (u64::MAX, true),
];

#[test]
fn canonical_at_the_ends_of_both_halves(rt: HostRuntime) {
    for (va, is_canonical) in &HALVES {
        assert!(rt; canonical(*va) == *is_canonical);
    }
}

/// An entry; whether it is present, and large; its frame; whether it may be written, is the user's and may be executed;
/// and its bits that have a name.
type Fields = (u64, bool, bool, u64, (bool, bool, bool), u64);

/// An entry of a table, which grants all; the leaves of the stack and of the text; and an entry of all bits, of which
/// each stands in one field.
#[rattlefmt::skip]
static ENTRIES: [Fields; 4] = [
    (0x6027, true, false, 6, (true, true, true), 0x27),
    (0x8000_0000_0000_3063, true, false, 3, (true, false, false), 0x8000_0000_0000_0063),
    (0x1021, true, false, 1, (false, false, true), 0x21),
    (u64::MAX, true, true, 0xFF_FFFF_FFFF, (true, true, false), 0x8000_0000_0000_01FF),
];

#[test]
fn fields_of_entries(rt: HostRuntime) {
    for (bits, present, large, frame, rights, flags) in &ENTRIES {
        let entry = Entry(*bits);
        let (can_write, user, exec) = *rights;
        let rights = Rights {
            can_write,
            user,
            exec,
        };
        assert!(rt; entry.is_present() == *present && entry.is_large() == *large);
        assert!(rt; entry.frame() == *frame && entry.rights() == rights);
        assert!(rt; entry.flags() == EntryFlags(*flags));
    }
}

/// An entry, and whether it has a flag.
static FLAGS: [(u64, EntryFlags, bool); 5] = [
    (0x6027, EntryFlags::PRESENT, true),
    (0x6027, EntryFlags::ACCESSED, true),
    (0x6027, EntryFlags::LARGE, false),
    (0x8000_0000_0000_3063, EntryFlags::DIRTY, true),
    (0x8000_0000_0000_3063, EntryFlags::NO_EXEC, true),
];

#[test]
fn flags_of_entries(rt: HostRuntime) {
    for (bits, flag, is_set) in &FLAGS {
        assert!(rt; Entry(*bits).flags().contains(*flag) == *is_set);
    }
}

static RULES: [(Rule, u64); 5] = [
    (Rule::BadCall, 1),
    (Rule::TooFree, 11),
    (Rule::NoRoom, 18),
    (Rule::BadSource, 22),
    (Rule::NotCanonical, 27),
];

#[test]
fn rules_count_from_1_to_27(rt: HostRuntime) {
    for (rule, number) in &RULES {
        assert!(rt; rule.number() == *number);
    }
}

// Pairs of values that differ in one field.
static ANSWERS: [Answer; 2] = [
    Answer {
        value: 0,
        place: None,
        flush: true,
    },
    Answer {
        value: 0,
        place: None,
        flush: false,
    },
];

static DELIVERIES: [Delivery; 2] = [
    Delivery {
        vector: 14,
        code: Some(2),
        rip: GATE,
        cr2: Some(MAPPED),
    },
    Delivery {
        vector: 14,
        code: Some(2),
        rip: GATE,
        cr2: None,
    },
];

static TARGETS: [Target; 2] = [
    Target {
        first: 4096,
        second: 0,
    },
    Target {
        first: 4096,
        second: 8192,
    },
];

/// Whether two leaves with these rights are apart by their frames.
fn are_apart(rights: Rights) -> bool {
    Leaf { frame: 1, rights } != Leaf { frame: 2, rights }
}

#[test]
fn plain_values_are_copied_and_compared(rt: HostRuntime) {
    let call = CallWords {
        number: 3,
        a: 69,
        b: 0,
        c: 0,
        d: 0,
    };
    let copy = call;
    assert!(rt; copy == call && ANSWERS[0] != ANSWERS[1] && DELIVERIES[0] != DELIVERIES[1]);
    assert!(rt; TARGETS[0] != TARGETS[1] && Kind::Table(1) != Kind::Table(2));
    assert!(rt; are_apart(Entry(0x1021).rights()));
}
