//! Audits of regions that were written by hand.

use proc_audit::Audit;
use std::alloc::{AllocError, Global};
use std::process::Abort;
use std::test::Fail;

/// The region that a row is of.
enum Region {
    /// A new one of so many bytes.
    New(u32),
    /// A new one of 4,096 slots, the most, each with its number as its process, of which each leads to the one behind.
    Chain,
    /// That of the row before, as it then is.
    Same,
}

/// What slots hide.
enum Hidden {
    /// What each slot hides, no more and no fewer.
    Each(&'static [Option<u64>]),
    /// How many slots there are, and what these hide.
    At(u32, &'static [(u32, Option<u64>)]),
}

use Hidden::{At, Each};
use Region::{Chain, New, Same};

/// Whether the row is so, its region, numbers that are written in it, each with its offset and in eight bytes, whether
/// the chain is then broken, and what slots then hide.
type Row = (bool, Region, &'static [(u32, u64)], bool, Hidden);

/// The bytes of the longest chain.
fn slots(alloc: Global) -> Result<Vec<u8>, AllocError> {
    let mut bytes = Vec::new(alloc);
    for i in 0..65536usize {
        let slot = i as u64 / 16;
        let number = if i % 16 < 8 { slot } else { (slot + 2) % 4097 };
        bytes.push(number.to_le_bytes()[i % 8])?;
    }
    Ok(bytes)
}

/// Writes bytes; false where they don't fit.
fn put(audit: &mut Audit, offset: u32, bytes: &[u8]) -> bool {
    let size = audit.size() as usize;
    if bytes.len() > size || offset as usize > size - bytes.len() {
        return false;
    }
    audit.apply(offset, bytes);
    true
}

/// Writes numbers; false where one doesn't fit.
fn write(audit: &mut Audit, numbers: &[(u32, u64)]) -> bool {
    for (offset, number) in numbers {
        if !put(audit, *offset, &number.to_le_bytes()) {
            return false;
        }
    }
    true
}

/// Whether the slots, no more and no fewer, hide this.
fn each_hides(audit: &Audit, hidden: &[Option<u64>]) -> bool {
    if audit.slots() as usize != hidden.len() {
        return false;
    }
    for slot in 0..audit.slots() {
        if audit.hidden(slot) != hidden[slot as usize] {
            return false;
        }
    }
    true
}

/// Whether there are these slots, and they hide this.
fn these_hide(audit: &Audit, hidden: &[(u32, Option<u64>)]) -> bool {
    for (slot, hidden) in hidden {
        if *slot >= audit.slots() || audit.hidden(*slot) != *hidden {
            return false;
        }
    }
    true
}

/// Whether the numbers fit, and the chain and the slots are then as is said.
fn is_so(audit: &mut Audit, numbers: &[(u32, u64)], broken: bool, hidden: &Hidden) -> bool {
    write(audit, numbers)
        && audit.broken() == broken
        && match hidden {
            Each(hidden) => each_hides(audit, hidden),
            At(slots, hidden) => audit.slots() == *slots && these_hide(audit, hidden),
        }
}

/// Each row is so, or isn't, as it says.
fn assert_rows(rt: &impl Abort, alloc: Global, rows: &[Row]) -> Result<(), Fail> {
    let mut audit = Audit::start(alloc, 0)?;
    for (index, (so, region, numbers, broken, hidden)) in rows.iter().enumerate() {
        match region {
            New(size) => audit = Audit::start(alloc, *size)?,
            Chain => {
                audit = Audit::start(alloc, 65536)?;
                assert!(rt; put(&mut audit, 0, &slots(alloc)?));
            }
            Same => {}
        }
        assert!(rt;
            is_so(&mut audit, numbers, *broken, hidden) == *so,
            "row {index}"
        );
    }
    Ok(())
}

#[rattlefmt::skip]
static PARTS: [Row; 8] = [
    (true, New(0), &[], false, Each(&[])),
    (true, New(15), &[(0, 5), (7, u64::MAX)], false, Each(&[])),
    (true, New(16), &[], false, Each(&[None])),
    (true, New(16), &[(0, 9)], false, Each(&[None])),
    (true, New(17), &[(9, 1 << 56)], false, Each(&[None])),
    (true, New(17), &[(9, 1)], true, Each(&[None])),
    (true, New(31), &[(16, 5), (23, u64::MAX)], false, Each(&[None])),
    (true, New(32), &[(16, 5)], false, Each(&[None, Some(5)])),
];

#[test]
fn a_part_of_a_slot_is_no_slot(rt: HostRuntime) -> Result<(), Fail> {
    assert_rows(&rt, rt.alloc(), &PARTS)
}

#[rattlefmt::skip]
static NEXTS: [Row; 7] = [
    (true, New(16), &[(8, 1)], true, Each(&[None])),
    (true, New(16), &[(8, 2)], true, Each(&[None])),
    (true, New(32), &[(16, 5), (8, 2)], false, Each(&[None, None])),
    (true, New(32), &[(16, 5), (8, 3)], true, Each(&[None, Some(5)])),
    (true, New(32), &[(16, 5), (8, 2), (24, 1)], true, Each(&[None, None])),
    (true, New(32), &[(16, 5), (8, 2), (24, 2)], true, Each(&[None, None])),
    (
        true,
        New(64),
        &[(16, 1), (32, 2), (48, 3), (8, 4), (56, 2)],
        false,
        Each(&[None, None, Some(2), None]),
    ),
];

#[test]
fn a_next_leads_to_the_slot_before_its_number(rt: HostRuntime) -> Result<(), Fail> {
    assert_rows(&rt, rt.alloc(), &NEXTS)
}

#[rattlefmt::skip]
static NUMBERS: [Row; 5] = [
    (true, New(32), &[(16, 5), (8, u64::MAX)], true, Each(&[None, Some(5)])),
    (true, New(32), &[(16, 5), (8, 1 << 32)], true, Each(&[None, Some(5)])),
    (true, New(32), &[(16, 5), (8, 0x1_0000_0001)], true, Each(&[None, Some(5)])),
    (true, New(32), &[(16, 5), (8, 0x1_0000_0002)], true, Each(&[None, Some(5)])),
    (true, New(32), &[(16, u64::MAX)], false, Each(&[None, Some(u64::MAX)])),
];

#[test]
fn numbers_have_64_bits(rt: HostRuntime) -> Result<(), Fail> {
    assert_rows(&rt, rt.alloc(), &NUMBERS)
}

#[rattlefmt::skip]
static WRITES: [Row; 7] = [
    (true, New(32), &[(16, 5), (4, 2 << 32)], false, Each(&[None, None])),
    (true, New(32), &[(12, 1), (16, 5)], true, Each(&[None, Some(5)])),
    (true, New(32), &[(16, 5), (12, 1)], true, Each(&[None, None])),
    (true, New(32), &[(20, 7)], false, Each(&[None, Some(7 << 32)])),
    (true, New(40), &[(32, u64::MAX)], false, Each(&[None, None])),
    (
        true,
        New(40),
        &[(28, 0xFFFF_FFFF_0000_0000), (16, 5), (8, 2)],
        false,
        Each(&[None, None]),
    ),
    (true, New(40), &[(28, 0xFFFF_FFFF), (16, 5), (8, 2)], true, Each(&[None, None])),
];

#[test]
fn a_write_begins_and_ends_anywhere(rt: HostRuntime) -> Result<(), Fail> {
    assert_rows(&rt, rt.alloc(), &WRITES)
}

/// A row that is so, and rows that aren't.
#[rattlefmt::skip]
static WRONG: [Row; 7] = [
    (true, New(32), &[(16, 5)], false, Each(&[None, Some(5)])),
    (false, New(32), &[(16, 5)], true, Each(&[None, Some(5)])),
    (false, New(32), &[(16, 5)], false, Each(&[None, None])),
    (false, New(32), &[(16, 5)], false, Each(&[None, Some(6)])),
    (false, New(32), &[(16, 5)], false, Each(&[None])),
    (false, New(48), &[(16, 5)], false, Each(&[None, Some(5)])),
    (false, New(32), &[(25, 5)], false, Each(&[None, None])),
];

#[test]
fn a_wrong_row_is_found(rt: HostRuntime) -> Result<(), Fail> {
    assert_rows(&rt, rt.alloc(), &WRONG)
}

#[rattlefmt::skip]
static STEPS: [Row; 10] = [
    (true, New(48), &[(8, 2)], false, Each(&[None, None, None])),
    (true, Same, &[(16, 1)], false, Each(&[None, None, None])),
    (true, Same, &[(24, 3)], false, Each(&[None, None, None])),
    (true, Same, &[(32, 7)], false, Each(&[None, None, None])),
    // Slot 1 is the last one.
    (true, Same, &[(24, 0)], false, Each(&[None, None, Some(7)])),
    // Slot 0 leads to itself.
    (true, Same, &[(8, 1)], true, Each(&[None, Some(1), Some(7)])),
    (true, Same, &[(8, 3)], false, Each(&[None, Some(1), None])),
    (true, Same, &[(40, 2)], false, Each(&[None, None, None])),
    // An identifier of 0 is no process.
    (true, Same, &[(8, 0)], false, Each(&[None, Some(1), Some(7)])),
    (true, Same, &[(16, 0)], false, Each(&[None, None, Some(7)])),
];

#[test]
fn a_process_is_hidden_and_linked_again(rt: HostRuntime) -> Result<(), Fail> {
    assert_rows(&rt, rt.alloc(), &STEPS)
}

/// The chain leads back to its first slot, and then that is its last one.
#[rattlefmt::skip]
static CHAINS: [Row; 4] = [
    (true, Chain, &[], false, At(4096, &[(1, None), (4095, None)])),
    (true, Same, &[(65528, 1)], true, At(4096, &[(4095, None)])),
    (true, Same, &[(8, 0)], false, At(4096, &[(1, Some(1)), (4095, Some(4095))])),
    // The last byte that is written would be behind the region.
    (false, Same, &[(65529, 0)], false, At(4096, &[(1, Some(1)), (4095, Some(4095))])),
];

#[test]
fn the_longest_chain_is_followed(rt: HostRuntime) -> Result<(), Fail> {
    assert_rows(&rt, rt.alloc(), &CHAINS)
}
