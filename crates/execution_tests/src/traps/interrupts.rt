//! Whether INT n may be delivered.

use super::{CONTROL, TABLES, change, memory};
use std::alloc::Global;
use test_kit::first_wrong;
use tlb_model::Tlb;
use trap_unit::{Shut, interrupt_allowed};
use x86_regs::Tables;

/// The low half of gate 0, the base of IDTR, whether the CPL is 3, the vector, and whether its
/// interrupt is allowed.
type Row = (u64, u64, bool, u8, Result<bool, Shut>);

/// The index of the first row whose question has another answer.
fn wrong_row(alloc: Global, rows: &[Row]) -> Option<usize> {
    first_wrong(rows, |(low, idt, user, vector, allowed)| {
        ask(alloc, *low, *idt, *user, *vector) == Some(*allowed)
    })
}

/// Want of memory is None.
fn ask(alloc: Global, low: u64, idt: u64, user: bool, vector: u8) -> Option<Result<bool, Shut>> {
    let Ok(mut mem) = memory(alloc) else {
        return None;
    };
    let Ok(mut tlb) = Tlb::new(alloc) else {
        return None;
    };
    change(&mut mem, Some(&(0x8000, low)));
    let tables = Tables { idt, ..TABLES };
    let cpl = if user { 3 } else { 0 };
    Some(interrupt_allowed(&mem, &mut tlb, &CONTROL, &tables, cpl, vector))
}

/// A gate's level is not below the CPL: gate 47 has level 3, gate 13 level 0, gate 5 is all zeros,
/// and vector 48 is past the limit.
static ASKED: [Row; 18] = [
    (
        0x0000_8E01_0008_1040,
        0xFFFF_FF80_0000_0000,
        false,
        0,
        Ok(true),
    ),
    (
        0x0000_8E01_0008_1040,
        0xFFFF_FF80_0000_0000,
        true,
        0,
        Ok(false),
    ),
    (
        0x0000_AE01_0008_1040,
        0xFFFF_FF80_0000_0000,
        false,
        0,
        Ok(true),
    ),
    (
        0x0000_AE01_0008_1040,
        0xFFFF_FF80_0000_0000,
        true,
        0,
        Ok(false),
    ),
    (
        0x0000_CE01_0008_1040,
        0xFFFF_FF80_0000_0000,
        false,
        0,
        Ok(true),
    ),
    (
        0x0000_CE01_0008_1040,
        0xFFFF_FF80_0000_0000,
        true,
        0,
        Ok(false),
    ),
    (
        0x0000_EE01_0008_1040,
        0xFFFF_FF80_0000_0000,
        false,
        0,
        Ok(true),
    ),
    (
        0x0000_EE01_0008_1040,
        0xFFFF_FF80_0000_0000,
        true,
        0,
        Ok(true),
    ),
    // an absent gate is allowed by its level alone
    (
        0x0000_6000_0000_0000,
        0xFFFF_FF80_0000_0000,
        true,
        0,
        Ok(true),
    ),
    (0, 0xFFFF_FF80_0000_0000, false, 47, Ok(true)),
    (0, 0xFFFF_FF80_0000_0000, true, 47, Ok(true)),
    (0, 0xFFFF_FF80_0000_0000, true, 13, Ok(false)),
    (0, 0xFFFF_FF80_0000_0000, false, 5, Ok(true)),
    (0, 0xFFFF_FF80_0000_0000, true, 5, Ok(false)),
    (0, 0xFFFF_FF80_0000_0000, false, 48, Ok(false)),
    (0, 0xFFFF_FF80_0000_0000, true, 48, Ok(false)),
    // the table's page is absent: vector 47 faults, and vector 48 isn't read
    (0, 0xFFFF_FF80_0000_2000, true, 47, Err(Shut)),
    (0, 0xFFFF_FF80_0000_2000, true, 48, Ok(false)),
];

#[test]
fn interrupts(rt: HostRuntime) {
    assert_eq!(rt; wrong_row(rt.alloc(), &ASKED), None);
}

/// The second row says that the user may ask for vector 13.
static WRONG: [Row; 3] = [
    (0, 0xFFFF_FF80_0000_0000, true, 47, Ok(true)),
    (0, 0xFFFF_FF80_0000_0000, true, 13, Ok(true)),
    (0, 0xFFFF_FF80_0000_0000, true, 48, Ok(true)),
];

#[test]
fn wrong_row_is_found(rt: HostRuntime) {
    assert_eq!(rt; wrong_row(rt.alloc(), &WRONG), Some(1));
}
