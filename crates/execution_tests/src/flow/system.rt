//! The flags, HLT, ports, control registers, tables and pages where no condition refuses them.

use super::rows::After::{Acts, Faults, Goes, Pushes};
use super::rows::{FLAGS, Row, wrong_row};
use super::{RAX, RBX, RSP};
use x86_regs::{Act, Fault};

/// Flags are pushed whole. The frame's first number is 6000, whose bits are none of the flags'.
/// Ports have 16 bits.
static FLAGS_AND_PORTS: [Row; 15] = [
    // pushf
    (b"\x9C", 0, &[(FLAGS, 0xED7)], Pushes(0x1001, 0xED7)),
    (b"\x9C", 3, &[(FLAGS, 0xED7)], Pushes(0x1001, 0xED7)),
    // popf
    (
        b"\x9D",
        0,
        &[(FLAGS, 0xED7)],
        Goes(&[(RSP, 0x808), (FLAGS, 2)], 0x1001),
    ),
    // above CPL 0 IF stays
    (
        b"\x9D",
        3,
        &[(FLAGS, 0xED7)],
        Goes(&[(RSP, 0x808), (FLAGS, 0x202)], 0x1001),
    ),
    // the number 246, at CPL 0 and above
    (
        b"\x9D",
        0,
        &[(RSP, 0x810)],
        Goes(&[(RSP, 0x818), (FLAGS, 0x246)], 0x1001),
    ),
    (
        b"\x9D",
        3,
        &[(RSP, 0x810)],
        Goes(&[(RSP, 0x818), (FLAGS, 0x46)], 0x1001),
    ),
    // sti, cli, hlt
    (
        b"\xFB",
        0,
        &[],
        Acts(&[(FLAGS, 0x202)], 0x1001, Act::Enable),
    ),
    (b"\xFB", 0, &[(FLAGS, 0x202)], Goes(&[], 0x1001)),
    (b"\xFA", 0, &[(FLAGS, 0x202)], Goes(&[(FLAGS, 2)], 0x1001)),
    (b"\xFA", 0, &[], Goes(&[], 0x1001)),
    (b"\xF4", 0, &[(FLAGS, 0x202)], Acts(&[], 0x1001, Act::Halt)),
    // in, out
    (
        b"\xE4\xEB",
        0,
        &[(RAX, 0x1234)],
        Acts(&[], 0x1002, Act::In(0xEB)),
    ),
    (
        b"\xEC",
        0,
        &[(RAX, 0x1234)],
        Acts(&[], 0x1001, Act::In(0xEA)),
    ),
    (
        b"\xE6\xE9",
        0,
        &[(RAX, 0x1234)],
        Acts(&[], 0x1002, Act::Out(0x34, 0xE9)),
    ),
    (
        b"\xEE",
        0,
        &[(RAX, 0x1234)],
        Acts(&[], 0x1001, Act::Out(0x34, 0xEA)),
    ),
];

#[test]
fn flags_and_ports(rt: HostRuntime) {
    assert_eq!(rt; wrong_row(rt.alloc(), &FLAGS_AND_PORTS), None);
}

/// Control registers are read whole, and take some values where memory has ten frames.
static CONTROL_REGISTERS: [Row; 31] = [
    // reads
    (b"\x0F\x20\xC3", 0, &[], Goes(&[(RBX, 0x8001_0011)], 0x1003)),
    (b"\x0F\x20\xD3", 0, &[], Goes(&[(RBX, 0x1234)], 0x1003)),
    (b"\x0F\x20\xDB", 0, &[], Goes(&[(RBX, 0x1000)], 0x1003)),
    (b"\x0F\x20\xE3", 0, &[], Goes(&[(RBX, 0x10_0020)], 0x1003)),
    // mod is taken as 3
    (b"\x0F\x20\x23", 0, &[], Goes(&[(RBX, 0x10_0020)], 0x1003)),
    // writes
    (
        b"\x0F\x22\xC0",
        0,
        &[(RAX, 0x8000_0001)],
        Acts(&[], 0x1003, Act::Cr0(0x8000_0001)),
    ),
    (
        b"\x0F\x22\xD0",
        0,
        &[(RAX, u64::MAX)],
        Acts(&[], 0x1003, Act::Cr2(u64::MAX)),
    ),
    (
        b"\x0F\x22\xD8",
        0,
        &[(RAX, 0x9FFF)],
        Acts(&[], 0x1003, Act::Cr3(0x9FFF)),
    ),
    (
        b"\x0F\x22\xD8",
        0,
        &[(RAX, 0xA000)],
        Faults(Fault::General(0)),
    ),
    (
        b"\x0F\x22\xE0",
        0,
        &[(RAX, 0x20)],
        Acts(&[], 0x1003, Act::Cr4(0x20)),
    ),
    (
        b"\x0F\x22\xC0",
        0,
        &[(RAX, 0x8000_0001)],
        Acts(&[], 0x1003, Act::Cr0(0x8000_0001)),
    ),
    (
        b"\x0F\x22\xC0",
        0,
        &[(RAX, 0xE001_0001)],
        Acts(&[], 0x1003, Act::Cr0(0xE001_0001)),
    ),
    (
        b"\x0F\x22\xC0",
        0,
        &[(RAX, 0xC000_0001)],
        Acts(&[], 0x1003, Act::Cr0(0xC000_0001)),
    ),
    (
        b"\x0F\x22\xC0",
        0,
        &[(RAX, 0xFFFF_FFFF)],
        Acts(&[], 0x1003, Act::Cr0(0xFFFF_FFFF)),
    ),
    (
        b"\x0F\x22\xC0",
        0,
        &[(RAX, 0xDFFF_FFFF)],
        Acts(&[], 0x1003, Act::Cr0(0xDFFF_FFFF)),
    ),
    (
        b"\x0F\x22\xC0",
        0,
        &[(RAX, 0xA000_0001)],
        Faults(Fault::General(0)),
    ),
    (
        b"\x0F\x22\xC0",
        0,
        &[(RAX, 0x8000_0000)],
        Faults(Fault::General(0)),
    ),
    (
        b"\x0F\x22\xC0",
        0,
        &[(RAX, 0x0000_0001)],
        Faults(Fault::General(0)),
    ),
    (
        b"\x0F\x22\xC0",
        0,
        &[(RAX, 0x1_8000_0001)],
        Faults(Fault::General(0)),
    ),
    (
        b"\x0F\x22\xD0",
        0,
        &[(RAX, 0)],
        Acts(&[], 0x1003, Act::Cr2(0)),
    ),
    (
        b"\x0F\x22\xD0",
        0,
        &[(RAX, 0x8000_0000_0000)],
        Acts(&[], 0x1003, Act::Cr2(0x8000_0000_0000)),
    ),
    (
        b"\x0F\x22\xD8",
        0,
        &[(RAX, 0)],
        Acts(&[], 0x1003, Act::Cr3(0)),
    ),
    (
        b"\x0F\x22\xD8",
        0,
        &[(RAX, 0x9000)],
        Acts(&[], 0x1003, Act::Cr3(0x9000)),
    ),
    (
        b"\x0F\x22\xD8",
        0,
        &[(RAX, 0xA000)],
        Faults(Fault::General(0)),
    ),
    (
        b"\x0F\x22\xD8",
        0,
        &[(RAX, 0x8000_0000_0000_0000)],
        Faults(Fault::General(0)),
    ),
    (
        b"\x0F\x22\xE0",
        0,
        &[(RAX, 0x20)],
        Acts(&[], 0x1003, Act::Cr4(0x20)),
    ),
    (
        b"\x0F\x22\xE0",
        0,
        &[(RAX, 0x10_0020)],
        Acts(&[], 0x1003, Act::Cr4(0x10_0020)),
    ),
    (b"\x0F\x22\xE0", 0, &[(RAX, 0)], Faults(Fault::General(0))),
    (
        b"\x0F\x22\xE0",
        0,
        &[(RAX, 0x10_0000)],
        Faults(Fault::General(0)),
    ),
    (
        b"\x0F\x22\xE0",
        0,
        &[(RAX, 0x21)],
        Faults(Fault::General(0)),
    ),
    (
        b"\x0F\x22\xE0",
        0,
        &[(RAX, 0x1_0000_0020)],
        Faults(Fault::General(0)),
    ),
];

#[test]
fn control_registers(rt: HostRuntime) {
    assert_eq!(rt; wrong_row(rt.alloc(), &CONTROL_REGISTERS), None);
}

/// At 80E stands 0 as a limit, and behind it 246 as a base. A page is dropped by its address, and
/// none by one that isn't canonical.
static TABLES_AND_PAGES: [Row; 6] = [
    // lidt
    (
        b"\x0F\x01\x1B",
        0,
        &[(RBX, 0x80E)],
        Acts(&[], 0x1003, Act::Idt(0x246, 0)),
    ),
    // by RSP: the limit is 6000's two low bytes, the base its others and 1B's
    (
        b"\x0F\x01\x1C\x24",
        0,
        &[],
        Acts(&[], 0x1004, Act::Idt(0x1B_0000_0000_0000, 0x6000)),
    ),
    // invlpg
    (b"\x0F\x01\x3B", 0, &[], Acts(&[], 0x1003, Act::DropPage(0))),
    (
        b"\x0F\x01\x3B",
        0,
        &[(RBX, 0x2FFF)],
        Acts(&[], 0x1003, Act::DropPage(2)),
    ),
    (
        b"\x0F\x01\x3C\x24",
        0,
        &[(RSP, 0xFFFF_8000_0000_0000)],
        Acts(&[], 0x1004, Act::DropPage(0xF_FFF8_0000_0000)),
    ),
    (
        b"\x0F\x01\x3B",
        0,
        &[(RBX, 0x8000_0000_0000)],
        Goes(&[], 0x1003),
    ),
];

#[test]
fn tables_and_pages(rt: HostRuntime) {
    assert_eq!(rt; wrong_row(rt.alloc(), &TABLES_AND_PAGES), None);
}
