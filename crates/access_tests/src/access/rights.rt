//! Each combination of rights, access, CPL, WP and SMEP, by SDM volume 3, 4.6.1.

ghost use Rattle.std.specs.Prelude.{◌≡◌, ◌*◌, ◌<◌, length};
ghost use Rattle.nk_bits.specs.Translations.{NamesFramesIn};

use super::{fetch_byte, load, memory, start, store};
use mem_access::Control;
use memory_kit::CONTROL;
use nk_bits::Access;
use phys_mem::PhysMem;
use std::alloc::Global;
use test_kit::first_wrong;
use tlb_model::Tlb;

/// CR0 and CR4, and what is served with them: a row of page rights, each with reads, writes and
/// fetches as bits, each at CPL 0 and then at CPL 3.
type Served = (u64, u64, [u8; 8]);

/// The leaves of page 0: neither writable nor user nor executable; executable; user; user and
/// executable; writable, and so on. Bit 63 is XD.
const LEAVES: [u64; 8] = [
    0x8000_0000_0000_8001,
    0x8001,
    0x8000_0000_0000_8005,
    0x8005,
    0x8000_0000_0000_8003,
    0x8003,
    0x8000_0000_0000_8007,
    0x8007,
];

/// Whether an access at address 10 is served, by tables alone.
fn is_served(mem: &mut PhysMem, tlb: &mut Tlb, control: &Control, access: Access, cpl: u8) -> bool
    requires length { length mem.old ≡ 65536 }
    requires root { control.now.root ≡ 1 }
    ensures length { length mem.new ≡ 65536 }
{
    tlb.flush();
    match access {
        Access::Read => load(mem, tlb, control, cpl, 0x10, 1).is_ok(),
        Access::Write => store(mem, tlb, control, cpl, 0x10, 1, 0).is_ok(),
        Access::Fetch => fetch_byte(mem, tlb, control, cpl, 0x10).is_ok(),
    }
}

/// The bit of an access at both levels, the supervisor's first.
fn bits(mem: &mut PhysMem, tlb: &mut Tlb, control: &Control, access: Access) -> u8
    requires length { length mem.old ≡ 65536 }
    requires root { control.now.root ≡ 1 }
    ensures length { length mem.new ≡ 65536 }
    ensures most { result < 4 }
{
    let supervisor = is_served(mem, tlb, control, access, 0);
    let user = is_served(mem, tlb, control, access, 3);
    2 * u8::from(supervisor) + u8::from(user)
}

/// What is served with this leaf.
fn served(mem: &mut PhysMem, tlb: &mut Tlb, control: &Control, leaf: u64) -> u8
    requires length { length mem.old ≡ 65536 }
    requires root { control.now.root ≡ 1 }
    ensures length { length mem.new ≡ 65536 }
{
    mem.store64(0x4000, leaf);
    let read = bits(mem, tlb, control, Access::Read);
    let write = bits(mem, tlb, control, Access::Write);
    let fetch = bits(mem, tlb, control, Access::Fetch);
    16 * read + 4 * write + fetch
}

/// Whether each leaf serves so with its control registers. Want of memory is no.
fn is_right(alloc: Global, setting: &Served) -> bool {
    let (cr0, cr4, row) = *setting;
    let Ok(mut mem) = memory(alloc) else {
        return false;
    };
    let Ok(mut tlb) = Tlb::new(alloc) else {
        return false;
    };
    start(&mut mem, 0, 0);
    let control = Control {
        cr0,
        cr4,
        ..CONTROL
    };
    for (leaf, wanted) in LEAVES.iter().zip(&row) {
        if served(&mut mem, &mut tlb, &control, *leaf) != *wanted {
            return false;
        }
    }
    true
}

/// CR0 has PG and PE, and WP or not; CR4 has PAE, and SMEP or not.
#[rattlefmt::skip]
#[test]
fn rights_serve_as_the_manual_lists_them(rt: HostRuntime) {
    let rows = &[
        (0x8000_0001, 0x20,
            [0b101000, 0b101010, 0b111000, 0b111011, 0b101000, 0b101010, 0b111100, 0b111111]),
        (0x8001_0001, 0x20,
            [0b100000, 0b100010, 0b110000, 0b110011, 0b101000, 0b101010, 0b111100, 0b111111]),
        (0x8000_0001, 0x10_0020,
            [0b101000, 0b101010, 0b111000, 0b111001, 0b101000, 0b101010, 0b111100, 0b111101]),
        (0x8001_0001, 0x10_0020,
            [0b100000, 0b100010, 0b110000, 0b110001, 0b101000, 0b101010, 0b111100, 0b111101]),
    ];
    assert_eq!(rt; first_wrong(rows, |row| is_right(rt.alloc(), row)), None);
}

/// In the second row the supervisor writes, with WP set, to a page of the user's that isn't
/// writable.
#[rattlefmt::skip]
#[test]
fn wrong_row_is_found(rt: HostRuntime) {
    let rows = &[
        (0x8000_0001, 0x20,
            [0b101000, 0b101010, 0b111000, 0b111011, 0b101000, 0b101010, 0b111100, 0b111111]),
        (0x8001_0001, 0x20,
            [0b100000, 0b100010, 0b111000, 0b110011, 0b101000, 0b101010, 0b111100, 0b111111]),
        (0x8001_0001, 0x20,
            [0b100000, 0b100010, 0b110000, 0b110011, 0b101000, 0b101010, 0b111100, 0b111111]),
    ];
    assert_eq!(rt; first_wrong(rows, |row| is_right(rt.alloc(), row)), Some(1));
}
