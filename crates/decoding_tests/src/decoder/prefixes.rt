//! Every order of up to three prefix bytes.

use decode_fields::{Address, Place, Rep};
use x86_decode::{Decoded, Instr, Op, decode};

/// Every prefix byte.
static PREFIXES: [u8; 24] = [
    0x66, 0xf0, 0xf2, 0xf3, 0x2e, 0x36, 0x3e, 0x26, 0x40, 0x41, 0x42, 0x43, 0x44, 0x45, 0x46, 0x47,
    0x48, 0x49, 0x4a, 0x4b, 0x4c, 0x4d, 0x4e, 0x4f,
];

/// ADD of EBX to the doubleword at RAX, as these prefix bytes change it: a byte 40 to 4F counts as the last alone,
/// 66 and F0 anywhere.
fn add_after(prefixes: &[u8]) -> Instr {
    let last = prefixes.last().copied().unwrap_or(0);
    let rex = if last & 0xf0 == 0x40 { last } else { 0 };
    let narrow = prefixes.contains(&0x66);
    Instr {
        op: Op::Add,
        width: if rex & 8 != 0 {
            64
        } else if narrow {
            16
        } else {
            32
        },
        to: Place::Mem(Address {
            base: Some((rex & 1) << 3),
            index: None,
            scale: 1,
            disp: 0,
            rip: false,
        }),
        from: Place::Reg(3 | ((rex & 4) << 1)),
        value: 0,
        rep: Rep::No,
        lock: prefixes.contains(&0xf0),
    }
}

#[test]
fn each_order_of_prefixes_has_its_effect(rt: HostRuntime) {
    for first in PREFIXES {
        for second in PREFIXES {
            for third in PREFIXES {
                let bytes = [first, second, third, 0x01, 0x18];
                assert!(rt; decode(&bytes) == Decoded::Whole(add_after(&bytes[..3]), 5));
                assert!(rt; decode(&bytes[1..]) == Decoded::Whole(add_after(&bytes[1..3]), 4));
                assert!(rt; decode(&bytes[2..]) == Decoded::Whole(add_after(&bytes[2..3]), 3));
            }
        }
    }
    assert!(rt; decode(&[0x01, 0x18]) == Decoded::Whole(add_after(&[]), 2));
}
