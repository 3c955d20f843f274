//! Partial reads and writes at worked values: SDM volume 1, 3.4.1.1.

mod conditions;

ghost use Rattle.std.specs.Prelude.{◌≡◌, true};
ghost use Rattle.x86_regs.specs.Registers.{IsRegister};

use decode_fields::Place;
use nk_bits::Target;
use x86_regs::{Act, Effect, Fault, Frame, Regs, Tables, Write};

/// Each register holds the same number.
static REGS: Regs = Regs {
    general: [0x1122_3344_5566_7788; 16],
    rip: 0x1000,
    flags: 2,
    cpl: 3,
    ss: 0x23,
};

/// Whether a register or a part of it has this width.
fn is_register(place: Place, width: u8) -> bool
    ensures { result ≡ true → IsRegister place width }
{
    match place {
        Place::Reg(number) => number < 16 && matches!(width, 8 | 16 | 32 | 64),
        Place::High(number) => number < 4 && width == 8,
        _ => false,
    }
}

/// What is read from a part of a register; 0 where it has no such part.
fn read(place: Place, width: u8) -> u64 {
    if is_register(place, width) {
        REGS.read(&place, width)
    } else {
        0
    }
}

/// RBX after a write to a part of a register; 0 where it has no such part.
fn written(place: Place, width: u8) -> u64 {
    let mut regs = REGS;
    if is_register(place, width) {
        regs.set(&place, width, 0xA1A2_A3A4_A5A6_A7A8);
        regs.general[3]
    } else {
        0
    }
}

/// A part of a register, what is read from it, and RBX after a write to it.
static PARTS: [(Place, u8, u64, u64); 6] = [
    (
        Place::Reg(3),
        64,
        0x1122_3344_5566_7788,
        0xA1A2_A3A4_A5A6_A7A8,
    ),
    (Place::Reg(3), 32, 0x5566_7788, 0xA5A6_A7A8),
    (Place::Reg(3), 16, 0x7788, 0x1122_3344_5566_A7A8),
    (Place::Reg(3), 8, 0x88, 0x1122_3344_5566_77A8),
    (Place::High(3), 8, 0x77, 0x1122_3344_5566_A888),
    (
        Place::Reg(4),
        64,
        0x1122_3344_5566_7788,
        0x1122_3344_5566_7788,
    ),
];

#[test]
fn parts_of_a_register_are_read_and_written(rt: HostRuntime) {
    for (place, width, value, after) in &PARTS {
        assert!(rt; read(*place, *width) == *value && written(*place, *width) == *after);
    }
}

#[test]
fn compares_effects(rt: HostRuntime) {
    let write = Write {
        va: 0x2000,
        width: 8,
        value: 1,
        target: Target {
            first: 0x5000,
            second: 0,
        },
    };
    let frame = Frame {
        rip: 0x1000,
        cs: 0x1B,
        flags: 2,
        rsp: 0,
        ss: 0x23,
    };
    let effect = Effect {
        regs: REGS,
        write: Some(write),
        act: Act::Return(frame),
    };
    assert_eq!(rt; effect, effect);
    assert!(rt;
        effect
            != Effect {
                act: Act::Quiet,
                ..effect
            }
    );
    assert!(rt; Fault::General(0) != Fault::Stack);
    let tables = Tables {
        idt: 0,
        limit: 767,
        tss: 0x400,
    };
    assert!(rt; tables != Tables { limit: 0, ..tables });
}
