//! Flags in parts beside the flags word: the same results, flags and conditions, over operations, widths and numbers at
//! their edges.

ghost use Rattle.std.specs.Prelude.{◌≡◌, true};
ghost use Rattle.decode_fields.specs.Widths.{IsWidth};

use exec_quick::FlagParts;
use test_kit::first_wrong;
use x86_decode::Op;
use x86_regs::{condition_stands, usual_combination, usual_comparison};

static OPERATIONS: [Op; 24] = [
    Op::Add,
    Op::Adc,
    Op::Sub,
    Op::Sbb,
    Op::And,
    Op::Or,
    Op::Xor,
    Op::Not,
    Op::Neg,
    Op::Inc,
    Op::Dec,
    Op::Imul,
    Op::Imul3,
    Op::Shl,
    Op::Shr,
    Op::Sar,
    Op::Rol,
    Op::Ror,
    Op::Bts,
    Op::Btr,
    Op::Btc,
    Op::Bswap,
    Op::Cmov(12),
    Op::Cmov(5),
];

static COMPARISONS: [Op; 4] = [Op::Cmp, Op::Test, Op::Bt, Op::Nop];

static WIDTHS: [u8; 4] = [8, 16, 32, 64];

/// The edges of each width, small counts, and a nibble whose sum carries.
static NUMBERS: [u64; 14] = [
    0,
    1,
    0xF,
    0x1F,
    0x20,
    0x7F,
    0x80,
    0xFF,
    0x7FFF,
    0x8000,
    0x7FFF_FFFF,
    0x8000_0000,
    0x7FFF_FFFF_FFFF_FFFF,
    0xFFFF_FFFF_FFFF_FFFF,
];

/// No status flag, each of them, and some.
static WORDS: [u64; 4] = [0x202, 0xAD7, 0x643, 0x896];

fn is_width(width: u8) -> bool
    ensures { result ≡ true → IsWidth width }
{
    matches!(width, 8 | 16 | 32 | 64)
}

/// Whether an operation leaves the same in parts as in a word.
fn is_combined(op: Op, width: u8, to: u64, from: u64, flags: u64) -> bool {
    if !is_width(width) {
        return false;
    }
    let it = usual_combination(op, width, to, from, 5, flags);
    let mut parts = FlagParts::new(flags);
    let value = parts.combine(op, width, to, from, 5);
    value == it.value && parts.word() == it.flags
}

/// Whether a comparison does.
fn is_compared(op: Op, width: u8, to: u64, from: u64, flags: u64) -> bool {
    if !is_width(width) {
        return false;
    }
    let mut parts = FlagParts::new(flags);
    parts.compare(op, width, to, from);
    parts.word() == usual_comparison(op, width, to, from, flags)
}

/// Whether an operation leaves the same at each width, of this number and each other, over each word.
fn is_combined_with_each(op: Op, to: u64) -> bool {
    first_wrong(&NUMBERS, |from| {
        first_wrong(&WIDTHS, |width| {
            first_wrong(&WORDS, |flags| is_combined(op, *width, to, *from, *flags)).is_none()
        })
        .is_none()
    })
    .is_none()
}

/// Whether a comparison does.
fn is_compared_with_each(op: Op, to: u64) -> bool {
    first_wrong(&NUMBERS, |from| {
        first_wrong(&WIDTHS, |width| {
            first_wrong(&WORDS, |flags| is_compared(op, *width, to, *from, *flags)).is_none()
        })
        .is_none()
    })
    .is_none()
}

#[test]
fn operations_leave_the_same_in_parts_as_in_a_word(rt: HostRuntime) {
    for op in &OPERATIONS {
        for to in &NUMBERS {
            assert!(rt; is_combined_with_each(*op, *to));
        }
    }
}

#[test]
fn comparisons_leave_the_same_in_parts_as_in_a_word(rt: HostRuntime) {
    for op in &COMPARISONS {
        for to in &NUMBERS {
            assert!(rt; is_compared_with_each(*op, *to));
        }
    }
}

#[test]
fn conditions_are_the_same_of_parts_as_of_a_word(rt: HostRuntime) {
    for flags in 0..4096u64 {
        let parts = FlagParts::new(flags);
        for number in 0..16u8 {
            assert!(rt; parts.condition_stands(number) == condition_stands(number, flags));
        }
    }
}

#[test]
fn another_word_takes_the_place_of_the_parts(rt: HostRuntime) {
    let mut parts = FlagParts::new(0x8D7);
    assert!(rt; parts.is_carry() && parts.is_zero() && !parts.is_down());
    parts.put(0x402);
    assert!(rt; !parts.is_carry() && !parts.is_zero() && parts.is_down());
    assert_eq!(rt; parts.word(), 0x402);
}
