//! The status flags in a flags word (SDM volume 1, 3.4.3.1): `specs/Flags.antt`.

ghost use Rattle.std.specs.Prelude.{◌≡◌, ◌<◌};
ghost use Rattle.decode_fields.specs.Widths.{IsWidth};
ghost use Rattle.x86_alu.specs.Flags.{with_flag, even_parity, result_flags};
ghost use Rattle.x86_alu.specs.FlagLaws.{FlagLaws};

use crate::width::top;

/// The carry flag's place.
pub const CF: u8 = 0;
/// The parity flag's place.
pub const PF: u8 = 2;
/// The auxiliary carry flag's place.
pub const AF: u8 = 4;
/// The zero flag's place.
pub const ZF: u8 = 6;
/// The sign flag's place.
pub const SF: u8 = 7;
/// The overflow flag's place.
pub const OF: u8 = 11;

/// The flags word with the bit at `place` set or cleared.
#[inline(always)]
pub fn with_flag(flags: u64, place: u8, set: bool) -> u64
    requires { place < 64 }
    ensures { result ≡ with_flag place set flags }
{
    flags & !(1 << place) | u64::from(set) << place
}

/// A flag that is written reads as written, and each other bit of the flags word stays.
pub fn flag_law()
    ensures { FlagLaws }
{}

/// Whether the low byte has an even number of ones.
#[inline(always)]
pub fn has_even_parity(value: u64) -> bool
    ensures { result ≡ even_parity value }
{
    (value & 0xff).count_ones() % 2 == 0
}

/// The flags word with ZF, SF and PF as the value, of `width` in bits, has them.
#[inline(always)]
pub fn result_flags(width: u8, value: u64, flags: u64) -> u64
    requires { IsWidth width }
    ensures { result ≡ result_flags width value flags }
{
    let flags = with_flag(flags, PF, has_even_parity(value));
    let flags = with_flag(flags, SF, top(width, value));
    with_flag(flags, ZF, value == 0)
}
