//! Numbers of so many bits, unsigned and signed: `specs/SignedNumbers.antt`.

ghost use Rattle.std.specs.Prelude.{◌≡◌, ◌+◌, ◌*◌, ◌<◌, ◌≤◌, ◌^◌, ◌⊎◌};
ghost use Rattle.x86_alu.specs.SignedNumbers.{cut, bit, sign, differ, negated, size, spelled};
ghost use Rattle.decode_fields.specs.Widths.{IsWidth};

/// The low bits of a number, as many as `width`, in bits.
pub fn cut(width: u8, number: u128) -> u64
    requires { IsWidth width }
    ensures { result ≡ cut width number }
{
    (number & (u128::MAX >> (128 - width))) as u64
}

/// The low bits of a word, as many as `width`, in bits.
#[inline(always)]
pub fn low(width: u8, word: u64) -> u64
    requires { IsWidth width }
    ensures { result ≡ cut width word }
{
    word & (u64::MAX >> (64 - width))
}

/// The bit of a word at a place.
#[inline(always)]
pub(crate) fn flag(word: u64, place: u8) -> bool
    requires { place < 64 }
    ensures { result ≡ bit word place }
{
    word >> place & 1 == 1
}

/// The highest bit of a word's low `width` bits.
#[inline(always)]
pub fn top(width: u8, word: u64) -> bool
    requires { IsWidth width }
    ensures { result ≡ sign width word }
{
    word >> (width - 1) & 1 == 1
}

/// The bit at a place, the lowest of which is 0.
pub fn bit(number: u128, place: u8) -> bool
    requires { place < 128 }
    ensures { result ≡ bit number place }
{
    number >> place & 1 == 1
}

/// The highest bit of a number of 8, 16, 32, 64 or 128 bits.
pub fn sign(bits: u8, number: u128) -> bool
    requires { IsWidth bits ⊎ (bits ≡ 128) }
    ensures { result ≡ sign bits number }
{
    bit(number, bits - 1)
}

/// Whether exactly one of the two holds.
pub fn differ(a: bool, b: bool) -> bool
    ensures { result ≡ differ a b }
{
    a != b
}

/// Zero minus a number, in 8, 16, 32, 64 or 128 bits.
fn negated(bits: u8, number: u128) -> u128
    requires bits { IsWidth bits ⊎ (bits ≡ 128) }
    requires fits { number < 2 ^ bits }
    ensures { result ≡ negated bits number }
{
    number.wrapping_neg() & (u128::MAX >> (128 - bits))
}

/// How far the signed number that `number` spells is from zero.
pub fn size(bits: u8, number: u128) -> u128
    requires bits { IsWidth bits ⊎ (bits ≡ 128) }
    requires fits { number < 2 ^ bits }
    ensures size { result ≡ size bits number }
    ensures half { 2 * result ≤ 2 ^ bits }
{
    if sign(bits, number) {
        negated(bits, number)
    } else {
        number
    }
}

/// The bits of a signed number, from its sign and its size.
pub fn spelled(bits: u8, negative: bool, size: u128) -> u128
    requires bits { IsWidth bits ⊎ (bits ≡ 128) }
    requires fits { size < 2 ^ bits }
    ensures spelled { result ≡ spelled bits negative size }
    ensures within { result < 2 ^ bits }
{
    if negative { negated(bits, size) } else { size }
}
