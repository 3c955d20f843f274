//! Numbers in an instruction: least byte first, extended by their sign.

ghost use Rattle.std.specs.Prelude.{◌≡◌, ◌≤◌, ◌-◌, ◌^◌, ◌*◌, ◌<◌, ◌/◌, length, IfNone, IfSome};
ghost use Rattle.decode_fields.specs.Immediates.{immediate_of, number_of, sign_extended, signed_number};
ghost use Rattle.decode_fields.specs.Widths.{IsWidth};

/// The number of the first bytes.
pub(crate) fn number(bytes: &[u8], size: usize) -> u64
    requires there { size ≤ length bytes.now }
    requires small { size ≤ 8 }
    ensures value { result ≡ number_of size bytes.now }
    ensures bound { result < 2 ^ (8 * size) }
{
    let mut number = 0;
    for i in (0..size).rev() {
        number = 256 * number + bytes[i] as u64;
    }
    number
}

/// The bits above a width in bits.
fn bits_above(width: u8) -> u64
    requires { IsWidth width }
    ensures { result ≡ 2 ^ 64 - 2 ^ width }
{
    match width {
        8 => 0xFFFF_FFFF_FFFF_FF00,
        16 => 0xFFFF_FFFF_FFFF_0000,
        32 => 0xFFFF_FFFF_0000_0000,
        _ => 0,
    }
}

/// A number of this width in bits, extended by its sign.
fn extended(number: u64, width: u8) -> u64
    requires known { IsWidth width }
    requires fits { number < 2 ^ width }
    ensures { result ≡ sign_extended width number }
{
    if number < 1 << (width - 1) {
        number
    } else {
        number + bits_above(width)
    }
}

/// The first bytes as a number of this width in bits, extended to 64 bits by its sign; None where fewer bytes are there
/// than the width has.
pub fn immediate(bytes: &[u8], width: u8) -> Option<u64>
    requires few { length bytes.now ≤ 15 }
    requires known { IsWidth width }
    ensures value { result ≡ immediate_of bytes.now width }
    ensures none { IfNone result (length bytes.now < width / 8) }
    ensures some { IfSome result (λ number. number ≡ signed_number width bytes.now) }
{
    let size = (width / 8) as usize;
    if bytes.len() < size {
        return None;
    }
    Some(extended(number(bytes, size), width))
}
