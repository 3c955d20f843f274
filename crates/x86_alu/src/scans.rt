//! Scans for a set bit: `specs/Scans.antt`.

ghost use Rattle.std.specs.Prelude.{◌≡◌, ◌≢◌, ◌==◌};
ghost use Rattle.x86_alu.specs.SignedNumbers.{cut};
ghost use Rattle.decode_fields.specs.Widths.{IsWidth};
ghost use Rattle.x86_alu.specs.Flags.{with_flag, zero_flag};
ghost use Rattle.x86_alu.specs.Scans.{scanned, IsFirstSet};

use crate::answers::Out;
use crate::flags::{ZF, with_flag};
use crate::width::cut;

/// The number of the least (`up`) or the greatest set bit of `a`, which is cut to the width, in bits: BSF and BSR.
/// Where no bit is set, the value is 0 and ZF says so.
pub fn scan_bit(up: bool, width: u8, a: u64, flags: u64) -> Out
    requires { IsWidth width }
    ensures value { result.value ≡ scanned up (cut width a) }
    ensures flags { result.flags ≡ with_flag zero_flag (cut width a == 0) flags }
    ensures place { cut width a ≢ 0 → IsFirstSet up (cut width a) result.value }
{
    let a = cut(width, a as u128);
    Out {
        value: scanned(up, a),
        flags: with_flag(flags, ZF, a == 0),
    }
}

fn scanned(up: bool, a: u64) -> u64
    ensures value { result ≡ scanned up a }
    ensures place { a ≢ 0 → IsFirstSet up a result }
{
    if a == 0 {
        return 0;
    }
    if up {
        a.trailing_zeros() as u64
    } else {
        63 - a.leading_zeros() as u64
    }
}
