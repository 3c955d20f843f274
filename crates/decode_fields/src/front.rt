//! The prefix bytes (SDM volume 2, 2.1.1 and 2.2.1).

ghost use Rattle.std.specs.Prelude.{◌≡◌, ◌≤◌, ◌<◌, length, IfSome, find, reverse};
ghost use Rattle.std.specs.List.{prefix_len};
ghost use Rattle.decode_fields.specs.Prefixes.{is_prefix, is_repeat, is_rex, prefix_bytes, prefixes_of, rep_named, rex_named};

use crate::parts::{Prefixes, Rep};

const OPERAND_SIZE: u8 = 0x66;

const LOCK: u8 = 0xF0;

const REPNE: u8 = 0xF2;

const REP: u8 = 0xF3;

/// What no prefix bytes say.
const NONE: Prefixes = Prefixes {
    length: 0,
    narrow: false,
    lock: false,
    rep: Rep::No,
    rex: None,
};

fn is_rex_byte(byte: u8) -> bool
    ensures { result ≡ is_rex byte }
{
    0x40 <= byte && byte < 0x50
}

fn is_prefix_byte(byte: u8) -> bool
    ensures { result ≡ is_prefix byte }
{
    match byte {
        OPERAND_SIZE | LOCK | REPNE | REP => true,
        // ES, CS, SS, DS
        0x26 | 0x2E | 0x36 | 0x3E => true,
        _ => is_rex_byte(byte),
    }
}

fn front_length(bytes: &[u8]) -> usize
    ensures { result ≡ prefix_len is_prefix bytes.now }
{
    bytes
        .iter()
        .take_while(|byte| is_prefix_byte(**byte))
        .count()
}

/// The prefix bytes at the front.
fn front(bytes: &[u8]) -> &[u8]
    ensures { result.now ≡ prefix_bytes bytes.now }
{
    &bytes[..front_length(bytes)]
}

fn last_repeat(front: &[u8]) -> Option<u8>
    ensures { result ≡ find is_repeat (reverse front.now) }
{
    front
        .iter()
        .rev()
        .copied()
        .find(|byte| *byte == REPNE || *byte == REP)
}

fn repeat(byte: Option<u8>) -> Rep
    ensures { result ≡ rep_named byte }
{
    match byte {
        Some(byte) => if byte == REP {
            Rep::WhileEqual
        } else {
            Rep::WhileNot
        },
        None => Rep::No,
    }
}

fn rex(byte: Option<u8>) -> Option<u8>
    ensures value { result ≡ rex_named byte }
    ensures range { IfSome result (λ rex. (0x40 ≤ rex) × (rex < 0x50)) }
{
    match byte {
        Some(byte) => if is_rex_byte(byte) { Some(byte) } else { None },
        None => None,
    }
}

/// What the prefix bytes at the front say (SDM volume 2, 2.1.1 and 2.2.1). Those behind the opcode don't count.
pub fn prefixes(bytes: &[u8]) -> Prefixes
    requires { length bytes.now ≤ 15 }
    ensures value { result ≡ prefixes_of (prefix_bytes bytes.now) }
    ensures rex { IfSome result.rex (λ rex. (0x40 ≤ rex) × (rex < 0x50)) }
{
    let front = front(bytes);
    if front.is_empty() {
        return NONE;
    }
    Prefixes {
        length: front.len() as u8,
        narrow: front.contains(&OPERAND_SIZE),
        lock: front.contains(&LOCK),
        rep: repeat(last_repeat(front)),
        rex: rex(front.last().copied()),
    }
}
