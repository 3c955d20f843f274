//! Whether two instructions are the same, and whether bytes spell one.

ghost use Rattle.std.specs.Prelude.{◌≡◌, ◌≤◌, true, length, nat_lt};
ghost use Rattle.std.specs.List.{list_all};
ghost use Rattle.asm_text.specs.Candidates.{is_spelled};
ghost use Rattle.asm_text.specs.Sameness.{is_address, is_instr, is_number, is_place, is_rep, is_whole};

use crate::operation::is_same_op;
use decode_fields::{Address, Place, Rep};
use x86_decode::{Decoded, Instr, decode};

/// The bytes of the longest spelling that is lawful.
const LONGEST: usize = 15;

fn is_rep(rep: Rep, other: Rep) -> bool
    ensures { result ≡ is_rep rep other }
{
    match rep {
        Rep::No => match other {
            Rep::No => true,
            _ => false,
        },
        Rep::WhileEqual => match other {
            Rep::WhileEqual => true,
            _ => false,
        },
        Rep::WhileNot => match other {
            Rep::WhileNot => true,
            _ => false,
        },
    }
}

fn is_number(number: Option<u8>, other: Option<u8>) -> bool
    ensures { result ≡ is_number number other }
{
    match number {
        None => match other {
            None => true,
            Some(_) => false,
        },
        Some(number) => match other {
            None => false,
            Some(other) => number == other,
        },
    }
}

fn is_address(address: &Address, other: &Address) -> bool
    ensures { result ≡ is_address address.now other.now }
{
    is_number(address.base, other.base)
        & (is_number(address.index, other.index)
            & ((address.scale == other.scale)
                & ((address.disp == other.disp) & (address.rip == other.rip))))
}

fn is_place(place: Place, other: Place) -> bool
    ensures { result ≡ is_place place other }
{
    match place {
        Place::Nothing => match other {
            Place::Nothing => true,
            _ => false,
        },
        Place::Reg(number) => match other {
            Place::Reg(other) => number == other,
            _ => false,
        },
        Place::High(number) => match other {
            Place::High(other) => number == other,
            _ => false,
        },
        Place::Mem(address) => match other {
            Place::Mem(other) => is_address(&address, &other),
            _ => false,
        },
        Place::Value => match other {
            Place::Value => true,
            _ => false,
        },
    }
}

fn is_instr(instr: &Instr, other: &Instr) -> bool
    ensures { result ≡ is_instr instr.now other.now }
{
    is_same_op(instr.op, other.op)
        & ((instr.width == other.width)
            & (is_place(instr.to, other.to)
                & (is_place(instr.from, other.from)
                    & ((instr.value == other.value)
                        & (is_rep(instr.rep, other.rep) & (instr.lock == other.lock))))))
}

fn is_whole(instr: &Instr, size: usize, decoded: Decoded) -> bool
    ensures { result ≡ is_whole instr.now size decoded }
{
    match decoded {
        Decoded::Whole(other, length) => is_instr(instr, &other) & (size == length as usize),
        Decoded::Short | Decoded::TooLong | Decoded::Unknown => false,
    }
}

/// The elements of a slice of bytes are bytes.
fn bytes_law(bytes: &[u8])
    ensures { list_all (λ byte. nat_lt byte 256) bytes.now ≡ true }
{}

/// Whether the bytes, all of them, spell the instruction lawfully.
#[tactic(auto, unfolding(crate::specs::Candidates::is_spelled))]
pub(crate) fn is_spelled(instr: &Instr, bytes: &[u8]) -> bool
    ensures value { result ≡ is_spelled instr.now bytes.now }
    ensures few { result ≡ true → length bytes.now ≤ 15 }
{
    bytes_law(bytes);
    if bytes.len() > LONGEST {
        return false;
    }
    is_whole(instr, bytes.len(), decode(bytes))
}
