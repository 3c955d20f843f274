//! An instruction's text, written word by word behind what stands already.

ghost use Rattle.std.specs.Prelude.{◌≡◌, ◌+◌, ◌<◌, ◌≤◌, ◌∷◌, ◌++◌, ◌^◌, [], false, codes, decimal, length};
ghost use Rattle.std.specs.Fmt.{digit_glyph};
ghost use Rattle.x86_decode.specs.WellFormed.{HasCondition};
ghost use Rattle.asm_text.specs.Operations.{op_name};
ghost use Rattle.asm_text.specs.InstructionTexts.{HasAddressText, HasPlaceText, HasText, address_text, base_text, hex_digits, instr_text, lock_text, place_text, register_text, rep_text};

use crate::op_names::op_name;
use arrayvec::ArrayString;
use decode_fields::{Address, Place, Rep};
use itoa::Buffer;
use x86_decode::{Instr, Op};

/// Room for a text, which has at most 105 bytes.
type Text = ArrayString<128>;

fn push_decimal(text: &mut Text, number: u8)
    requires { length text.old.bytes + 3 ≤ 128 }
    ensures bytes { text.new.bytes ≡ text.old.bytes ++ decimal number }
    ensures room { length text.new.bytes ≤ length text.old.bytes + 3 }
{
    text.push_str(Buffer::new().format(number));
}

/// The hexadecimal digit of a value, in lower case.
pub fn hex_digit(value: u8) -> u8
    requires { value < 16 }
    ensures value { result ≡ digit_glyph false value }
    ensures ascii { result < 128 }
{
    if value < 10 {
        b'0' + value
    } else {
        b'a' - 10 + value
    }
}

fn push_digit(text: &mut Text, value: u8)
    requires digit { value < 16 }
    requires room { length text.old.bytes + 1 ≤ 128 }
    ensures { text.new.bytes ≡ text.old.bytes ++ (digit_glyph false value ∷ []) }
{
    text.push(hex_digit(value) as char);
}

/// The digits of a number, from the first to the last.
fn push_digits(text: &mut Text, number: u64)
    requires { length text.old.bytes + length (hex_digits number) ≤ 128 }
    ensures { text.new.bytes ≡ text.old.bytes ++ hex_digits number }
{
    if number < 16 {
        push_digit(text, number as u8);
    } else {
        push_digits(text, number / 16);
        push_digit(text, (number % 16) as u8);
    }
}

fn push_hex(text: &mut Text, number: u64)
    requires { length text.old.bytes + 16 ≤ 128 }
    ensures bytes { text.new.bytes ≡ text.old.bytes ++ hex_digits number }
    ensures room { length text.new.bytes ≤ length text.old.bytes + 16 }
{
    push_digits(text, number);
}

/// A letter and the number of a register.
fn push_numbered(text: &mut Text, letter: &str, number: u8)
    requires letter { length letter.now ≡ 1 }
    requires room { length text.old.bytes + 4 ≤ 128 }
    ensures bytes { text.new.bytes ≡ text.old.bytes ++ (letter.now ++ decimal number) }
    ensures room { length text.new.bytes ≤ length text.old.bytes + 4 }
{
    text.push_str(letter);
    push_decimal(text, number);
}

fn push_register(text: &mut Text, number: Option<u8>)
    requires { length text.old.bytes + 4 ≤ 128 }
    ensures bytes { text.new.bytes ≡ text.old.bytes ++ register_text number }
    ensures room { length text.new.bytes ≤ length text.old.bytes + 4 }
{
    match number {
        Some(number) => push_numbered(text, "r", number),
        None => text.push_str("-"),
    }
}

fn push_base(text: &mut Text, address: &Address)
    requires { length text.old.bytes + 4 ≤ 128 }
    ensures bytes { text.new.bytes ≡ text.old.bytes ++ base_text address.now }
    ensures room { length text.new.bytes ≤ length text.old.bytes + 4 }
{
    if address.rip {
        text.push_str("rip");
    } else {
        push_register(text, address.base);
    }
}

/// The registers of an address.
fn push_sum(text: &mut Text, address: &Address)
    requires { length text.old.bytes + 10 ≤ 128 }
    ensures bytes { text.new.bytes ≡ text.old.bytes
        ++ (codes "[" ++ (base_text address.now ++ (codes "," ++ register_text address.now.index))) }
    ensures room { length text.new.bytes ≤ length text.old.bytes + 10 }
{
    text.push_str("[");
    push_base(text, address);
    text.push_str(",");
    push_register(text, address.index);
}

/// The scale of an address, and its displacement.
fn push_offset(text: &mut Text, scale: u8, disp: u64)
    requires { length text.old.bytes + 21 ≤ 128 }
    ensures bytes { text.new.bytes ≡ text.old.bytes
        ++ (decimal scale ++ (codes "," ++ (hex_digits disp ++ codes "]"))) }
    ensures room { length text.new.bytes ≤ length text.old.bytes + 21 }
{
    push_decimal(text, scale);
    text.push_str(",");
    push_hex(text, disp);
    text.push_str("]");
}

fn push_address(text: &mut Text, address: &Address)
    requires { length text.old.bytes + 32 ≤ 128 }
    ensures bytes { text.new.bytes ≡ text.old.bytes ++ address_text address.now }
    ensures room { length text.new.bytes ≤ length text.old.bytes + 32 }
{
    push_sum(text, address);
    text.push_str(",");
    push_offset(text, address.scale, address.disp);
}

#[tactic(auto, unfolding(crate::specs::InstructionTexts::place_text))]
fn push_place(text: &mut Text, place: &Place)
    requires { length text.old.bytes + 32 ≤ 128 }
    ensures bytes { text.new.bytes ≡ text.old.bytes ++ place_text place.now }
    ensures room { length text.new.bytes ≤ length text.old.bytes + 32 }
{
    match place {
        Place::Nothing => text.push_str("-"),
        Place::Reg(number) => push_numbered(text, "r", *number),
        Place::High(number) => push_numbered(text, "h", *number),
        Place::Mem(address) => push_address(text, address),
        Place::Value => text.push_str("value"),
    }
}

/// The prefixes that a text names.
fn push_prefixes(text: &mut Text, lock: bool, rep: Rep)
    requires { length text.old.bytes + 11 ≤ 128 }
    ensures bytes { text.new.bytes ≡ text.old.bytes ++ (lock_text lock ++ rep_text rep) }
    ensures room { length text.new.bytes ≤ length text.old.bytes + 11 }
{
    text.push_str(lock_word(lock));
    text.push_str(rep_word(rep));
}

fn lock_word(lock: bool) -> &'static str
    ensures word { result.now ≡ lock_text lock }
    ensures short { length result.now ≤ 5 }
{
    if lock { "lock " } else { "" }
}

fn rep_word(rep: Rep) -> &'static str
    ensures word { result.now ≡ rep_text rep }
    ensures short { length result.now ≤ 6 }
{
    match rep {
        Rep::No => "",
        Rep::WhileEqual => "repe ",
        Rep::WhileNot => "repne ",
    }
}

fn push_operation(text: &mut Text, op: Op, width: u8)
    requires condition { HasCondition op }
    requires room { length text.old.bytes + 11 ≤ 128 }
    ensures bytes { text.new.bytes ≡ text.old.bytes ++ (op_name op ++ (codes "." ++ decimal width)) }
    ensures room { length text.new.bytes ≤ length text.old.bytes + 11 }
{
    text.push_str(op_name(op));
    text.push_str(".");
    push_decimal(text, width);
}

/// A place behind a space.
fn push_operand(text: &mut Text, place: &Place)
    requires { length text.old.bytes + 33 ≤ 128 }
    ensures bytes { text.new.bytes ≡ text.old.bytes ++ (codes " " ++ place_text place.now) }
    ensures room { length text.new.bytes ≤ length text.old.bytes + 33 }
{
    text.push_str(" ");
    push_place(text, place);
}

/// Both operands and the number, each behind a space.
fn push_operands(text: &mut Text, instr: &Instr)
    requires { length text.old.bytes + 83 ≤ 128 }
    ensures bytes { text.new.bytes ≡ text.old.bytes ++ (codes " " ++ (place_text instr.now.to
        ++ (codes " " ++ (place_text instr.now.from ++ (codes " " ++ hex_digits instr.now.value))))) }
    ensures room { length text.new.bytes ≤ length text.old.bytes + 83 }
{
    push_operand(text, &instr.to);
    push_operand(text, &instr.from);
    text.push_str(" ");
    push_hex(text, instr.value);
}

/// The text of an instruction: `OP.W TO FROM VALUE`, behind `lock` and `repe` or `repne`. W is the width in bits, and
/// VALUE the number, of hexadecimal digits; docs/FORMATS.md has the grammar.
#[tactic(auto, unfolding(crate::specs::InstructionTexts::instr_text))]
pub fn print(instr: &Instr) -> ArrayString<128>
    requires { HasText instr.now }
    ensures { result.bytes ≡ instr_text instr.now }
{
    let mut text = ArrayString::new();
    push_prefixes(&mut text, instr.lock, instr.rep);
    push_operation(&mut text, instr.op, instr.width);
    push_operands(&mut text, instr);
    text
}
