//! What follows of texts: none is the text of two instructions, and what is decoded is read back.

ghost use Rattle.std.specs.Prelude.{◌≡◌, ℕ, ◌/◌, ◌%◌, ◌^◌, ◌<◌, ◌≤◌, ◌∷◌, ◌++◌, [], false, length, IfSome, Some};
ghost use Rattle.std.specs.Fmt.{digit_glyph};
ghost use Rattle.x86_decode.specs.declared.instruction.Decoded.TheVariants.{Whole};
ghost use Rattle.x86_decode.specs.Decoding.{IfWhole};
ghost use Rattle.x86_decode.specs.Reader.{decoded_of};
ghost use Rattle.asm_text.specs.InstructionTexts.{HasText, hex_digits};
ghost use Rattle.asm_text.specs.TextLaws.{TextLaws};

use crate::printing::print;
use crate::reading::read;
use x86_decode::{Decoded, Instr, decode, spelling_law};

/// Two instructions never have one text, and what is spelled has one.
pub fn text_law()
    ensures { TextLaws }
{
    spelling_law();
}

/// A number below 16 has one hexadecimal digit.
pub fn one_digit_law()
    ensures { (n : ℕ) → n < 16 → hex_digits n ≡ digit_glyph false n ∷ [] }
{}

/// Of more hexadecimal digits the last is the rest by 16, and those before it are of a sixteenth.
pub fn more_digits_law()
    ensures { (n : ℕ) → 16 ≤ n → n < 2 ^ 64
        → hex_digits n ≡ hex_digits (n / 16) ++ (digit_glyph false (n % 16) ∷ []) }
{}

/// An instruction by way of its text.
fn read_back(instr: &Instr) -> Option<Instr>
    requires { HasText instr.now }
    ensures { result ≡ Some instr.now }
{
    text_law();
    read(print(instr).as_str().as_bytes())
}

/// The instruction in front of these bytes, by way of its text; None where they begin with none.
pub fn round_trip(bytes: &[u8]) -> Option<Instr>
    requires { length bytes.now ≤ 15 }
    ensures back { IfWhole (decoded_of bytes.now) (λ instr size. result ≡ Some instr) }
    ensures whole { IfSome result (λ instr. (size : ℕ) × (decoded_of bytes.now ≡ Whole instr size)) }
{
    text_law();
    match decode(bytes) {
        Decoded::Whole(instr, _) => read_back(&instr),
        _ => None,
    }
}
