//! The instruction of a text.

ghost use Rattle.std.specs.Prelude.{◌≡◌, IfNone, IfSome};
ghost use Rattle.std.specs.Str.{bytes_eq};
ghost use Rattle.x86_decode.specs.declared.instruction.Instr.{Instr};
ghost use Rattle.asm_text.specs.InstructionTexts.{HasText, IsRead, instr_text};

use crate::parsing::parse;
use crate::printing::print;
use x86_decode::Instr;

fn is_text(instr: &Instr, text: &[u8]) -> bool
    requires { HasText instr.now }
    ensures { result ≡ bytes_eq (instr_text instr.now) text.now }
{
    print(instr).as_str().as_bytes() == text
}

/// The instruction whose text this is; None exactly where no instruction has this text.
pub fn read(text: &[u8]) -> Option<Instr>
    ensures some { IfSome result (λ instr. IsRead text.now instr) }
    ensures none { IfNone result ((instr : Instr) → HasText instr → instr_text instr ≡ text.now → ⊥) }
{
    let instr = parse(text);
    if is_text(&instr, text) {
        Some(instr)
    } else {
        None
    }
}
