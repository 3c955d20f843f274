//! A text of lines as code.

ghost use Rattle.std.specs.Prelude.{◌≡◌, ◌++◌, Ok, None, Some, IfErr, IfNone, IfOk, IfSome, true};
ghost use Rattle.asm_text.specs.AssembledText.{IsTextFault, assembled_of, line_code};
ghost use Rattle.asm_text.specs.RowPlaces.{IsIndexFrom};
ghost use Rattle.asm_text.specs.AssemblyLaws.{AssemblyLaws};

use crate::least::encode_by;
use crate::reading::read;
use crate::row_index::{RowIndex, row_index};
use crate::text_laws::text_law;
use arrayvec::ArrayVec;
use std::alloc::Global;
use text_lines::cut_line;
use x86_decode::decoding_law;

/// Why a text isn't assembled.
#[derive(Clone, Copy, Debug, PartialEq, Eq)]
pub enum TextFault {
    /// The first line that is the text of no instruction, or of one that no bytes spell, numbered from 1.
    Line(u64),

    /// There is no room for the code.
    Memory,
}

/// The code of a line.
fn line_code(line: &[u8], index: &RowIndex) -> Option<ArrayVec<u8, 15>>
    requires { IsIndexFrom 0 index.now }
    ensures none { IfNone result (line_code line.now ≡ None) }
    ensures some { IfSome result (λ code. line_code line.now ≡ Some code.items) }
{
    decoding_law();
    text_law();
    match read(line) {
        Some(instr) => encode_by(&instr, index),
        None => None,
    }
}

/// Puts the code of a line behind that of those before; false where there is no room.
fn put(code: &mut Vec<u8>, bytes: &[u8]) -> bool
    ensures { result ≡ true → code.new.items ≡ code.old.items ++ bytes.now }
{
    code.extend_from_slice(bytes).is_ok()
}

/// The code of a text, one instruction a line; the last line may lack its LF, and no line is no code. Ok exactly where
/// each line has code, `Line` exactly where one hasn't; but `Memory` may come in the place of either.
pub fn assemble(alloc: Global, text: &[u8]) -> Result<Vec<u8>, TextFault>
    ensures code { IfOk result (λ code. assembled_of text.now ≡ Ok code.items) }
    ensures fault { IfErr result (IsTextFault text.now) }
{
    let mut code = Vec::new(alloc);
    let mut rest = text;
    let mut number = 1;
    let index = row_index();
    while !rest.is_empty() {
        let (line, later) = cut_line(rest);
        let Some(bytes) = line_code(line, &index) else {
            return Err(TextFault::Line(number));
        };
        if !put(&mut code, &bytes) {
            return Err(TextFault::Memory);
        }
        rest = later;
        number += 1;
    }
    Ok(code)
}

/// The code of a line is the least spelling of the instruction whose text it is; a line without code is the text of no
/// instruction that bytes spell. The code of a text is that of its lines, one after another, each of which decodes to the
/// line's instruction by the relation of bytes and instructions; or the first line without code is told.
pub fn assembly_law()
    ensures { AssemblyLaws }
{
    decoding_law();
    text_law();
}
