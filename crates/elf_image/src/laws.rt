//! What follows from the definitions for those who run an image.

ghost use Rattle.std.specs.Prelude.{◌≡◌, ℕ, ◌^◌, ◌<◌, List, length, slice_index, take, None, Some, Result, MatchResult};
ghost use Rattle.elf_image.specs.declared.fault.ImageFault.{ImageFault};
ghost use Rattle.elf_image.specs.declared.program_header.ProgramHeader.{ProgramHeader};
ghost use Rattle.elf_image.specs.Elf.{e_entry, program_header_at, segments};
ghost use Rattle.elf_image.specs.FileParts.{AreTrueOf, IsImage, IsReadInParts, IsShapeOf};
ghost use Rattle.elf_image.specs.HeaderRows.{FileHeaders, FileShape, head_fault, headers_of, shape_of, table_fault, table_of};
ghost use Rattle.elf_image.specs.Pages.{IsPageList, entry_of, pages_of};
ghost use Rattle.elf_image.specs.Rows.{file_fault, first_fault};
ghost use Rattle.elf_image.specs.SegmentForm.{AreInForm};
ghost use Rattle.elf_image.specs.WrittenHeaders.{HasFileHeader, HasProgramHeader, IsReadAsWritten};

/// The entry that a file of bytes names is an address of 64 bits.
pub fn entry_law()
    ensures { (b : List ℕ) → ((i : ℕ) → slice_index b i < 256) → entry_of b < 2 ^ 64 }
{}

/// The pages of a file without a fault are an image's.
pub fn pages_law()
    ensures { (b : List ℕ) → first_fault b ≡ None → IsPageList b (pages_of b) }
{}

/// What is judged and told of a file by its first 64 bytes and its program header table is what holds of the whole file.
pub fn parts_law()
    ensures { (b : List ℕ) → IsReadInParts b }
{}

/// What is answered by the first 64 bytes of a file, and then by its program header table, is the file's: its shape, then
/// its headers, or its first fault.
pub fn headers_law()
    ensures head { (b head : List ℕ) (size : ℕ) (answer : Result FileShape ImageFault)
        → length b ≡ size → head ≡ take 64 b
        → MatchResult answer
        (λ shape. (shape ≡ shape_of size head) × (head_fault size head ≡ None))
        (λ fault. head_fault size head ≡ Some fault)
        → MatchResult answer (IsShapeOf b) (λ fault. first_fault b ≡ Some fault) }
    ensures table { (b table : List ℕ) (shape : FileShape) (answer : Result FileHeaders ImageFault)
        → IsShapeOf b shape → table ≡ table_of b
        → MatchResult answer
        (λ headers. (headers ≡ headers_of shape table) × (table_fault shape table ≡ None))
        (λ fault. table_fault shape table ≡ Some fault)
        → MatchResult answer (IsImage b) (λ fault. first_fault b ≡ Some fault) }
{}

/// The headers of a file in form say what the file says. A page with its part of the file, and zeros elsewhere, has the
/// image's bytes.
pub fn image_law()
    ensures { (b : List ℕ) (headers : FileHeaders) → IsImage b headers → AreTrueOf b headers }
{}

/// No row stands on the segments of a file, where none stands on its file header, exactly where each segment and each two
/// of them are in form.
pub fn form_law()
    ensures rows { (b : List ℕ) → first_fault b ≡ None
        → AreInForm (length b) (e_entry b) (segments b) }
    ensures form { (b : List ℕ) → file_fault b ≡ None
        → AreInForm (length b) (e_entry b) (segments b) → first_fault b ≡ None }
{}

/// Headers that were written are read as they were written.
pub fn written_law()
    ensures file { (b : List ℕ) (entry count : ℕ) → HasFileHeader b entry count
        → IsReadAsWritten b entry count }
    ensures program { (b : List ℕ) (place i : ℕ) (h : ProgramHeader) → HasProgramHeader b place h
        → program_header_at b place i ≡ record h { index = i } }
{}
