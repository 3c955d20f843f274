//! What holds of every list of modules, and of every image that is joined with them.

ghost use Rattle.std.specs.Prelude.{◌≡◌, ℕ, ◌<◌, true, List, None, Ok, length, slice_index};
ghost use Rattle.std.specs.List.{All};
ghost use Rattle.elf_image.specs.Rows.{first_fault};
ghost use Rattle.byte_scanner.specs.FirstFound.{first_found};
ghost use Rattle.code_modules.specs.JoinAnswers.{first_empty, is_fitting, join_answer, joined_file};
ghost use Rattle.code_modules.specs.JoinedImage.{IsJoined, IsRefusedByModule};
ghost use Rattle.code_modules.specs.JoinedParts.{CodeModule};
ghost use Rattle.code_modules.specs.ModuleList.{Listed, list_of};

use byte_scanner::clean_law;
use elf_image::{form_law, pages_law, written_law};

/// A list that is in form has a module.
pub fn list_law()
    ensures { (bytes : List ℕ) (modules : List Listed) → list_of bytes ≡ Ok modules → 0 < length modules }
{}

/// The file of an image in form and of modules that fit is in form.
pub(crate) fn joined_form()
    ensures { (b : List ℕ) (modules : List CodeModule) → first_fault b ≡ None
        → 0 < length modules → first_empty modules ≡ None → is_fitting b modules ≡ true
        → first_fault (joined_file b modules) ≡ None }
{
    form_law();
    pages_law();
    written_law();
}

/// Of each image in form and modules that are joined with it: the file is in form and holds no protected encoding, and
/// what it loads is the image, the modules and the directory, byte for byte. Where image and modules are made of bytes,
/// so is the file.
pub fn joined_law()
    ensures joined { (b : List ℕ) (modules : List CodeModule) (file : List ℕ) → first_fault b ≡ None
        → 0 < length modules → join_answer b modules ≡ Ok file → IsJoined b modules file }
    ensures bytes { (b : List ℕ) (modules : List CodeModule) (file : List ℕ) → ((i : ℕ) → slice_index b i < 256)
        → All (λ m. (i : ℕ) → slice_index m.bytes i < 256) modules → join_answer b modules ≡ Ok file
        → (i : ℕ) → slice_index file i < 256 }
{
    form_law();
    pages_law();
    written_law();
}

/// Of each image in form that holds no protected encoding, and modules that fit and of which each has bytes and a guard
/// page: they are refused for a protected encoding exactly where one of them holds one by itself.
pub fn guarded_law()
    ensures { (b : List ℕ) (modules : List CodeModule) → first_fault b ≡ None → first_found b ≡ None
        → 0 < length modules → All (λ m. m.guard ≡ true) modules
        → first_empty modules ≡ None → is_fitting b modules ≡ true → IsRefusedByModule b modules }
{
    form_law();
    pages_law();
    written_law();
    clean_law();
}
