//! What follows, for those who run an image, where the scan finds nothing, and for those who scan one piece by piece.

ghost use Rattle.std.specs.Prelude.{◌≡◌, ℕ, ◌+◌, ◌*◌, ◌<◌, ◌≤◌, List, [], length, slice_index, Option, None, Some, true, false, MatchOption};
ghost use Rattle.elf_image.specs.Home.{page_size};
ghost use Rattle.elf_image.specs.Pages.{IsBytesOfPage, IsPageList, is_executable, page_count, pages_of};
ghost use Rattle.byte_scanner.specs.declared.encoding.Found.{Found};
ghost use Rattle.byte_scanner.specs.FirstFound.{first_found};
ghost use Rattle.byte_scanner.specs.ImageCode.{code_at};
ghost use Rattle.byte_scanner.specs.LeastPlace.{IsNowhere};
ghost use Rattle.byte_scanner.specs.PieceRuns.{Feeds, IsBehind};
ghost use Rattle.byte_scanner.specs.Scanned.{Scanned};
ghost use Rattle.byte_scanner.specs.ScannedCode.{HasScanned, HasWalked, IsCode, NoCode, NoCodeFrom};

use elf_image::Image;

/// Of every file whose pages are an image's: where no protected encoding is found, none stands at any address of its code.
/// Of every file: where none stands at any address of its code, none is found.
#[tactic(auto, using(crate::proofs::AllCode::clean_everywhere, crate::proofs::AllCode::unfound))]
pub fn clean_law()
    ensures clean { (b : List ℕ) → IsPageList b (pages_of b) → first_found b ≡ None
        → IsNowhere (code_at b) }
    ensures unfound { (b : List ℕ) → IsNowhere (code_at b) → first_found b ≡ None }
{}

/// The same of an image that is at hand.
pub fn clean_image_law(image: &Image)
    ensures { first_found image.now ≡ None → IsNowhere (code_at image.now) }
{
    clean_law();
    let _ = image.pages();
}

/// Of a scanner that is given a file's code in ascending order, in pieces of any size: a new one has scanned up to
/// address 0; a piece of code, with no code between the last one and it, leads to its end, or gives the encoding at the
/// least address of all code; behind the last piece there is none.
pub fn pieces_law()
    ensures nothing { (b : List ℕ) (s : Scanned) → IsBehind s 0 [] → HasScanned b s 0 }
    ensures fed { (b : List ℕ) (s after : Scanned) (upto at : ℕ) (piece : List ℕ) (found : Option Found)
        → IsPageList b (pages_of b) → HasScanned b s upto → upto ≤ at → NoCode b upto at
        → IsCode b at piece → Feeds s after at piece found
        → MatchOption found (HasScanned b after (at + length piece)) (λ it. first_found b ≡ Some it) }
    ensures all { (b : List ℕ) (s : Scanned) (upto : ℕ) → HasScanned b s upto → NoCodeFrom b upto
        → first_found b ≡ None }
{}

/// The same where the pieces are the pages that may be executed, each whole.
pub fn page_pieces_law()
    ensures begun { (b : List ℕ) (s : Scanned) → IsBehind s 0 [] → HasWalked b s 0 }
    ensures ahead { (b : List ℕ) (s : Scanned) (i : ℕ) → HasWalked b s i → i < page_count b
        → s.end ≤ page_size * slice_index (pages_of b) i }
    ensures passed { (b : List ℕ) (s : Scanned) (i : ℕ) → HasWalked b s i
        → is_executable b (slice_index (pages_of b) i) ≡ false → HasWalked b s (i + 1) }
    ensures fed { (b : List ℕ) (s after : Scanned) (i : ℕ) (bytes : List ℕ) (found : Option Found)
        → IsPageList b (pages_of b) → HasWalked b s i → i < page_count b
        → is_executable b (slice_index (pages_of b) i) ≡ true
        → IsBytesOfPage b (slice_index (pages_of b) i) bytes
        → Feeds s after (page_size * slice_index (pages_of b) i) bytes found
        → MatchOption found (HasWalked b after (i + 1)) (λ it. first_found b ≡ Some it) }
    ensures all { (b : List ℕ) (s : Scanned) → IsPageList b (pages_of b) → HasWalked b s (page_count b)
        → first_found b ≡ None }
{}
