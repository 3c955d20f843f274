//! What holds of every image that is made.

ghost use Rattle.std.specs.Prelude.{◌≡◌, ◌+◌, ◌<◌, ◌≤◌, ℕ, None, length, slice_index};
ghost use Rattle.elf_image.specs.Rows.{first_fault};
ghost use Rattle.byte_scanner.specs.FirstFound.{first_found};
ghost use Rattle.boot_map.specs.Division.{division_of, free_start, map_start, need, pages_start};
ghost use Rattle.image_maker.specs.MadeImage.{direct_table, first_frame, image_of_number, user_frame};

use byte_scanner::clean_law;
use elf_image::written_law;

/// The image of each number up to 100 is a file of at most 64 MiB, of bytes, in form, with no protected encoding in its
/// code, and its opening has room in a memory of 4,096 frames. That opening has the user's code, the direct map's table
/// of level 3 and the first free frame where the image's script has them.
#[tactic(auto, using(crate::proofs::MadeImages::made_within))]
pub fn made_image_law()
    ensures within { (number : ℕ) → number ≤ 100 → length (image_of_number number) ≤ 67108864 }
    ensures bytes { (number i : ℕ) → slice_index (image_of_number number) i < 256 }
    ensures formed { (number : ℕ) → number ≤ 100 → first_fault (image_of_number number) ≡ None }
    ensures clean { (number : ℕ) → number ≤ 100 → first_found (image_of_number number) ≡ None }
    ensures room { (number : ℕ) → number ≤ 100 → need (image_of_number number) 4096 ≤ 4096 }
    ensures user { (number : ℕ) → number ≤ 100 → let layout = division_of (image_of_number number) 4096 in
        pages_start layout + layout.pages ≡ user_frame number + 1 }
    ensures direct { (number : ℕ) → number ≤ 100
        → map_start (division_of (image_of_number number) 4096) ≡ direct_table number }
    ensures free { (number : ℕ) → number ≤ 100
        → free_start (division_of (image_of_number number) 4096) ≡ first_frame number 0 }
{
    clean_law();
    written_law();
}
