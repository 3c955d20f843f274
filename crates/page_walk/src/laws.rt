//! What follows from the definition of an access over a memory for those who ask what a write changes.

ghost use Rattle.std.specs.Prelude.{◌≡◌, ◌⊎◌, ℕ, ◌/◌, ◌≤◌, All};
ghost use Rattle.nk_bits.specs.declared.leaf.Target.{Target};
ghost use Rattle.nk_bits.specs.Accesses.{IsTarget};
ghost use Rattle.page_walk.specs.MemoryAccess.{stores_at};

use phys_mem::memory_law;

/// Each byte of a write lies in one of the two frames that its check found.
pub fn places_law()
    ensures { (size va width value : ℕ) (target : Target) → IsTarget size va width target → width ≤ 4096
        → All (λ w. (w.0 / 4096 ≡ target.first / 4096) ⊎ (w.0 / 4096 ≡ target.second / 4096))
        (stores_at va width target value) }
{
    memory_law();
}
