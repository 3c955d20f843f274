//! Files under names.
ghost use Rattle.std.specs.Prelude.{◌≡◌, ℕ, ◌≤◌, List, length, Option, IfOk, OnOk, vec_len};
ghost use Rattle.nk_host.specs.FaultCounts.{NeverFalls, OnlyAt, Rose, RoseTo};
ghost use Rattle.nk_host.specs.Files.{AreFilesOfBytes, HasSize, IsFile, IsLonger, IsPiece, IsWithin};
ghost use Rattle.nk_host.specs.Told.{IfTold};

use crate::{FetchFault, PieceFault};
use std::alloc::Global;

/// Files under names, each fetched whole or read in pieces.
pub trait Shelf {
    // The files by their names' bytes, where the shelf tells them.
    ghost files: { Self → Option (List ℕ → Option (List ℕ)) };

    // The count of faults for each name.
    ghost faults: { Self → List ℕ → ℕ };

    // The count of wants of memory.
    ghost wants: { Self → ℕ };

    /// The file of that name, where it has at most `most` bytes. Want of memory has no clause: it
    /// may come at any fetch.
    fn fetch(&mut self, alloc: Global, name: &str, most: u64) -> Result<Vec<u8>, FetchFault>
        ensures files_stay { files self.new ≡ files self.old }

        // What is told is bytes, of every name and whatever the fetch answers.
        ensures bytes { IfTold (files self.old) AreFilesOfBytes }

        // The counts.
        ensures never_falls { NeverFalls (faults self.old) (faults self.new) }
        ensures only_at { IfTold (files self.old)
            (λ held. OnlyAt held (faults self.old) (faults self.new) name.now) }
        ensures failed { result ≡ Err FetchFault.Failed → Rose (faults self.old) (faults self.new) name.now }
        ensures wants_stand { wants self.old ≤ wants self.new }

        // The answer.
        ensures at_most { IfOk result (λ bytes. vec_len bytes ≤ most) }
        ensures whole { IfTold (files self.old)
            (λ held. IfOk result (λ bytes. IsFile held name.now bytes.items)) }
        ensures longer { IfTold (files self.old)
            (λ held. result ≡ Err FetchFault.Longer → IsLonger held name.now most) };

    /// The length in bytes of the file of that name, where it has at most `most` bytes.
    fn size(&mut self, alloc: Global, name: &str, most: u64) -> Result<u64, FetchFault>
        ensures files_stay { files self.new ≡ files self.old }

        // What is told is bytes, of every name and whatever the size answers.
        ensures bytes { IfTold (files self.old) AreFilesOfBytes }

        // The counts.
        ensures never_falls { NeverFalls (faults self.old) (faults self.new) }
        ensures only_at { IfTold (files self.old)
            (λ held. OnlyAt held (faults self.old) (faults self.new) name.now) }
        ensures failed { result ≡ Err FetchFault.Failed → Rose (faults self.old) (faults self.new) name.now }
        ensures wants_stand { wants self.old ≤ wants self.new }
        ensures wanted { result ≡ Err FetchFault.Memory → RoseTo (wants self.old) (wants self.new) }

        // The answer.
        ensures at_most { IfOk result (λ size. size ≤ most) }
        ensures whole { IfTold (files self.old)
            (λ held. IfOk result (λ size. HasSize held name.now size)) }
        ensures longer { IfTold (files self.old)
            (λ held. result ≡ Err FetchFault.Longer → IsLonger held name.now most) };

    /// Fills `into` with the bytes of the file of that name from place `at` on; the file's first byte
    /// has place 0. Where that fails, `into` holds any bytes.
    fn piece(
        &mut self,
        alloc: Global,
        name: &str,
        at: u64,
        into: &mut [u8],
    ) -> Result<(), PieceFault>
        requires within { IfTold (files self.old) (λ held. IsWithin held name.now at (length into.old)) }
        ensures files_stay { files self.new ≡ files self.old }

        // The counts.
        ensures never_falls { NeverFalls (faults self.old) (faults self.new) }
        ensures only_at { IfTold (files self.old)
            (λ held. OnlyAt held (faults self.old) (faults self.new) name.now) }
        ensures failed { result ≡ Err PieceFault.Failed → Rose (faults self.old) (faults self.new) name.now }
        ensures wants_stand { wants self.old ≤ wants self.new }
        ensures wanted { result ≡ Err PieceFault.Memory → RoseTo (wants self.old) (wants self.new) }

        // The answer.
        ensures len { length into.new ≡ length into.old }
        ensures whole { IfTold (files self.old)
            (λ held. OnOk result (IsPiece held name.now at into.new)) };
}
