//! The owner of an allocation, whose five functions follow the pointer and are proved by hand.

ghost use Rattle.std.specs.Prelude.{◌≡◌, ℕ, ◌+◌, ◌<◌, ◌≤◌, ◌^◌, List, [], ◌∷◌, ◌++◌, length, IfOk};
ghost use Rattle.std.specs.Borrow.{sem};
ghost use Rattle.std.specs.declared.alloc.Global.{Global};
ghost use Rattle.phys_mem.specs.Ownership.{cells_own, cells_lent};
ghost use Rattle.phys_mem.specs.Runs.{run_at};
ghost use denote.RawPtr.{Ptr};

use std::alloc::{AllocError, Allocator, Global};
use std::marker::Model;
use std::slice;

/// The owner of an allocation. It takes no space: the block holds where it begins and how long it is.
pub(crate) struct Cells {
    ghost heap: { Global },
    ghost at: { Ptr },
    ghost bytes: { List ℕ },
    ghost spare: { ℕ },
}

impl Model for Cells {
    ghost also_owns = { λ c. cells_own c.heap c.at c.bytes c.spare };

    ghost also_shares = { λ c _ κ. cells_lent c.at c.bytes c.spare κ };
}

/// Room for `len` bytes, of which none is written yet.
pub(crate) fn allocate(alloc: &Global, len: usize) -> Result<(*mut u8, Cells), AllocError>
    requires { len < 2 ^ 63 }
    ensures { IfOk result (λ r. (r.1.at ≡ r.0) × (r.1.heap ≡ alloc.now) × (r.1.bytes ≡ []) × (r.1.spare ≡ len)) }
{
    match alloc.allocate(len, 1) {
        Ok(start) => Ok((start, Cells {})),
        Err(error) => Err(error),
    }
}

pub(crate) fn deallocate(alloc: &Global, start: *mut u8, len: usize, cells: Cells)
    requires { (cells.heap ≡ alloc.now) × (cells.at ≡ start) × (length cells.bytes ≡ len) × (cells.spare ≡ 0) }
{
    let Cells {} = cells;
    unsafe {
        alloc.deallocate(start, len, 1);
    }
}

impl Cells {
    ghost use Rattle.phys_mem.specs.CellsLends.{LendsCells};

    /// Writes the next byte, the first that is not written yet.
    pub(crate) fn push(&mut self, start: *mut u8, at: usize, value: u8)
        requires { (start ≡ self.old.at) × (at ≡ length self.old.bytes) × (0 < self.old.spare) }
        ensures { (self.new.heap ≡ self.old.heap) × (self.new.at ≡ self.old.at) × (self.new.bytes ≡ self.old.bytes ++ value ∷ []) × (self.new.spare + 1 ≡ self.old.spare) }
    {
        unsafe { start.add(at).write(value) }
    }

    /// The `len` bytes from place `at` on.
    pub(crate) fn run(&self, start: *mut u8, at: usize, len: usize) -> &[u8]
        requires { (start ≡ self.now.at) × (at + len ≤ length self.now.bytes) }
        ensures { result.now ≡ run_at self.now.bytes at len }
    {
        unsafe { slice::from_raw_parts(start.add(at), len) }
    }

    pub(crate) fn run_mut(&mut self, start: *mut u8, at: usize, len: usize) -> &mut [u8]
        requires { (start ≡ self.old.at) × (at + len ≤ length self.old.bytes) }
        ensures* writes_back { sem 𝓛 (LendsCells self.entry at result) }
        ensures bytes { result.now ≡ run_at self.old.bytes at len }
    {
        unsafe { slice::from_raw_parts_mut(start.add(at), len) }
    }
}
