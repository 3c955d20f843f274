//! A block of bytes: safe code over the owner of an allocation.

ghost use Rattle.std.specs.Prelude.{◌≡◌, ℕ, ◌+◌, ◌<◌, ◌≤◌, ◌^◌, IfOk, List, length, replicate, slice_index, slice_set};
ghost use Rattle.std.specs.Borrow.{sem};
ghost use Rattle.phys_mem.specs.Runs.{run_at};

use crate::cells::{Cells, allocate, deallocate};
use std::alloc::{AllocError, Global};
use std::marker::Model;

/// One allocation of bytes, which is freed once, at the block's end.
pub(crate) struct RawBlock {
    start: *mut u8,
    len: usize,
    cells: Cells,
    alloc: Global,
}

impl Model for RawBlock {
    ghost use Rattle.std.specs.Prelude.{ℕ, ◌≡◌, List, length};

    ghost Value = { List ℕ };

    ghost view = { λ b. b.cells.bytes };

    ghost invariant = { λ b. (b.cells.heap ≡ b.alloc) × (b.cells.at ≡ b.start) × (length b.cells.bytes ≡ b.len) × (b.cells.spare ≡ 0) };
}

impl Drop for RawBlock {
    fn drop(self) {
        let RawBlock {
            start,
            len,
            cells,
            alloc,
        } = self;
        deallocate(&alloc, start, len, cells);
    }
}

impl RawBlock {
    ghost use Rattle.phys_mem.specs.BlockLends.{LendsRun};

    /// A block of `len` bytes, each of them 0.
    pub(crate) fn zeroed(alloc: Global, len: usize) -> Result<RawBlock, AllocError>
        requires { len < 2 ^ 63 }
        ensures { IfOk result (λ b. b ≡ replicate len 0) }
    {
        let (start, mut cells) = allocate(&alloc, len)?;
        for at in 0..len {
            cells.push(start, at, 0);
        }
        Ok(RawBlock {
            start,
            len,
            cells,
            alloc,
        })
    }

    pub(crate) fn len(&self) -> usize
        ensures { result ≡ length self.now }
    {
        self.len
    }

    /// The `len` bytes from place `at` on.
    pub(crate) fn run(&self, at: usize, len: usize) -> &[u8]
        requires { at + len ≤ length self.now }
        ensures bytes { result.now ≡ run_at self.now at len }
        ensures length { length result.now ≡ len }
        ensures small { (p : ℕ) → slice_index result.now p < 256 }
    {
        let bytes = self.cells.run(self.start, at, len);
        are_bytes(bytes);
        bytes
    }

    /// The `len` bytes from place `at` on, to be written.
    pub(crate) fn run_mut(&mut self, at: usize, len: usize) -> &mut [u8]
        requires { at + len ≤ length self.old }
        ensures* writes_back { sem 𝓛 (LendsRun self.entry at result) }
        ensures bytes { result.now ≡ run_at self.old at len }
        ensures length { length result.now ≡ len }
    {
        self.cells.run_mut(self.start, at, len)
    }

    pub(crate) fn read(&self, at: usize) -> u8
        requires { at < length self.now }
        ensures { result ≡ slice_index self.now at }
    {
        self.run(at, 1)[0]
    }

    pub(crate) fn write(&mut self, at: usize, value: u8)
        requires { at < length self.old }
        ensures { self.new ≡ slice_set self.old at value }
    {
        self.run_mut(at, 1)[0] = value;
    }
}

/// What a list of bytes holds is below 256.
fn are_bytes(bytes: &[u8])
    ensures { (p : ℕ) → slice_index bytes.now p < 256 }
{}
