//! The memory, over its one block of bytes.

ghost use Rattle.std.specs.Prelude.{◌≡◌, ℕ, ◌+◌, ◌*◌, ◌<◌, ◌≤◌, IfOk, List, length};
ghost use Rattle.std.specs.Borrow.{sem};
ghost use Rattle.phys_mem.specs.Memory.{IsBytes, byte_at, entry_in, number_at, stores, stored, frame_bytes, frame_zeroed};

use crate::block::RawBlock;
use std::alloc::Global;
use std::marker::Model;

const FRAME_BYTES: usize = 4096;

/// There is no room for a memory of that size.
#[derive(Clone, Copy, Debug, PartialEq, Eq)]
pub struct NoMemory;

/// The physical memory, in frames of 4,096 bytes.
#[derive(Drop)]
pub struct PhysMem {
    block: RawBlock,
    frames: u32,
}

impl Model for PhysMem {
    ghost use Rattle.std.specs.Prelude.{ℕ, ◌≡◌, ◌*◌, ◌≤◌, List, length};

    ghost Value = { List ℕ };

    ghost view = { λ m. m.block };

    ghost invariant = { λ m. (1 ≤ m.frames) × (m.frames ≤ 65536) × (length m.block ≡ 4096 * m.frames) };
}

impl PhysMem {
    ghost use Rattle.phys_mem.specs.FrameLends.{LendsFrame};

    /// A memory of `frames` frames, from 1 to 65,536.
    pub fn new(alloc: Global, frames: u32) -> Result<PhysMem, NoMemory>
        requires { (1 ≤ frames) × (frames ≤ 65536) }
        ensures length { IfOk result (λ m. length m ≡ 4096 * frames) }
        ensures zeroed { IfOk result (λ m. (p : ℕ) → byte_at m p ≡ 0) }
    {
        match RawBlock::zeroed(alloc, FRAME_BYTES * frames as usize) {
            Ok(block) => Ok(PhysMem { block, frames }),
            Err(_) => Err(NoMemory),
        }
    }

    /// The number of frames, 1 to 65,536.
    pub fn frames(&self) -> u32
        ensures length { 4096 * result ≡ length self.now }
        ensures bounds { (1 ≤ result) × (result ≤ 65536) }
    {
        self.frames
    }

    /// Each element of the list that a contract sees is a byte.
    pub fn bytes_law(&self)
        ensures { IsBytes self.now }
    {
        let _all = self.block.run(0, self.block.len());
    }

    /// The byte at a place.
    pub fn load8(&self, at: u64) -> u8
        requires { at < length self.now }
        ensures { result ≡ byte_at self.now at }
    {
        self.block.read(at as usize)
    }

    /// The number of the two bytes from `at` on, least significant first, at any alignment.
    pub fn load16(&self, at: u64) -> u16
        requires { at + 2 ≤ length self.now }
        ensures { result ≡ number_at self.now 2 at }
    {
        let bytes = self.block.run(at as usize, 2).first_chunk().unwrap();
        u16::from_le_bytes(*bytes)
    }

    /// The number of the four bytes from `at` on, least significant first, at any alignment.
    pub fn load32(&self, at: u64) -> u32
        requires { at + 4 ≤ length self.now }
        ensures { result ≡ number_at self.now 4 at }
    {
        let bytes = self.block.run(at as usize, 4).first_chunk().unwrap();
        u32::from_le_bytes(*bytes)
    }

    /// The eight bytes from `at` on, least significant first, at any alignment.
    pub fn load64(&self, at: u64) -> u64
        requires { at + 8 ≤ length self.now }
        ensures { result ≡ number_at self.now 8 at }
    {
        let bytes = self.block.run(at as usize, 8).first_chunk().unwrap();
        u64::from_le_bytes(*bytes)
    }

    /// Entry `index`, 0 to 511, of the page table in a frame: SDM volume 3, 4.2.
    #[tactic(auto, unfolding(crate::specs::Memory::entry_in))]
    pub fn entry(&self, frame: u32, index: u32) -> u64
        requires frame { 4096 * frame + 4096 ≤ length self.now }
        requires index { index < 512 }
        ensures { result ≡ entry_in self.now frame index }
    {
        let _frames = self.frames();
        self.load64(4096 * u64::from(frame) + 8 * u64::from(index))
    }

    /// Stores one byte.
    pub fn store8(&mut self, at: u64, value: u8)
        requires { at < length self.old }
        ensures stored { self.new ≡ stored self.old (stores 1 at value) }
        ensures length { length self.new ≡ length self.old }
    {
        self.block.write(at as usize, value);
    }

    /// Stores `value` in the two bytes from `at` on, least significant first, at any alignment.
    pub fn store16(&mut self, at: u64, value: u16)
        requires { at + 2 ≤ length self.old }
        ensures stored { self.new ≡ stored self.old (stores 2 at value) }
        ensures length { length self.new ≡ length self.old }
    {
        let bytes = value.to_le_bytes();
        self.block.run_mut(at as usize, 2).copy_from_slice(&bytes);
    }

    /// Stores `value` in the four bytes from `at` on, least significant first, at any alignment.
    pub fn store32(&mut self, at: u64, value: u32)
        requires { at + 4 ≤ length self.old }
        ensures stored { self.new ≡ stored self.old (stores 4 at value) }
        ensures length { length self.new ≡ length self.old }
    {
        let bytes = value.to_le_bytes();
        self.block.run_mut(at as usize, 4).copy_from_slice(&bytes);
    }

    /// Stores `value` in the eight bytes from `at` on, least significant first, at any alignment.
    pub fn store64(&mut self, at: u64, value: u64)
        requires { at + 8 ≤ length self.old }
        ensures stored { self.new ≡ stored self.old (stores 8 at value) }
        ensures length { length self.new ≡ length self.old }
    {
        let bytes = value.to_le_bytes();
        self.block.run_mut(at as usize, 8).copy_from_slice(&bytes);
    }

    /// The 4,096 bytes of a frame.
    pub fn frame(&self, frame: u32) -> &[u8]
        requires { 4096 * frame < length self.now }
        ensures bytes { result.now ≡ frame_bytes self.now frame }
        ensures length { length result.now ≡ 4096 }
    {
        self.block.run(start_of(frame), FRAME_BYTES)
    }

    /// The 4,096 bytes of a frame, to be written.
    pub fn frame_mut(&mut self, frame: u32) -> &mut [u8]
        requires { 4096 * frame < length self.old }
        ensures* writes_back { sem 𝓛 (LendsFrame self.entry frame result) }
        ensures bytes { result.now ≡ frame_bytes self.old frame }
        ensures length { length result.now ≡ 4096 }
    {
        let start = start_of(frame);
        self.block.run_mut(start, FRAME_BYTES)
    }

    /// Makes every byte of a frame 0.
    pub fn zero_frame(&mut self, frame: u32)
        requires { 4096 * frame < length self.old }
        ensures zeroed { self.new ≡ frame_zeroed self.old frame }
        ensures length { length self.new ≡ length self.old }
    {
        let bytes = self.block.run_mut(start_of(frame), FRAME_BYTES);
        bytes.fill(0);
    }
}

fn start_of(frame: u32) -> usize
    ensures { result ≡ 4096 * frame }
{
    FRAME_BYTES * frame as usize
}
