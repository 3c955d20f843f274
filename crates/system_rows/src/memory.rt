//! The memory that turns run in: 64 frames, with a descriptor table, a task-state segment and page tables.

ghost use Rattle.std.specs.Prelude.{◌≡◌, ◌<◌, ◌+◌, ◌≤◌, false, length};
ghost use Rattle.phys_mem.specs.Memory.{byte_at, number_at};
ghost use Rattle.cpu_step.specs.Processor.{IsSound};
ghost use Rattle.cpu_step.specs.Turns.{enters_body, turned};

use anyhow::{Result, bail};
use cpu_step::{Cpu, Stepped};
use phys_mem::PhysMem;
use std::alloc::Global;

/// How many bytes there are.
pub const SIZE: u64 = 262_144;

/// How many words of eight bytes there are.
pub const WORDS: u64 = 32_768;

/// Memory of 64 frames.
#[derive(Drop)]
pub struct Memory {
    bytes: PhysMem,
    ghost sized: { length bytes ≡ 262144 },
}

impl Memory {
    /// What stands in memory where a row says nothing.
    ///
    /// Fails with want of memory.
    pub fn base(alloc: Global) -> Result<Memory> {
        let Ok(bytes) = PhysMem::new(alloc, 64) else {
            bail!("no memory for the frames");
        };
        let mut memory = Memory { bytes };
        memory.put_gates();
        memory.put_kernel_tables();
        memory.put_tables();
        Ok(memory)
    }

    /// The byte at a place.
    pub fn byte(&self, place: u64) -> u8
        requires { place < 262144 }
        ensures { result ≡ byte_at self.now.bytes place }
    {
        self.bytes.load8(place)
    }

    /// The number in the eight bytes from a place on.
    pub fn word(&self, place: u64) -> u64
        requires { place + 8 ≤ 262144 }
        ensures { result ≡ number_at self.now.bytes 8 place }
    {
        self.bytes.load64(place)
    }

    /// Puts a byte at a place.
    pub fn put(&mut self, place: u64, byte: u8)
        requires { place < 262144 }
    {
        self.bytes.store8(place, byte);
    }

    /// Puts a number into the eight bytes from a place on.
    fn put_word(&mut self, place: u64, number: u64)
        requires { place + 8 ≤ 262144 }
    {
        self.bytes.store64(place, number);
    }

    /// Makes each byte that of another memory.
    pub fn put_all(&mut self, other: &Memory) {
        for index in 0..WORDS {
            let place = 8 * index;
            self.put_word(place, other.word(place));
        }
    }

    /// Makes one turn of a processor.
    pub fn turn(&mut self, cpu: &mut Cpu) -> Stepped
        requires body { enters_body cpu.old ≡ false }
        requires running { cpu.old.halted ≡ false }
        requires sound { IsSound 262144 cpu.old }
        ensures { record { processor = cpu.new; memory = self.new.bytes; stepped = result }
            ≡ turned cpu.old self.old.bytes }
    {
        cpu.step(&mut self.bytes)
    }

    /// The gates of the vectors 0 to 47, and in the task-state segment the first interrupt stack.
    fn put_gates(&mut self) {
        for vector in 0..48u64 {
            self.put_word(16 * vector, gate(vector));
            self.put_word(16 * vector + 8, 0xFFFF_FF80);
        }
        self.put_word(0x424, 0xFFFF_FF80_0000_4000);
    }

    /// The root, and the tables of FFFFFF8000000000: its pages are frames 0 to 4, of which 1 may be executed and 3
    /// written.
    fn put_kernel_tables(&mut self) {
        self.put_word(0x5000, 0x9027);
        self.put_word(0x5FF8, 0x6027);
        self.put_word(0x6000, 0x7027);
        self.put_word(0x7000, 0x8027);
        self.put_word(0x8000, 0x8000_0000_0000_0021);
        self.put_word(0x8008, 0x1021);
        self.put_word(0x8010, 0x8000_0000_0000_2021);
        self.put_word(0x8018, 0x8000_0000_0000_3063);
        self.put_word(0x8020, 0x8000_0000_0000_4021);
    }

    /// The tables of the linear pages 10 to 18, all in hexadecimal: 10, 11, 12 and 17 are the user's, and 16 is absent.
    /// Frames aren't in the order of pages, so that some accesses that cross pages don't end in the next frame.
    fn put_tables(&mut self) {
        self.put_word(0x9000, 0xA027);
        self.put_word(0xA000, 0xB027);
        self.put_word(0xB080, 0x1_0025);
        self.put_word(0xB088, 0x8000_0000_0001_1067);
        self.put_word(0xB090, 0x8000_0000_0001_2025);
        self.put_word(0xB098, 0x1_4021);
        self.put_word(0xB0A0, 0x8000_0000_0001_5063);
        self.put_word(0xB0A8, 0x8000_0000_0001_3021);
        self.put_word(0xB0B8, 0x1_6067);
        self.put_word(0xB0C0, 0x1_7063);
    }
}

/// The low half of a gate (SDM volume 3, 6.14.1): to FFFFFF8000001040 and 8 bytes more for each vector, by the selector
/// 8, the first interrupt stack and type E; those of 3, 4 and 47 are the user's too.
fn gate(vector: u64) -> u64
    requires { vector < 48 }
{
    match vector {
        3 | 4 | 47 => 0xEE01_0008_1040 + 8 * vector,
        _ => 0x8E01_0008_1040 + 8 * vector,
    }
}
