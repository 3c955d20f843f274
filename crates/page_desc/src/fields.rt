//! The numbers of a frame's descriptor, as memory holds them: four of four bytes each, from bytes 0, 4, 8 and 12 on. The
//! first is the kind, with its level.

ghost use Rattle.std.specs.Prelude.{◌≡◌, ◌≢◌, ◌<◌, ◌≤◌, ℕ, ◌+◌, ◌*◌, length};
ghost use Rattle.phys_mem.specs.Memory.{stored, stores};
ghost use Rattle.page_desc.specs.DescriptorBytes.{field_in, kind_by, word_of};
ghost use Rattle.page_desc.specs.FieldChanges.{DiffersInField};

use nk_bits::Kind;
use phys_mem::{PhysMem, memory_law};

/// Where the descriptors begin: at frame 64.
const DESCRIPTORS: u64 = 0x40000;

/// The bytes of a descriptor.
const DESCRIPTOR_BYTES: u64 = 16;

/// Where in a descriptor the kind stands, with its level.
pub const KIND: u32 = 0;

/// Where in a descriptor the count of loose leaves stands.
pub const LOOSE: u32 = 4;

/// Where in a descriptor the count of links stands.
pub const LINKS: u32 = 8;

/// The number of four bytes, from a byte of the frame's descriptor on.
#[tactic(auto, unfolding(crate::specs::DescriptorBytes::field_in))]
pub fn field(mem: &PhysMem, at: u32, frame: u32) -> u32
    requires room { 0x40000 + 16 * frame + at + 4 ≤ length mem.now }
    ensures { result ≡ field_in mem.now at frame }
{
    mem.load32(DESCRIPTORS + DESCRIPTOR_BYTES * u64::from(frame) + u64::from(at))
}

/// Puts a number there.
pub fn set_field(mem: &mut PhysMem, at: u32, frame: u32, value: u32)
    requires room { 0x40000 + 16 * frame + at + 4 ≤ length mem.old }
    ensures { mem.new ≡ stored mem.old (stores 4 (0x40000 + 16 * frame + at) value) }
{
    mem.store32(
        DESCRIPTORS + DESCRIPTOR_BYTES * u64::from(frame) + u64::from(at),
        value,
    );
}

/// Puts a number into one field of the descriptor of a frame in memory.
pub fn put(mem: &mut PhysMem, at: u32, frames: u32, frame: u32, value: u32)
    requires memory { (length mem.old ≡ 4096 * frames) × (65 ≤ frames) }
    requires at { at ≤ 12 }
    requires frame { frame < frames }
    ensures here { field_in mem.new at frame ≡ value }
    ensures apart { (other : ℕ) → other ≢ frame → field_in mem.new at other ≡ field_in mem.old at other }
    ensures differs { DiffersInField frames at mem.old mem.new }
{
    memory_law();
    set_field(mem, at, frame, value);
}

/// The first number of the descriptor of a frame of this kind.
#[tactic(auto, unfolding(crate::specs::DescriptorBytes::kind_by))]
pub fn word_of(kind: Kind) -> u32
    ensures word { result ≡ word_of kind }
    ensures back { kind_by result ≡ kind }
{
    match kind {
        Kind::Data => 0,
        Kind::Code => 1,
        Kind::Table(level) => 2 + 256 * u32::from(level),
        Kind::Fixed => 3,
        Kind::Trap => 4,
        Kind::Guarded => 5,
        Kind::Hidden => 6,
    }
}

/// The kind that such a number stands for.
#[tactic(auto, unfolding(crate::specs::DescriptorBytes::kind_by))]
pub fn kind_by(word: u32) -> Kind
    ensures { result ≡ kind_by word }
{
    match word % 256 {
        0 => Kind::Data,
        1 => Kind::Code,
        2 => Kind::Table((word / 256 % 256) as u8),
        3 => Kind::Fixed,
        4 => Kind::Trap,
        5 => Kind::Guarded,
        _ => Kind::Hidden,
    }
}
