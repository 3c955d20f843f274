//! The descriptors of the frames of memory: the kind of each frame, and how often the page tables name it, as loose leaves
//! and as links. Memory holds them, as `specs/DescriptorBytes.antt` says; `specs/FrameCounts.antt` says what is counted,
//! `specs/SoundTables.antt` what sound tables are, and the laws join them to each change that a call makes. It reads the
//! tables once, at the start, touches the bytes of descriptors alone, and takes no memory; which change is lawful, and the
//! change in the tables, are left to others. Floor: nested kernel.
#![tactic(auto)]

// The numbers of descriptors in memory, all of them anew, and the descriptors that carry the counts on.
mod count;
mod counting;
mod fields;
mod frames;

// What follows from the definitions.
mod laws;
mod stored;

pub use frames::Frames;
pub use laws::{
    count_law, descriptor_law, guarded_law, memory_tables_law, page_tables_law, record_walk_law,
    sound_law,
};
pub use stored::{held_tables_law, stored_law};
