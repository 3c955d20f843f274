//! Protected regions: the book of those that live, their written bytes, and the calls that declare pages, allocate from the
//! pool and free again, by the rules of `specs/RegionCalls.antt`. They stand in guest memory, in frames 42 to 63;
//! `specs/RegionBytes.antt` says how. No call takes memory. Which writes a policy admits, others say. Floor: nested kernel.
#![tactic(auto)]

// What is kept of a region, and the bits of its written bytes.
mod bits;
mod row;

// The frames of a range of pages.
mod pages;

// The places of the pool, and the bytes of a region in memory.
mod pool;
mod stores;

// The slots in memory, and the rows in them.
mod slots;

// The book, and the calls on it.
mod regions;

// What follows from the definitions.
mod laws;

pub use laws::{apart_law, declared_law, held_regions_law, numbered_law};
pub use regions::{Granted, Region, Regions};
