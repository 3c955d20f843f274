//! Which values may stand in a page table: the rules on bits, target and rights, by the kinds of `page_desc`, as
//! `specs/ValueRules.antt` lists them. It changes nothing and takes no memory; which table and which entry is meant, and
//! the change itself, are left to others. Floor: nested kernel.
#![tactic(auto)]

// The rules in order.
mod judge;

// What follows from the definitions.
mod laws;

pub use judge::judge_entry;
pub use laws::value_law;
