//! The virtual MMU: the calls on page tables. Each judges by its rules, in order, changes memory and the descriptors as
//! `specs/TableCalls.antt` says, and keeps the tables sound; a call that breaks a rule changes nothing. It takes no memory,
//! and no work grows with memory beyond the table that a call names. Which translations go afterwards, others say.
//! Floor: nested kernel.
#![tactic(auto)]

// The entries of tables, the rules of the calls, and the calls.
mod entries;
mod judges;
mod tables;

// What follows from the definitions.
mod laws;

pub use laws::{accepted_law, table_calls_law};
pub use tables::Tables4;
