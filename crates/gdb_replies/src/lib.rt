//! What a debugger is answered, by GDB's remote serial protocol: registers, memory, why the machine stands, the description of
//! the registers, and the texts of orders in words. It meets the definitions of `specs/`, looks at the moment that it is
//! handed and changes nothing of it, and takes memory for the reply alone. Which moment that is, and how replies go out,
//! others say. Floor: whole.
#![tactic(auto)]

// Words of a reply.
mod pieces;
mod words;

// What is told of a moment.
mod memory;
mod registers;
mod stop;

// What is told of the debugger's own matters.
mod description;

// Orders in words.
mod order;
mod order_text;
mod section;
mod text_sink;

// The reply to a question.
mod reply;

pub use reply::put_reply;
