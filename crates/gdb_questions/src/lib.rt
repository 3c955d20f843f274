//! What a debugger asks: the body of a packet of GDB's remote protocol, read as a question, and the order in words that
//! it may pass on. It meets the definitions of `specs/`, looks at the bytes that it is given and at nothing else, and
//! takes no memory. How packets are framed, and what is answered, is left to others. Floor: formats.
#![tactic(auto)]

// What may be asked, and ordered in words.
mod order;
mod question;

// A word at the front of a text, and two numbers behind it.
mod front;
mod pair;

// The text of an order, and a packet's body.
mod order_text;
mod reading;

pub use order::{CatchKind, Order};
pub use question::Question;
pub use reading::question_of;
