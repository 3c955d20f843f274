//! Packets of GDB's remote serial protocol: heard from a source of bytes, and put to a sink. It meets the definitions of
//! `specs/Packets`, and takes memory for the body of a packet and for the bytes that wait. What a body asks, others say.
//! Floor: outside.
#![tactic(auto)]

// What is heard, the bytes of which, and the next packet.
mod heard;
mod hearing;
mod listener;

// A packet that is sent, and what is heard of one.
mod laws;
mod put;

pub use heard::{HearFault, Heard};
pub use laws::packet_law;
pub use listener::Listener;
pub use put::put_packet;
