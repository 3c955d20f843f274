//! The ports of the machine as IN and OUT of one byte meet them: the input, which is read a byte at a time, whether a
//! byte of it is left, and the console. The input is handed over whole when the ports are made; no call takes memory.
//! What is done with a byte of the console is left to the program. Floor: processor.
#![tactic(auto)]

mod ports;

pub use ports::Ports;
