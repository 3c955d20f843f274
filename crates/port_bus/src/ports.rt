//! The input and the console behind their ports.

ghost use Rattle.std.specs.Prelude.{◌≡◌, drop};
ghost use Rattle.port_bus.specs.PortWords.{next_byte, ready_byte, rest_of, port_byte, input_after, console_byte};

use std::marker::Model;

/// OUT: a byte for the console.
const CONSOLE: u16 = 0xE9;

/// IN: the next byte of the input.
const INPUT: u16 = 0xEA;

/// IN: whether a byte of the input is left.
const READY: u16 = 0xEB;

/// What is read where no device answers.
const NO_DEVICE: u8 = 0xFF;

/// The ports, by the bytes of the input that are still to be taken.
#[derive(Drop)]
pub struct Ports {
    input: Vec<u8>,
    /// How many bytes of the input were taken.
    place: usize,
}

impl Model for Ports {
    ghost use Rattle.std.specs.Prelude.{ℕ, ◌≤◌, List, drop, length};

    ghost Value = { List ℕ };

    ghost view = { λ ports. drop ports.place ports.input.items };

    ghost invariant = { λ ports. ports.place ≤ length ports.input.items };
}

impl Ports {
    /// The ports of a machine that has this input.
    pub fn new(input: Vec<u8>) -> Ports
        ensures { result ≡ input.items }
    {
        Ports { input, place: 0 }
    }

    /// IN from a port: 0xEA takes the next byte of the input and gives 0 at its end, 0xEB gives 1 while a byte is left
    /// and then 0, and any other port gives 0xFF.
    #[tactic(auto, unfolding(crate::specs::PortWords::port_byte, crate::specs::PortWords::input_after))]
    pub fn take(&mut self, port: u16) -> u8
        ensures byte { result ≡ port_byte self.old port }
        ensures input { self.new ≡ input_after self.old port }
    {
        match port {
            INPUT => self.next(),
            READY => self.ready(),
            _ => NO_DEVICE,
        }
    }

    /// OUT of a byte to a port: the byte is the console's exactly where the port is 0xE9, and is lost at any other.
    #[tactic(auto, unfolding(crate::specs::PortWords::console_byte))]
    pub fn give(&mut self, port: u16, byte: u8) -> Option<u8>
        ensures console { result ≡ console_byte port byte }
        ensures input { self.new ≡ self.old }
    {
        if port == CONSOLE { Some(byte) } else { None }
    }

    /// Takes the next byte of the input, or gives 0 at its end.
    fn next(&mut self) -> u8
        ensures byte { result ≡ next_byte self.old }
        ensures rest { self.new ≡ rest_of self.old }
    {
        if self.place == self.input.len() {
            return 0;
        }
        let byte = self.input[self.place];
        self.place += 1;
        byte
    }

    /// 1 while a byte of the input is left, and then 0.
    fn ready(&self) -> u8
        ensures { result ≡ ready_byte self.now }
    {
        u8::from(self.place < self.input.len())
    }
}
