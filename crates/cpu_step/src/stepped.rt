//! What a turn shows.

use nk_bits::Delivery;

/// What a turn shows to the outside.
#[derive(Clone, Copy, Debug, PartialEq, Eq)]
pub enum Stepped {
    /// The instruction ran and shows nothing.
    Ran,
    /// The instruction ran and wrote a byte to the console.
    Console(u8),
    /// An interrupt, a trap or a fault was delivered.
    Delivered(Delivery),
    /// A delivery shut the machine down.
    Shutdown,
}
