//! A reader, and where it stands.
ghost use Rattle.std.specs.Prelude.{◌≡◌, IfSome};
ghost use Rattle.std.specs.Option.{ForSome};
ghost use Rattle.nk_host.specs.Streams.{StandsAt};

use std::io::{Read, Seek};

/// A reader, and the place at which its next read begins, where that is known; the first byte has
/// place 0.
#[derive(Drop)]
pub struct Placed<F: Read + Seek> {
    /// The reader.
    pub file: F,
    /// The place, or None where it isn't known.
    pub stands: Option<u64>,
    ghost there: { ForSome stands (StandsAt F.stream_position F.remaining file) },
}

impl<F: Read + Seek> Placed<F> {
    /// A reader that stands at that place, if one is given.
    pub fn new(file: F, stands: Option<u64>) -> Placed<F>
        requires { IfSome stands (StandsAt F.stream_position F.remaining file) }
        ensures file { result.file ≡ file }
        ensures stands { result.stands ≡ stands }
    {
        Placed { file, stands }
    }
}
