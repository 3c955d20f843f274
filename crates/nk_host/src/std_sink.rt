//! Standard output.
ghost use Rattle.std.specs.Prelude.{◌≡◌};
ghost use Rattle.nk_host.specs.CountedStream.{faults_of};

use crate::counted::Counted;
use std::io::{self, Printer};

/// Standard output, with the count of its faults. It tells no content, since no clause can say what
/// a terminal or a pipe takes: what is proved of a put is what is proved over every writer.
pub type StdSink<'a, R> = Counted<Printer<'a, R>>;

impl<'a, R: Print> Counted<Printer<'a, R>> {
    /// Standard output, with no fault yet.
    pub fn new(rt: &'a R) -> StdSink<'a, R>
        ensures { faults_of result ≡ 0 }
    {
        Counted::after(io::writer(rt), 0)
    }
}
