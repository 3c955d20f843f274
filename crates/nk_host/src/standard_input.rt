//! Standard input.
ghost use Rattle.std.specs.Prelude.{◌≡◌};
ghost use Rattle.nk_host.specs.CountedStream.{faults_of};

use crate::counted::Counted;

/// Standard input, with no fault yet. It tells no content, since no clause can say what a terminal or
/// a pipe gives: what is proved of a take is what is proved over every reader.
pub fn std_source<R: Input>(rt: &R) -> Counted<R::Reader>
    ensures { faults_of result ≡ 0 }
{
    Counted::after(rt.reader(), 0)
}
