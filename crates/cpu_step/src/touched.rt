//! What a turn touched of memory.

ghost use Rattle.std.specs.Prelude.{◌≡◌};
ghost use Rattle.cpu_step.specs.FramesTouched.{touched_by, touched_of};

use crate::stepped::Stepped;
use x86_regs::Write;

/// The frames that a turn may have changed.
#[derive(Clone, Copy, Debug, PartialEq, Eq)]
pub enum Touched {
    /// No byte of memory.
    Nothing,
    /// No byte outside the two frames with these numbers.
    Frames(u64, u64),
    /// Any byte: a delivery has pushed, or may have.
    Any,
}

/// What an instruction touches that was made, by what its turn shows.
pub(crate) fn touched_by(stepped: &Stepped, write: &Option<Write>) -> Touched
    ensures { result ≡ touched_by stepped.now write.now }
{
    match stepped {
        Stepped::Delivered(_) | Stepped::Shutdown => Touched::Any,
        Stepped::Ran | Stepped::Console(_) => touched_of(write),
    }
}

/// What a write touches.
fn touched_of(write: &Option<Write>) -> Touched
    ensures { result ≡ touched_of write.now }
{
    match write {
        Some(write) => Touched::Frames(write.target.first / 4096, write.target.second / 4096),
        None => Touched::Nothing,
    }
}
