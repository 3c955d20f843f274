//! A place that takes bytes.
ghost use Rattle.std.specs.Prelude.{◌≡◌, ℕ, List, [], Option, IsOk};
ghost use Rattle.nk_host.specs.TextPuts.{IsTextPut};

use crate::SinkFault;

/// A place that takes bytes, in order.
pub trait Sink {
    // The bytes taken so far, where the sink tells them.
    ghost taken: { Self → Option (List ℕ) };

    // The count of faults.
    ghost faults: { Self → ℕ };

    /// Takes all of the bytes, or some first ones and fails. It takes no memory.
    fn put(&mut self, bytes: &[u8]) -> Result<(), SinkFault>
        ensures put { IsTextPut taken faults self.old self.new bytes.now result }
        ensures nothing { bytes.now ≡ [] → IsOk result };
}
