//! What holds of every list of processes.

ghost use Rattle.proc_audit.specs.ProcessLaws.{ProcessLaws};

/// A chain that is followed over as many links as there are slots is the whole chain: what is met after any number of
/// links is in it. A chain that meets a slot again is broken.
pub fn process_law()
    ensures { ProcessLaws }
{}
