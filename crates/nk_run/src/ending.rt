//! Why a run ends.
ghost use Rattle.std.specs.Prelude.{◌≡◌};
ghost use Rattle.nk_run.specs.RunStates.{is_halted};

/// Why a run ends.
#[derive(Clone, Copy)]
pub(crate) enum Ending {
    /// As many turns were taken as it may have.
    Steps,
    /// The processor is halted, and nothing is left that could wake it.
    Halted,
}

impl Ending {
    /// Whether the processor is halted.
    pub(crate) fn is_halted(self) -> bool
        ensures { result ≡ is_halted self }
    {
        matches!(self, Ending::Halted)
    }
}
