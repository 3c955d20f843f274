//! The step from a state of the machine.

use irq_plan::What;

/// The step from a state of the machine.
#[derive(Clone, Copy, Debug, PartialEq, Eq)]
pub enum Move {
    /// The nested kernel's body is run.
    Serve,
    /// An event of the plan is taken.
    Take(What),
    /// The processor takes a turn.
    Turn,
    /// None: the processor is halted, and nothing is left that could wake it.
    Rest,
}
