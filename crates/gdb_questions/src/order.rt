//! What a debugger asks in words.

/// A kind of steps at which a debugger may be stopped.
#[derive(Clone, Copy, Debug, PartialEq, Eq)]
pub enum CatchKind {
    Calls,
    Deliveries,
    Events,
    Console,
}

/// An order in words, which `monitor` passes on.
#[derive(Clone, Copy, Debug, PartialEq, Eq)]
pub enum Order {
    /// `turn`: how many turns and steps were taken.
    Turn,
    /// `turn N`: goes to where so many turns were taken.
    GoToTurn(u64),
    /// `step N`: goes behind so many steps.
    GoToStep(u64),
    /// `state`: the processor's state.
    State,
    /// `kept`: what the processor keeps of walks.
    Kept,
    /// `section`: the kinds of frames, the entries of page tables, the regions and the log, as a run that ends here tells them.
    Section,
    /// `frame F`: the kind of a frame, and its references.
    Frame(u64),
    /// `tables ADDRESS`: the entries by which an address is walked for.
    Tables(u64),
    /// `events`: the next events of the plan.
    Events,
    /// `catch KIND`: each step of that kind stops the debugger from now on.
    Catch(CatchKind),
    /// `catch none`: none does.
    CatchNone,
    /// Anything else: the orders are told.
    Help,
}
