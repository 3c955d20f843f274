//! Where a debugger stops.

ghost use Rattle.std.specs.Prelude.{◌≡◌, [], false};

use std::alloc::Global;

/// Bytes that are watched: at most eight, from an address on as `memory_sights` names it.
#[derive(Clone, Copy, Debug, PartialEq, Eq)]
pub struct Watch {
    pub address: u64,
    pub count: u8,
}

/// Kinds of steps at which a debugger stops.
#[derive(Clone, Copy, Debug, PartialEq, Eq)]
pub struct Catches {
    /// Calls of the nested kernel.
    pub calls: bool,
    /// Deliveries of a vector.
    pub deliveries: bool,
    /// Events of the plan.
    pub events: bool,
    /// Bytes for the console.
    pub console: bool,
}

/// All at which a debugger stops.
#[derive(Drop)]
pub struct Stops {
    /// The addresses of breakpoints.
    pub breakpoints: Vec<u64>,
    pub watches: Vec<Watch>,
    pub catches: Catches,
}

/// Why a debugger stopped.
#[derive(Clone, Copy, Debug, PartialEq, Eq)]
pub enum Stop {
    /// The step from here begins at a breakpoint.
    Breakpoint,
    /// The step behind which it stands, or before which it does on its way back, changes watched bytes at this address.
    Watched(u64),
    /// That step is of a kind that is caught.
    Caught,
    /// The run is over.
    Ended,
    /// It is the run's beginning.
    Begun,
    /// It took the step, or went to the moment, that it was asked to.
    Stepped,
}

impl Catches {
    /// No step is caught.
    pub const NONE: Catches = Catches {
        calls: false,
        deliveries: false,
        events: false,
        console: false,
    };
}

impl Stops {
    /// Nothing stops it.
    pub fn none(alloc: Global) -> Stops
        ensures breakpoints { result.breakpoints.items ≡ [] }
        ensures watches { result.watches.items ≡ [] }
        ensures catches { result.catches ≡ record { calls = false; deliveries = false; events = false; console = false } }
    {
        Stops {
            breakpoints: Vec::new(alloc),
            watches: Vec::new(alloc),
            catches: Catches::NONE,
        }
    }
}
