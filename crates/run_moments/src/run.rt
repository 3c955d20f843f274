//! What a run is made of, and its beginning.

ghost use Rattle.std.specs.Prelude.{◌≡◌, ◌<◌, ◌≤◌, IfSome, MatchOption, None, length};
ghost use Rattle.boot_map.specs.Division.{IsLayout};
ghost use Rattle.byte_scanner.specs.FirstFound.{first_found};
ghost use Rattle.gate_state.specs.MachineOf.{whole_of};
ghost use Rattle.gate_state.specs.MachineOpening.{opening_state};

use gate_state::Machine;
use irq_plan::Plan;
use nk_run::{Opened, begin};
use std::alloc::Global;
use std::marker::Model;

/// The most events of a plan.
const MOST_EVENTS: usize = 4_294_967_296;

/// What a run is made of: the image with the division of its memory, the input, the plan, and the most turns.
#[derive(Drop)]
pub struct Run<'r> {
    opened: &'r Opened,
    input: &'r [u8],
    plan: &'r Plan,
    turns: u64,
}

impl<'r> Model for Run<'r> {
    ghost use Rattle.std.specs.Prelude.{◌≡◌, ◌≤◌, None, length};
    ghost use Rattle.boot_map.specs.Division.{IsLayout};
    ghost use Rattle.byte_scanner.specs.FirstFound.{first_found};
    ghost use Rattle.run_moments.specs.Moments.{RunParts};

    ghost Value = { RunParts };

    ghost view = { λ r. record {
      opening = record { image = r.opened.now.image; frames = r.opened.now.layout.frames };
      input = r.input.now;
      plan = r.plan.now;
      turns = r.turns;
    } };

    ghost invariant = { λ r. IsLayout r.opened.now.image r.opened.now.layout
        × (first_found r.opened.now.image ≡ None) × (r.turns ≤ 4294967296) × (length r.plan.now ≤ 4294967296) };
}

impl<'r> Run<'r> {
    /// What a run is made of; None where the plan has so many events that steps weren't counted.
    pub fn of(opened: &'r Opened, input: &'r [u8], plan: &'r Plan, turns: u64) -> Option<Run<'r>>
        requires layout { IsLayout opened.now.image opened.now.layout }
        requires clean { first_found opened.now.image ≡ None }
        requires turns { turns ≤ 4294967296 }
        ensures { MatchOption result (4294967296 < length plan.now) (λ run. run ≡ record {
          opening = record { image = opened.now.image; frames = opened.now.layout.frames };
          input = input.now;
          plan = plan.now;
          turns = turns;
        }) }
    {
        if plan.len() > MOST_EVENTS {
            return None;
        }
        Some(Run {
            opened,
            input,
            plan,
            turns,
        })
    }

    /// The image, with the division of its memory.
    pub fn opened(&self) -> &'r Opened
        ensures opening { self.now.opening ≡ record { image = result.now.image; frames = result.now.layout.frames } }
        ensures layout { IsLayout result.now.image result.now.layout }
    {
        self.opened
    }

    /// The plan of events.
    pub fn plan(&self) -> &'r Plan
        ensures plan { result.now ≡ self.now.plan }
        ensures events { length self.now.plan ≤ 4294967296 }
        ensures turns { self.now.turns ≤ 4294967296 }
    {
        self.plan
    }

    /// The most turns.
    pub fn turns(&self) -> u64
        ensures turns { result ≡ self.now.turns }
        ensures most { result ≤ 4294967296 }
    {
        self.turns
    }

    /// The machine as the run begins; None where there is no memory for it, or for its input.
    pub(crate) fn machine(&self, alloc: Global) -> Option<Machine<'r>>
        ensures opening { IfSome result (λ machine. (whole_of machine).opening ≡ self.now.opening) }
        ensures state { IfSome result (λ machine. (whole_of machine).state
            ≡ opening_state self.now.opening self.now.input) }
    {
        let mut input = Vec::new(alloc);
        match input.extend_from_slice(self.input) {
            Ok(()) => begin(alloc, self.opened, input),
            Err(_) => None,
        }
    }
}
