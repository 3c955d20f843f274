//! The events of a plan file.

ghost use Rattle.std.specs.Prelude.{◌≡◌, ◌<◌, Ok, Some, IfErr, IfOk, length, slice_get};
ghost use Rattle.irq_plan.specs.PlanFile.{plan_of, IsPlanFault};
ghost use Rattle.irq_plan.specs.PlannedEvents.{IsEvent, IsPlan};

use crate::event::Event;
use crate::fault::PlanFault;
use crate::line::read_line;
use std::alloc::Global;
use std::marker::Model;
use text_lines::cut_line;

/// The events of a plan, in the order in which they are due.
#[derive(Drop)]
pub struct Plan {
    events: Vec<Event>,
}

impl Model for Plan {
    ghost use Rattle.std.specs.Prelude.{List};
    ghost use Rattle.irq_plan.specs.declared.event.Event.{Event};
    ghost use Rattle.irq_plan.specs.PlannedEvents.{IsPlan};

    ghost Value = { List Event };

    ghost view = { λ plan. plan.events.items };

    ghost invariant = { λ plan. IsPlan plan.events.items };
}

impl Plan {
    /// The plan that a file's bytes are. Ok exactly where each line is in form, `Line` exactly where one isn't; but
    /// `Memory` may come in the place of either. It takes memory for the events alone, and time linear in the bytes.
    pub fn read(alloc: Global, bytes: &[u8]) -> Result<Plan, PlanFault>
        ensures plan { IfOk result (λ plan. plan_of bytes.now ≡ Ok plan) }
        ensures fault { IfErr result (IsPlanFault bytes.now) }
        ensures form { IfOk result IsPlan }
    {
        match read_events(alloc, bytes) {
            Ok(events) => Ok(Plan { events }),
            Err(fault) => Err(fault),
        }
    }

    /// The number of events.
    pub fn len(&self) -> usize
        ensures length { result ≡ length self.now }
        ensures form { IsPlan self.now }
    {
        self.events.len()
    }

    /// The event at a place, from 0 on.
    pub fn event(&self, i: usize) -> Event
        requires { i < length self.now }
        ensures event { slice_get self.now i ≡ Some result }
        ensures form { IsEvent result }
    {
        self.events[i]
    }
}

/// The events of a file's lines.
fn read_events(alloc: Global, bytes: &[u8]) -> Result<Vec<Event>, PlanFault>
    ensures plan { IfOk result (λ events. plan_of bytes.now ≡ Ok events.items) }
    ensures form { IfOk result (λ events. IsPlan events.items) }
    ensures fault { IfErr result (IsPlanFault bytes.now) }
{
    let mut events = Vec::new(alloc);
    let mut rest = bytes;
    let mut number = 1;
    let mut least = 0;
    while !rest.is_empty() {
        let (line, later) = cut_line(rest);
        let Some(event) = read_line(line, least) else {
            return Err(PlanFault::Line(number));
        };
        if let Err(_) = events.push(event) {
            return Err(PlanFault::Memory);
        }
        rest = later;
        number += 1;
        least = event.due;
    }
    Ok(events)
}
