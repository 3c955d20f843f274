//! The way forwards to the next stop.

ghost use Rattle.std.specs.Prelude.{◌≡◌, ◌≤◌, All, IfSome, None, false, true};
ghost use Rattle.run_moments.specs.declared.stops.Stop.TheVariants as stop;
ghost use Rattle.run_moments.specs.Moments.{is_over, state_at};
ghost use Rattle.run_moments.specs.Stops.{IsNextStop, or_else, stop_if};
ghost use Rattle.run_moments.specs.StopsMet.{IsComeAhead, all_seen};

use crate::moment::Moment;
use crate::passing::{breaks, pass_on};
use crate::stops::{Stop, Stops};
use crate::watched::look;
use arrayvec::ArrayVec;
use std::alloc::Global;

/// The first reason to stop: a breakpoint, the step before, the run's end.
fn reason(breaks: bool, on: Option<Stop>, over: bool) -> Option<Stop>
    ensures { result ≡ or_else (stop_if breaks stop.Breakpoint) (or_else on (stop_if over stop.Ended)) }
{
    if breaks {
        return Some(Stop::Breakpoint);
    }
    match on {
        Some(why) => Some(why),
        None if over => Some(Stop::Ended),
        None => None,
    }
}

/// Goes on, and tells why a debugger stops there, if it does.
fn come_ahead<'r>(
    moment: Moment<'r>,
    stops: &Stops,
    kept: &[ArrayVec<u8, 8>],
) -> (Moment<'r>, Option<Stop>)
    requires going { is_over moment.run moment.steps ≡ false }
    requires counts { All (λ watch. watch.count ≤ 8) stops.now.watches.items }
    requires kept { kept.now ≡ all_seen stops.now.watches.items (state_at moment.run moment.steps) }
    ensures run { result.0.run ≡ moment.entry.run }
    ensures come { IsComeAhead stops.now moment.entry.run moment.entry.steps result.0.steps result.1 }
    ensures kept { result.1 ≡ None
        → kept.now ≡ all_seen stops.now.watches.items (state_at moment.entry.run result.0.steps) }
{
    let (next, on) = pass_on(moment, stops, u64::MAX, kept);
    next.reached_law();
    let why = reason(breaks(&next, stops), on, next.is_over());
    (next, why)
}

/// Goes on to the next stop.
fn go_through<'r>(moment: Moment<'r>, stops: &Stops, kept: &[ArrayVec<u8, 8>]) -> (Moment<'r>, Stop)
    requires going { is_over moment.run moment.steps ≡ false }
    requires counts { All (λ watch. watch.count ≤ 8) stops.now.watches.items }
    requires kept { kept.now ≡ all_seen stops.now.watches.items (state_at moment.run moment.steps) }
    ensures run { result.0.run ≡ moment.entry.run }
    ensures next { IsNextStop stops.now moment.entry.run moment.entry.steps result.0.steps result.1 }
{
    let mut moment = moment;
    loop {
        let (next, why) = come_ahead(moment, stops, kept);
        if let Some(why) = why {
            return (next, why);
        }
        moment = next;
    }
}

impl<'r> Moment<'r> {
    /// Goes on to the next stop: where the run is over it stays there. None where there is no memory for the bytes of
    /// watchpoints.
    pub fn go_ahead(self, alloc: Global, stops: &Stops) -> Option<(Moment<'r>, Stop)>
        requires counts { All (λ watch. watch.count ≤ 8) stops.now.watches.items }
        ensures run { IfSome result (λ it. it.0.run ≡ self.entry.run) }
        ensures ended { is_over self.entry.run self.entry.steps ≡ true
            → IfSome result (λ it. it.0.steps ≡ self.entry.steps) }
        ensures over { is_over self.entry.run self.entry.steps ≡ true → IfSome result (λ it. it.1 ≡ stop.Ended) }
        ensures next { is_over self.entry.run self.entry.steps ≡ false
            → IfSome result (λ it. IsNextStop stops.now self.entry.run self.entry.steps it.0.steps it.1) }
    {
        if self.is_over() {
            return Some((self, Stop::Ended));
        }
        let mut kept = Vec::new(alloc);
        match look(self.machine(), &stops.watches, &mut kept) {
            Ok(()) => Some(go_through(self, stops, &kept)),
            Err(_) => {
                self.finish();
                None
            }
        }
    }
}
