//! The way backwards to the last stop before.

ghost use Rattle.std.specs.Prelude.{◌≡◌, ◌+◌, ◌<◌, ◌≤◌, All, IfSome, OnOk, None};
ghost use Rattle.run_moments.specs.declared.stops.Stop.TheVariants as stop;
ghost use Rattle.run_moments.specs.Moments.{IsInRun, state_at};
ghost use Rattle.run_moments.specs.Stops.{IsStopBefore};
ghost use Rattle.run_moments.specs.StopsMet.{IsFound, IsFoundAt, all_seen, found_by};

use crate::going::begin_anew;
use crate::moment::Moment;
use crate::passing::{breaks, pass_on};
use crate::stops::{Stop, Stops};
use crate::watched::look;
use arrayvec::ArrayVec;
use std::alloc::{AllocError, Global};

/// A stop, and behind how many steps it is.
#[derive(Clone, Copy)]
pub(crate) struct Found {
    pub at: u64,
    pub why: Stop,
}

/// The last stop on the way over steps, of which the last begins behind so many: a breakpoint or that step, or the run's
/// beginning.
fn last_of(at: u64, breaks: bool, on: Option<Stop>, begun: bool) -> Option<Found>
    ensures { result ≡ found_by at breaks on begun }
{
    if breaks {
        return Some(Found {
            at,
            why: Stop::Breakpoint,
        });
    }
    match on {
        Some(why) => Some(Found { at, why }),
        None if begun => Some(Found {
            at: 0,
            why: Stop::Begun,
        }),
        None => None,
    }
}

/// Goes on, but not beyond a moment, and tells the last stop before it on the way, if there is one.
fn come_back<'r>(
    moment: Moment<'r>,
    stops: &Stops,
    before: u64,
    kept: &[ArrayVec<u8, 8>],
) -> (Moment<'r>, Option<Found>)
    requires below { moment.steps < before }
    requires reached { IsInRun moment.run before }
    requires counts { All (λ watch. watch.count ≤ 8) stops.now.watches.items }
    requires kept { kept.now ≡ all_seen stops.now.watches.items (state_at moment.run moment.steps) }
    ensures run { result.0.run ≡ moment.entry.run }
    ensures on { moment.entry.steps < result.0.steps }
    ensures within { result.0.steps ≤ before }
    ensures found { IsFound stops.now moment.entry.run moment.entry.steps result.0.steps result.1 }
    ensures kept { result.1 ≡ None
        → kept.now ≡ all_seen stops.now.watches.items (state_at moment.entry.run result.0.steps) }
{
    let steps = moment.steps();
    let breaks = breaks(&moment, stops);
    let (next, on) = pass_on(moment, stops, before - steps, kept);
    let found = last_of(next.steps() - 1, breaks, on, steps == 0);
    (next, found)
}

/// Keeps the bytes of watchpoints, where a stop was found.
fn look_if(
    moment: &Moment<'_>,
    stops: &Stops,
    found: Option<Found>,
    kept: &mut Vec<ArrayVec<u8, 8>>,
) -> Result<(), AllocError>
    requires counts { All (λ watch. watch.count ≤ 8) stops.now.watches.items }
    requires kept { found ≡ None → kept.old.items ≡ all_seen stops.now.watches.items (state_at moment.now.run moment.now.steps) }
    ensures { OnOk result (kept.new.items
        ≡ all_seen stops.now.watches.items (state_at moment.now.run moment.now.steps)) }
{
    match found {
        Some(_) => look(moment.machine(), &stops.watches, kept),
        None => Ok(()),
    }
}

/// Goes from the run's beginning to a moment, and tells the last stop before it. None where there is no memory for the bytes
/// of watchpoints.
fn last_stop<'r>(
    alloc: Global,
    moment: Moment<'r>,
    stops: &Stops,
    before: u64,
) -> Option<(Moment<'r>, Found)>
    requires begun { moment.steps ≡ 0 }
    requires some { 0 < before }
    requires reached { IsInRun moment.run before }
    requires counts { All (λ watch. watch.count ≤ 8) stops.now.watches.items }
    ensures run { IfSome result (λ it. it.0.run ≡ moment.entry.run) }
    ensures stop { IfSome result (λ it. IsStopBefore stops.now moment.entry.run before it.1.at it.1.why) }
{
    let mut kept = Vec::new(alloc);
    if look(moment.machine(), &stops.watches, &mut kept).is_err() {
        moment.finish();
        return None;
    }
    let mut moment = moment;
    let mut last = Found {
        at: 0,
        why: Stop::Begun,
    };
    while moment.steps() < before {
        let (next, found) = come_back(moment, stops, before, &kept);
        if look_if(&next, stops, found, &mut kept).is_err() {
            next.finish();
            return None;
        }
        last = found.unwrap_or(last);
        moment = next;
    }
    Some((moment, last))
}

impl<'r> Moment<'r> {
    /// Goes back to the last stop before: at the run's beginning it stays there. It begins the run anew, goes on to find the
    /// stop, and begins anew to go there. None where there is no memory for that.
    pub fn go_back(self, alloc: Global, stops: &Stops) -> Option<(Moment<'r>, Stop)>
        requires counts { All (λ watch. watch.count ≤ 8) stops.now.watches.items }
        ensures run { IfSome result (λ it. it.0.run ≡ self.entry.run) }
        ensures stays { self.entry.steps ≡ 0 → IfSome result (λ it. it.0.steps ≡ 0) }
        ensures begun { self.entry.steps ≡ 0 → IfSome result (λ it. it.1 ≡ stop.Begun) }
        ensures before { 0 < self.entry.steps
            → IfSome result (λ it. IsStopBefore stops.now self.entry.run self.entry.steps it.0.steps it.1) }
    {
        let steps = self.steps();
        if steps == 0 {
            return Some((self, Stop::Begun));
        }
        self.reached_law();
        let Some(begun) = begin_anew(self, alloc) else {
            return None;
        };
        let Some((moment, last)) = last_stop(alloc, begun, stops, steps) else {
            return None;
        };
        match moment.go_to(alloc, last.at) {
            Some(moment) => Some((moment, last.why)),
            None => None,
        }
    }
}
