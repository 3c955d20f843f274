//! Steps that a debugger goes over, and why the last of them stops it.

ghost use Rattle.std.specs.Prelude.{◌≡◌, ◌+◌, ◌<◌, ◌≤◌, ◌⊎◌, All, None, [], false, length};
ghost use Rattle.gate_state.specs.MachineOf.{whole_of};
ghost use Rattle.run_moments.specs.declared.stops.Stop.TheVariants as stop;
ghost use Rattle.run_moments.specs.Moments.{is_over, state_at};
ghost use Rattle.run_moments.specs.Stops.{breaks_at, stands_among, or_else, stop_if};
ghost use Rattle.run_moments.specs.StopsMet.{IsPassed, all_seen, differs_by, shows_step};

use crate::begins::begins;
use crate::going::limit_for;
use crate::moment::Moment;
use crate::stops::{Catches, Stop, Stops};
use crate::watched::first_changed;
use arrayvec::ArrayVec;
use gate_state::{Machine, Seen, Step};

/// Whether a breakpoint stands at an address.
fn stands_among(addresses: &[u64], address: u64) -> bool
    ensures { result ≡ stands_among addresses.now address }
{
    addresses.contains(&address)
}

/// Whether a breakpoint stands where the step from a moment begins.
#[tactic(auto, unfolding(crate::specs::Stops::breaks_at))]
pub(crate) fn breaks(moment: &Moment<'_>, stops: &Stops) -> bool
    ensures { result ≡ breaks_at stops.now moment.now.run moment.now.steps }
{
    match begins(moment.machine(), moment.run().plan()) {
        Some(address) => stands_among(&stops.breakpoints, address),
        None => false,
    }
}

/// Whether a step is caught, if it was told: quick turns aren't, and never are.
fn shows_step(catches: Catches, told: Option<Step>) -> bool
    ensures { result ≡ shows_step catches told }
{
    match told {
        Some(Step::Seen(Seen::Console(_))) => catches.console,
        Some(Step::Seen(Seen::Delivered(_))) => catches.deliveries,
        Some(Step::Seen(Seen::Event)) => catches.events,
        Some(Step::Called(_)) => catches.calls,
        _ => false,
    }
}

/// Why a step stops a debugger, if it does.
fn stop_on(
    machine: &Machine<'_>,
    stops: &Stops,
    kept: &[ArrayVec<u8, 8>],
    told: Option<Step>,
) -> Option<Stop>
    requires counts { All (λ watch. watch.count ≤ 8) stops.now.watches.items }
    requires same { length kept.now ≡ length stops.now.watches.items }
    ensures { result ≡ or_else (differs_by stops.now.watches.items kept.now (whole_of machine.now).state)
        (stop_if (shows_step stops.now.catches told) stop.Caught) }
{
    if let Some(why) = first_changed(machine, &stops.watches, kept) {
        return Some(why);
    }
    if shows_step(stops.catches, told) {
        Some(Stop::Caught)
    } else {
        None
    }
}

/// How many of these steps may be taken before a look: one alone where breakpoints or watchpoints stand, since quick turns
/// pass these over.
fn before_look(stops: &Stops, left: u64) -> u64
    requires { 0 < left }
    ensures some { 0 < result }
    ensures most { result ≤ left }
    ensures breakpoints { (result ≡ 1) ⊎ (stops.now.breakpoints.items ≡ []) }
    ensures watches { (result ≡ 1) ⊎ (stops.now.watches.items ≡ []) }
{
    if stops.breakpoints.is_empty() && stops.watches.is_empty() {
        left
    } else {
        1
    }
}

/// Goes on by at most so many steps, of which the last alone may stop a debugger, and tells why it does. The bytes of
/// watchpoints were kept before.
pub(crate) fn pass_on<'r>(
    moment: Moment<'r>,
    stops: &Stops,
    left: u64,
    kept: &[ArrayVec<u8, 8>],
) -> (Moment<'r>, Option<Stop>)
    requires going { is_over moment.run moment.steps ≡ false }
    requires left { 0 < left }
    requires counts { All (λ watch. watch.count ≤ 8) stops.now.watches.items }
    requires kept { kept.now ≡ all_seen stops.now.watches.items (state_at moment.run moment.steps) }
    ensures run { result.0.run ≡ moment.entry.run }
    ensures within { result.0.steps ≤ moment.entry.steps + left }
    ensures passed { IsPassed stops.now moment.entry.run moment.entry.steps result.0.steps result.1 }
    ensures kept { result.1 ≡ None
        → kept.now ≡ all_seen stops.now.watches.items (state_at moment.entry.run result.0.steps) }
{
    let steps = before_look(stops, left);
    let limit = limit_for(&moment, steps);
    let (next, told) = moment.advance(limit);
    let why = stop_on(next.machine(), stops, kept, told);
    (next, why)
}
