//! What stops a debugger, as questions change it. Err where memory for it is wanting.

ghost use Rattle.std.specs.Prelude.{◌≡◌, ◌∷◌, ◌++◌, ◌==◌, ◌≤◌, ◌&&◌, [], All, OnOk, filter, not};
ghost use Rattle.gdb_sessions.specs.Standings.{AreStopsAfter, AreWatches, catches_after, watches_after, with_kind};
ghost use Rattle.gdb_questions.specs.declared.question.Question.TheVariants as question;

use gdb_questions::{CatchKind, Order, Question};
use run_moments::{Catches, Stops, Watch};
use std::alloc::AllocError;

fn set_break(breakpoints: &mut Vec<u64>, address: u64) -> Result<(), AllocError>
    ensures { OnOk result (breakpoints.new.items ≡ breakpoints.old.items ++ address ∷ []) }
{
    match breakpoints.push(address) {
        Ok(()) => Ok(()),
        Err(_) => Err(AllocError),
    }
}

/// Whether an address is this one.
fn is_at(it: u64, address: u64) -> bool
    ensures { result ≡ (it == address) }
{
    it == address
}

fn clear_break(breakpoints: &mut Vec<u64>, address: u64)
    ensures { breakpoints.new.items ≡ filter (λ it. not (it == address)) breakpoints.old.items }
{
    breakpoints.retain(|it| !is_at(*it, address));
}

/// A watchpoint sees one byte to eight.
fn set_watch(watches: &mut Vec<Watch>, address: u64, count: u64) -> Result<(), AllocError>
    requires { AreWatches watches.old.items }
    ensures watches { OnOk result (watches.new.items ≡ watches_after watches.old.items (question.SetWatch address count)) }
    ensures few { OnOk result (AreWatches watches.new.items) }
{
    if 1 <= count && count <= 8 {
        let watch = Watch {
            address,
            count: count as u8,
        };
        match watches.push(watch) {
            Ok(()) => Ok(()),
            Err(_) => Err(AllocError),
        }
    } else {
        Ok(())
    }
}

/// Whether a watchpoint sees these bytes.
fn is_of(it: &Watch, address: u64, count: u64) -> bool
    ensures { result ≡ (it.now.address == address && it.now.count == count) }
{
    it.address == address && u64::from(it.count) == count
}

fn clear_watch(watches: &mut Vec<Watch>, address: u64, count: u64)
    requires { AreWatches watches.old.items }
    ensures watches { watches.new.items ≡ watches_after watches.old.items (question.ClearWatch address count) }
    ensures few { AreWatches watches.new.items }
{
    watches.retain(|it| !is_of(it, address, count));
}

/// What is caught once a kind more is.
fn with_kind(catches: Catches, kind: CatchKind) -> Catches
    ensures { result ≡ with_kind catches kind }
{
    match kind {
        CatchKind::Calls => Catches {
            calls: true,
            ..catches
        },
        CatchKind::Deliveries => Catches {
            deliveries: true,
            ..catches
        },
        CatchKind::Events => Catches {
            events: true,
            ..catches
        },
        CatchKind::Console => Catches {
            console: true,
            ..catches
        },
    }
}

/// What is caught behind a question.
fn catches_after(catches: Catches, question: &Question) -> Catches
    ensures { result ≡ catches_after catches question.now }
{
    match question {
        Question::Monitor(Order::Catch(kind)) => with_kind(catches, *kind),
        Question::Monitor(Order::CatchNone) => Catches::NONE,
        _ => catches,
    }
}

/// Changes what stops a debugger, as a question asks.
pub(crate) fn change_stops(stops: &mut Stops, question: &Question) -> Result<(), AllocError>
    requires { AreWatches stops.old.watches.items }
    ensures stops { OnOk result (AreStopsAfter stops.old question.now stops.new) }
    ensures few { OnOk result (AreWatches stops.new.watches.items) }
{
    stops.catches = catches_after(stops.catches, question);
    match question {
        Question::SetBreak { address } => set_break(&mut stops.breakpoints, *address),
        Question::ClearBreak { address } => {
            clear_break(&mut stops.breakpoints, *address);
            Ok(())
        }
        Question::SetWatch { address, count } => set_watch(&mut stops.watches, *address, *count),
        Question::ClearWatch { address, count } => {
            clear_watch(&mut stops.watches, *address, *count);
            Ok(())
        }
        _ => Ok(()),
    }
}
