//! A debugger's session.

ghost use Rattle.std.specs.Prelude.{◌≡◌, ◌++◌, [], IfSome, false, length};
ghost use Rattle.run_moments.specs.declared.stops.Stop.TheVariants as stop;
ghost use Rattle.gdb_sessions.specs.Standings.{AreStopsAfter, AreWatches, IsQuestionAnswered, IsBegun, IsGone};

use crate::moves::go;
use crate::points::change_stops;
use gdb_questions::Question;
use gdb_replies::put_reply;
use run_moments::{Moment, Run, Stop, Stops};
use std::alloc::Global;
use std::marker::Model;

/// Where a debugger stands in a run.
pub struct Session<'r> {
    moment: Moment<'r>,
    stops: Stops,
    why: Stop,
}

impl<'r> Model for Session<'r> {
    ghost use Rattle.gdb_sessions.specs.Standings.{AreWatches, Standing};

    ghost Value = { Standing };

    ghost view = { λ s. record { moment = s.moment; stops = s.stops; why = s.why } };

    ghost invariant = { λ s. AreWatches s.stops.watches.items };
}

impl<'r> Session<'r> {
    /// At the run's beginning, with nothing that stops it; None where there is no memory for the machine.
    pub fn begin(alloc: Global, run: &'r Run<'r>) -> Option<Session<'r>>
        ensures { IfSome result (IsBegun run.now) }
    {
        match Moment::begin(alloc, run) {
            Some(moment) => Some(Session {
                moment,
                stops: Stops::none(alloc),
                why: Stop::Stepped,
            }),
            None => None,
        }
    }

    /// Ends it.
    pub fn finish(self) {
        let Session {
            moment,
            stops: _,
            why: _,
        } = self;
        moment.finish();
    }

    /// What a question makes of it, with the reply put in place of what the other one holds. None where memory is wanting,
    /// and then the session is over.
    pub fn answer(
        self,
        alloc: Global,
        question: &Question,
        reply: &mut Vec<u8>,
    ) -> Option<Session<'r>>
        ensures { IfSome result (λ after. IsQuestionAnswered self.entry question.now after reply.new.items) }
    {
        let Session { moment, stops, why } = self;
        reply.clear();
        let Some((moment, why)) = go(alloc, moment, &stops, why, question) else {
            return None;
        };
        let mut stops = stops;
        if change_stops(&mut stops, question).is_err()
            || put_reply(alloc, reply, &moment, stops.catches, why, question).is_err()
        {
            moment.finish();
            return None;
        }
        Some(Session { moment, stops, why })
    }
}
