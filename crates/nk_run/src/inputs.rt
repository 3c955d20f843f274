//! The files that a run takes beside the image: its input, and the plan of the events of the outside.
ghost use Rattle.std.specs.Prelude.{◌≡◌, [], ◌∷◌, Ok, MatchResult};
ghost use Rattle.irq_plan.specs.PlanFile.{plan_of};
ghost use Rattle.nk_host.specs.FaultCounts.{NeverFalls};
ghost use Rattle.nk_host.specs.Told.{IfTold};
ghost use Rattle.file_scan.specs.ShelfChanges.{shelf_change};
ghost use Rattle.nk_run.specs.Outcome.{file_in, first_verdict, input_checks, passes, plan_checks, planned};
ghost use Rattle.nk_run.specs.ReplyText.{line_bytes};
ghost use Rattle.nk_run.specs.Statuses.{status_number};
ghost use Rattle.nk_run.specs.Replies.{RefusesBy, Stops, StopsIn};

use crate::image::fetch;
use crate::lines::plan_line;
use crate::reply::{Reply, made, no_memory};
use crate::status::Status;
use command_words::{Request, Role};
use irq_plan::{Plan, PlanFault};
use nk_host::Shelf;
use std::alloc::Global;

/// What comes to the machine from outside.
#[derive(Drop)]
pub(crate) struct Outside {
    pub input: Vec<u8>,
    pub plan: Plan,
}

/// The plan of a file, or the reply to its first line that is out of form.
fn read_plan(alloc: Global, bytes: &[u8]) -> Result<Plan, Reply>
    ensures { MatchResult result
        (λ plan. plan_of bytes.now ≡ Ok plan)
        (λ reply. RefusesBy 6 (planned (plan_of bytes.now))
        (status_number reply.status) (line_bytes reply.line)) }
{
    match Plan::read(alloc, bytes) {
        Ok(plan) => Ok(plan),
        Err(PlanFault::Line(number)) => Err(made(Status::WrongLine, plan_line(alloc, number))),
        Err(PlanFault::Memory) => Err(no_memory()),
    }
}

/// The plan, or the reply to the first check on it that doesn't pass.
fn open_plan<S: Shelf>(alloc: Global, request: &Request<'_>, shelf: &mut S) -> Result<Plan, Reply>
    ensures files_stay { S.files shelf.new ≡ S.files shelf.old }
    ensures never_falls { NeverFalls (S.faults shelf.old) (S.faults shelf.new) }
    ensures opened { MatchResult result
        (λ plan. IfTold (S.files shelf.old) (λ files. (plan_of (file_in files request.now Role.Plan) ≡ Ok plan)
        × (first_verdict (plan_checks files request.now) ≡ passes)))
        (λ reply. Stops request.now (shelf_change S.files S.faults S.wants shelf.old shelf.new) Role.Plan
        (λ files. first_verdict (plan_checks files request.now))
        (status_number reply.status) (line_bytes reply.line)) }
{
    match fetch(alloc, request, Role::Plan, shelf) {
        Ok(bytes) => read_plan(alloc, &bytes),
        Err(reply) => Err(reply),
    }
}

/// The input and then the plan, or the reply to the first check on either that doesn't pass.
pub(crate) fn open_outside<S: Shelf>(
    alloc: Global,
    request: &Request<'_>,
    shelf: &mut S,
) -> Result<Outside, Reply>
    ensures files_stay { S.files shelf.new ≡ S.files shelf.old }
    ensures never_falls { NeverFalls (S.faults shelf.old) (S.faults shelf.new) }
    ensures opened { MatchResult result
        (λ outside. IfTold (S.files shelf.old) (λ files. (outside.input.items ≡ file_in files request.now Role.Input)
        × (plan_of (file_in files request.now Role.Plan) ≡ Ok outside.plan)
        × (first_verdict (input_checks files request.now) ≡ passes)))
        (λ reply. StopsIn request.now (shelf_change S.files S.faults S.wants shelf.old shelf.new)
        (Role.Input ∷ Role.Plan ∷ []) (λ files. input_checks files request.now)
        (status_number reply.status) (line_bytes reply.line)) }
{
    let input = match fetch(alloc, request, Role::Input, shelf) {
        Ok(input) => input,
        Err(reply) => return Err(reply),
    };
    match open_plan(alloc, request, shelf) {
        Ok(plan) => Ok(Outside { input, plan }),
        Err(reply) => Err(reply),
    }
}
