//! The reply to a question.

ghost use Rattle.std.specs.Prelude.{◌≡◌, ◌++◌, OnOk};
ghost use Rattle.gdb_replies.specs.Descriptions.{description_text};
ghost use Rattle.gdb_replies.specs.QuestionReplies.{fixed_text, reply_text, watched_text};
ghost use Rattle.gdb_replies.specs.ReplyTexts.{piece_text};

use crate::description::{put_description, put_features};
use crate::memory::put_memory;
use crate::order::put_order;
use crate::pieces::put_piece;
use crate::registers::put_registers;
use crate::stop::put_stop;
use gdb_questions::Question;
use run_moments::{Catches, Moment, Stop};
use std::alloc::{AllocError, Global};
use step_trace::put_text;

/// A piece of the description.
fn put_description_piece(
    alloc: Global,
    reply: &mut Vec<u8>,
    offset: u64,
    count: u64,
) -> Result<(), AllocError>
    ensures { OnOk result (reply.new.items ≡ reply.old.items ++ piece_text description_text offset count) }
{
    let mut text = Vec::new(alloc);
    put_description(&mut text)?;
    put_piece(reply, text.as_slice(), offset, count)
}

/// What a watchpoint is answered: it sees one byte to eight.
fn put_watched(reply: &mut Vec<u8>, count: u64) -> Result<(), AllocError>
    ensures { OnOk result (reply.new.items ≡ reply.old.items ++ watched_text count) }
{
    put_text(
        reply,
        if 1 <= count && count <= 8 {
            "OK"
        } else {
            "E22"
        },
    )
}

/// What is answered about threads and the debugger's own matters, and where nothing is asked that is served.
fn put_fixed(reply: &mut Vec<u8>, question: &Question) -> Result<(), AllocError>
    ensures { OnOk result (reply.new.items ≡ reply.old.items ++ fixed_text question.now) }
{
    match question {
        Question::Features => put_features(reply),
        Question::Attached => put_text(reply, "1"),
        Question::CurrentThread => put_text(reply, "QC1"),
        Question::Threads => put_text(reply, "m1"),
        Question::MoreThreads => put_text(reply, "l"),
        Question::SetBreak { .. } | Question::ClearBreak { .. } | Question::ClearWatch { .. } => {
            put_text(reply, "OK")
        }
        Question::ChooseThread | Question::Detach => put_text(reply, "OK"),
        Question::Change => {
            put_text(
                reply,
                "E.nothing of a run can be changed: its files make it",
            )
        }
        _ => Ok(()),
    }
}

/// Puts the reply to a question at a moment, with what a debugger catches and why it stopped last.
pub fn put_reply(
    alloc: Global,
    reply: &mut Vec<u8>,
    moment: &Moment<'_>,
    catches: Catches,
    why: Stop,
    question: &Question,
) -> Result<(), AllocError>
    ensures { OnOk result (reply.new.items ≡ reply.old.items ++ reply_text moment.now catches why question.now) }
{
    match question {
        Question::Registers => put_registers(reply, moment.machine(), moment.steps()),
        Question::Memory { address, count } => {
            put_memory(alloc, reply, moment.machine(), *address, *count)
        }
        Question::Halt
        | Question::StepOn
        | Question::GoOn
        | Question::StepBack
        | Question::GoBack => { put_stop(reply, why) }
        Question::Description { offset, count } => put_description_piece(
            alloc, reply, *offset, *count,
        ),
        Question::SetWatch { address: _, count } => put_watched(reply, *count),
        Question::Monitor(order) => put_order(alloc, reply, moment, catches, order),
        _ => put_fixed(reply, question),
    }
}
