//! The reply to an order in words: a text, as the hexadecimal digits of its bytes.

ghost use Rattle.std.specs.Prelude.{◌≡◌, ◌++◌, OnOk};
ghost use Rattle.hex.specs.Hex.{encode_lower};
ghost use Rattle.gdb_replies.specs.QuestionReplies.{order_answer};

use crate::order_text::{put_catches, put_help, put_turns};
use crate::section::put_section;
use gdb_questions::Order;
use run_moments::{Catches, Moment};
use std::alloc::{AllocError, Global};
use step_trace::{put_all_kept, put_bytes, put_state};

/// The text that an order is answered with.
fn put_answer(
    alloc: Global,
    text: &mut Vec<u8>,
    moment: &Moment<'_>,
    catches: Catches,
    order: &Order,
) -> Result<(), AllocError>
    ensures { OnOk result (text.new.items ≡ text.old.items ++ order_answer moment.now catches order.now) }
{
    let machine = moment.machine();
    match order {
        Order::Turn | Order::GoToTurn(_) | Order::GoToStep(_) => {
            put_turns(text, machine.turns(), moment.steps())
        }
        Order::State => put_state(text, machine.turns(), machine.processor()),
        Order::Kept => put_all_kept(alloc, text, machine.processor()),
        Order::Section => put_section(alloc, text, moment.run().opened(), machine),
        Order::Catch(_) | Order::CatchNone => put_catches(text, catches),
        Order::Frame(_) | Order::Tables(_) | Order::Events | Order::Help => put_help(text),
    }
}

/// The reply to an order.
pub(crate) fn put_order(
    alloc: Global,
    reply: &mut Vec<u8>,
    moment: &Moment<'_>,
    catches: Catches,
    order: &Order,
) -> Result<(), AllocError>
    ensures { OnOk result (reply.new.items ≡ reply.old.items ++ encode_lower (order_answer moment.now catches order.now)) }
{
    let mut text = Vec::new(alloc);
    put_answer(alloc, &mut text, moment, catches, order)?;
    put_bytes(reply, text.as_slice())
}
