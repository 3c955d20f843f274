//! What the body of a packet asks.

ghost use Rattle.std.specs.Prelude.{◌≡◌, ◌/◌, length};
ghost use Rattle.hex.specs.Hex.{decode_of};
ghost use Rattle.gdb_questions.specs.Questions.{changes, front_question, monitor_question, order_by, point_question, question_of, thread_question, word_question};
ghost use Rattle.gdb_questions.specs.QuestionEnds.{described_question, later_question, other_question, query_question, still_question, watch_question};

use crate::front::behind_word;
use crate::order_text::order_of;
use crate::pair::{clear_break, clear_watch, description, memory, set_break, set_watch};
use crate::{Order, Question};
use text_lines::is_text;

/// The most bytes of an order.
const MOST_ORDER: usize = 32;

/// A question about threads, of one word.
fn thread_question(body: &[u8]) -> Option<Question>
    ensures { result ≡ thread_question body.now }
{
    if is_text(body, b"qC") {
        return Some(Question::CurrentThread);
    }
    if is_text(body, b"qfThreadInfo") {
        return Some(Question::Threads);
    }
    if is_text(body, b"qsThreadInfo") {
        return Some(Question::MoreThreads);
    }
    if is_text(body, b"qAttached") {
        return Some(Question::Attached);
    }
    None
}

/// A word that ends the talk, or asks why the machine stands, or one about threads.
fn still_question(body: &[u8]) -> Option<Question>
    ensures { result ≡ still_question body.now }
{
    if is_text(body, b"?") {
        return Some(Question::Halt);
    }
    if is_text(body, b"D") {
        return Some(Question::Detach);
    }
    if is_text(body, b"k") {
        return Some(Question::Kill);
    }
    thread_question(body)
}

/// A question of one word.
fn word_question(body: &[u8]) -> Option<Question>
    ensures { result ≡ word_question body.now }
{
    if is_text(body, b"g") {
        return Some(Question::Registers);
    }
    if is_text(body, b"s") {
        return Some(Question::StepOn);
    }
    if is_text(body, b"c") {
        return Some(Question::GoOn);
    }
    if is_text(body, b"bs") {
        return Some(Question::StepBack);
    }
    if is_text(body, b"bc") {
        return Some(Question::GoBack);
    }
    still_question(body)
}

/// What would change a run.
fn changes(body: &[u8]) -> bool
    ensures { result ≡ changes body.now }
{
    matches!(
        body,
        [b'G' | b'P' | b'M' | b'X' | b'C' | b'S' | b's' | b'c', ..]
    )
}

/// What isn't served.
fn other_question(body: &[u8]) -> Question
    ensures { result ≡ other_question body.now }
{
    if changes(body) {
        Question::Change
    } else {
        Question::Unknown
    }
}

/// Bytes that are watched, or no longer.
fn watch_question(body: &[u8]) -> Question
    ensures { result ≡ watch_question body.now (other_question body.now) }
{
    if let Some(rest) = behind_word(body, b"Z2,") {
        return set_watch(rest);
    }
    if let Some(rest) = behind_word(body, b"z2,") {
        return clear_watch(rest);
    }
    other_question(body)
}

/// Breakpoints and watchpoints.
fn point_question(body: &[u8]) -> Question
    ensures { result ≡ point_question body.now (other_question body.now) }
{
    if let Some(rest) = behind_word(body, b"Z0,") {
        return set_break(rest);
    }
    if let Some(rest) = behind_word(body, b"Z1,") {
        return set_break(rest);
    }
    if let Some(rest) = behind_word(body, b"z0,") {
        return clear_break(rest);
    }
    if let Some(rest) = behind_word(body, b"z1,") {
        return clear_break(rest);
    }
    watch_question(body)
}

/// The order of so many bytes, where the digits are of so many.
fn order_in(room: &mut [u8], digits: &[u8]) -> Order
    requires { length digits.now / 2 ≡ length room.old }
    ensures { result ≡ order_by (decode_of digits.now) }
{
    match hex::decode_to_slice(digits, room) {
        Ok(()) => order_of(room),
        Err(_) => Order::Help,
    }
}

/// An order in words, as the hexadecimal digits of its bytes.
fn monitor_question(digits: &[u8]) -> Question
    ensures { result ≡ monitor_question digits.now }
{
    if digits.len() > 2 * MOST_ORDER {
        return Question::Monitor(Order::Help);
    }
    let mut room = [0; MOST_ORDER];
    Question::Monitor(order_in(&mut room[..digits.len() / 2], digits))
}

/// A thread is chosen or asked for, or a point is set or cleared, or what isn't served.
fn later_question(body: &[u8]) -> Question
    ensures { result ≡ later_question body.now }
{
    if behind_word(body, b"H").is_some() {
        return Question::ChooseThread;
    }
    if behind_word(body, b"T").is_some() {
        return Question::ChooseThread;
    }
    point_question(body)
}

/// An order in words or the features, or what comes later.
fn query_question(body: &[u8]) -> Question
    ensures { result ≡ query_question body.now }
{
    if let Some(rest) = behind_word(body, b"qRcmd,") {
        return monitor_question(rest);
    }
    if behind_word(body, b"qSupported").is_some() {
        return Question::Features;
    }
    later_question(body)
}

/// The description of the registers, or another query.
fn described_question(body: &[u8]) -> Question
    ensures { result ≡ described_question body.now }
{
    match behind_word(body, b"qXfer:features:read:target.xml:") {
        Some(rest) => description(rest),
        None => query_question(body),
    }
}

/// A question whose first word isn't all of it.
fn front_question(body: &[u8]) -> Question
    ensures { result ≡ front_question body.now }
{
    match behind_word(body, b"m") {
        Some(rest) => memory(rest),
        None => described_question(body),
    }
}

/// What the body of a packet asks; each body asks something, be it `Question::Unknown`.
#[tactic(auto, unfolding(crate::specs::Questions::question_of))]
pub fn question_of(body: &[u8]) -> Question
    ensures { result ≡ question_of body.now }
{
    match word_question(body) {
        Some(question) => question,
        None => front_question(body),
    }
}
