//! Orders in words.

ghost use Rattle.std.specs.Prelude.{◌≡◌};
ghost use Rattle.text_lines.specs.Numerals.{numeral};
ghost use Rattle.gdb_questions.specs.declared.order.Order.TheVariants as order;
ghost use Rattle.gdb_questions.specs.Orders.{catch_order, front_order, hexadecimal_in, order_of, with_number, word_order};

use crate::front::behind_word;
use crate::{CatchKind, Order};
use text_lines::{decimal, hexadecimal, is_text};

/// The most digits of a count, and of an address.
const MOST_DECIMAL: usize = 20;

const MOST_HEXADECIMAL: usize = 16;

/// What is caught from now on.
fn catch_order(text: &[u8]) -> Option<Order>
    ensures { result ≡ catch_order text.now }
{
    if is_text(text, b"catch calls") {
        return Some(Order::Catch(CatchKind::Calls));
    }
    if is_text(text, b"catch deliveries") {
        return Some(Order::Catch(CatchKind::Deliveries));
    }
    if is_text(text, b"catch events") {
        return Some(Order::Catch(CatchKind::Events));
    }
    if is_text(text, b"catch console") {
        return Some(Order::Catch(CatchKind::Console));
    }
    if is_text(text, b"catch none") {
        return Some(Order::CatchNone);
    }
    None
}

/// An order that has no number.
fn word_order(text: &[u8]) -> Option<Order>
    ensures { result ≡ word_order text.now }
{
    if is_text(text, b"turn") {
        return Some(Order::Turn);
    }
    if is_text(text, b"state") {
        return Some(Order::State);
    }
    if is_text(text, b"kept") {
        return Some(Order::Kept);
    }
    if is_text(text, b"section") {
        return Some(Order::Section);
    }
    if is_text(text, b"events") {
        return Some(Order::Events);
    }
    catch_order(text)
}

/// `turn N`.
fn turn_order(number: &[u8]) -> Order
    ensures { result ≡ with_number order.GoToTurn (numeral 10 20 number.now) }
{
    match decimal(number, MOST_DECIMAL) {
        Some(turn) => Order::GoToTurn(turn),
        None => Order::Help,
    }
}

/// `step N`.
fn step_order(number: &[u8]) -> Order
    ensures { result ≡ with_number order.GoToStep (numeral 10 20 number.now) }
{
    match decimal(number, MOST_DECIMAL) {
        Some(step) => Order::GoToStep(step),
        None => Order::Help,
    }
}

/// `frame F`.
fn frame_order(number: &[u8]) -> Order
    ensures { result ≡ with_number order.Frame (numeral 10 20 number.now) }
{
    match decimal(number, MOST_DECIMAL) {
        Some(frame) => Order::Frame(frame),
        None => Order::Help,
    }
}

/// An address, with or without `0x`.
fn hexadecimal_in(text: &[u8]) -> Option<u64>
    ensures { result ≡ hexadecimal_in text.now }
{
    match behind_word(text, b"0x") {
        Some(digits) => hexadecimal(digits, MOST_HEXADECIMAL),
        None => hexadecimal(text, MOST_HEXADECIMAL),
    }
}

/// `tables ADDRESS`.
fn tables_order(address: &[u8]) -> Order
    ensures { result ≡ with_number order.Tables (hexadecimal_in address.now) }
{
    match hexadecimal_in(address) {
        Some(address) => Order::Tables(address),
        None => Order::Help,
    }
}

/// An order that has a number.
fn front_order(text: &[u8]) -> Order
    ensures { result ≡ front_order text.now }
{
    if let Some(rest) = behind_word(text, b"turn ") {
        return turn_order(rest);
    }
    if let Some(rest) = behind_word(text, b"step ") {
        return step_order(rest);
    }
    if let Some(rest) = behind_word(text, b"frame ") {
        return frame_order(rest);
    }
    if let Some(rest) = behind_word(text, b"tables ") {
        return tables_order(rest);
    }
    Order::Help
}

/// The order that a text is; every text is one.
#[tactic(auto, unfolding(crate::specs::Orders::order_of))]
pub(crate) fn order_of(text: &[u8]) -> Order
    ensures { result ≡ order_of text.now }
{
    match word_order(text) {
        Some(order) => order,
        None => front_order(text),
    }
}
