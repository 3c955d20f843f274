//! What a step was and shows, as words of its line, and what the processor keeps of walks. Err where memory is wanting.

ghost use Rattle.std.specs.Prelude.{◌≡◌, ◌-◌, ◌*◌, ◌^◌, ◌<◌, ◌≤◌, ◌==◌, ◌++◌, ◌∷◌, [], false, if◌then◌else◌, codes, decimal, slice_index_or, OnOk, Some};
ghost use Rattle.std.specs.Fmt.{digit_glyph, digits};
ghost use Rattle.nk_bits.specs.UpperEntries.{first_of_span};
ghost use Rattle.nk_body.specs.Calls.{call_of};
ghost use Rattle.x86_regs.specs.Operands.{wrapped};
ghost use Rattle.report_text.specs.RunLines.{hex_16};
ghost use Rattle.step_trace.specs.StepChanges.{Answered, Console, Delivered, Dropped, Filled, Flushed, Forgotten, Halted, Kept, Unread, is_unreadable, shown_changes, where_so};
ghost use Rattle.step_trace.specs.StepLines as was;
ghost use Rattle.step_trace.specs.StepTexts.{call_name, change_text, changes_text, code_text, cr2_text, either_text, letter_or_dash, page_code_text, placed_text, granted_text, rule_names, selector_code_text, span_text, value_text, vector_name, was_text, what_text};

use crate::names::{call_name, rule_name, vector_name};
use crate::words::{put_16, put_byte, put_decimal, put_named, put_text};
use asm_text::{hex_digit, more_digits_law, one_digit_law};
use gate_state::{Called, Seen, Step, Took};
use irq_plan::What;
use nk_bits::{Answer, CallWords, Delivery, Leaf, Rights, Upper};
use nk_body::call_of;
use std::alloc::AllocError;

/// A number of sixteen hexadecimal digits behind a text.
fn put_text_16(line: &mut Vec<u8>, text: &str, number: u64) -> Result<(), AllocError>
    ensures { OnOk result (line.new.items ≡ line.old.items ++ (text.now ++ hex_16 number)) }
{
    put_text(line, text)?;
    put_16(line, number)
}

/// A decimal number behind a text.
fn put_text_decimal(line: &mut Vec<u8>, text: &str, number: u64) -> Result<(), AllocError>
    ensures { OnOk result (line.new.items ≡ line.old.items ++ (text.now ++ decimal number)) }
{
    put_text(line, text)?;
    put_decimal(line, number)
}

/// An upper entry of an event: its level, and a page under it.
fn put_entry(line: &mut Vec<u8>, verb: &str, level: u8, page: u64) -> Result<(), AllocError>
    ensures { OnOk result (line.new.items
        ≡ line.old.items ++ (verb.now ++ (decimal level ++ (codes " " ++ hex_16 page)))) }
{
    put_text_decimal(line, verb, u64::from(level))?;
    put_text_16(line, " ", page)
}

/// The words of the plan.
fn put_what(line: &mut Vec<u8>, what: What) -> Result<(), AllocError>
    ensures { OnOk result (line.new.items ≡ line.old.items ++ what_text what) }
{
    match what {
        What::Irq(vector) => put_text_decimal(line, "irq ", u64::from(vector)),
        What::Drop(page) => put_text_16(line, "drop ", page),
        What::Fill(page) => put_text_16(line, "fill ", page),
        What::Keep(level, page) => put_entry(line, "keep ", level, page),
        What::Forget(level, page) => put_entry(line, "forget ", level, page),
    }
}

/// An event of the plan.
pub(crate) fn put_event(line: &mut Vec<u8>, what: What) -> Result<(), AllocError>
    ensures { OnOk result (line.new.items ≡ line.old.items ++ was_text (was.Planned what)) }
{
    put_text(line, " - event ")?;
    put_what(line, what)
}

/// The number of a call and its name.
fn put_number(line: &mut Vec<u8>, call: &CallWords) -> Result<(), AllocError>
    ensures { OnOk result (line.new.items ≡ line.old.items
        ++ (codes " - call " ++ (decimal call.now.number ++ (codes " " ++ call_name (call_of call.now))))) }
{
    put_text_decimal(line, " - call ", call.number)?;
    put_text(line, " ")?;
    put_text(line, call_name(call_of(call)))
}

/// The arguments of a call.
fn put_arguments(line: &mut Vec<u8>, call: &CallWords) -> Result<(), AllocError>
    ensures { OnOk result (line.new.items ≡ line.old.items
        ++ (codes " a " ++ (hex_16 call.now.a ++ (codes " b " ++ (hex_16 call.now.b
        ++ (codes " c " ++ (hex_16 call.now.c ++ (codes " d " ++ hex_16 call.now.d)))))))) }
{
    put_text_16(line, " a ", call.a)?;
    put_text_16(line, " b ", call.b)?;
    put_text_16(line, " c ", call.c)?;
    put_text_16(line, " d ", call.d)
}

/// A call with its arguments.
#[tactic(auto, unfolding(crate::specs::StepTexts::call_text))]
pub(crate) fn put_call(line: &mut Vec<u8>, call: &CallWords) -> Result<(), AllocError>
    ensures { OnOk result (line.new.items ≡ line.old.items ++ was_text (was.Called call.now)) }
{
    put_number(line, call)?;
    put_arguments(line, call)
}

/// The delivery of a vector that was pending.
pub(crate) fn put_vector(line: &mut Vec<u8>, vector: u8) -> Result<(), AllocError>
    ensures { OnOk result (line.new.items ≡ line.old.items ++ was_text (was.Vector vector)) }
{
    put_text_decimal(line, " - interrupt ", u64::from(vector))
}

/// A hexadecimal digit.
fn put_digit(line: &mut Vec<u8>, value: u8) -> Result<(), AllocError>
    requires { value < 16 }
    ensures { OnOk result (line.new.items ≡ line.old.items ++ (digit_glyph false value ∷ [])) }
{
    line.extend_from_slice(&[hex_digit(value)])
}

/// Hexadecimal digits, as few as there are.
fn put_least(line: &mut Vec<u8>, number: u64) -> Result<(), AllocError>
    ensures { OnOk result (line.new.items ≡ line.old.items ++ digits 16 false number) }
{
    one_digit_law();
    more_digits_law();
    if number < 16 {
        put_digit(line, number as u8)
    } else {
        put_least(line, number / 16)?;
        put_digit(line, (number % 16) as u8)
    }
}

/// One of two texts.
fn either<'a>(is_so: bool, so: &'a str, otherwise: &'a str) -> &'a str
    ensures { result.now ≡ either_text is_so so.now otherwise.now }
{
    if is_so { so } else { otherwise }
}

/// The parts of a page fault's error code (SDM volume 3, 4.7).
#[tactic(auto, unfolding(crate::specs::StepTexts::page_code_text))]
fn put_page_code(line: &mut Vec<u8>, code: u64) -> Result<(), AllocError>
    ensures { OnOk result (line.new.items ≡ line.old.items ++ page_code_text code) }
{
    put_text(line, either(code % 2 == 0, " (absent ", " (present "))?;
    put_text(line, either(code / 2 % 2 == 0, "read ", "write "))?;
    put_text(line, either(code / 4 % 2 == 0, "supervisor ", "user "))?;
    put_text(line, either(code / 16 % 2 == 0, "data)", "fetch)"))
}

/// The parts of another error code: the selector, or the vector of a gate (SDM volume 3, 6.13).
#[tactic(auto, unfolding(crate::specs::StepTexts::selector_code_text))]
fn put_selector_code(line: &mut Vec<u8>, code: u64) -> Result<(), AllocError>
    ensures { OnOk result (line.new.items ≡ line.old.items ++ selector_code_text code) }
{
    put_text_decimal(line, " (selector ", code / 8)?;
    put_text(line, either(code / 2 % 2 == 0, ")", " idt)"))
}

/// The parts of an error code.
fn put_parts(line: &mut Vec<u8>, vector: u8, code: u64) -> Result<(), AllocError>
    ensures { OnOk result (line.new.items
        ≡ line.old.items ++ (if vector == 14 then page_code_text code else selector_code_text code)) }
{
    if vector == 14 {
        put_page_code(line, code)
    } else {
        put_selector_code(line, code)
    }
}

/// The error code of a delivery.
fn put_some_code(line: &mut Vec<u8>, vector: u8, code: u64) -> Result<(), AllocError>
    ensures { OnOk result (line.new.items ≡ line.old.items ++ code_text vector (Some code)) }
{
    put_text(line, " code ")?;
    put_least(line, code)?;
    put_parts(line, vector, code)
}

/// The error code of a delivery, if it pushed one.
fn put_code(line: &mut Vec<u8>, vector: u8, code: Option<u64>) -> Result<(), AllocError>
    ensures { OnOk result (line.new.items ≡ line.old.items ++ code_text vector code) }
{
    match code {
        Some(code) => put_some_code(line, vector, code),
        None => Ok(()),
    }
}

/// The address that faulted, if the delivery is a page fault's.
fn put_cr2(line: &mut Vec<u8>, cr2: Option<u64>) -> Result<(), AllocError>
    ensures { OnOk result (line.new.items ≡ line.old.items ++ cr2_text cr2) }
{
    match cr2 {
        Some(cr2) => put_text_16(line, " cr2 ", cr2),
        None => Ok(()),
    }
}

/// A vector, and its name.
fn put_delivered(line: &mut Vec<u8>, vector: u8) -> Result<(), AllocError>
    ensures { OnOk result (line.new.items ≡ line.old.items
        ++ (codes "; deliver " ++ (decimal vector ++ (codes " " ++ vector_name vector)))) }
{
    put_text_decimal(line, "; deliver ", u64::from(vector))?;
    put_text(line, " ")?;
    put_text(line, vector_name(vector))
}

/// A delivery.
#[tactic(auto, unfolding(crate::specs::StepTexts::delivery_text))]
pub(crate) fn put_delivery(line: &mut Vec<u8>, it: &Delivery) -> Result<(), AllocError>
    ensures { OnOk result (line.new.items ≡ line.old.items ++ change_text (Delivered it.now)) }
{
    put_delivered(line, it.vector)?;
    put_code(line, it.vector, it.code)?;
    put_cr2(line, it.cr2)
}

/// The rule that refused a call.
fn put_refused(line: &mut Vec<u8>, rule: u64) -> Result<(), AllocError>
    requires { 1 ≤ rule }
    ensures { OnOk result (line.new.items ≡ line.old.items
        ++ (codes "; refused " ++ (decimal rule ++ (codes " " ++ slice_index_or rule_names (rule - 1) [])))) }
{
    put_text_decimal(line, "; refused ", rule)?;
    put_text(line, " ")?;
    put_text(line, rule_name(rule))
}

/// Whether a call was accepted.
#[tactic(auto, unfolding(crate::specs::StepTexts::value_text))]
fn put_value(line: &mut Vec<u8>, value: u64) -> Result<(), AllocError>
    ensures { OnOk result (line.new.items ≡ line.old.items ++ (codes "; " ++ value_text value)) }
{
    if value >= 1 && value <= 27 {
        put_refused(line, value)
    } else {
        put_text_decimal(line, "; accepted ", value)
    }
}

/// Where a region was placed, if one was.
fn put_place(line: &mut Vec<u8>, place: Option<u64>) -> Result<(), AllocError>
    ensures { OnOk result (line.new.items ≡ line.old.items ++ placed_text place) }
{
    match place {
        Some(place) => put_text_16(line, "; place ", place),
        None => Ok(()),
    }
}

/// The answer to a call.
#[tactic(auto, unfolding(crate::specs::StepTexts::answer_text))]
pub(crate) fn put_answer(line: &mut Vec<u8>, answer: &Answer) -> Result<(), AllocError>
    ensures { OnOk result (line.new.items ≡ line.old.items ++ change_text (Answered answer.now)) }
{
    put_value(line, answer.value)?;
    put_place(line, answer.place)
}

/// That a byte of the source couldn't be read, if one couldn't.
fn put_source(line: &mut Vec<u8>, source: Took) -> Result<(), AllocError>
    ensures { OnOk result (line.new.items
        ≡ line.old.items ++ changes_text (where_so (is_unreadable source) Unread)) }
{
    match source {
        Took::Unreadable => put_text(line, "; source unreadable"),
        Took::NotTaken | Took::Taken => Ok(()),
    }
}

/// A call's answer, and what became of its source.
fn put_called(line: &mut Vec<u8>, called: &Called) -> Result<(), AllocError>
    ensures { OnOk result (line.new.items ≡ line.old.items ++ changes_text (Answered called.now.answer ∷ where_so (is_unreadable called.now.source) Unread)) }
{
    put_answer(line, &called.answer)?;
    put_source(line, called.source)
}

/// A byte of the console.
fn put_console(line: &mut Vec<u8>, byte: u8) -> Result<(), AllocError>
    ensures { OnOk result (line.new.items ≡ line.old.items ++ change_text (Console byte)) }
{
    put_text(line, "; console ")?;
    put_byte(line, byte)
}

/// What a step shows.
pub(crate) fn put_shown(line: &mut Vec<u8>, step: &Step) -> Result<(), AllocError>
    ensures { OnOk result (line.new.items ≡ line.old.items ++ changes_text (shown_changes step.now)) }
{
    match step {
        Step::Seen(Seen::Console(byte)) => put_console(line, *byte),
        Step::Seen(Seen::Delivered(it)) => put_delivery(line, it),
        Step::Called(called) => put_called(line, called),
        Step::Seen(Seen::Quiet | Seen::Event) | Step::Rested => Ok(()),
    }
}

/// A letter where a right is given.
fn letter_or_dash(is_given: bool, letter: &str) -> &str
    ensures { result.now ≡ letter_or_dash is_given letter.now }
{
    if is_given { letter } else { "-" }
}

/// The four letters of rights.
fn put_rights(line: &mut Vec<u8>, rights: Rights) -> Result<(), AllocError>
    ensures { OnOk result (line.new.items ≡ line.old.items ++ granted_text rights) }
{
    put_text(line, "r")?;
    put_text(line, letter_or_dash(rights.can_write, "w"))?;
    put_text(line, letter_or_dash(rights.exec, "x"))?;
    put_text(line, letter_or_dash(rights.user, "u"))
}

/// A frame, and the rights to it.
fn put_frame(line: &mut Vec<u8>, frame: u32, rights: Rights) -> Result<(), AllocError>
    ensures { OnOk result (line.new.items ≡ line.old.items
        ++ (codes " frame " ++ (decimal frame ++ (codes " " ++ granted_text rights)))) }
{
    put_text_decimal(line, " frame ", u64::from(frame))?;
    put_text(line, " ")?;
    put_rights(line, rights)
}

/// A translation that is kept now, by its page's number.
#[tactic(auto, unfolding(crate::specs::StepTexts::fill_text))]
pub(crate) fn put_fill(line: &mut Vec<u8>, page: u64, leaf: Leaf) -> Result<(), AllocError>
    ensures { OnOk result (line.new.items ≡ line.old.items ++ change_text (Filled page leaf)) }
{
    put_named(line, "; fill", page.wrapping_mul(4096))?;
    put_frame(line, leaf.frame, leaf.rights)
}

/// The translation of a page went.
pub(crate) fn put_drop(line: &mut Vec<u8>, page: u64) -> Result<(), AllocError>
    ensures { OnOk result (line.new.items ≡ line.old.items ++ change_text (Dropped page)) }
{
    put_named(line, "; drop", page.wrapping_mul(4096))
}

/// How many addresses share an entry of a level, modulo 2^64: none are left of that from level 7 on.
#[tactic(auto, using(crate::proofs::SpanStarts::none_left))]
fn span_size(level: u8) -> u64
    ensures { result ≡ wrapped (4096 * 512 ^ (level - 1)) }
{
    match level {
        0 | 1 => 4096,
        2 => 2_097_152,
        3 => 1_073_741_824,
        4 => 549_755_813_888,
        5 => 281_474_976_710_656,
        6 => 144_115_188_075_855_872,
        _ => 0,
    }
}

/// The first of the addresses that share an entry.
#[tactic(auto, using(crate::proofs::SpanStarts::start), unfolding(nk_bits::specs::UpperEntries::first_of_span))]
fn span_start(level: u8, bits: u64) -> u64
    ensures { result ≡ wrapped (4096 * first_of_span level bits) }
{
    span_size(level).wrapping_mul(bits)
}

/// The level of an upper entry, and the first address under it.
#[tactic(auto, unfolding(crate::specs::StepTexts::span_text))]
fn put_span(line: &mut Vec<u8>, level: u8, bits: u64) -> Result<(), AllocError>
    ensures { OnOk result (line.new.items ≡ line.old.items ++ span_text level bits) }
{
    put_decimal(line, u64::from(level))?;
    put_text_16(line, " ", span_start(level, bits))
}

/// An upper entry that is kept now.
#[tactic(auto, unfolding(crate::specs::StepTexts::keep_text))]
pub(crate) fn put_keep(
    line: &mut Vec<u8>,
    level: u8,
    bits: u64,
    it: Upper,
) -> Result<(), AllocError>
    ensures { OnOk result (line.new.items ≡ line.old.items ++ change_text (Kept level bits it)) }
{
    put_text(line, "; keep ")?;
    put_span(line, level, bits)?;
    put_frame(line, it.frame, it.rights)
}

/// An upper entry went.
pub(crate) fn put_forget(line: &mut Vec<u8>, level: u8, bits: u64) -> Result<(), AllocError>
    ensures { OnOk result (line.new.items ≡ line.old.items ++ change_text (Forgotten level bits)) }
{
    put_text(line, "; forget ")?;
    put_span(line, level, bits)
}

/// All that was kept of walks went.
pub(crate) fn put_flush(line: &mut Vec<u8>) -> Result<(), AllocError>
    ensures { OnOk result (line.new.items ≡ line.old.items ++ change_text Flushed) }
{
    put_text(line, "; flush")
}

/// The processor is halted now.
pub(crate) fn put_halted(line: &mut Vec<u8>) -> Result<(), AllocError>
    ensures { OnOk result (line.new.items ≡ line.old.items ++ change_text Halted) }
{
    put_text(line, "; halted")
}
