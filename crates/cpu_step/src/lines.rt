//! Lines of code: instructions one behind the other on a page, taken apart once.

ghost use Rattle.std.specs.Prelude.{◌≡◌, ◌+◌, ◌-◌, ◌%◌, ◌<◌, ◌≤◌, ℕ, List, true, false, All, IfOk, length, slice_index_or};
ghost use Rattle.phys_mem.specs.Memory.{byte_at};
ghost use Rattle.exec_quick.specs.declared.quick.Quick.{Quick};
ghost use Rattle.exec_quick.specs.QuickForms.{IsQuick, StandsFor, has_register_first, is_slow};
ghost use Rattle.x86_decode.specs.declared.instruction.Decoded.TheVariants.{Whole};
ghost use Rattle.x86_decode.specs.Decoding.{IfWhole};
ghost use Rattle.x86_decode.specs.WellFormed.{IsWellFormed};
ghost use Rattle.cpu_step.specs.declared.lines.Line.{Line};
ghost use Rattle.cpu_step.specs.CodeLines.{AreFrom, IsFormIn, IsLineBy, IsLineOf, IsRow, code_number};
ghost use Rattle.cpu_step.specs.KeptFetches.{LiesOnPage};
ghost use Rattle.cpu_step.specs.declared.kept_code.KeptCode.{KeptCode};

use crate::kept_code::{KeptCode, code_for};
use crate::memo::word_at;
use crate::processor::NoMemory;
use exec_quick::{Kind, Quick, SLOW, quick_of};
use mem_access::run_on_page;
use phys_mem::PhysMem;
use std::alloc::Global;
use x86_decode::{Decoded, Instr, decode};

/// The most quick forms of a line.
const FORMS: usize = 16;

/// The most bytes of code of a line.
const BYTES: usize = 64;

/// The most bytes of an instruction.
const LONGEST: usize = 15;

/// The lines that are kept.
const LINES: usize = 4_096;

/// Bytes of code, and the quick forms of instructions in them.
#[derive(Clone, Copy)]
pub(crate) struct Line {
    /// The address of the first byte.
    at: u64,
    /// The stamp of the quick turns in which memory was seen to have the code there.
    stamp: u64,
    /// So many bytes of the code count, at most 64.
    size: usize,
    code: [u8; 64],
    /// So many quick forms count, at most 16.
    count: usize,
    forms: [Quick; 16],
}

/// Lines without a form.
pub(crate) fn lines(alloc: Global) -> Result<Vec<Line>, NoMemory>
    ensures length { IfOk result (λ lines. length lines.items ≡ 4096) }
    ensures lines { IfOk result (λ lines. All (IsLineBy 0) lines.items) }
{
    let line = no_line();
    match vec![in alloc; line; LINES] {
        Ok(lines) => Ok(lines),
        Err(_) => Err(NoMemory),
    }
}

/// A line without a form.
fn no_line() -> Line
    ensures { IsLineBy 0 result }
{
    let code = [0; BYTES];
    let forms = no_forms();
    Line {
        at: 0,
        stamp: 0,
        size: 16,
        code,
        count: 0,
        forms,
    }
}

/// No quick forms.
fn no_forms() -> [Quick; 16]
    ensures length { length result ≡ 16 }
    ensures forms { (code : List ℕ) (size : ℕ) → 16 ≤ size → All (IsFormIn code size) result }
{
    [SLOW; FORMS]
}

/// The number of an address' line among those that are kept.
#[inline(always)]
pub(crate) fn line_slot(at: u64) -> usize
    ensures { result < 4096 }
{
    (at % 4096) as usize
}

impl Line {
    /// The quick forms, no more than so many.
    #[inline(always)]
    pub(crate) fn forms_within(&self, most: u64) -> &[Quick]
        requires forms { All (IsFormIn self.now.code self.now.size) self.now.forms }
        requires row { IsRow self.now.forms self.now.count }
        ensures most { length result.now ≤ most }
        ensures forms { All (IsFormIn self.now.code self.now.size) result.now }
        ensures row { AreFrom self.now.at self.now.at result.now }
    {
        let count = if (self.count as u64) < most {
            self.count
        } else {
            most as usize
        };
        &self.forms[..count]
    }
}

/// Whether the line at a slot is that of this address, with code that memory has: it is made that, if it isn't already and
/// the address is in one of the four codes.
#[inline(always)]
pub(crate) fn find_line(
    lines: &mut Vec<Line>,
    slot: usize,
    stamp: u64,
    codes: &[KeptCode; 4],
    mem: &PhysMem,
    at: u64,
) -> bool
    requires slot { slot < length lines.old.items }
    requires codes { All (LiesOnPage (length mem.now)) codes.now }
    requires lines { All (IsLineOf stamp codes.now mem.now) lines.old.items }
    ensures lines { All (IsLineOf stamp codes.now mem.now) lines.new.items }
    ensures length { length lines.new.items ≡ length lines.old.items }
    ensures stamp { result ≡ true → (d : Line) → (slice_index_or lines.new.items slot d).stamp ≡ stamp }
    ensures at { result ≡ true → (d : Line) → (slice_index_or lines.new.items slot d).at ≡ at }
{
    let line = &lines[slot];
    if line.at == at && line.stamp == stamp {
        return true;
    }
    renew_line(lines, slot, stamp, codes, mem, at)
}

/// The same of a line that isn't that of this address, or whose code memory wasn't seen to have yet.
#[inline(never)]
fn renew_line(
    lines: &mut Vec<Line>,
    slot: usize,
    stamp: u64,
    codes: &[KeptCode; 4],
    mem: &PhysMem,
    at: u64,
) -> bool
    requires slot { slot < length lines.old.items }
    requires codes { All (LiesOnPage (length mem.now)) codes.now }
    requires lines { All (IsLineOf stamp codes.now mem.now) lines.old.items }
    ensures lines { All (IsLineOf stamp codes.now mem.now) lines.new.items }
    ensures length { length lines.new.items ≡ length lines.old.items }
    ensures stamp { result ≡ true → (d : Line) → (slice_index_or lines.new.items slot d).stamp ≡ stamp }
    ensures at { result ≡ true → (d : Line) → (slice_index_or lines.new.items slot d).at ≡ at }
{
    let code = code_for(codes, at);
    match code.ahead(at) {
        Some(ahead) => {
            replace_line(lines, slot, stamp, codes, code, mem, at, ahead);
            true
        }
        None => false,
    }
}

/// Makes the line at a slot that of this address, which is so far ahead in its code.
fn replace_line(
    lines: &mut Vec<Line>,
    slot: usize,
    stamp: u64,
    codes: &[KeptCode; 4],
    code: &KeptCode,
    mem: &PhysMem,
    at: u64,
    ahead: u64,
)
    requires slot { slot < length lines.old.items }
    requires code { (d : KeptCode) → code.now ≡ slice_index_or codes.now (code_number at) d }
    requires lies { LiesOnPage (length mem.now) code.now }
    requires ahead { ahead ≤ code.now.last }
    requires here { code.now.start + ahead ≡ at }
    requires lines { All (IsLineOf stamp codes.now mem.now) lines.old.items }
    ensures lines { All (IsLineOf stamp codes.now mem.now) lines.new.items }
    ensures length { length lines.new.items ≡ length lines.old.items }
    ensures stamp { (d : Line) → (slice_index_or lines.new.items slot d).stamp ≡ stamp }
    ensures at { (d : Line) → (slice_index_or lines.new.items slot d).at ≡ at }
{
    let _frames = mem.frames();
    let place = code.place_of(ahead);
    let room = code.room(ahead);
    let line = &lines[slot];
    if is_code_of(line, at, mem, place, room) {
        lines[slot].stamp = stamp;
    } else {
        lines[slot] = line_at(at, mem, place, room, stamp);
    }
}

/// Whether a line is that of this address, and has the code of this place, within so many bytes.
fn is_code_of(line: &Line, at: u64, mem: &PhysMem, place: u64, room: usize) -> bool
    requires room { place % 4096 + room ≤ 4096 }
    requires inside { place + room ≤ length mem.now }
    requires size { line.now.size ≤ 64 }
    requires whole { line.now.size % 8 ≡ 0 }
    ensures at { result ≡ true → line.now.at ≡ at }
    ensures room { result ≡ true → line.now.size ≤ room }
    ensures same { result ≡ true → (k : ℕ) → k < line.now.size
        → byte_at line.now.code k ≡ byte_at mem.now (place + k) }
{
    if line.at != at || line.size > room {
        return false;
    }
    has_code(&line.code, line.size, mem, place)
}

/// Whether memory has the first so many bytes of code from a place on, word by word.
fn has_code(code: &[u8; 64], size: usize, mem: &PhysMem, place: u64) -> bool
    requires inside { place + size ≤ length mem.now }
    requires size { size ≤ 64 }
    requires whole { size % 8 ≡ 0 }
    ensures same { result ≡ true → (k : ℕ) → k < size → byte_at code.now k ≡ byte_at mem.now (place + k) }
{
    let mut at = 0;
    while at < size {
        if !has_word(code, at, mem, place) {
            return false;
        }
        at += 8;
    }
    true
}

/// Whether memory has the word of code that stands so far behind its first byte, whose place this is.
#[inline(always)]
fn has_word(code: &[u8], at: usize, mem: &PhysMem, place: u64) -> bool
    requires length { length code.now ≡ 64 }
    requires inside { place + at + 8 ≤ length mem.now }
    requires within { at + 8 ≤ 64 }
    ensures same { result ≡ true → (k : ℕ) → at ≤ k → k < at + 8 → byte_at code.now k ≡ byte_at mem.now (place + k) }
{
    mem.bytes_law();
    let _frames = mem.frames();
    let kept = word_at(code, at);
    let found = mem.load64(place + at as u64);
    kept == found
}

/// The line of this address, with the code of this place, within so many bytes.
fn line_at(at: u64, mem: &PhysMem, place: u64, room: usize, stamp: u64) -> Line
    requires some { 16 ≤ room }
    requires room { place % 4096 + room ≤ 4096 }
    requires inside { place + room ≤ length mem.now }
    ensures line { IsLineBy stamp result }
    ensures stamp { result.stamp ≡ stamp }
    ensures at { result.at ≡ at }
    ensures room { result.size ≤ room }
    ensures same { (k : ℕ) → k < result.size → byte_at result.code k ≡ byte_at mem.now (place + k) }
{
    let most = BYTES.min(room) / 8 * 8;
    let code = copied(run_on_page(mem, place, most));
    let (forms, count, size) = forms_of(&code, most);
    Line {
        at,
        stamp,
        size,
        code,
        count,
        forms,
    }
}

/// Bytes, and zeros behind them.
fn copied(bytes: &[u8]) -> [u8; 64]
    requires few { length bytes.now ≤ 64 }
    ensures { (k : ℕ) → k < length bytes.now → byte_at result k ≡ byte_at bytes.now k }
{
    let mut code = [0; BYTES];
    code[..bytes.len()].copy_from_slice(bytes);
    code
}

/// The quick forms of instructions one behind the other, up to the first that has none, how many they are, and how many
/// bytes of the code decide them: words, at most so many bytes.
fn forms_of(code: &[u8; 64], most: usize) -> ([Quick; 16], usize, usize)
    requires some { 16 ≤ most }
    requires most { most ≤ 64 }
    requires whole { most % 8 ≡ 0 }
    ensures forms { All (IsFormIn code.now result.2) result.0 }
    ensures row { IsRow result.0 result.1 }
    ensures some { 16 ≤ result.2 }
    ensures most { result.2 ≤ most }
    ensures whole { result.2 % 8 ≡ 0 }
{
    let mut forms = no_forms();
    let mut count = 0;
    let mut at = 0;
    let mut size = 16;
    while count < FORMS && at <= most - 16 {
        let quick = form_at(code, at);
        if quick.kind == Kind::Slow {
            break;
        }
        size = (at + 23) / 8 * 8;
        forms[count] = quick;
        count += 1;
        at += usize::from(quick.size);
        if leaves(quick.kind) {
            break;
        }
    }
    (forms, count, size)
}

/// The quick form of the instruction so far behind the first byte.
fn form_at(code: &[u8; 64], at: usize) -> Quick
    requires within { at + 16 ≤ 64 }
    ensures form { (size : ℕ) → at + 16 ≤ size → IsFormIn code.now size result }
    ensures at { result.at ≡ at }
{
    let quick = quick_by(&decode(&code[at..at + LONGEST]));
    Quick {
        at: at as u8,
        ..quick
    }
}

/// Whether no instruction of this kind is followed by the next one.
fn leaves(kind: Kind) -> bool {
    matches!(
        kind,
        Kind::Jump | Kind::BranchLoad | Kind::Call | Kind::CallLoad | Kind::Return
    )
}

/// The quick form of what code decodes to.
fn quick_by(answer: &Decoded) -> Quick
    requires formed { IfWhole answer.now (λ instr size. IsWellFormed instr) }
    ensures ready { IsQuick result }
    ensures register { has_register_first result.kind ≡ true → result.to < 16 }
    ensures stands { is_slow result.kind ≡ false → StandsFor result answer.now }
{
    match answer {
        Decoded::Whole(instr, size) => whole_quick(instr, *size),
        Decoded::Short | Decoded::TooLong | Decoded::Unknown => SLOW,
    }
}

/// The quick form of an instruction of so many bytes.
fn whole_quick(instr: &Instr, size: u8) -> Quick
    requires formed { IsWellFormed instr.now }
    ensures ready { IsQuick result }
    ensures register { has_register_first result.kind ≡ true → result.to < 16 }
    ensures stands { is_slow result.kind ≡ false → StandsFor result (Whole instr.now size) }
{
    let quick = quick_of(instr, size);
    if quick.kind == Kind::Slow {
        SLOW
    } else {
        quick
    }
}
