//! A memo of decodings: code that was decoded before isn't decoded again while its bytes are the same.

ghost use Rattle.std.specs.Prelude.{◌≡◌, ◌+◌, ◌%◌, ◌<◌, ◌≤◌, All, IfOk, drop, length, slice_index_or, take};
ghost use Rattle.std.specs.Int.{from_le_bytes, w64};
ghost use Rattle.cpu_step.specs.declared.memo.KeptAnswer.{KeptAnswer};
ghost use Rattle.cpu_step.specs.DecodingMemo.{IsAnswerOf, IsRight, bytes_of_words};
ghost use Rattle.cpu_step.specs.CodeLines.{AreTurns};
ghost use Rattle.cpu_step.specs.KeptFetches.{IsKeptCode};
ghost use Rattle.nk_bits.specs.Translations.{NamesFramesIn};

use crate::kept_code::KeptCode;
use crate::lines::{Line, lines};
use crate::processor::NoMemory;
use crate::stretches::stretch;
use exec_quick::Running;
use nk_bits::Control;
use phys_mem::PhysMem;
use std::alloc::Global;
use std::marker::Model;
use tlb_model::Tlb;
use x86_decode::{Decoded, decode};
use x86_regs::Regs;

/// The answers that are kept, by the low bits of an address.
const ANSWERS: usize = 4_096;

/// Two words of code, and what their first fifteen bytes decode to.
#[derive(Clone, Copy)]
pub(crate) struct KeptAnswer {
    low: u64,
    high: u64,
    answer: Decoded,
}

/// Decodings of code that was fetched before, each under the low bits of its address, and apart from them lines of code.
/// Its room is taken when it is made.
#[derive(Drop)]
pub(crate) struct Memo {
    answers: Vec<KeptAnswer>,
    lines: Vec<Line>,
    /// The greatest stamp of a line: it rises where a stretch of quick turns begins, and where it keeps other code.
    stamp: u64,
}

impl Model for Memo {
    ghost use Rattle.std.specs.Prelude.{◌≡◌, All, length};
    ghost use Rattle.cpu_step.specs.CodeLines.{IsLineBy};
    ghost use Rattle.cpu_step.specs.DecodingMemo.{IsRight};

    ghost Value = { Unit };

    ghost view = { λ memo. tt };

    ghost invariant = { λ memo. (length memo.answers.items ≡ 4096) × All IsRight memo.answers.items
        × (length memo.lines.items ≡ 4096) × All (IsLineBy memo.stamp) memo.lines.items };
}

impl Memo {
    /// A memo that holds the decoding of zeros at each entry.
    pub(crate) fn new(alloc: Global) -> Result<Memo, NoMemory> {
        let answers = answers(alloc)?;
        let lines = lines(alloc)?;
        Ok(Memo {
            answers,
            lines,
            stamp: 0,
        })
    }

    /// What the first fifteen bytes of two words decode to. Their address tells where it is kept, and changes nothing of it.
    pub(crate) fn answer(&mut self, rip: u64, low: u64, high: u64) -> &Decoded
        ensures right { IsAnswerOf low high result.now }
    {
        let slot = answer_slot(rip);
        renew_answer(&mut self.answers, slot, low, high);
        &self.answers[slot].answer
    }

    /// Makes quick turns by lines of code, at most so many, as long as they lead to code whose page is kept and none would
    /// write a page of code; the first code is kept.
    pub(crate) fn turns(
        &mut self,
        first: &KeptCode,
        regs: &mut Regs,
        control: &Control,
        mem: &mut PhysMem,
        tlb: &Tlb,
        most: u64,
    ) -> u64
        requires kept { IsKeptCode (length mem.old) control.now regs.old.cpl tlb.now first.now }
        requires frames { NamesFramesIn (length mem.old) tlb.now }
        ensures most { result ≤ most }
        ensures made { AreTurns result control.now tlb.now regs.old mem.old regs.new mem.new }
    {
        let mut running = Running::new(regs);
        let count = stretch(
            &mut self.lines,
            &mut self.stamp,
            first,
            &mut running,
            control,
            mem,
            tlb,
            most,
        );
        *regs = running.regs();
        count
    }
}

/// The answers of zeros.
fn answers(alloc: Global) -> Result<Vec<KeptAnswer>, NoMemory>
    ensures length { IfOk result (λ answers. length answers.items ≡ 4096) }
    ensures right { IfOk result (λ answers. All IsRight answers.items) }
{
    let kept = kept_answer(0, 0);
    match vec![in alloc; kept; ANSWERS] {
        Ok(answers) => Ok(answers),
        Err(_) => Err(NoMemory),
    }
}

/// The place of an address' answer: by its low bits, so that code of 4 KiB has room.
fn answer_slot(rip: u64) -> usize
    ensures { result < 4096 }
{
    (rip % 4096) as usize
}

/// Makes an answer that of two words, if it isn't theirs already.
fn renew_answer(answers: &mut Vec<KeptAnswer>, slot: usize, low: u64, high: u64)
    requires slot { slot < length answers.old.items }
    requires right { All IsRight answers.old.items }
    ensures length { length answers.new.items ≡ length answers.old.items }
    ensures right { All IsRight answers.new.items }
    ensures answer { (d : KeptAnswer) → IsAnswerOf low high (slice_index_or answers.new.items slot d).answer }
{
    let kept = &answers[slot];
    if kept.low != low || kept.high != high {
        replace_answer(answers, slot, low, high);
    }
}

/// Makes an answer that of two words.
#[inline(never)]
fn replace_answer(answers: &mut Vec<KeptAnswer>, slot: usize, low: u64, high: u64)
    requires slot { slot < length answers.old.items }
    requires right { All IsRight answers.old.items }
    ensures length { length answers.new.items ≡ length answers.old.items }
    ensures right { All IsRight answers.new.items }
    ensures answer { (d : KeptAnswer) → IsAnswerOf low high (slice_index_or answers.new.items slot d).answer }
{
    answers[slot] = kept_answer(low, high);
}

/// The answer of two words.
fn kept_answer(low: u64, high: u64) -> KeptAnswer
    ensures right { IsRight result }
    ensures low { result.low ≡ low }
    ensures high { result.high ≡ high }
{
    let answer = decode_words(low, high);
    KeptAnswer { low, high, answer }
}

/// What the first fifteen bytes of two words decode to.
fn decode_words(low: u64, high: u64) -> Decoded
    ensures right { IsAnswerOf low high result }
{
    decode(&first_bytes(low, high))
}

/// The word that begins at a place of a run.
#[inline(always)]
pub(crate) fn word_at(bytes: &[u8], at: usize) -> u64
    requires { at + 8 ≤ length bytes.now }
    ensures { result ≡ from_le_bytes w64 (take 8 (drop at bytes.now)) }
{
    let run = bytes[at..at + 8].first_chunk().unwrap();
    u64::from_le_bytes(*run)
}

/// Two words whose first fifteen bytes are these, and whose last one is 0.
pub(crate) fn words(bytes: &[u8]) -> (u64, u64)
    requires length { length bytes.now ≡ 15 }
    ensures bytes { bytes_of_words result.0 result.1 ≡ bytes.now }
{
    (word_at(bytes, 0), word_at(bytes, 7) >> 8)
}

/// The first fifteen bytes of two words.
fn first_bytes(low: u64, high: u64) -> [u8; 15]
    ensures bytes { result ≡ bytes_of_words low high }
{
    let a = low.to_le_bytes();
    let b = high.to_le_bytes();
    [
        a[0], a[1], a[2], a[3], a[4], a[5], a[6], a[7], b[0], b[1], b[2], b[3], b[4], b[5], b[6],
    ]
}
