//! The fetch of an instruction.

ghost use Rattle.std.specs.Prelude.{◌≡◌, ◌+◌, ◌-◌, ◌%◌, ◌<◌, ◌≤◌, ◌++◌, true, IfErr, IfOk, length, take};
ghost use Rattle.nk_bits.specs.Translations.{IsAccessible, NamesFramesIn, Translations};
ghost use Rattle.nk_bits.specs.Outcomes.{answered, outcome_of, refused};
ghost use Rattle.page_walk.specs.MemoryAccess.{bytes_left, page_fetched, view_of};
ghost use Rattle.x86_decode.specs.Decoding.{IfWhole};
ghost use Rattle.x86_decode.specs.Reader.{decoded_of};
ghost use Rattle.x86_decode.specs.WellFormed.{IsWellFormed};
ghost use Rattle.x86_regs.specs.declared.faults.Fault.TheVariants.{General};
ghost use Rattle.cpu_step.specs.InstructionFetch.{decided_by, fetched_from, in_fetch, instruction_at};
ghost use Rattle.cpu_step.specs.DecodingMemo.{IsFetched};

use crate::memo::{Memo, words};
use mem_access::{AccessFault, page_bytes};
use nk_bits::{Control, access_law};
use phys_mem::PhysMem;
use tlb_model::Tlb;
use x86_decode::{Decoded, Instr, decode, decoding_law};
use x86_regs::{Fault, Regs};

/// The most bytes of an instruction.
const LONGEST: usize = 15;

/// The last place on a page from which two words lie on it.
pub(crate) const LAST_ON_PAGE: u64 = 4080;

/// An instruction, and how many bytes it has.
#[derive(Clone, Copy, Debug, PartialEq, Eq)]
pub struct Fetched {
    pub instr: Instr,
    pub size: u8,
}

/// The bytes from an address to its page's end, fifteen at most, for execution.
#[inline(always)]
fn bytes_at<'m>(
    mem: &'m PhysMem,
    tlb: &mut Tlb,
    control: &Control,
    cpl: u8,
    va: u64,
) -> Result<&'m [u8], Fault>
    requires context { IsAccessible (length mem.now) control.now.root tlb.old }
    ensures found { IfOk result (λ bytes. answered bytes.now tlb.new
        ≡ in_fetch (page_fetched mem.now (view_of mem.now control.now cpl) tlb.old va)) }
    ensures refused { IfErr result (λ fault. refused fault tlb.new
        ≡ in_fetch (page_fetched mem.now (view_of mem.now control.now cpl) tlb.old va)) }
    ensures length { IfOk result (λ bytes. length bytes.now ≡ bytes_left va) }
    ensures frames { NamesFramesIn (length mem.now) tlb.new }
{
    match page_bytes(mem, tlb, control, cpl, va) {
        Ok(bytes) => Ok(bytes),
        Err(AccessFault::Page { code, address }) => Err(Fault::Page { code, address }),
        Err(AccessFault::NonCanonical) => Err(Fault::General(0)),
    }
}

/// What fifteen bytes decode to, by the memo.
pub(crate) fn answer_of<'a>(memo: &'a mut Memo, rip: u64, bytes: &[u8]) -> &'a Decoded
    requires length { length bytes.now ≡ 15 }
    ensures decoded { result.now ≡ decoded_of bytes.now }
    ensures formed { IfWhole result.now (λ instr size. IsWellFormed instr) }
{
    let (low, high) = words(bytes);
    memo.answer(rip, low, high)
}

/// Whether the fifteen bytes from an address on lie on one page, with one more.
pub(crate) fn is_on_page(rip: u64) -> bool
    ensures { result ≡ true → rip % 4096 ≤ 4080 }
{
    rip % 4096 <= LAST_ON_PAGE
}

/// What the code at RIP decodes to, where the fifteen bytes from there on lie on one page: two words hold them, and the
/// memo lends the answer.
///
/// Fails with the fault of the first byte.
pub(crate) fn code_on_page<'a>(
    memo: &'a mut Memo,
    mem: &PhysMem,
    tlb: &mut Tlb,
    control: &Control,
    regs: &Regs,
) -> Result<&'a Decoded, Fault>
    requires context { IsAccessible (length mem.now) control.now.root tlb.old }
    requires page { regs.now.rip % 4096 ≤ 4080 }
    ensures answer { IfOk result (λ answer. IsFetched
        (instruction_at mem.now (view_of mem.now control.now regs.now.cpl) regs.now.rip tlb.old) tlb.new answer.now) }
    ensures fault { IfErr result (λ fault. refused fault tlb.new
        ≡ instruction_at mem.now (view_of mem.now control.now regs.now.cpl) regs.now.rip tlb.old) }
    ensures frames { NamesFramesIn (length mem.now) tlb.new }
{
    decoding_law();
    access_law();
    mem.bytes_law();
    match bytes_at(mem, tlb, control, regs.cpl, regs.rip) {
        Ok(bytes) => Ok(answer_of(memo, regs.rip, bytes)),
        Err(fault) => Err(fault),
    }
}

/// The first fifteen bytes of two runs.
fn joined(first: &[u8], second: &[u8]) -> [u8; 15]
    requires first { length first.now ≤ 15 }
    requires second { 15 ≤ length first.now + length second.now }
    ensures { result ≡ take 15 (first.now ++ second.now) }
{
    let mut bytes = [0; LONGEST];
    bytes[..first.len()].copy_from_slice(first);
    bytes[first.len()..].copy_from_slice(&second[..LONGEST - first.len()]);
    bytes
}

/// What fifteen bytes decide.
fn decided(bytes: &[u8; 15]) -> Result<Fetched, Fault>
    ensures outcome { (after : Translations) → outcome_of result after
        ≡ decided_by (decoded_of bytes.now) after (refused (General 0) after) }
    ensures formed { IfOk result (λ it. IsWellFormed it.instr) }
{
    match decode(bytes) {
        Decoded::Whole(instr, size) => Ok(Fetched { instr, size }),
        Decoded::Short | Decoded::TooLong => Err(Fault::General(0)),
        Decoded::Unknown => Err(Fault::Opcode),
    }
}

/// The instruction at RIP, of which the bytes to its page's end are too few.
///
/// Fails with the fault of the next page's first byte.
fn fetch_across(
    mem: &PhysMem,
    tlb: &mut Tlb,
    control: &Control,
    regs: &Regs,
    first: &[u8],
) -> Result<Fetched, Fault>
    requires context { IsAccessible (length mem.now) control.now.root tlb.old }
    requires first { length first.now ≡ bytes_left regs.now.rip }
    ensures outcome { outcome_of result tlb.new
        ≡ fetched_from (15 - length first.now) mem.now (view_of mem.now control.now regs.now.cpl)
        regs.now.rip first.now tlb.old }
    ensures formed { IfOk result (λ it. IsWellFormed it.instr) }
    ensures frames { NamesFramesIn (length mem.now) tlb.new }
{
    decoding_law();
    access_law();
    mem.bytes_law();
    if first.len() == LONGEST {
        return Err(Fault::General(0));
    }
    let next = regs.rip.wrapping_add(first.len() as u64);
    match bytes_at(mem, tlb, control, regs.cpl, next) {
        Ok(second) => decided(&joined(first, second)),
        Err(fault) => Err(fault),
    }
}

/// The instruction at RIP, by its pages: the next page is asked for only where the bytes of the first are too few.
///
/// Fails with the fault of the first byte that can't be fetched, with #UD where the bytes begin no spelling, and with
/// #GP where fifteen bytes begin a longer one.
#[inline(never)]
pub(crate) fn fetch_by_pages(
    mem: &PhysMem,
    tlb: &mut Tlb,
    control: &Control,
    regs: &Regs,
) -> Result<Fetched, Fault>
    requires context { IsAccessible (length mem.now) control.now.root tlb.old }
    ensures outcome { outcome_of result tlb.new
        ≡ instruction_at mem.now (view_of mem.now control.now regs.now.cpl) regs.now.rip tlb.old }
    ensures formed { IfOk result (λ it. IsWellFormed it.instr) }
    ensures frames { NamesFramesIn (length mem.now) tlb.new }
{
    decoding_law();
    access_law();
    mem.bytes_law();
    let first = match bytes_at(mem, tlb, control, regs.cpl, regs.rip) {
        Ok(bytes) => bytes,
        Err(fault) => return Err(fault),
    };
    match decode(first) {
        Decoded::Whole(instr, size) => Ok(Fetched { instr, size }),
        Decoded::Short => fetch_across(mem, tlb, control, regs, first),
        Decoded::TooLong => Err(Fault::General(0)),
        Decoded::Unknown => Err(Fault::Opcode),
    }
}
