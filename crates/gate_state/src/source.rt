//! The source of a call: its bytes are read in ascending order, each by its page's translation, up to the first that
//! can't be read.

ghost use Rattle.std.specs.Prelude.{◌≡◌, ◌≤◌, ◌<◌, ◌+◌, ◌*◌, ◌/◌, ◌%◌, ◌^◌, ◌++◌, if◌then◌else◌, IfSome, IsTrue, None, Some, [], drop, length, take, vec_capacity, vec_len};
ghost use Rattle.nk_bits.specs.Accesses.{place_in};
ghost use Rattle.phys_mem.specs.Memory.{entry_in};
ghost use Rattle.nk_bits.specs.Paging.{is_canonical, page_of};
ghost use Rattle.nk_bits.specs.Translations.{IsAccessible, NamesFramesIn, look, tlb_after, translation};
ghost use Rattle.cpu_step.specs.Processor.{IsSound};
ghost use Rattle.nk_body.specs.CallRules.{Sourced, bytes_read};
ghost use Rattle.nk_body.specs.Calls.{call_of};
ghost use Rattle.nk_body.specs.SourceWords.{sourced_of};
ghost use Rattle.gate_state.specs.MachineSteps.{took_by};
ghost use Rattle.gate_state.specs.SourceBytes.{byte_through, kept_by, source_place, source_through, source_byte, source_read, source_tlb, tlb_by};

use crate::seen::Took;
use cpu_step::Cpu;
use mem_access::translate;
use nk_bits::{CallWords, Leaf, canonical, named_law, translation_law};
use nk_body::{Call, Source, call_of};
use phys_mem::PhysMem;
use tlb_model::Tlb;

/// The address of the first byte that a call takes, if it takes any.
pub(crate) fn source_place(words: &CallWords) -> u64
    ensures { result ≡ source_place (call_of words.now) }
{
    match call_of(words) {
        Call::Write { source, .. } => source,
        _ => 0,
    }
}

/// Reads what a call takes from an address on, if it takes any; all else stays but what is kept of walks.
pub(crate) fn take_source(
    cpu: &mut Cpu,
    mem: &PhysMem,
    va: u64,
    wanted: Option<u64>,
    into: &mut Vec<u8>,
) -> Took
    requires sound { IsSound (length mem.now) cpu.old }
    requires room { IfSome wanted (λ count. count ≤ vec_capacity into.old) }
    ensures took { result ≡ took_by (source_through mem.now cpu.old.control.root cpu.old.tlb va wanted) }
    ensures bytes { into.new.items ≡ bytes_read (source_through mem.now cpu.old.control.root cpu.old.tlb va wanted) }
    ensures cpu { cpu.new ≡ record cpu.old { tlb = tlb_by mem.now cpu.old.control.root cpu.old.tlb va wanted } }
    ensures room { vec_capacity into.old ≤ vec_capacity into.new }
{
    into.clear();
    let root = cpu.control().root;
    let Some(count) = wanted else {
        return Took::NotTaken;
    };
    if read_source(cpu.tlb_mut(), mem, root, va, count, into) {
        Took::Taken
    } else {
        into.clear();
        Took::Unreadable
    }
}

/// What was read, as it is handed to the nested kernel.
pub(crate) fn sourced<'s>(took: Took, bytes: &'s [u8]) -> Source<'s>
    ensures { (source : Sourced) → took ≡ took_by source → bytes.now ≡ bytes_read source → sourced_of result ≡ source }
{
    match took {
        Took::NotTaken => Source::NotTaken,
        Took::Unreadable => Source::Unreadable,
        Took::Taken => Source::Bytes(bytes),
    }
}

/// Reads so many bytes behind those that are there, of which there are none; whether each could be read. Those of a page
/// are taken together, by one look-up.
fn read_source(
    tlb: &mut Tlb,
    mem: &PhysMem,
    root: u32,
    va: u64,
    count: u64,
    into: &mut Vec<u8>,
) -> bool
    requires context { IsAccessible (length mem.now) root tlb.old }
    requires none { into.old.items ≡ [] }
    requires room { count ≤ vec_capacity into.old }
    ensures read { record { bytes = if result then Some into.new.items else None; tlb = tlb.new }
        ≡ source_read mem.now root tlb.old va count }
    ensures room { vec_capacity into.old ≤ vec_capacity into.new }
{
    let mut done = 0;
    while done < count {
        let Some(leaf) = leaf_of(tlb, mem, root, va, done) else {
            return false;
        };
        done += take_page(mem, leaf, va + done, count - done, into);
    }
    true
}

/// The translation of the byte that is so far behind an address, where that doesn't wrap, is canonical, and has one.
fn leaf_of(tlb: &mut Tlb, mem: &PhysMem, root: u32, va: u64, offset: u64) -> Option<Leaf>
    requires context { IsAccessible (length mem.now) root tlb.old }
    ensures byte { byte_through mem.now (va + offset) result ≡ source_byte mem.now root tlb.old (va + offset) }
    ensures tlb { tlb.new ≡ source_tlb mem.now root tlb.old (va + offset) }
    ensures frames { NamesFramesIn (length mem.now) tlb.new }
    ensures readable { IfSome result (λ leaf. (va + offset < 2 ^ 64) × IsTrue (is_canonical (va + offset))) }
    ensures kept { IfSome result (λ leaf. look tlb.new.pairs (page_of (va + offset)) ≡ Some leaf) }
    ensures frame { IfSome result (λ leaf. 4096 * leaf.frame < length mem.now) }
{
    match va.checked_add(offset) {
        Some(at) if canonical(at) => look_up(mem, tlb, root, at),
        _ => None,
    }
}

/// Takes so many bytes from an address on, at most, behind those that are there: those up to the end of its page, which has
/// this translation. How many were taken.
fn take_page(mem: &PhysMem, leaf: Leaf, at: u64, most: u64, into: &mut Vec<u8>) -> u64
    requires frame { 4096 * leaf.frame < length mem.now }
    requires most { 1 ≤ most }
    requires room { vec_len into.old + most ≤ vec_capacity into.old }
    ensures count { (1 ≤ result) × (result ≤ most) × (at % 4096 + result ≤ 4096) }
    ensures inside { place_in leaf at + result ≤ length mem.now }
    ensures bytes { into.new.items ≡ into.old.items ++ take result (drop (place_in leaf at) mem.now) }
    ensures taken { length into.new.items ≡ length into.old.items + result }
    ensures room { vec_capacity into.old ≤ vec_capacity into.new }
{
    // memory has whole frames
    let _frames = mem.frames();
    let first = at % 4096;
    let count = most.min(4096 - first);
    let page = mem.frame(leaf.frame);
    into.extend_from_slice(&page[first as usize..(first + count) as usize])
        .unwrap();
    count
}

/// The translation of a page. Where it has none, what a page fault drops goes.
fn look_up(mem: &PhysMem, tlb: &mut Tlb, root: u32, va: u64) -> Option<Leaf>
    requires context { IsAccessible (length mem.now) root tlb.old }
    requires canonical { IsTrue (is_canonical va) }
    ensures found { result ≡ translation (entry_in mem.now) (length mem.now / 4096) root tlb.old (page_of va) }
    ensures tlb { tlb.new ≡ kept_by result
        (tlb_after (entry_in mem.now) (length mem.now / 4096) root tlb.old (page_of va)) (page_of va) }
    ensures kept { IfSome result (λ leaf. look tlb.new.pairs (page_of va) ≡ Some leaf) }
    ensures frame { IfSome result (λ leaf. 4096 * leaf.frame < length mem.now) }
    ensures frames { NamesFramesIn (length mem.now) tlb.new }
{
    translation_law();
    named_law();
    match translate(mem, tlb, root, va) {
        Some(leaf) => Some(leaf),
        None => {
            tlb.drop_fault(va / 4096);
            None
        }
    }
}
