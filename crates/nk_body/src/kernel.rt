//! The nested kernel's books, and the calls on them.

ghost use Rattle.std.specs.Prelude.{◌≡◌, ◌<◌, ◌^◌, ℕ, false, length, IfOk, OnErr, OnOk, OnSome, Some};
ghost use Rattle.phys_mem.specs.MaskedMemory.{seen};
ghost use Rattle.phys_mem.specs.Memory.{entry_in};
ghost use Rattle.boot_map.specs.Division.{IsLayout};
ghost use Rattle.boot_map.specs.Opening.{IsOpening};
ghost use Rattle.boot_map.specs.OpeningKinds.{kinds};
ghost use Rattle.page_desc.specs.DescriptorBytes.{DiffersInDescriptors, HoldsDescriptors, descriptors_in, kinds_in};
ghost use Rattle.page_desc.specs.FrameDescriptors.{AreCounted};
ghost use Rattle.nk_bits.specs.Rules.{rule_number, rule_of};
ghost use Rattle.nk_bits.specs.KernelLayout.{opening_root};
ghost use Rattle.policy_book.specs.PolicyRules.{bounds_of};
ghost use Rattle.region_book.specs.RegionCalls.{fits_in};
ghost use Rattle.region_book.specs.RegionRecords.{region_of};
ghost use Rattle.nk_body.specs.NestedRecord.{HoldsBooks, books_in, handler_in, nested_held};
ghost use Rattle.nk_body.specs.BooksTouched.{LeavesBooks};
ghost use Rattle.nk_body.specs.CallMade.{IsMade, KeepsForm};
ghost use Rattle.nk_body.specs.CallRules.{Bytes, IsSourceOf, Sourced, accepted_answer, after_call, answer_to, memory_after_call, stand_of, verdict, wants};
ghost use Rattle.nk_body.specs.Calls.{call_of};
ghost use Rattle.nk_body.specs.declared.call.Call.TheVariants.{Allocate, DeclarePages, DeclareTable, Free, LoadRoot, NoCall, RemoveTable, SetHandler, Write, WriteEntry};
ghost use Rattle.nk_body.specs.SourceWords.{opening_ledger, sourced_of};

use crate::call::{Call, call_of};
use crate::laws::{call_law, call_leaves_law, opening_sound_law};
use crate::source::Source;
use boot_map::{Layout, opening_kinds_law};
use elf_image::Image;
use nk_bits::{Answer, CallWords, Kind, OPENING_ROOT, Rule, canonical, walk_law};
use page_desc::{
    Frames, guarded_law, held_tables_law, page_tables_law, record_walk_law, stored_law,
};
use phys_mem::{PhysMem, mask_law, memory_law};
use region_book::{Regions, declared_law, held_regions_law};
use std::alloc::{AllocError, Global};
use std::marker::Model;
use vmmu::{Tables4, accepted_law};
use write_log::{Log, held_log_law};

/// The handler slot: the first eight bytes of frame 2.
const HANDLER_SLOT: u64 = 0x2000;

/// The answer to an accepted call that makes no region.
const DONE: Answer = Answer {
    value: 0,
    place: None,
    flush: false,
};

/// And to one that changes a frame's kind or the root.
const FLUSHED: Answer = Answer {
    value: 0,
    place: None,
    flush: true,
};

/// There is no room for the books.
#[derive(Clone, Copy, Debug, PartialEq, Eq)]
pub struct NoMemory;

/// What the nested kernel keeps beside the memory that it guards.
#[derive(Drop)]
pub struct Kernel {
    tables: Tables4,
    trap: u64,
    regions: Regions,
    log: Log,
}

impl Model for Kernel {
    ghost use Rattle.nk_body.specs.NestedRecord.{OwnState};

    ghost Value = { OwnState };

    ghost view = { λ k. record {
      frames = k.tables.frames;
      root = k.tables.root;
      trap = k.trap;
      regions = k.regions;
      log = k.log;
    } };
}

impl Kernel {
    /// The books of the opening of an image whose layout this is, with its memory, into which the descriptors go.
    pub fn start(
        alloc: Global,
        mem: &mut PhysMem,
        image: &Image,
        layout: &Layout,
    ) -> Result<Kernel, NoMemory>
        requires layout { IsLayout image.now layout.now }
        requires opening { IsOpening image.now layout.now.frames mem.old }
        ensures seen { seen mem.new ≡ mem.old }
        ensures opening { IsOpening image.now layout.now.frames (seen mem.new) }
        ensures kinds { OnOk result (kinds_in mem.new ≡ kinds image.now layout.now.frames) }
        ensures root { IfOk result (λ kernel. kernel.root ≡ opening_root) }
        ensures ledger { IfOk result (λ kernel. (books_in kernel mem.new).ledger ≡ opening_ledger) }
        ensures books { IfOk result (λ kernel. HoldsBooks kernel mem.new) }
    {
        opening_kinds_law();
        opening_sound_law();
        let _pages = image.pages();
        match describe(alloc, mem, image, layout) {
            Ok(frames) => Ok(opened(mem, frames)),
            Err(fault) => Err(fault),
        }
    }

    /// How many bytes the call takes from memory; None where it takes none.
    pub fn wants(&self, mem: &PhysMem, call: &CallWords) -> Option<u64>
        requires books { HoldsBooks self.now mem.now }
        ensures { result ≡ wants (books_in self.now mem.now).ledger.book (call_of call.now) }
    {
        match call_of(call) {
            Call::Write {
                region,
                offset,
                count,
                ..
            } if self.regions.fits(mem, region, offset, count) => Some(count),
            _ => None,
        }
    }

    /// Makes a call, for which these bytes were read. One that breaks a rule leaves kernel and memory as they were.
    pub fn serve(&mut self, mem: &mut PhysMem, call: &CallWords, source: Source) -> Answer
        requires books { HoldsBooks self.old mem.old }
        requires source { IsSourceOf (wants (books_in self.old mem.old).ledger.book (call_of call.now)) (sourced_of source) }
        requires next { (books_in self.old mem.old).ledger.book.next < 2 ^ 63 }
        ensures answer { result ≡ answer_to (nested_held self.old mem.old) (call_of call.now) (sourced_of source.entry) }
        ensures nested { nested_held self.new mem.new ≡ after_call (nested_held self.old mem.old) (call_of call.now) (sourced_of source.entry)
            (stand_of (nested_held self.old mem.old) (call_of call.now) (seen mem.old)) }
        ensures memory { seen mem.new ≡ memory_after_call (nested_held self.old mem.old) (call_of call.now) (sourced_of source.entry) (seen mem.old) }
        ensures books { HoldsBooks self.new mem.new }
        ensures refused { OnSome (verdict (nested_held self.old mem.old) (call_of call.now) (sourced_of source.entry))
            ((self.new ≡ self.old) × (mem.new ≡ mem.old)) }
        ensures leaves { LeavesBooks (books_in self.old mem.old).ledger.book (call_of call.now) mem.old mem.new }
    {
        call_law();
        call_leaves_law();
        let call = call_of(call);
        match self.make(mem, call, source) {
            Ok(answer) => answer,
            Err(rule) => refused(rule),
        }
    }

    /// Makes a call, or names the first rule that it breaks.
    fn make(&mut self, mem: &mut PhysMem, call: Call, source: Source) -> Result<Answer, Rule>
        requires books { HoldsBooks self.old mem.old }
        requires source { IsSourceOf (wants (books_in self.old mem.old).ledger.book call) (sourced_of source) }
        requires next { (books_in self.old mem.old).ledger.book.next < 2 ^ 63 }
        ensures made { IsMade (books_in self.old mem.old) (seen mem.old) call (sourced_of source.entry) (rule_of result) (books_in self.new mem.new) (seen mem.new) }
        ensures frames { self.new.frames ≡ self.old.frames }
        ensures form { KeepsForm self.new mem.new }
        ensures refused { OnErr result ((self.new ≡ self.old) × (mem.new ≡ mem.old)) }
        ensures leaves { LeavesBooks (books_in self.old mem.old).ledger.book call mem.old mem.new }
        ensures shows { IfOk result (λ it. it ≡ accepted_answer (nested_held self.old mem.old) call) }
    {
        match call {
            Call::SetHandler { address } => self.set_handler(mem, address),
            Call::DeclareTable { level, frame } => self.declare_table(mem, level, frame),
            Call::WriteEntry {
                table,
                index,
                value,
            } => self.write_entry(mem, table, index, value),
            Call::RemoveTable { frame } => self.remove_table(mem, frame),
            Call::LoadRoot { frame } => self.load_root(mem, frame),
            Call::DeclarePages {
                address,
                size,
                policy,
            } => self.declare_pages(mem, address, size, policy),
            Call::Allocate { size, policy } => self.allocate(mem, size, policy),
            Call::Free { region } => self.free(mem, region),
            Call::Write {
                region,
                offset,
                count,
                ..
            } => self.write(mem, region, offset, count, source),
            Call::NoCall => self.refuse(mem),
        }
    }

    /// The handler of traps stands at a canonical address from now on.
    fn set_handler(&mut self, mem: &mut PhysMem, address: u64) -> Result<Answer, Rule>
        requires books { HoldsBooks self.old mem.old }
        ensures made { (source : Sourced) → IsMade (books_in self.old mem.old) (seen mem.old) (SetHandler address) source (rule_of result) (books_in self.new mem.new) (seen mem.new) }
        ensures frames { self.new.frames ≡ self.old.frames }
        ensures form { KeepsForm self.new mem.new }
        ensures refused { OnErr result ((self.new ≡ self.old) × (mem.new ≡ mem.old)) }
        ensures leaves { LeavesBooks (books_in self.old mem.old).ledger.book (SetHandler address) mem.old mem.new }
        ensures shows { IfOk result (λ it. it ≡ accepted_answer (nested_held self.old mem.old) (SetHandler address)) }
    {
        page_tables_law();
        held_tables_law();
        memory_law();
        held_regions_law();
        held_log_law();
        if !canonical(address) {
            return Err(Rule::NotCanonical);
        }
        mem.store64(HANDLER_SLOT, address);
        self.trap = address;
        Ok(DONE)
    }

    fn declare_table(&mut self, mem: &mut PhysMem, level: u64, frame: u64) -> Result<Answer, Rule>
        requires books { HoldsBooks self.old mem.old }
        ensures made { (source : Sourced) → IsMade (books_in self.old mem.old) (seen mem.old) (DeclareTable level frame) source (rule_of result) (books_in self.new mem.new) (seen mem.new) }
        ensures frames { self.new.frames ≡ self.old.frames }
        ensures form { KeepsForm self.new mem.new }
        ensures refused { OnErr result ((self.new ≡ self.old) × (mem.new ≡ mem.old)) }
        ensures leaves { LeavesBooks (books_in self.old mem.old).ledger.book (DeclareTable level frame) mem.old mem.new }
        ensures shows { IfOk result (λ it. it ≡ accepted_answer (nested_held self.old mem.old) (DeclareTable level frame)) }
    {
        accepted_law();
        held_regions_law();
        held_log_law();
        match self.tables.declare_table(mem, level, frame) {
            Ok(()) => Ok(FLUSHED),
            Err(rule) => Err(rule),
        }
    }

    fn write_entry(
        &mut self,
        mem: &mut PhysMem,
        table: u64,
        index: u64,
        value: u64,
    ) -> Result<Answer, Rule>
        requires books { HoldsBooks self.old mem.old }
        ensures made { (source : Sourced) → IsMade (books_in self.old mem.old) (seen mem.old) (WriteEntry table index value) source (rule_of result) (books_in self.new mem.new) (seen mem.new) }
        ensures frames { self.new.frames ≡ self.old.frames }
        ensures form { KeepsForm self.new mem.new }
        ensures refused { OnErr result ((self.new ≡ self.old) × (mem.new ≡ mem.old)) }
        ensures leaves { LeavesBooks (books_in self.old mem.old).ledger.book (WriteEntry table index value) mem.old mem.new }
        ensures shows { IfOk result (λ it. it ≡ accepted_answer (nested_held self.old mem.old) (WriteEntry table index value)) }
    {
        held_regions_law();
        held_log_law();
        match self.tables.write_entry(mem, table, index, value) {
            Ok(()) => Ok(DONE),
            Err(rule) => Err(rule),
        }
    }

    fn remove_table(&mut self, mem: &mut PhysMem, frame: u64) -> Result<Answer, Rule>
        requires books { HoldsBooks self.old mem.old }
        ensures made { (source : Sourced) → IsMade (books_in self.old mem.old) (seen mem.old) (RemoveTable frame) source (rule_of result) (books_in self.new mem.new) (seen mem.new) }
        ensures frames { self.new.frames ≡ self.old.frames }
        ensures form { KeepsForm self.new mem.new }
        ensures refused { OnErr result ((self.new ≡ self.old) × (mem.new ≡ mem.old)) }
        ensures leaves { LeavesBooks (books_in self.old mem.old).ledger.book (RemoveTable frame) mem.old mem.new }
        ensures shows { IfOk result (λ it. it ≡ accepted_answer (nested_held self.old mem.old) (RemoveTable frame)) }
    {
        accepted_law();
        held_regions_law();
        held_log_law();
        match self.tables.remove_table(mem, frame) {
            Ok(()) => Ok(FLUSHED),
            Err(rule) => Err(rule),
        }
    }

    fn load_root(&mut self, mem: &mut PhysMem, frame: u64) -> Result<Answer, Rule>
        requires books { HoldsBooks self.old mem.old }
        ensures made { (source : Sourced) → IsMade (books_in self.old mem.old) (seen mem.old) (LoadRoot frame) source (rule_of result) (books_in self.new mem.new) (seen mem.new) }
        ensures frames { self.new.frames ≡ self.old.frames }
        ensures form { KeepsForm self.new mem.new }
        ensures refused { OnErr result ((self.new ≡ self.old) × (mem.new ≡ mem.old)) }
        ensures leaves { LeavesBooks (books_in self.old mem.old).ledger.book (LoadRoot frame) mem.old mem.new }
        ensures shows { IfOk result (λ it. it ≡ accepted_answer (nested_held self.old mem.old) (LoadRoot frame)) }
    {
        let _frames = mem.frames();
        match self.tables.load_root(mem, frame) {
            Ok(()) => Ok(FLUSHED),
            Err(rule) => Err(rule),
        }
    }

    /// Makes the frames of a range of pages a protected region.
    fn declare_pages(
        &mut self,
        mem: &mut PhysMem,
        address: u64,
        size: u64,
        policy: u64,
    ) -> Result<Answer, Rule>
        requires books { HoldsBooks self.old mem.old }
        requires next { (books_in self.old mem.old).ledger.book.next < 2 ^ 63 }
        ensures made { (source : Sourced) → IsMade (books_in self.old mem.old) (seen mem.old) (DeclarePages address size policy) source (rule_of result) (books_in self.new mem.new) (seen mem.new) }
        ensures frames { self.new.frames ≡ self.old.frames }
        ensures form { KeepsForm self.new mem.new }
        ensures refused { OnErr result ((self.new ≡ self.old) × (mem.new ≡ mem.old)) }
        ensures leaves { LeavesBooks (books_in self.old mem.old).ledger.book (DeclarePages address size policy) mem.old mem.new }
        ensures shows { IfOk result (λ it. it ≡ accepted_answer (nested_held self.old mem.old) (DeclarePages address size policy)) }
    {
        page_tables_law();
        held_tables_law();
        mask_law();
        record_walk_law();
        guarded_law();
        declared_law();
        walk_law();
        held_log_law();
        let root = self.tables.root;
        let frames = &mut self.tables.frames;
        match self
            .regions
            .declare(frames, mem, root, address, size, policy)
        {
            Ok(value) => Ok(Answer {
                value,
                place: None,
                flush: true,
            }),
            Err(rule) => Err(rule),
        }
    }

    /// Allocates a region of the pool.
    fn allocate(&mut self, mem: &mut PhysMem, size: u64, policy: u64) -> Result<Answer, Rule>
        requires books { HoldsBooks self.old mem.old }
        requires next { (books_in self.old mem.old).ledger.book.next < 2 ^ 63 }
        ensures made { (source : Sourced) → IsMade (books_in self.old mem.old) (seen mem.old) (Allocate size policy) source (rule_of result) (books_in self.new mem.new) (seen mem.new) }
        ensures frames { self.new.frames ≡ self.old.frames }
        ensures form { KeepsForm self.new mem.new }
        ensures refused { OnErr result ((self.new ≡ self.old) × (mem.new ≡ mem.old)) }
        ensures leaves { LeavesBooks (books_in self.old mem.old).ledger.book (Allocate size policy) mem.old mem.new }
        ensures shows { IfOk result (λ it. it ≡ accepted_answer (nested_held self.old mem.old) (Allocate size policy)) }
    {
        page_tables_law();
        stored_law();
        held_log_law();
        match self.regions.alloc(mem, size, policy) {
            Ok(granted) => Ok(Answer {
                value: granted.id,
                place: Some(granted.place),
                flush: false,
            }),
            Err(rule) => Err(rule),
        }
    }

    /// Lets a region of the pool go.
    fn free(&mut self, mem: &mut PhysMem, region: u64) -> Result<Answer, Rule>
        requires books { HoldsBooks self.old mem.old }
        ensures made { (source : Sourced) → IsMade (books_in self.old mem.old) (seen mem.old) (Free region) source (rule_of result) (books_in self.new mem.new) (seen mem.new) }
        ensures frames { self.new.frames ≡ self.old.frames }
        ensures form { KeepsForm self.new mem.new }
        ensures refused { OnErr result ((self.new ≡ self.old) × (mem.new ≡ mem.old)) }
        ensures leaves { LeavesBooks (books_in self.old mem.old).ledger.book (Free region) mem.old mem.new }
        ensures shows { IfOk result (λ it. it ≡ accepted_answer (nested_held self.old mem.old) (Free region)) }
    {
        stored_law();
        held_regions_law();
        held_log_law();
        match self.regions.free(mem, region) {
            Ok(()) => Ok(DONE),
            Err(rule) => Err(rule),
        }
    }

    /// Writes the source in a region.
    fn write(
        &mut self,
        mem: &mut PhysMem,
        region: u64,
        offset: u64,
        count: u64,
        source: Source,
    ) -> Result<Answer, Rule>
        requires books { HoldsBooks self.old mem.old }
        requires source { IsSourceOf (wants (books_in self.old mem.old).ledger.book (Write region offset 0 count)) (sourced_of source) }
        ensures made { (place : ℕ) → IsMade (books_in self.old mem.old) (seen mem.old) (Write region offset place count) (sourced_of source.entry) (rule_of result) (books_in self.new mem.new) (seen mem.new) }
        ensures frames { self.new.frames ≡ self.old.frames }
        ensures form { KeepsForm self.new mem.new }
        ensures refused { OnErr result ((self.new ≡ self.old) × (mem.new ≡ mem.old)) }
        ensures leaves { (place : ℕ) → LeavesBooks (books_in self.old mem.old).ledger.book (Write region offset place count) mem.old mem.new }
        ensures shows { IfOk result (λ it. it ≡ accepted_answer (nested_held self.old mem.old) (Write region offset 0 count)) }
    {
        match source {
            // The range isn't one of a live region, or its region isn't: no bytes were read.
            Source::NotTaken => Err(self.judge_bounds(mem, region, offset, count)),
            Source::Unreadable => Err(Rule::BadSource),
            Source::Bytes(bytes) => self.write_bytes(mem, region, offset, bytes),
        }
    }

    /// The rule that the range of a write breaks.
    fn judge_bounds(&self, mem: &PhysMem, region: u64, offset: u64, count: u64) -> Rule
        requires books { HoldsBooks self.now mem.now }
        requires bounds { fits_in (books_in self.now mem.now).ledger.book region offset count ≡ false }
        ensures { Some result ≡ bounds_of (region_of (books_in self.now mem.now).ledger.book region) offset count }
    {
        let _range = (offset, count);
        match self.regions.find(mem, region) {
            Some(_) => Rule::OutOfBounds,
            None => Rule::BadRegion,
        }
    }

    /// Writes these bytes in a region.
    fn write_bytes(
        &mut self,
        mem: &mut PhysMem,
        region: u64,
        offset: u64,
        bytes: &[u8],
    ) -> Result<Answer, Rule>
        requires books { HoldsBooks self.old mem.old }
        ensures made { (place : ℕ) → IsMade (books_in self.old mem.old) (seen mem.old) (Write region offset place (length bytes.now)) (Bytes bytes.now) (rule_of result) (books_in self.new mem.new) (seen mem.new) }
        ensures frames { self.new.frames ≡ self.old.frames }
        ensures form { KeepsForm self.new mem.new }
        ensures refused { OnErr result ((self.new ≡ self.old) × (mem.new ≡ mem.old)) }
        ensures leaves { (place : ℕ) → LeavesBooks (books_in self.old mem.old).ledger.book (Write region offset place (length bytes.now)) mem.old mem.new }
        ensures shows { IfOk result (λ it. it ≡ accepted_answer (nested_held self.old mem.old) (Write region offset 0 (length bytes.now))) }
    {
        page_tables_law();
        held_tables_law();
        stored_law();
        mask_law();
        match policy_book::write(&mut self.regions, &mut self.log, mem, region, offset, bytes) {
            Ok(()) => Ok(DONE),
            Err(rule) => Err(rule),
        }
    }

    /// What is no call is refused, and changes nothing.
    fn refuse(&self, mem: &PhysMem) -> Result<Answer, Rule>
        requires books { HoldsBooks self.now mem.now }
        ensures made { (source : Sourced) → IsMade (books_in self.now mem.now) (seen mem.now) NoCall source (rule_of result) (books_in self.now mem.now) (seen mem.now) }
        ensures shows { IfOk result (λ it. it ≡ accepted_answer (nested_held self.now mem.now) NoCall) }
    {
        let _root = self.tables.root;
        let _frames = mem.frames();
        Err(Rule::BadCall)
    }

    /// The frame of the root of the page tables.
    pub fn root(&self) -> u32
        ensures { result ≡ self.now.root }
    {
        self.tables.root
    }

    /// The address of the outer kernel's trap handler.
    pub fn trap(&self) -> u64
        ensures { result ≡ self.now.trap }
    {
        self.trap
    }

    /// The regions that live.
    pub fn regions(&self) -> &Regions
        ensures { result.now ≡ self.now.regions }
    {
        &self.regions
    }

    /// The log of writes.
    pub fn log(&self) -> &Log
        ensures { result.now ≡ self.now.log }
    {
        &self.log
    }

    /// The descriptors of frames, and the root.
    pub fn tables(&self) -> &Tables4
        ensures frames { result.now.frames ≡ self.now.frames }
        ensures root { result.now.root ≡ self.now.root }
    {
        &self.tables
    }
}

/// The answer to a call that breaks a rule.
fn refused(rule: Rule) -> Answer
    ensures { result ≡ record { value = rule_number rule; place = None; flush = false } }
{
    Answer {
        value: rule.number(),
        place: None,
        flush: false,
    }
}

/// Puts the descriptors of the opening's frames into its memory, counted there.
fn describe(
    alloc: Global,
    mem: &mut PhysMem,
    image: &Image,
    layout: &Layout,
) -> Result<Frames, NoMemory>
    requires layout { IsLayout image.now layout.now }
    requires opening { IsOpening image.now layout.now.frames mem.old }
    ensures kinds { OnOk result (kinds_in mem.new ≡ kinds image.now layout.now.frames) }
    ensures counted { OnOk result (AreCounted (descriptors_in mem.new) (entry_in mem.old)) }
    ensures count { IfOk result (λ frames. frames ≡ layout.now.frames) }
    ensures held { IfOk result (λ frames. HoldsDescriptors frames mem.new) }
    ensures elsewhere { DiffersInDescriptors mem.old mem.new }
    ensures seen { seen mem.new ≡ mem.old }
{
    opening_kinds_law();
    opening_sound_law();
    mask_law();
    stored_law();
    let _pages = image.pages();
    match opening_kinds(alloc, image, layout) {
        Ok(kinds) => Ok(Frames::start(mem, &kinds)),
        Err(_) => Err(NoMemory),
    }
}

/// The books over these descriptors, with regions and log empty from now on.
fn opened(mem: &mut PhysMem, frames: Frames) -> Kernel
    requires held { HoldsDescriptors frames mem.old }
    ensures described { descriptors_in mem.new ≡ descriptors_in mem.old }
    ensures seen { seen mem.new ≡ seen mem.old }
    ensures frames { result.frames ≡ frames }
    ensures root { result.root ≡ opening_root }
    ensures trap { result.trap ≡ handler_in (seen mem.new) }
    ensures ledger { (books_in result mem.new).ledger ≡ opening_ledger }
    ensures form { KeepsForm result mem.new }
{
    mask_law();
    stored_law();
    held_regions_law();
    held_log_law();
    let regions = Regions::start(mem);
    let log = Log::start(mem);
    let tables = Tables4 {
        frames,
        root: OPENING_ROOT,
    };
    Kernel {
        tables,
        trap: mem.load64(HANDLER_SLOT),
        regions,
        log,
    }
}

/// The kinds of the frames at the opening.
fn opening_kinds(alloc: Global, image: &Image, layout: &Layout) -> Result<Vec<Kind>, AllocError>
    requires { IsLayout image.now layout.now }
    ensures { IfOk result (λ list. list.items ≡ kinds image.now layout.now.frames) }
{
    let mut kinds = Vec::new(alloc);
    for frame in 0..layout.frames() {
        kinds.push(layout.kind(image, frame))?;
    }
    Ok(kinds)
}
