//! Looks at a machine that change nothing: a page's translation, a byte of memory, and what the nested kernel keeps.

ghost use Rattle.std.specs.Prelude.{◌≡◌, ◌*◌, ◌/◌, ◌<◌, IfSome, IsTrue, None, Some, if◌then◌else◌, length, nat_lt};
ghost use Rattle.nk_bits.specs.Paging.{is_canonical, page_of};
ghost use Rattle.nk_bits.specs.Translations.{IsAccessible, translation};
ghost use Rattle.phys_mem.specs.MaskedMemory.{is_book_frame, seen};
ghost use Rattle.phys_mem.specs.Memory.{byte_at, entry_in};
ghost use Rattle.page_desc.specs.DescriptorBytes.{kinds_in};
ghost use Rattle.nk_body.specs.NestedRecord.{HoldsBooks, books_in};
ghost use Rattle.gate_state.specs.MachineOf.{real_of, whole_of};

use crate::laws::masked_law;
use crate::machine::Machine;
use crate::touched::own_frames;
use crate::whole::Whole;
use mem_access::walk_kept;
use nk_bits::{Leaf, translation_law};
use nk_body::Kernel;
use phys_mem::{PhysMem, mask_law};
use tlb_model::Tlb;

/// The bytes of a page.
const PAGE_SIZE: u64 = 4096;

/// The first frame of the nested kernel's books.
const BOOKS: u64 = 26;

/// The translation of the page of a canonical address, kept or walked for; what is walked for isn't kept.
pub fn look_up(mem: &PhysMem, tlb: &Tlb, root: u32, va: u64) -> Option<Leaf>
    requires context { IsAccessible (length mem.now) root tlb.now }
    requires canonical { IsTrue (is_canonical va) }
    ensures found { result ≡ translation (entry_in mem.now) (length mem.now / 4096) root tlb.now (page_of va) }
    ensures frame { IfSome result (λ leaf. 4096 * leaf.frame < length mem.now) }
{
    translation_law();
    if let Some(leaf) = tlb.look(va / PAGE_SIZE) {
        return Some(leaf);
    }
    match walk_kept(mem, tlb, root, va) {
        Ok(leaf) => Some(leaf),
        Err(_) => None,
    }
}

/// Whether a frame is one of the books'.
#[tactic(auto, unfolding(phys_mem::specs::MaskedMemory::is_book_frame))]
fn is_book_frame(frames: u32, frame: u64) -> bool
    ensures { result ≡ is_book_frame frames frame }
{
    BOOKS <= frame && frame < own_frames(frames)
}

/// The byte at a place of memory as it is seen: of the books each is 0.
fn seen_byte(mem: &PhysMem, place: u64) -> Option<u8>
    ensures { result ≡ (if nat_lt place (length (seen mem.now)) then Some (byte_at (seen mem.now) place) else None) }
{
    mask_law();
    let frames = mem.frames();
    if place >= PAGE_SIZE * u64::from(frames) {
        None
    } else if is_book_frame(frames, place / PAGE_SIZE) {
        Some(0)
    } else {
        Some(mem.load8(place))
    }
}

impl<'i> Whole<'i> {
    /// The translation of the page of a canonical address.
    fn translation(&self, va: u64) -> Option<Leaf>
        requires canonical { IsTrue (is_canonical va) }
        ensures { result ≡ translation (entry_in self.now.state.memory) (length self.now.state.memory / 4096)
            self.now.state.processor.control.root self.now.state.processor.tlb (page_of va) }
    {
        masked_law();
        mask_law();
        let _turns = self.turns;
        let cpu = self.processor();
        look_up(self.memory(), cpu.tlb(), cpu.control().root, va)
    }

    /// The byte at a place of memory.
    fn byte(&self, place: u64) -> Option<u8>
        ensures { result ≡ (if nat_lt place (length self.now.state.memory)
            then Some (byte_at self.now.state.memory place) else None) }
    {
        seen_byte(self.memory(), place)
    }

    /// What the nested kernel keeps beside memory.
    fn kernel(&self) -> &Kernel
        ensures kinds { kinds_in self.now.real ≡ self.now.state.kinds }
        ensures root { result.now.root ≡ self.now.state.processor.control.root }
        ensures ledger { (books_in result.now self.now.real).ledger ≡ self.now.state.ledger }
        ensures books { HoldsBooks result.now self.now.real }
    {
        let _turns = self.turns;
        &self.kernel
    }
}

impl<'i> Machine<'i> {
    /// The translation of the page of a canonical address, kept or walked for; what is walked for isn't kept.
    pub fn translation(&self, va: u64) -> Option<Leaf>
        requires canonical { IsTrue (is_canonical va) }
        ensures { result ≡ translation (entry_in (whole_of self.now).state.memory)
            (length (whole_of self.now).state.memory / 4096) (whole_of self.now).state.processor.control.root
            (whole_of self.now).state.processor.tlb (page_of va) }
    {
        self.whole().translation(va)
    }

    /// The byte at a place of memory, where memory has it. Of the nested kernel's books each is 0.
    pub fn byte(&self, place: u64) -> Option<u8>
        ensures { result ≡ (if nat_lt place (length (whole_of self.now).state.memory)
            then Some (byte_at (whole_of self.now).state.memory place) else None) }
    {
        self.whole().byte(place)
    }

    /// What the nested kernel keeps beside memory, lent for looking: with memory as it is, which holds its books.
    pub fn kernel(&self) -> &Kernel
        ensures kinds { kinds_in (real_of self.now) ≡ (whole_of self.now).state.kinds }
        ensures root { result.now.root ≡ (whole_of self.now).state.processor.control.root }
        ensures ledger { (books_in result.now (real_of self.now)).ledger ≡ (whole_of self.now).state.ledger }
        ensures books { HoldsBooks result.now (real_of self.now) }
    {
        self.whole().kernel()
    }
}
