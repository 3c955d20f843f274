//! The machine that rows run on: its memory, and one instruction at a time.

ghost use Rattle.std.specs.Prelude.{◌≡◌, ◌<◌, ◌≤◌, IfOk, length};
ghost use Rattle.nk_bits.specs.Translations.{NamesFramesIn};
ghost use Rattle.x86_decode.specs.WellFormed.{IsWellFormed};
ghost use Rattle.x86_regs.specs.Effects.{FitsIn, HasAccessSize};

use crate::page_tables::{CONTROL, memory, place_of};
use anyhow::{Result, bail};
use mem_access::commit;
use phys_mem::PhysMem;
use std::alloc::Global;
use tlb_model::Tlb;
use x86_decode::{Decoded, Instr, decode};
use x86_regs::{Effect, Fault, Form, Regs, instr_form};

/// What the bytes of a row did.
#[derive(Clone, Copy)]
pub enum Outcome {
    /// They are an instruction, which had this effect.
    Done(Effect),
    /// They raised this fault.
    Raised(Fault),
    /// They are a part of an instruction, or more than one.
    Uneven,
}

/// Memory whose pages hold zeros, but for what a row puts there, and the translations kept.
#[derive(Drop)]
pub struct Machine {
    mem: PhysMem,
    tlb: Tlb,
    ghost sized: { length mem ≡ 40960 },
}

impl Machine {
    /// A machine whose pages hold zeros.
    ///
    /// Fails with want of memory.
    pub fn new(alloc: Global) -> Result<Machine> {
        let Ok(mem) = memory(alloc) else {
            bail!("no memory for the pages");
        };
        let Ok(tlb) = Tlb::new(alloc) else {
            bail!("no memory for the translations");
        };
        Ok(Machine { mem, tlb })
    }

    /// The byte at a linear address, if its page is there.
    pub fn byte(&self, address: u64) -> Option<u8> {
        let place = place_of(address)?;
        Some(self.mem.load8(place))
    }

    /// Puts a byte at a linear address, whether or not its page may be written.
    ///
    /// Fails where the page is absent.
    pub fn put(&mut self, address: u64, byte: u8) -> Result<()> {
        let Some(place) = place_of(address) else {
            bail!("no page holds the byte at {address:x}");
        };
        self.mem.store8(place, byte);
        Ok(())
    }

    /// Executes what the bytes spell at CPL 3, and makes its write. No translation is kept before.
    pub fn execute(&mut self, code: &[u8], before: &Regs) -> Outcome
        requires { length code.now ≤ 15 }
    {
        match decode(code) {
            Decoded::Whole(instr, size) => if size as usize == code.len() {
                self.make(&instr, size, before)
            } else {
                Outcome::Uneven
            },
            Decoded::Short => Outcome::Uneven,
            Decoded::TooLong => Outcome::Raised(Fault::General(0)),
            Decoded::Unknown => Outcome::Raised(Fault::Opcode),
        }
    }

    fn make(&mut self, instr: &Instr, size: u8, before: &Regs) -> Outcome
        requires { IsWellFormed instr.now }
    {
        self.tlb.flush();
        match user_effect(instr, size, before, &self.mem, &mut self.tlb) {
            Ok(effect) => {
                if let Some(write) = effect.write {
                    let mem = &mut self.mem;
                    commit(mem, &write.target, write.va, write.width, write.value);
                }
                Outcome::Done(effect)
            }
            Err(fault) => Outcome::Raised(fault),
        }
    }
}

/// The effect of an instruction at CPL 3.
fn user_effect(
    instr: &Instr,
    size: u8,
    before: &Regs,
    mem: &PhysMem,
    tlb: &mut Tlb,
) -> std::result::Result<Effect, Fault>
    requires formed { IsWellFormed instr.now }
    requires root { 4096 < length mem.now }
    requires frames { NamesFramesIn (length mem.now) tlb.old }
    ensures places { IfOk result (λ effect. FitsIn (length mem.now) effect.write) }
    ensures sized { IfOk result (λ effect. HasAccessSize effect.write) }
{
    let regs = Regs { cpl: 3, ..*before };
    match instr_form(instr) {
        Form::Data(_) => exec_data::effect(instr, size, &regs, &CONTROL, mem, tlb),
        Form::Flow(_) => exec_flow::effect(instr, size, &regs, &CONTROL, mem, tlb),
    }
}
