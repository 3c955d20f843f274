//! The code at RIP, as a line tells it. It is looked at without a fetch: nothing that the processor keeps changes.

ghost use Rattle.std.specs.Prelude.{◌≡◌, ◌+◌, ◌-◌, ◌*◌, ◌/◌, ◌%◌, ◌<◌, ◌≤◌, ◌++◌, IfSome, OnOk, length};
ghost use Rattle.std.specs.Option.{ForSome};
ghost use Rattle.arrayvec.specs.ArrayVec.{array_vec_len};
ghost use Rattle.nk_bits.specs.declared.access.Access.TheVariants.{Fetch};
ghost use Rattle.nk_bits.specs.AccessRights.{may};
ghost use Rattle.nk_bits.specs.Accesses.{smep_of, wp_of};
ghost use Rattle.page_walk.specs.MemoryAccess.{view_of};
ghost use Rattle.asm_text.specs.InstructionTexts.{HasText};
ghost use Rattle.cpu_step.specs.Processor.{IsSound};
ghost use Rattle.step_trace.specs.CodePlaces.{bytes_judged, code_place, place_for};
ghost use Rattle.step_trace.specs.StepLines.{Code, code_here};
ghost use Rattle.step_trace.specs.StepTexts.{bytes_text, instruction_text, was_text};
ghost use Rattle.step_trace.specs.Writable.{writable};

use crate::words::{put_bytes, put_text};
use arrayvec::ArrayVec;
use asm_text::{print, text_law};
use cpu_step::Cpu;
use gate_state::look_up;
use mem_access::run_on_page;
use nk_bits::{Control, Leaf, Rights, canonical};
use phys_mem::PhysMem;
use std::alloc::AllocError;
use x86_decode::{Decoded, Instr, decode};
use x86_regs::bit;

/// The most bytes of an instruction.
const LONGEST: usize = 15;

/// The bytes of a page.
const PAGE_SIZE: u64 = 4096;

/// Bit 20 of CR4: the supervisor executes no user page (SDM volume 3, 2.5).
const SMEP: u8 = 20;

/// The code at RIP, looked at without a fetch: nothing that the processor keeps changes.
#[derive(Drop)]
pub(crate) struct ToldCode {
    /// The bytes of the instruction, or all that can be fetched where none stands there.
    pub bytes: ArrayVec<u8, 15>,
    /// The instruction.
    pub found: Option<Instr>,

    /// It was decoded, so it has a text.
    ghost written: { ForSome found HasText } by { Prim.hlevel writable },
}

/// Puts the bytes of code, or a dash where there are none.
fn put_run(line: &mut Vec<u8>, bytes: &[u8]) -> Result<(), AllocError>
    ensures { OnOk result (line.new.items ≡ line.old.items ++ bytes_text bytes.now) }
{
    if bytes.is_empty() {
        return put_text(line, "-");
    }
    put_bytes(line, bytes)
}

/// Puts the text of an instruction, or that there is none.
fn put_instruction(line: &mut Vec<u8>, found: &Option<Instr>) -> Result<(), AllocError>
    requires { ForSome found.now HasText }
    ensures { OnOk result (line.new.items ≡ line.old.items ++ instruction_text found.now) }
{
    text_law();
    match found {
        Some(instr) => put_text(line, print(instr).as_str()),
        None => put_text(line, "none"),
    }
}

/// Puts the bytes of an instruction and its text.
pub(crate) fn put_code(line: &mut Vec<u8>, code: &ToldCode) -> Result<(), AllocError>
    ensures { OnOk result (line.new.items ≡ line.old.items
        ++ was_text (Code code.now.bytes.items code.now.found)) }
{
    put_text(line, " ")?;
    put_run(line, code.bytes.as_slice())?;
    put_text(line, " ")?;
    put_instruction(line, &code.found)
}

/// Whether a translation with these rights serves a fetch.
#[tactic(auto, unfolding(nk_bits::specs::Accesses::smep_of))]
fn may_fetch(rights: Rights, control: &Control, cpl: u8) -> bool
    ensures { result ≡ may Fetch rights cpl (wp_of control.now.cr0) (smep_of control.now.cr4) }
{
    if cpl == 0 {
        rights.exec && !(bit(control.cr4, SMEP) && rights.user)
    } else {
        rights.exec && rights.user
    }
}

/// The place of the byte at an address whose page has this translation, if it serves a fetch.
fn place_for(mem: &PhysMem, control: &Control, cpl: u8, va: u64, leaf: Option<Leaf>) -> Option<u64>
    requires frame { IfSome leaf (λ leaf. 4096 * leaf.frame < length mem.now) }
    ensures place { result ≡ place_for (view_of mem.now control.now cpl) va leaf }
    ensures agrees { IfSome result (λ place. place % 4096 ≡ va % 4096) }
    ensures inside { IfSome result (λ place. place + (4096 - va % 4096) ≤ length mem.now) }
{
    // memory has whole frames
    let _frames = mem.frames();
    match leaf {
        Some(leaf) if may_fetch(leaf.rights, control, cpl) => {
            Some(PAGE_SIZE * u64::from(leaf.frame) + va % PAGE_SIZE)
        }
        _ => None,
    }
}

/// The place of the byte at an address, if it can be fetched.
fn code_place(mem: &PhysMem, cpu: &Cpu, va: u64) -> Option<u64>
    requires sound { IsSound (length mem.now) cpu.now }
    ensures place { result ≡ code_place cpu.now mem.now va }
    ensures agrees { IfSome result (λ place. place % 4096 ≡ va % 4096) }
    ensures inside { IfSome result (λ place. place + (4096 - va % 4096) ≤ length mem.now) }
{
    if !canonical(va) {
        return None;
    }
    let control = cpu.control();
    let leaf = look_up(mem, cpu.tlb(), control.root, va);
    place_for(mem, control, cpu.regs().cpl, va, leaf)
}

/// The bytes from an address on that can be fetched, at most so many, which lie on one page.
fn page_code<'m>(mem: &'m PhysMem, cpu: &Cpu, va: u64, most: usize) -> &'m [u8]
    requires sound { IsSound (length mem.now) cpu.now }
    requires page { va % 4096 + most ≤ 4096 }
    ensures bytes { result.now ≡ bytes_judged cpu.now mem.now va most }
    ensures length { length result.now ≤ most }
{
    if most == 0 {
        return &[];
    }
    match code_place(mem, cpu, va) {
        Some(place) => run_on_page(mem, place, most),
        None => &[],
    }
}

/// How many of the fifteen bytes from an address on lie on its page.
fn left_on_page(va: u64) -> usize
    ensures few { result ≤ 15 }
    ensures page { va % 4096 + result ≤ 4096 }
    ensures rest { result < 15 → va % 4096 + result ≡ 4096 }
{
    LONGEST.min((PAGE_SIZE - va % PAGE_SIZE) as usize)
}

/// The bytes that lie behind so many of the first page: none where fewer of those can be fetched.
fn next_code<'m>(mem: &'m PhysMem, cpu: &Cpu, va: u64, left: usize, first: &[u8]) -> &'m [u8]
    requires sound { IsSound (length mem.now) cpu.now }
    requires few { left ≤ 15 }
    requires rest { left < 15 → va % 4096 + left ≡ 4096 }
    requires first { first.now ≡ bytes_judged cpu.now mem.now va left }
    ensures bytes { bytes_judged cpu.now mem.now va 15 ≡ first.now ++ result.now }
    ensures length { length result.now ≤ 15 - left }
{
    if first.len() != left {
        return &[];
    }
    page_code(mem, cpu, va.wrapping_add(left as u64), LONGEST - left)
}

/// Puts bytes behind others; there is room for them.
fn add_bytes(run: &mut ArrayVec<u8, 15>, bytes: &[u8])
    requires { array_vec_len run.old + length bytes.now ≤ 15 }
    ensures { run.new.items ≡ run.old.items ++ bytes.now }
{
    let _fits = run.try_extend_from_slice(bytes);
}

/// The bytes from an address on that can be fetched, at most fifteen.
fn told_bytes(mem: &PhysMem, cpu: &Cpu, va: u64) -> ArrayVec<u8, 15>
    requires sound { IsSound (length mem.now) cpu.now }
    ensures { result.items ≡ bytes_judged cpu.now mem.now va 15 }
{
    let left = left_on_page(va);
    let first = page_code(mem, cpu, va, left);
    let mut bytes = ArrayVec::new();
    add_bytes(&mut bytes, first);
    add_bytes(&mut bytes, next_code(mem, cpu, va, left, first));
    bytes
}

/// The code at RIP.
pub(crate) fn told_code(mem: &PhysMem, cpu: &Cpu) -> ToldCode
    requires sound { IsSound (length mem.now) cpu.now }
    ensures { Code result.bytes.items result.found ≡ code_here cpu.now mem.now }
{
    text_law();
    let mut bytes = told_bytes(mem, cpu, cpu.regs().rip);
    match decode(bytes.as_slice()) {
        Decoded::Whole(instr, size) => {
            bytes.truncate(size as usize);
            ToldCode {
                bytes,
                found: Some(instr),
            }
        }
        Decoded::Short | Decoded::TooLong | Decoded::Unknown => ToldCode { bytes, found: None },
    }
}
