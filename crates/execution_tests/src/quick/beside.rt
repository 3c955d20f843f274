//! Quick turns beside the full effects of their instructions: both leave the same registers and the
//! same memory.

ghost use Rattle.std.specs.Prelude.{◌≡◌, ◌<◌, length};
ghost use Rattle.nk_bits.specs.Translations.{NamesFramesIn};

use super::rows::After::Left;
use super::rows::{FLAGS, Row, Settings, with_all, wrong_row};
use super::{Outcome, RBX, REGS, memory, turn};
use exec_data::effect;
use mem_access::commit;
use memory_kit::CONTROL;
use phys_mem::PhysMem;
use std::alloc::Global;
use test_kit::first_wrong;
use tlb_model::Tlb;
use x86_decode::{Decoded, decode};
use x86_regs::{Form, RAX, RCX, Regs, instr_form};

/// An instruction's bytes, and what is set before it.
type Case = (&'static [u8], Settings);

/// A count of 33 above the width of 32 bits, by its low bits 1 there.
const ODD: Settings = &[(RAX, 0xC000_0000_C000_0001), (RCX, 0x121)];

/// A count of 1, with each status flag set.
const ONE: Settings = &[(RAX, 0xA000_0000_6000_0001), (RCX, 1), (FLAGS, 0x8D7)];

/// A count of 0, with each status flag set.
const ZERO: Settings = &[(RCX, 0x40), (FLAGS, 0x8D7)];

/// CF is set, and a sum with it carries.
const CARRY: Settings = &[(RAX, 0xFFFF_FFFF_FFFF_FFFF), (RCX, 0), (FLAGS, 3)];

/// The sign of each part of RCX is set.
const SIGNED: Settings = &[(RCX, 0x8000_0000_8000_8080)];

/// Where the highest bytes of what address 40 holds begin.
const HIGHEST: Settings = &[(RBX, 0x46)];

/// Whether the quick turn of a case is made, and leaves what its instruction's effect leaves.
fn is_right(alloc: Global, (bytes, settings): &Case) -> bool {
    let Some(before) = with_all(&REGS, settings) else {
        return false;
    };
    let expected = full_turn(alloc, bytes, &before);
    expected.is_some() && turn(alloc, bytes, &before) == expected
}

/// The index of the first case that isn't right.
fn wrong_case(alloc: Global, cases: &[Case]) -> Option<usize> {
    first_wrong(cases, |case| is_right(alloc, case))
}

/// What a turn by an instruction's effect leaves. A fault and want of memory are None.
fn full_turn(alloc: Global, bytes: &[u8], before: &Regs) -> Option<Outcome> {
    let Ok(mut mem) = memory(alloc) else {
        return None;
    };
    let Ok(mut tlb) = Tlb::new(alloc) else {
        return None;
    };
    let regs = full_effect(&mut mem, &mut tlb, bytes, before)?;
    Some((true, regs, mem.load64(0x8040), mem.load64(0x8048)))
}

/// The registers after an instruction, whose write is made.
fn full_effect(mem: &mut PhysMem, tlb: &mut Tlb, bytes: &[u8], before: &Regs) -> Option<Regs>
    requires root { 4096 < length mem.old }
    requires frames { NamesFramesIn (length mem.old) tlb.old }
    ensures length { length mem.new ≡ length mem.old }
{
    if bytes.len() > 15 || before.cpl != 3 {
        return None;
    }
    let Decoded::Whole(instr, size) = decode(bytes) else {
        return None;
    };
    let Form::Data(_) = instr_form(&instr) else {
        return None;
    };
    let Ok(after) = effect(&instr, size, before, &CONTROL, mem, tlb) else {
        return None;
    };
    if let Some(write) = after.write {
        commit(mem, &write.target, write.va, write.width, write.value);
    }
    Some(after.regs)
}

/// Shifts and rotations by 1, by 0, and by a count above the width.
static SHIFTS: [Case; 22] = [
    // shl rax, cl; shl eax, cl
    (b"\x48\xD3\xE0", ODD),
    (b"\xD3\xE0", ODD),
    (b"\x48\xD3\xE0", ONE),
    (b"\xD3\xE0", ONE),
    // shr rax, cl; shr eax, cl
    (b"\x48\xD3\xE8", ODD),
    (b"\xD3\xE8", ODD),
    (b"\x48\xD3\xE8", ONE),
    (b"\xD3\xE8", ONE),
    // sar rax, cl; sar eax, cl
    (b"\x48\xD3\xF8", ODD),
    (b"\xD3\xF8", ODD),
    (b"\x48\xD3\xF8", ONE),
    (b"\xD3\xF8", ONE),
    // rol rax, cl; rol eax, cl
    (b"\x48\xD3\xC0", ODD),
    (b"\xD3\xC0", ODD),
    (b"\x48\xD3\xC0", ONE),
    (b"\xD3\xC0", ONE),
    // ror rax, cl; ror eax, cl
    (b"\x48\xD3\xC8", ODD),
    (b"\xD3\xC8", ODD),
    (b"\x48\xD3\xC8", ONE),
    (b"\xD3\xC8", ONE),
    // shl rax, cl; sar eax, cl by 0
    (b"\x48\xD3\xE0", ZERO),
    (b"\xD3\xF8", ZERO),
];

#[test]
fn shifts(rt: HostRuntime) {
    assert_eq!(rt; wrong_case(rt.alloc(), &SHIFTS), None);
}

/// The same of memory, at each width.
static SHIFTS_OF_MEMORY: [Case; 20] = [
    // shl [rbx], cl, of 8, 16, 32 and 64 bits
    (b"\xD2\x23", &[]),
    (b"\x66\xD3\x23", &[]),
    (b"\xD3\x23", ODD),
    (b"\x48\xD3\x23", ODD),
    // shr [rbx], cl, of 8, 16, 32 and 64 bits
    (b"\xD2\x2B", &[]),
    (b"\x66\xD3\x2B", &[]),
    (b"\xD3\x2B", ODD),
    (b"\x48\xD3\x2B", ODD),
    // sar [rbx], cl, of 8, 16, 32 and 64 bits
    (b"\xD2\x3B", &[]),
    (b"\x66\xD3\x3B", &[]),
    (b"\xD3\x3B", ODD),
    (b"\x48\xD3\x3B", ODD),
    // rol [rbx], cl, of 8, 16, 32 and 64 bits
    (b"\xD2\x03", &[]),
    (b"\x66\xD3\x03", &[]),
    (b"\xD3\x03", ODD),
    (b"\x48\xD3\x03", ODD),
    // ror [rbx], cl, of 8, 16, 32 and 64 bits
    (b"\xD2\x0B", &[]),
    (b"\x66\xD3\x0B", &[]),
    (b"\xD3\x0B", ODD),
    (b"\x48\xD3\x0B", ODD),
];

#[test]
fn shifts_of_memory(rt: HostRuntime) {
    assert_eq!(rt; wrong_case(rt.alloc(), &SHIFTS_OF_MEMORY), None);
}

/// Over registers, CF set or a sum that carries.
static REGISTERS: [Case; 12] = [
    // neg
    (b"\x48\xF7\xD8", CARRY),
    (b"\xF7\xD8", CARRY),
    // not
    (b"\x48\xF7\xD0", CARRY),
    (b"\xF7\xD0", CARRY),
    // adc rax, rcx
    (b"\x48\x11\xC8", CARRY),
    (b"\x11\xC8", CARRY),
    // sbb rax, rcx
    (b"\x48\x19\xC8", CARRY),
    (b"\x19\xC8", CARRY),
    // neg rax of 0
    (b"\x48\xF7\xD8", &[(RAX, 0), (FLAGS, 0x8D7)]),
    // neg eax of the least
    (b"\xF7\xD8", &[(RAX, 0x8000_0000)]),
    // cmp al, cl; test al, cl
    (b"\x38\xC8", CARRY),
    (b"\x84\xC8", CARRY),
];

#[test]
fn registers(rt: HostRuntime) {
    assert_eq!(rt; wrong_case(rt.alloc(), &REGISTERS), None);
}

/// Moves that extend, of a number with its sign set, and of memory from address 46 on.
static MOVES: [Case; 16] = [
    // movzx eax, cl
    (b"\x0F\xB6\xC1", SIGNED),
    // movzx eax, cx
    (b"\x0F\xB7\xC1", SIGNED),
    // movsx rax, cl
    (b"\x48\x0F\xBE\xC1", SIGNED),
    // movsx eax, cl
    (b"\x0F\xBE\xC1", SIGNED),
    // movsx rax, cx
    (b"\x48\x0F\xBF\xC1", SIGNED),
    // movsx eax, cx
    (b"\x0F\xBF\xC1", SIGNED),
    // movsxd rax, ecx
    (b"\x48\x63\xC1", SIGNED),
    // mov al, [rbx]
    (b"\x8A\x03", HIGHEST),
    // movzx eax, word [rbx]
    (b"\x0F\xB7\x03", HIGHEST),
    // movsx rax, byte [rbx]
    (b"\x48\x0F\xBE\x03", HIGHEST),
    // movsx eax, byte [rbx]
    (b"\x0F\xBE\x03", HIGHEST),
    // movsx rax, word [rbx]
    (b"\x48\x0F\xBF\x03", HIGHEST),
    // movsx eax, word [rbx]
    (b"\x0F\xBF\x03", HIGHEST),
    // movsxd rax, [rbx]
    (b"\x48\x63\x03", HIGHEST),
    // mov [rbx], ax; mov [rbx], al
    (b"\x66\x89\x03", &[]),
    (b"\x88\x03", &[]),
];

#[test]
fn moves(rt: HostRuntime) {
    assert_eq!(rt; wrong_case(rt.alloc(), &MOVES), None);
}

/// Of a register and memory.
static LOADS: [Case; 13] = [
    // add rax, [rbx]
    (b"\x48\x03\x03", &[]),
    (b"\x03\x03", &[]),
    // sub
    (b"\x48\x2B\x03", &[]),
    (b"\x2B\x03", &[]),
    // and
    (b"\x48\x23\x03", &[]),
    (b"\x23\x03", &[]),
    // or
    (b"\x48\x0B\x03", &[]),
    (b"\x0B\x03", &[]),
    // xor
    (b"\x48\x33\x03", &[]),
    (b"\x33\x03", &[]),
    // cmp
    (b"\x48\x3B\x03", &[]),
    (b"\x3B\x03", &[]),
    // cmp al, [rbx]
    (b"\x3A\x03", &[]),
];

#[test]
fn loads(rt: HostRuntime) {
    assert_eq!(rt; wrong_case(rt.alloc(), &LOADS), None);
}

/// Of memory.
static STORES: [Case; 22] = [
    // add [rbx], rax
    (b"\x48\x01\x03", CARRY),
    (b"\x01\x03", CARRY),
    // sub
    (b"\x48\x29\x03", CARRY),
    (b"\x29\x03", CARRY),
    // and
    (b"\x48\x21\x03", CARRY),
    (b"\x21\x03", CARRY),
    // or
    (b"\x48\x09\x03", CARRY),
    (b"\x09\x03", CARRY),
    // inc
    (b"\x48\xFF\x03", CARRY),
    (b"\xFF\x03", CARRY),
    // dec
    (b"\x48\xFF\x0B", CARRY),
    (b"\xFF\x0B", CARRY),
    // inc byte [rbx], dec byte [rbx], and [rbx], al, or [rbx], al
    (b"\xFE\x03", CARRY),
    (b"\xFE\x0B", CARRY),
    (b"\x20\x03", CARRY),
    (b"\x08\x03", CARRY),
    // cmp
    (b"\x48\x39\x03", CARRY),
    (b"\x39\x03", CARRY),
    // test
    (b"\x48\x85\x03", CARRY),
    (b"\x85\x03", CARRY),
    // cmp [rbx], al; test [rbx], al
    (b"\x38\x03", &[]),
    (b"\x84\x03", &[]),
];

#[test]
fn stores(rt: HostRuntime) {
    assert_eq!(rt; wrong_case(rt.alloc(), &STORES), None);
}

/// From a page that isn't kept, and to one that may be read alone.
static MORE_IS_NEEDED: [Row; 4] = [
    // add rax, [rbx]; cmp [rbx], al; add [rbx], rax; inc dword [rbx]
    (b"\x48\x03\x03", &[(RBX, 0x2000)], Left),
    (b"\x38\x03", &[(RBX, 0x2000)], Left),
    (b"\x48\x01\x03", &[(RBX, 0x1000)], Left),
    (b"\xFF\x03", &[(RBX, 0x1000)], Left),
];

#[test]
fn nothing_is_made_where_more_is_needed(rt: HostRuntime) {
    assert_eq!(rt; wrong_row(rt.alloc(), &MORE_IS_NEEDED), None);
}

/// The second case has no quick turn, and the fourth no register.
static WRONG: [Case; 4] = [
    (b"\x48\x03\x03", &[]),
    (b"\x48\x03\x03", &[(RBX, 0x2000)]),
    (b"\x48\x03\x03", &[]),
    (b"\x48\x03\x03", &[(18, 0)]),
];

#[test]
fn wrong_cases_are_found(rt: HostRuntime) {
    assert_eq!(rt; wrong_case(rt.alloc(), &WRONG), Some(1));
}
