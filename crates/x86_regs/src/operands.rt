//! Where the operands of an instruction stand, and what their values are read from. A width is in bits: 8, 16, 32 or
//! 64.

ghost use Rattle.std.specs.Prelude.{◌≡◌, ◌<◌, ◌≤◌, ◌*◌, ◌/◌, ◌^◌, IfSome};
ghost use Rattle.decode_fields.specs.Bounds.{IsAddress, IsPlace};
ghost use Rattle.decode_fields.specs.Widths.{IsWidth};
ghost use Rattle.nk_bits.specs.Accesses.{IsAccessSize};
ghost use Rattle.page_walk.specs.AccessPlans.{IsSized, IsSource};
ghost use Rattle.x86_decode.specs.WellFormed.{IsWellFormed};
ghost use Rattle.x86_regs.specs.Operands.{added, address_by, is_stack_base, lowered, next_of, place_address, place_span, source_by, span_by, stack_span, string_span};
ghost use Rattle.x86_regs.specs.OperandPlans.{from_address, from_source, pop_source, push_span, risen, to_source};
ghost use Rattle.x86_regs.specs.OperandOutcomes.{fallen, going_on};

use crate::registers::{Regs, held, with_register};
use decode_fields::{Address, Place};
use page_walk::{Origin, Span};
use x86_decode::Instr;

/// The number of RAX.
pub const RAX: u8 = 0;
/// The number of RCX.
pub const RCX: u8 = 1;
/// The number of RDX.
pub const RDX: u8 = 2;
/// The number of RSP.
pub const RSP: u8 = 4;
/// The number of RBP.
pub const RBP: u8 = 5;
/// The number of RSI.
pub const RSI: u8 = 6;
/// The number of RDI.
pub const RDI: u8 = 7;

/// The address of the next instruction, behind one of so many bytes.
#[inline(always)]
pub fn next_of(regs: &Regs, size: u8) -> u64
    ensures { result ≡ next_of regs.now size }
{
    regs.rip.wrapping_add(u64::from(size))
}

/// A number that is lower by another, wrapped at 2^64.
#[inline(always)]
pub fn lowered(a: u64, n: u64) -> u64
    ensures { result ≡ lowered a n }
{
    a.wrapping_sub(n)
}

/// The registers and the flags after an instruction that goes on at this address.
pub fn going_on(regs: &Regs, general: [u64; 16], flags: u64, rip: u64) -> Regs
    ensures { result ≡ going_on regs.now general flags rip }
{
    Regs {
        general,
        rip,
        flags,
        cpl: regs.cpl,
        ss: regs.ss,
    }
}

#[inline(always)]
fn added(general: &[u64; 16], number: Option<u8>) -> u64
    requires { IfSome number (λ number. number < 16) }
    ensures { result ≡ added general.now number }
{
    match number {
        None => 0,
        Some(number) => general[number as usize],
    }
}

fn scaled(index: u64, scale: u8) -> u128
    ensures value { result ≡ index * scale }
    ensures bound { result ≤ 2 ^ 72 }
{
    index as u128 * scale as u128
}

/// The linear address that an operand in memory names.
#[inline(always)]
fn address_by(general: &[u64; 16], next: u64, address: &Address) -> u64
    requires { IsAddress address.now }
    ensures { result ≡ address_by general.now next address.now }
{
    let base = added(general, address.base);
    let index = scaled(added(general, address.index), address.scale);
    let start = if address.rip { next } else { 0 };
    let sum = base as u128 + index + address.disp as u128 + start as u128;
    (sum & u64::MAX as u128) as u64
}

#[inline(always)]
fn is_stack_base(base: Option<u8>) -> bool
    ensures { result ≡ is_stack_base base }
{
    match base {
        None => false,
        Some(number) => (number == RSP) | (number == RBP),
    }
}

#[inline(always)]
fn bytes(width: u8) -> u8
    requires { IsWidth width }
    ensures bytes { result ≡ width / 8 }
    ensures size { IsAccessSize result }
{
    width / 8
}

#[inline(always)]
fn span_by(general: &[u64; 16], next: u64, width: u8, address: &Address) -> Span
    requires width { IsWidth width }
    requires address { IsAddress address.now }
    ensures span { result ≡ span_by general.now next width address.now }
    ensures size { IsAccessSize result.width }
{
    Span {
        va: address_by(general, next, address),
        width: bytes(width),
        stack: is_stack_base(address.base),
    }
}

/// The bytes of a push or a pop, from this address on.
#[inline(always)]
pub fn stack_span(va: u64, width: u8) -> Span
    requires { IsWidth width }
    ensures span { result ≡ stack_span va width }
    ensures size { IsAccessSize result.width }
{
    Span {
        va,
        width: bytes(width),
        stack: true,
    }
}

/// The bytes of a string instruction's operand, from this address on.
pub fn string_span(va: u64, width: u8) -> Span
    requires { IsWidth width }
    ensures span { result ≡ string_span va width }
    ensures size { IsAccessSize result.width }
{
    Span {
        va,
        width: bytes(width),
        stack: false,
    }
}

/// Where the value of an operand comes from; `value` is the instruction's number, and `next` the next instruction's
/// address.
fn source_by(general: &[u64; 16], next: u64, width: u8, value: u64, place: &Place) -> Origin
    requires width { IsWidth width }
    requires place { IsPlace place.now }
    ensures source { result ≡ source_by general.now next width value place.now }
    ensures size { IsSource result }
{
    match place {
        Place::Nothing => Origin::Is(0),
        Place::Reg(_) | Place::High(_) => Origin::Is(held(general, place, width)),
        Place::Mem(address) => Origin::At(span_by(general, next, width, address)),
        Place::Value => Origin::Is(value),
    }
}

/// The bytes of an operand, where it stands in memory.
#[inline(always)]
pub fn place_span(general: &[u64; 16], next: u64, width: u8, place: &Place) -> Option<Span>
    requires width { IsWidth width }
    requires place { IsPlace place.now }
    ensures span { result ≡ place_span general.now next width place.now }
    ensures size { IsSized result }
{
    match place {
        Place::Mem(address) => Some(span_by(general, next, width, address)),
        Place::Nothing | Place::Reg(_) | Place::High(_) | Place::Value => None,
    }
}

/// The address of an operand in memory, and 0 of another.
fn place_address(general: &[u64; 16], next: u64, place: &Place) -> u64
    requires { IsPlace place.now }
    ensures { result ≡ place_address general.now next place.now }
{
    match place {
        Place::Mem(address) => address_by(general, next, address),
        Place::Nothing | Place::Reg(_) | Place::High(_) | Place::Value => 0,
    }
}

/// The bytes that a push of this width writes.
#[inline(always)]
pub fn push_span(regs: &Regs, width: u8) -> Span
    requires { IsWidth width }
    ensures span { result ≡ push_span regs.now width }
    ensures size { IsAccessSize result.width }
{
    stack_span(
        lowered(regs.general[RSP as usize], u64::from(bytes(width))),
        width,
    )
}

/// The bytes that a pop of this width reads.
pub fn pop_source(regs: &Regs, width: u8) -> Origin
    requires { IsWidth width }
    ensures source { result ≡ pop_source regs.now width }
    ensures size { IsSource result }
{
    Origin::At(stack_span(regs.general[RSP as usize], width))
}

/// The general registers after a pop of this width raised RSP.
pub fn risen(regs: &Regs, width: u8) -> [u64; 16]
    requires { IsWidth width }
    ensures { result ≡ risen regs.now width }
{
    let top = regs.general[RSP as usize].wrapping_add(u64::from(bytes(width)));
    with_register(&regs.general, RSP, top)
}

/// The general registers after a push of this width lowered RSP.
pub fn fallen(regs: &Regs, width: u8) -> [u64; 16]
    requires { IsWidth width }
    ensures { result ≡ fallen regs.now width }
{
    let top = lowered(regs.general[RSP as usize], u64::from(bytes(width)));
    with_register(&regs.general, RSP, top)
}

/// Where the value of an instruction's first operand comes from, at a width in bits. The instruction has `size` bytes.
pub fn to_source(instr: &Instr, size: u8, regs: &Regs, width: u8) -> Origin
    requires formed { IsWellFormed instr.now }
    requires width { IsWidth width }
    ensures source { result ≡ to_source instr.now size regs.now width }
    ensures size { IsSource result }
{
    source_by(
        &regs.general,
        next_of(regs, size),
        width,
        instr.value,
        &instr.to,
    )
}

/// Where the value of its second operand comes from.
pub fn from_source(instr: &Instr, size: u8, regs: &Regs, width: u8) -> Origin
    requires formed { IsWellFormed instr.now }
    requires width { IsWidth width }
    ensures source { result ≡ from_source instr.now size regs.now width }
    ensures size { IsSource result }
{
    source_by(
        &regs.general,
        next_of(regs, size),
        width,
        instr.value,
        &instr.from,
    )
}

/// The address of its second operand in memory; 0 for another.
pub fn from_address(instr: &Instr, size: u8, regs: &Regs) -> u64
    requires { IsWellFormed instr.now }
    ensures { result ≡ from_address instr.now size regs.now }
{
    place_address(&regs.general, next_of(regs, size), &instr.from)
}
