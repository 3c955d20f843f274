//! ModRM, SIB and displacement (SDM volume 2, tables 2-2 and 2-3).

ghost use Rattle.std.specs.Prelude.{◌≡◌, ◌≤◌, ◌<◌, ◌+◌, ◌*◌, ◌⊎◌, length, slice_index, IfNone, IfSome};
ghost use Rattle.decode_fields.specs.Bounds.{IsPlace};
ghost use Rattle.decode_fields.specs.ModRm.{IsModRm, IsRex, displacement_from, displacement_size, front_size, has_sib, index_of, is_register, is_rip_relative, lacks_base, mod_field, modrm_length, modrm_of, place_by, plain_address, reg_by, reg_field, rex_b, rm_field, scale_of, sib_address};

use crate::number::immediate;
use crate::parts::ModRm;
use crate::place::{Address, Place};

/// The byte at a place, and 0 past the end.
fn byte_at(bytes: &[u8], at: usize) -> u8
    ensures { result ≡ slice_index bytes.now at }
{
    if at < bytes.len() { bytes[at] } else { 0 }
}

/// The two high bits: mod of ModRM, the scale of SIB.
fn mod_field(byte: u8) -> u8
    ensures { result ≡ mod_field byte }
{
    byte >> 6
}

/// The three bits in the middle: reg of ModRM, the index of SIB.
pub fn reg_field(byte: u8) -> u8
    ensures field { result ≡ reg_field byte }
    ensures small { result < 8 }
{
    byte >> 3 & 7
}

/// The three low bits: rm of ModRM, the base of SIB, and the register that an opcode names.
pub fn rm_field(byte: u8) -> u8
    ensures field { result ≡ rm_field byte }
    ensures small { result < 8 }
{
    byte & 7
}

/// Whether mod and rm name a register.
pub fn names_register(modrm: u8) -> bool
    ensures { result ≡ is_register modrm }
{
    mod_field(modrm) == 3
}

/// Whether SIB stands behind ModRM.
pub fn needs_sib(modrm: u8) -> bool
    ensures { result ≡ has_sib modrm }
{
    !names_register(modrm) & (rm_field(modrm) == 4)
}

fn follows_rip(modrm: u8) -> bool
    ensures { result ≡ is_rip_relative modrm }
{
    (mod_field(modrm) == 0) & (rm_field(modrm) == 5)
}

fn has_no_base(modrm: u8, sib: u8) -> bool
    ensures { result ≡ lacks_base modrm sib }
{
    needs_sib(modrm) & (mod_field(modrm) == 0) & (rm_field(sib) == 5)
}

/// The bytes of the displacement. `sib` counts where SIB stands behind ModRM.
pub fn size_of_displacement(modrm: u8, sib: u8) -> usize
    ensures size { result ≡ displacement_size modrm sib }
    ensures few { result ≤ 4 }
{
    match mod_field(modrm) {
        1 => 1,
        2 => 4,
        _ => if follows_rip(modrm) | has_no_base(modrm, sib) {
            4
        } else {
            0
        },
    }
}

/// The bytes of ModRM and SIB.
fn size_of_front(modrm: u8) -> usize
    ensures { result ≡ front_size modrm }
{
    if needs_sib(modrm) { 2 } else { 1 }
}

/// The displacement, extended by its sign.
fn displacement_at(bytes: &[u8], front: usize, size: usize) -> u64
    requires few { length bytes.now ≤ 15 }
    requires there { front + size ≤ length bytes.now }
    requires known { (size ≡ 0) ⊎ ((size ≡ 1) ⊎ (size ≡ 4)) }
    ensures { result ≡ displacement_from front size bytes.now }
{
    match size {
        1 => immediate(&bytes[front..], 8).unwrap_or(0),
        4 => immediate(&bytes[front..], 32).unwrap_or(0),
        _ => 0,
    }
}

fn index_register(sib: u8, rex: u8) -> Option<u8>
    ensures { result ≡ index_of sib rex }
{
    let number = reg_field(sib) + 8 * (rex >> 1 & 1);
    if number == 4 { None } else { Some(number) }
}

fn scale(sib: u8, rex: u8) -> u8
    ensures { result ≡ scale_of sib rex }
{
    if index_register(sib, rex).is_none() {
        1
    } else {
        1 << mod_field(sib)
    }
}

/// The register that reg names, 0 to 15.
pub fn register_by_reg(modrm: u8, rex: u8) -> u8
    ensures { result ≡ reg_by modrm rex }
{
    reg_field(modrm) + 8 * (rex >> 2 & 1)
}

/// The register that the three low bits name, 0 to 15.
pub fn register_by_rm(byte: u8, rex: u8) -> u8
    ensures { result ≡ rm_field byte + 8 * rex_b rex }
{
    rm_field(byte) + 8 * (rex & 1)
}

/// The place by an SIB byte.
fn by_sib(modrm: u8, sib: u8, rex: u8, disp: u64) -> Address
    ensures { result ≡ sib_address modrm sib rex disp }
{
    let base = register_by_rm(sib, rex);
    Address {
        base: if has_no_base(modrm, sib) {
            None
        } else {
            Some(base)
        },
        index: index_register(sib, rex),
        scale: scale(sib, rex),
        disp,
        rip: false,
    }
}

/// The place by rm alone.
fn by_rm(modrm: u8, rex: u8, disp: u64) -> Address
    ensures { result ≡ plain_address modrm rex disp }
{
    let rip = follows_rip(modrm);
    let base = register_by_rm(modrm, rex);
    Address {
        base: if rip { None } else { Some(base) },
        index: None,
        scale: 1,
        disp,
        rip,
    }
}

/// The register or place that ModRM names, with its displacement.
fn place(modrm: u8, sib: u8, rex: u8, disp: u64) -> Place
    ensures { result ≡ place_by modrm sib rex disp }
{
    if names_register(modrm) {
        return Place::Reg(register_by_rm(modrm, rex));
    }
    Place::Mem(if needs_sib(modrm) {
        by_sib(modrm, sib, rex, disp)
    } else {
        by_rm(modrm, rex, disp)
    })
}

/// The operands that ModRM names, where the bytes begin with it (SDM volume 2, 2.1.5 and 2.2.1); None where they end
/// before the last that ModRM, SIB and displacement need. `rex` is the REX byte, or 0 for none.
#[tactic(auto, unfolding(crate::specs::ModRm::modrm_length, crate::specs::ModRm::place_of))]
pub fn modrm(bytes: &[u8], rex: u8) -> Option<ModRm>
    requires few { length bytes.now ≤ 15 }
    requires known { IsRex rex }
    ensures value { result ≡ modrm_of bytes.now rex }
    ensures none { IfNone result (length bytes.now < modrm_length bytes.now) }
    ensures some { IfSome result (λ modrm. IsModRm modrm bytes.now rex) }
    ensures reg { IfSome result (λ modrm. modrm.reg < 16) }
    ensures place { IfSome result (λ modrm. IsPlace modrm.place) }
{
    let modrm = byte_at(bytes, 0);
    let sib = byte_at(bytes, 1);
    let front = size_of_front(modrm);
    let size = size_of_displacement(modrm, sib);
    if bytes.len() < front + size {
        return None;
    }
    Some(ModRm {
        reg: register_by_reg(modrm, rex),
        place: place(modrm, sib, rex, displacement_at(bytes, front, size)),
        length: (front + size) as u8,
    })
}
