//! Code whose page is kept. Control registers, CPL and translations stay the same through quick turns in a row, so the page
//! of the code is looked up once for all of them that lie on it.

ghost use Rattle.std.specs.Prelude.{◌≡◌, ◌≢◌, ◌⊎◌, ◌+◌, ◌-◌, ◌/◌, ◌%◌, ◌^◌, ◌<◌, ◌≤◌, IfSome, length, slice_index_or};
ghost use Rattle.nk_bits.specs.Translations.{NamesFramesIn};
ghost use Rattle.nk_bits.specs.KernelLayout.{body_address};
ghost use Rattle.cpu_step.specs.CodeLines.{code_number};
ghost use Rattle.cpu_step.specs.declared.kept_code.KeptCode.{KeptCode};
ghost use Rattle.cpu_step.specs.KeptFetches.{IsKeptCode};

use crate::fetch::{LAST_ON_PAGE, is_on_page};
use crate::turn::is_at_body;
use mem_access::kept_frame;
use nk_bits::{Access, BODY, Control};
use phys_mem::PhysMem;
use tlb_model::Tlb;
use x86_regs::Regs;

/// Code on a page whose translation is kept and serves fetches: addresses in a row, at each of which a turn may begin.
#[derive(Clone, Copy)]
pub(crate) struct KeptCode {
    /// The first of them.
    start: u64,
    /// How far behind it the last one is.
    last: u64,
    /// The place in memory of the first one's byte.
    base: u64,
}

/// The code around RIP, where its page is kept and serves fetches, fifteen bytes from RIP on lie on it, with one more, and
/// RIP isn't the body's place.
#[inline(never)]
pub(crate) fn kept_code(
    mem: &PhysMem,
    tlb: &Tlb,
    control: &Control,
    regs: &Regs,
) -> Option<KeptCode>
    requires frames { NamesFramesIn (length mem.now) tlb.now }
    ensures kept { IfSome result (IsKeptCode (length mem.now) control.now regs.now.cpl tlb.now) }
{
    if !is_on_page(regs.rip) || is_at_body(regs) {
        return None;
    }
    let _frames = mem.frames();
    let (start, last) = around(regs.rip, regs.cpl);
    match kept_frame(mem, tlb, Access::Fetch, control, regs.cpl, regs.rip) {
        Some(base) => Some(KeptCode {
            start,
            last,
            base: base + start % 4096,
        }),
        None => None,
    }
}

/// The first address on RIP's page, and how far behind it the last one is, from which on fifteen bytes lie on the page,
/// with one more: on RIP's side of the body's place where that is on the page.
fn around(rip: u64, cpl: u8) -> (u64, u64)
    requires page { rip % 4096 ≤ 4080 }
    requires elsewhere { cpl ≡ 0 → rip ≢ body_address }
    ensures page { result.0 / 4096 ≡ rip / 4096 }
    ensures last { result.0 % 4096 + result.1 ≤ 4080 }
    ensures elsewhere { cpl ≡ 0 → (result.0 + result.1 < body_address) ⊎ (body_address < result.0) }
{
    let start = rip - rip % 4096;
    let offset = BODY % 4096;
    if cpl != 0 || start != BODY - offset {
        (start, LAST_ON_PAGE)
    } else if rip < BODY {
        (start, offset - 1)
    } else {
        (BODY + 1, LAST_ON_PAGE - offset - 1)
    }
}

/// The number among four codes of the one for this address: by the low bits of its page's number.
#[inline(always)]
pub(crate) fn code_slot(at: u64) -> usize
    ensures number { result ≡ code_number at }
    ensures few { result < 4 }
{
    (at / 4096 % 4) as usize
}

/// The one of four codes for this address.
#[inline(always)]
pub(crate) fn code_for(codes: &[KeptCode; 4], at: u64) -> &KeptCode
    ensures { (d : KeptCode) → result.now ≡ slice_index_or codes.now (code_number at) d }
{
    &codes[code_slot(at)]
}

impl KeptCode {
    /// How far behind the first address this one is, where a turn may begin at it.
    #[inline(always)]
    pub(crate) fn ahead(&self, rip: u64) -> Option<u64>
        requires page { self.now.start % 4096 + self.now.last ≤ 4080 }
        ensures { IfSome result (λ ahead. (ahead ≤ self.now.last) × (self.now.start + ahead ≡ rip)) }
    {
        let ahead = rip.wrapping_sub(self.start);
        if ahead <= self.last {
            Some(ahead)
        } else {
            None
        }
    }

    /// The place in memory of the byte so far ahead.
    #[inline(always)]
    pub(crate) fn place_of(&self, ahead: u64) -> u64
        requires inside { self.now.base + ahead < 2 ^ 64 }
        ensures { result ≡ self.now.base + ahead }
    {
        self.base + ahead
    }

    /// How many bytes a line may have that begins so far ahead: sixteen from each address on at which a turn may begin.
    #[inline(always)]
    pub(crate) fn room(&self, ahead: u64) -> usize
        requires ahead { ahead ≤ self.now.last }
        requires page { self.now.last ≤ 4080 }
        ensures { result ≡ self.now.last + 16 - ahead }
    {
        (self.last + 16 - ahead) as usize
    }
}
