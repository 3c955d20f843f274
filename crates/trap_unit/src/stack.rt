//! The pushes of a delivery, which are the supervisor's (SDM volume 3, 6.14.2).

ghost use Rattle.std.specs.Prelude.{◌≡◌, ℕ, ◌+◌, ◌*◌, ◌^◌, ◌<◌, ◌≤◌, Ok, length};
ghost use Rattle.nk_bits.specs.declared.control.Control.{Control};
ghost use Rattle.nk_bits.specs.Translations.{IsAccessible, NamesFramesIn, Translations};
ghost use Rattle.nk_bits.specs.declared.access.Access.TheVariants.{Write};
ghost use Rattle.mem_access.specs.KeptRuns.{IsKeptRun};
ghost use Rattle.x86_regs.specs.Operands.{lowered};
ghost use Rattle.trap_unit.specs.TrapDelivery.{cs_of, frame_values, pushed, pushes};

use crate::selectors::{SUPERVISOR_CODE, USER_CODE};
use crate::shutdown::Shut;
use mem_access::{kept_run, one_page_law, put_kept, store};
use nk_bits::{Access, Control};
use phys_mem::PhysMem;
use tlb_model::Tlb;
use x86_regs::{RSP, Regs, lowered};

/// Pushes SS, RSP, RFLAGS, CS and RIP, then the error code if there is one, below `top`; gives the last push's address.
///
/// Fails where a push faults; those before it are made.
pub(crate) fn push_frame(
    mem: &mut PhysMem,
    tlb: &mut Tlb,
    control: &Control,
    regs: &Regs,
    code: Option<u64>,
    top: u64,
) -> Result<u64, Shut>
    requires context { IsAccessible (length mem.old) control.now.root tlb.old }
    ensures pushed { record { memory = mem.new; tlb = tlb.new; answer = result }
        ≡ pushes control.now (frame_values regs.now code) top mem.old tlb.old }
    ensures length { length mem.new ≡ length mem.old }
    ensures frames { NamesFramesIn (length mem.new) tlb.new }
{
    let ss = u64::from(regs.ss);
    let rsp = regs.general[RSP as usize];
    let cs = u64::from(cs_of(regs.cpl));
    match code {
        None => push_all(mem, tlb, control, top, &[ss, rsp, regs.flags, cs, regs.rip]),
        Some(code) => push_all(
            mem,
            tlb,
            control,
            top,
            &[ss, rsp, regs.flags, cs, regs.rip, code],
        ),
    }
}

/// The selector in CS.
fn cs_of(cpl: u8) -> u16
    ensures { result ≡ cs_of cpl }
{
    if cpl == 0 { SUPERVISOR_CODE } else { USER_CODE }
}

/// One push after another; gives the last one's address.
fn push_all(
    mem: &mut PhysMem,
    tlb: &mut Tlb,
    control: &Control,
    top: u64,
    values: &[u64],
) -> Result<u64, Shut>
    requires few { length values.now ≤ 6 }
    requires context { IsAccessible (length mem.old) control.now.root tlb.old }
    ensures pushed { record { memory = mem.new; tlb = tlb.new; answer = result }
        ≡ pushes control.now values.now top mem.old tlb.old }
    ensures length { length mem.new ≡ length mem.old }
    ensures frames { NamesFramesIn (length mem.new) tlb.new }
{
    let size = 8 * values.len() as u16;
    let last = lowered(top, u64::from(size));
    match kept_run(mem, tlb, Access::Write, control, 0, last, size) {
        Some(place) => {
            push_kept(mem, place, values);
            Ok(last)
        }
        None => push_each(mem, tlb, control, top, values),
    }
}

/// The pushes of values that lie on one page, which is kept: the last one from this place on.
fn push_kept(mem: &mut PhysMem, place: u64, values: &[u64])
    requires few { length values.now ≤ 6 }
    requires inside { place + 8 * length values.now ≤ length mem.old }
    ensures pushed { (control : Control) (tlb : Translations) (top : ℕ) → top < 2 ^ 64 → IsKeptRun (length mem.old) control 0 Write tlb (lowered top (8 * length values.now)) (8 * length values.now) place
        → record { memory = mem.new; tlb = tlb; answer = Ok (lowered top (8 * length values.now)) }
        ≡ pushes control values.now top mem.old tlb }
    ensures length { length mem.new ≡ length mem.old }
{
    one_page_law();
    // places are below 2^64
    let _frames = mem.frames();
    let mut at = place + 8 * values.len() as u64;
    for value in values {
        at -= 8;
        put_kept(mem, at, 8, *value);
    }
}

/// The pushes, each with its look-up; gives the last one's address.
#[inline(never)]
fn push_each(
    mem: &mut PhysMem,
    tlb: &mut Tlb,
    control: &Control,
    top: u64,
    values: &[u64],
) -> Result<u64, Shut>
    requires context { IsAccessible (length mem.old) control.now.root tlb.old }
    ensures pushed { record { memory = mem.new; tlb = tlb.new; answer = result }
        ≡ pushes control.now values.now top mem.old tlb.old }
    ensures length { length mem.new ≡ length mem.old }
    ensures frames { NamesFramesIn (length mem.new) tlb.new }
{
    let mut last = top;
    for value in values {
        last = match push(mem, tlb, control, last, *value) {
            Ok(va) => va,
            Err(shut) => return Err(shut),
        };
    }
    Ok(last)
}

/// A push; gives its address.
#[tactic(auto, unfolding(crate::specs::TrapDelivery::pushed))]
fn push(
    mem: &mut PhysMem,
    tlb: &mut Tlb,
    control: &Control,
    top: u64,
    value: u64,
) -> Result<u64, Shut>
    requires context { IsAccessible (length mem.old) control.now.root tlb.old }
    ensures pushed { record { memory = mem.new; tlb = tlb.new; answer = result }
        ≡ pushed control.now value top mem.old tlb.old }
    ensures length { length mem.new ≡ length mem.old }
    ensures frames { NamesFramesIn (length mem.new) tlb.new }
{
    let va = lowered(top, 8);
    match store(mem, tlb, control, 0, va, 8, value) {
        Ok(()) => Ok(va),
        Err(_) => Err(Shut),
    }
}
