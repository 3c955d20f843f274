//! INT3 and INT (SDM volume 2, 3.3), and IRETQ with the frame that it pops (SDM volume 3, 6.14.3).

ghost use Rattle.std.specs.Prelude.{◌≡◌, None, Ok, IfOk, IfSome, length};
ghost use Rattle.nk_bits.specs.Translations.{IsAccessible, NamesFramesIn};
ghost use Rattle.nk_bits.specs.Outcomes.{answered, outcome_of};
ghost use Rattle.page_walk.specs.MemoryAccess.{view_of};
ghost use Rattle.x86_regs.specs.Effects.{frame_popped, popped, return_effect};
ghost use Rattle.x86_regs.specs.OperandOutcomes.{change, going_on, interrupt_vector};

use mem_access::{kept_number, kept_run, load, one_page_law};
use nk_bits::{Access, Control};
use page_walk::SpanFault;
use phys_mem::PhysMem;
use tlb_model::Tlb;
use x86_decode::Op;
use x86_regs::{Act, Change, Effect, Fault, Frame, RSP, Regs, going_on, raised};

/// The bytes of the frame that IRETQ pops.
const FRAME_SIZE: u16 = 40;

/// INT3, and INT of a vector; the trap itself is left to a delivery.
pub(crate) fn trap(op: Op, value: u64, next: u64, regs: &Regs) -> Change
    ensures { Ok result ≡ change (going_on regs.now regs.now.general regs.now.flags next) 0
        (Act.Interrupt (interrupt_vector op value)) }
{
    Change {
        regs: going_on(regs, regs.general, regs.flags, next),
        value: 0,
        act: Act::Interrupt(vector_of(op, value)),
    }
}

pub(crate) fn vector_of(op: Op, value: u64) -> u8
    ensures { result ≡ interrupt_vector op value }
{
    match op {
        Op::Int3 => 3,
        _ => (value % 256) as u8,
    }
}

/// IRETQ, which leaves the registers to the return by its frame.
///
/// Fails with the first fault of its reads.
pub(crate) fn return_effect(
    next: u64,
    regs: &Regs,
    control: &Control,
    mem: &PhysMem,
    tlb: &mut Tlb,
) -> Result<Effect, Fault>
    requires context { IsAccessible (length mem.now) control.now.root tlb.old }
    ensures outcome { outcome_of result tlb.new
        ≡ return_effect mem.now (view_of mem.now control.now regs.now.cpl) regs.now next tlb.old }
    ensures frames { NamesFramesIn (length mem.now) tlb.new }
    ensures no_write { IfOk result (λ effect. effect.write ≡ None) }
{
    match pop_frame(regs, control, mem, tlb) {
        Ok(frame) => Ok(Effect {
            regs: going_on(regs, regs.general, regs.flags, next),
            write: None,
            act: Act::Return(frame),
        }),
        Err(fault) => Err(fault),
    }
}

/// The frame at the stack's top, read in ascending order.
#[tactic(auto, unfolding(x86_regs::specs::Effects::frame_popped))]
fn pop_frame(regs: &Regs, control: &Control, mem: &PhysMem, tlb: &mut Tlb) -> Result<Frame, Fault>
    requires context { IsAccessible (length mem.now) control.now.root tlb.old }
    ensures outcome { outcome_of result tlb.new
        ≡ frame_popped mem.now (view_of mem.now control.now regs.now.cpl) regs.now tlb.old }
    ensures frames { NamesFramesIn (length mem.now) tlb.new }
{
    let rip = match pop(0, regs, control, mem, tlb) {
        Ok(rip) => rip,
        Err(fault) => return Err(fault),
    };
    let cs = match pop(1, regs, control, mem, tlb) {
        Ok(cs) => cs,
        Err(fault) => return Err(fault),
    };
    let flags = match pop(2, regs, control, mem, tlb) {
        Ok(flags) => flags,
        Err(fault) => return Err(fault),
    };
    let rsp = match pop(3, regs, control, mem, tlb) {
        Ok(rsp) => rsp,
        Err(fault) => return Err(fault),
    };
    let ss = match pop(4, regs, control, mem, tlb) {
        Ok(ss) => ss,
        Err(fault) => return Err(fault),
    };
    Ok(Frame {
        rip,
        cs,
        flags,
        rsp,
        ss,
    })
}

/// The same frame, where its bytes lie on one page that is kept: one look-up reads them all, and changes nothing.
#[tactic(auto, unfolding(x86_regs::specs::Effects::frame_popped))]
pub(crate) fn pop_kept_frame(
    regs: &Regs,
    control: &Control,
    mem: &PhysMem,
    tlb: &Tlb,
) -> Option<Frame>
    requires context { IsAccessible (length mem.now) control.now.root tlb.now }
    ensures { IfSome result (λ frame. answered frame tlb.now
        ≡ frame_popped mem.now (view_of mem.now control.now regs.now.cpl) regs.now tlb.now) }
{
    one_page_law();
    // places are below 2^64
    let _frames = mem.frames();
    let top = regs.general[RSP as usize];
    match kept_run(mem, tlb, Access::Read, control, regs.cpl, top, FRAME_SIZE) {
        Some(place) => Some(Frame {
            rip: kept_number(mem, place, 8),
            cs: kept_number(mem, place + 8, 8),
            flags: kept_number(mem, place + 16, 8),
            rsp: kept_number(mem, place + 24, 8),
            ss: kept_number(mem, place + 32, 8),
        }),
        None => None,
    }
}

/// Eight bytes of the frame, by their place in it.
fn pop(
    place: u8,
    regs: &Regs,
    control: &Control,
    mem: &PhysMem,
    tlb: &mut Tlb,
) -> Result<u64, Fault>
    requires context { IsAccessible (length mem.now) control.now.root tlb.old }
    ensures outcome { outcome_of result tlb.new
        ≡ popped mem.now (view_of mem.now control.now regs.now.cpl) regs.now place tlb.old }
    ensures frames { NamesFramesIn (length mem.now) tlb.new }
{
    let va = regs.general[RSP as usize].wrapping_add(8 * u64::from(place));
    match load(mem, tlb, control, regs.cpl, va, 8) {
        Ok(value) => Ok(value),
        Err(fault) => Err(raised(SpanFault { fault, stack: true })),
    }
}
