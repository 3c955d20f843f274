//! The return from a trap (SDM volume 2, IRET/IRETD/IRETQ).

ghost use Rattle.std.specs.Prelude.{◌≡◌, ◌⊎◌, OnErr};
ghost use Rattle.trap_unit.specs.TrapReturn.{at_return, may_return, return_with, returned, selector};

use crate::selectors::{SUPERVISOR_CODE, SUPERVISOR_STACK, USER_CODE, USER_STACK};
use nk_bits::canonical;
use x86_regs::{Fault, Frame, RSP, Regs, flags_popped, with_register};

/// Returns by the frame that IRETQ popped.
///
/// Fails with #GP(0) where CS and SS aren't a pair that the CPL may return to, or RIP isn't canonical; then the
/// registers stay.
#[tactic(auto, unfolding(crate::specs::TrapReturn::returned))]
pub fn iretq(regs: &mut Regs, frame: &Frame) -> Result<(), Fault>
    ensures returned { return_with result regs.new ≡ returned regs.old frame.now }
    ensures refused { OnErr result (regs.new ≡ regs.old) }
    ensures cpl { (regs.old.cpl ≡ 0) ⊎ (regs.old.cpl ≡ 3) → (regs.new.cpl ≡ 0) ⊎ (regs.new.cpl ≡ 3) }
{
    let cs = selector(frame.cs);
    let ss = selector(frame.ss);
    if !(may_return(regs.cpl, cs, ss) & canonical(frame.rip)) {
        return Err(Fault::General(0));
    }
    *regs = at_return(regs, frame);
    Ok(())
}

/// The low 16 bits.
fn selector(popped: u64) -> u16
    ensures { result ≡ selector popped }
{
    (popped & 0xFFFF) as u16
}

fn may_return(cpl: u8, cs: u16, ss: u16) -> bool
    ensures { result ≡ may_return cpl cs ss }
{
    let user = cs == USER_CODE && ss == USER_STACK;
    let supervisor = cs == SUPERVISOR_CODE && (ss == SUPERVISOR_STACK || ss == 0);
    user || cpl == 0 && supervisor
}

fn at_return(regs: &Regs, frame: &Frame) -> Regs
    ensures { result ≡ at_return regs.now frame.now }
{
    Regs {
        general: with_register(&regs.general, RSP, frame.rsp),
        rip: frame.rip,
        flags: flags_popped(regs.cpl, regs.flags, frame.flags),
        cpl: if selector(frame.cs) == USER_CODE {
            3
        } else {
            0
        },
        ss: selector(frame.ss),
    }
}
