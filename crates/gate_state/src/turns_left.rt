//! How many turns are left until WP is set.

ghost use Rattle.std.specs.Prelude.{◌≡◌, ◌-◌};
ghost use Rattle.x86_alu.specs.SignedNumbers.{bit};
ghost use Rattle.x86_regs.specs.Combinations.{interrupt_flag};
ghost use Rattle.nk_bits.specs.KernelLayout.{gate_address};
ghost use Rattle.gate_state.specs.WindowLeft.{left_at, left_with};

use nk_bits::GATE;
use x86_regs::{Regs, bit};

/// Bit 9 of the flags: interrupts are delivered (SDM volume 3, 2.3).
const IF: u8 = 9;

/// How many turns at most go by from here with WP clear until it is set, the one that sets it counted in.
pub(crate) fn left(regs: &Regs) -> u8
    ensures left { result ≡ left_at (regs.now.rip - gate_address) (bit regs.now.flags interrupt_flag) }
{
    left_at(regs.rip.saturating_sub(GATE), bit(regs.flags, IF))
}

/// The row of an offset of the gates' text.
#[tactic(auto, unfolding(crate::specs::WindowLeft::left_at))]
fn left_at(offset: u64, interrupts: bool) -> u8
    ensures { result ≡ left_at offset interrupts }
{
    if offset == 37 || offset == 457 {
        left_by(1, 7, interrupts)
    } else if offset == 32 || offset == 452 {
        left_by(2, 8, interrupts)
    } else if offset == 29 || offset == 449 {
        left_by(3, 9, interrupts)
    } else if offset == 45 || offset == 465 {
        left_by(4, 10, interrupts)
    } else if offset == 40 || offset == 460 {
        left_by(5, 11, interrupts)
    } else if offset == 16 {
        left_by(6, 7, interrupts)
    } else if offset == 17 {
        left_by(5, 5, interrupts)
    } else if offset == 27 || offset == 448 {
        left_by(4, 4, interrupts)
    } else if offset % 8 == 0 {
        left_by(6, 6, interrupts)
    } else {
        left_by(5, 5, interrupts)
    }
}

/// So many turns with IF clear, and so many with IF set.
fn left_by(clear: u8, set: u8, interrupts: bool) -> u8
    ensures { result ≡ left_with clear set interrupts }
{
    if interrupts { set } else { clear }
}
