//! The frames that a step may have changed.

ghost use Rattle.std.specs.Prelude.{◌≡◌, ◌<◌, ℕ, ◌^◌, length, ◌/◌};
ghost use Rattle.nk_body.specs.Calls.{call_of};
ghost use Rattle.nk_body.specs.NestedRecord.{HoldsBooks, books_in};
ghost use Rattle.gate_state.specs.StepsTouched.{of_turn, own_frames, touched_by_call, touched_by_write};

use cpu_step::Touched;
use nk_bits::CallWords;
use nk_body::{Call, Kernel, call_of};
use phys_mem::PhysMem;

/// The trap stack, to which every delivery pushes.
pub(crate) const TRAP_STACK: u64 = 3;

/// What a step may have changed of memory, the nested kernel's books in it.
#[derive(Clone, Copy, Debug, PartialEq, Eq)]
pub enum StepTouched {
    /// No byte.
    Nothing,
    /// No byte outside the two frames with these numbers.
    Frames(u64, u64),
    /// By the nested kernel's body: no byte outside the frames below a number, which are its own, and two that its call
    /// names.
    Body { below: u64, one: u64, two: u64 },
    /// Any byte: the body wrote in more than two pages.
    Any,
}

/// What a turn may have changed, by what the processor tells: a delivery pushes to the trap stack.
pub(crate) fn of_turn(touched: Touched) -> StepTouched
    ensures { result ≡ of_turn touched }
{
    match touched {
        Touched::Nothing => StepTouched::Nothing,
        Touched::Frames(one, two) => StepTouched::Frames(one, two),
        Touched::Any => StepTouched::Frames(TRAP_STACK, TRAP_STACK),
    }
}

/// The number of the nested kernel's own frames, the first ones of memory: the last are those of the descriptors.
pub(crate) fn own_frames(frames: u32) -> u64
    ensures { result ≡ own_frames frames }
{
    64 + (u64::from(frames) + 255) / 256
}

/// What a write in a region may change beside the frames below a number.
fn touched_by_write(
    kernel: &Kernel,
    mem: &PhysMem,
    below: u64,
    region: u64,
    offset: u64,
    count: u64,
) -> StepTouched
    requires books { HoldsBooks kernel.now mem.now }
    ensures { result ≡ touched_by_write below (books_in kernel.now mem.now).ledger.book region offset count }
{
    let regions = kernel.regions();
    if !regions.fits(mem, region, offset, count) {
        return StepTouched::Body {
            below,
            one: 0,
            two: 0,
        };
    }
    let last = offset + count - 1;
    if last / 4096 > offset / 4096 + 1 {
        return StepTouched::Any;
    }
    StepTouched::Body {
        below,
        one: regions.place(mem, region, offset as u32) / 4096,
        two: regions.place(mem, region, last as u32) / 4096,
    }
}

/// What the body may change for a call.
pub(crate) fn touched_by_call(kernel: &Kernel, mem: &PhysMem, call: &CallWords) -> StepTouched
    requires books { HoldsBooks kernel.now mem.now }
    ensures { result ≡ touched_by_call (length mem.now / 4096) (books_in kernel.now mem.now).ledger.book (call_of call.now) }
{
    let below = own_frames(mem.frames());
    match call_of(call) {
        Call::DeclareTable { frame, .. } | Call::RemoveTable { frame } => StepTouched::Body {
            below,
            one: frame,
            two: frame,
        },
        Call::WriteEntry { table, .. } => StepTouched::Body {
            below,
            one: table,
            two: table,
        },
        Call::Write {
            region,
            offset,
            count,
            ..
        } => touched_by_write(kernel, mem, below, region, offset, count),
        _ => StepTouched::Body {
            below,
            one: 0,
            two: 0,
        },
    }
}
