//! What a debugger asks.

use crate::Order;

/// What the body of a packet asks (GDB's manual, remote protocol, packets).
#[derive(Clone, Copy, Debug, PartialEq, Eq)]
pub enum Question {
    /// `qSupported`: which features are served.
    Features,
    /// `?`: why the machine stands.
    Halt,
    /// `g`: all registers.
    Registers,
    /// `m`: so many bytes of memory from an address on.
    Memory { address: u64, count: u64 },
    /// `s`: one step.
    StepOn,
    /// `c`: on to the next stop.
    GoOn,
    /// `bs`: one step back.
    StepBack,
    /// `bc`: back to the stop before.
    GoBack,
    /// `Z0`, `Z1`: a breakpoint is set at an address.
    SetBreak { address: u64 },
    /// `z0`, `z1`: it is removed.
    ClearBreak { address: u64 },
    /// `Z2`: so many bytes from an address on are watched.
    SetWatch { address: u64, count: u64 },
    /// `z2`: they no longer are.
    ClearWatch { address: u64, count: u64 },
    /// `qXfer:features:read:target.xml`: so many bytes from a place on of the description of the registers.
    Description { offset: u64, count: u64 },
    /// `qAttached`: whether the machine stood before the debugger came.
    Attached,
    /// `qC`: the thread that stands.
    CurrentThread,
    /// `qfThreadInfo`: all threads.
    Threads,
    /// `qsThreadInfo`: the threads that were not yet told.
    MoreThreads,
    /// `H`, `T`: a thread is chosen, or asked whether it lives. There is one.
    ChooseThread,
    /// `qRcmd`: an order in words, as `monitor` passes it on.
    Monitor(Order),
    /// `G`, `P`, `M`, `X`, and moves to another address or with a signal: what changes a run.
    Change,
    /// `D`: the debugger leaves.
    Detach,
    /// `k`: the debugger ends the machine.
    Kill,
    /// Anything else.
    Unknown,
}
