//! What an instruction does that didn't fault.

use crate::delivery::Frame;
use crate::registers::Regs;
use nk_bits::Target;

/// What an instruction does that didn't fault.
#[derive(Clone, Copy, Debug, PartialEq, Eq)]
pub struct Effect {
    /// The registers after it.
    pub regs: Regs,
    /// Its one write to memory, if it has one.
    pub write: Option<Write>,
    pub act: Act,
}

/// A write to memory that was judged.
#[derive(Clone, Copy, Debug, PartialEq, Eq)]
pub struct Write {
    /// The linear address of its first byte.
    pub va: u64,
    /// 1, 2, 4 or 8 bytes.
    pub width: u8,
    /// The bytes, least significant first; those above the width don't count.
    pub value: u64,
    /// Where its bytes stand in memory.
    pub target: Target,
}

/// What an instruction asks of the processor beyond its registers and its write.
#[derive(Clone, Copy, Debug, PartialEq, Eq)]
pub enum Act {
    /// Nothing.
    Quiet,
    /// OUT of a byte to a port.
    Out(u8, u16),
    /// IN from a port to AL.
    In(u16),
    /// HLT.
    Halt,
    /// STI that set IF: the next instruction is shielded from interrupts.
    Enable,
    /// INT with this vector.
    Interrupt(u8),
    /// IRETQ by this frame.
    Return(Frame),
    /// MOV to CR0.
    Cr0(u64),
    /// MOV to CR2.
    Cr2(u64),
    /// MOV to CR3.
    Cr3(u64),
    /// MOV to CR4.
    Cr4(u64),
    /// LIDT of a base and a limit.
    Idt(u64, u16),
    /// INVLPG of the page with this number: its linear address divided by 4,096.
    DropPage(u64),
}

/// What an instruction does with the values that it read, before its write is checked.
#[derive(Clone, Copy, Debug, PartialEq, Eq)]
pub struct Change {
    /// The registers after it.
    pub regs: Regs,
    /// The number that is written, where a write was checked.
    pub value: u64,
    pub act: Act,
}
