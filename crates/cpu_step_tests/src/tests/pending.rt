//! Vectors that wait, the shield of STI, and HLT (SDM volume 3, 6.8.1, 6.9 and 8.10.2; volume 2, STI and HLT).

use super::after::Change::{Flags, Halted, Register, Shielded};
use super::after::Leaves::{Changed, Delivered, Ran};
use super::after::Start::{Supervisor, SupervisorBut, User};
use super::cases::Step::{Begins, Due, Put, Rests, Takes, Turn};
use super::cases::{Step, first_failing};
use irq_plan::What;
use x86_regs::RSP;

/// 47 before 40; then 40 behind NOP, the instruction that STI shields in the handler of 47; and no third. A vector that
/// comes twice waits once.
#[test]
fn highest_first_and_once(rt: HostRuntime) {
    let steps: &[Step] = &[
        Begins(SupervisorBut(&[Flags(0x202)]), b""),
        Put(0x72F0, b"\xFB\x90\x90"),
        Put(0x7280, b"\xFB\x90\x90"),
        Takes(What::Irq(40)),
        Takes(What::Irq(47)),
        Due(Some(47)),
        Turn(Delivered(47, None)),
        Due(None),
        Turn(Changed(0x32F1, &[Flags(0x202), Shielded])),
        Turn(Ran(0x32F2)),
        Turn(Delivered(40, None)),
        Turn(Changed(0x3281, &[Flags(0x202), Shielded])),
        Turn(Ran(0x3282)),
        Due(None),
        Turn(Ran(0x3283)),
        Begins(SupervisorBut(&[Flags(0x202)]), b""),
        Put(0x7210, b"\xFB\x90\x90"),
        Takes(What::Irq(33)),
        Takes(What::Irq(33)),
        Turn(Delivered(33, None)),
        Turn(Changed(0x3211, &[Flags(0x202), Shielded])),
        Turn(Ran(0x3212)),
        Due(None),
        Turn(Ran(0x3213)),
    ];
    assert_eq!(rt; first_failing(rt.alloc(), steps), None);
}

/// At CPL 3 an interrupt comes as at CPL 0; the DPL of its gate doesn't count. With IF clear the vector waits, and NOP
/// runs.
#[test]
fn user_and_clear_if(rt: HostRuntime) {
    let steps: &[Step] = &[
        Begins(User, b""),
        Takes(What::Irq(32)),
        Turn(Delivered(32, None)),
        Begins(Supervisor, b"\x90\xFB\x90"),
        Takes(What::Irq(32)),
        Due(None),
        Turn(Ran(1)),
        Turn(Changed(2, &[Flags(0x202), Shielded])),
        Turn(Ran(3)),
        Turn(Delivered(32, None)),
    ];
    assert_eq!(rt; first_failing(rt.alloc(), steps), None);
}

/// sti; hlt: HLT is shielded and halts, and then the interrupt wakes the processor, with RIP behind HLT. A halted processor
/// makes no turn until a vector comes; with IF clear it stays halted.
#[test]
fn halted_until_an_interrupt(rt: HostRuntime) {
    let steps: &[Step] = &[
        Begins(Supervisor, b"\xFB\xF4"),
        Takes(What::Irq(32)),
        Turn(Changed(1, &[Flags(0x202), Shielded])),
        Turn(Changed(2, &[Halted])),
        Turn(Delivered(32, None)),
        Begins(SupervisorBut(&[Flags(0x202)]), b"\xF4\xFA\xF4"),
        Put(0x7280, b"\xF4"),
        Turn(Changed(1, &[Halted])),
        Rests,
        Takes(What::Irq(40)),
        Turn(Delivered(40, None)),
        Turn(Changed(0x3281, &[Halted])),
        Takes(What::Irq(47)),
        Rests,
    ];
    assert_eq!(rt; first_failing(rt.alloc(), steps), None);
}

/// sti; UD2: the shield ends with the fault. IRETQ in its handler sets IF again, and the vector comes before UD2.
#[test]
fn shield_ends_with_a_fault(rt: HostRuntime) {
    let steps: &[Step] = &[
        Begins(Supervisor, b"\xFB\x0F\x0B"),
        Put(0x7060, b"\x48\xCF"),
        Takes(What::Irq(32)),
        Turn(Changed(1, &[Flags(0x202), Shielded])),
        Turn(Delivered(6, None)),
        Turn(Changed(1, &[Register(RSP, 0x1800), Flags(0x202)])),
        Turn(Delivered(32, None)),
    ];
    assert_eq!(rt; first_failing(rt.alloc(), steps), None);
}

/// Of the vectors that wait the highest is due where IF is set, and none where it is clear.
#[test]
fn due_vector(rt: HostRuntime) {
    let steps: &[Step] = &[
        Begins(Supervisor, b""),
        Takes(What::Irq(32)),
        Takes(What::Irq(47)),
        Due(None),
        Begins(SupervisorBut(&[Flags(0x202)]), b""),
        Due(None),
        Takes(What::Irq(32)),
        Due(Some(32)),
        Takes(What::Irq(40)),
        Due(Some(40)),
        Takes(What::Irq(33)),
        Due(Some(40)),
        Takes(What::Irq(47)),
        Due(Some(47)),
    ];
    assert_eq!(rt; first_failing(rt.alloc(), steps), None);
}
