//! What the nested kernel's body sets.

ghost use Rattle.std.specs.Prelude.{◌≡◌};
ghost use Rattle.nk_bits.specs.Translations.{flushed};

use super::after::Change::{Register, Rip, Root};
use super::after::Start::Supervisor;
use super::after::begun;
use super::cases::Step::{Begins, Looks, Sets, Takes};
use super::cases::{Step, first_failing};
use super::events::DATA;
use super::machine::{cpu, memory};
use cpu_step::Cpu;
use irq_plan::What;
use nk_bits::Leaf;
use std::test::Fail;

/// A number in R9 and in RDX, and another RIP; then another root, where the translations stay.
#[test]
fn registers_and_root(rt: HostRuntime) {
    let steps: &[Step] = &[
        Begins(Supervisor, b""),
        Sets(Register(9, u64::MAX)),
        Sets(Register(2, 7)),
        Sets(Rip(0xFFFF_FF80_0000_101D)),
        Begins(Supervisor, b""),
        Takes(What::Fill(0x1000)),
        Sets(Root(2)),
        Looks(
            1,
            Some(Leaf {
                frame: 9,
                rights: DATA,
            }),
        ),
    ];
    assert_eq!(rt; first_failing(rt.alloc(), steps), None);
}

/// No translation is kept, and all else stays.
fn flush(cpu: &mut Cpu)
    ensures { cpu.new ≡ record cpu.old { tlb = flushed } }
{
    cpu.tlb_mut().flush();
}

/// What is done to the translations lent is done to the processor's.
#[test]
fn translations(rt: HostRuntime) -> Result<(), Fail> {
    let mem = memory(rt.alloc())?;
    let mut cpu = cpu(rt.alloc(), &begun(&Supervisor))?;
    cpu.take_event(&mem, What::Fill(0x1000));
    cpu.take_event(&mem, What::Fill(0x3000));
    cpu.tlb_mut().drop_page(1);
    assert!(rt; cpu.tlb().look(1).is_none());
    assert!(rt; cpu.tlb().look(3).is_some());
    flush(&mut cpu);
    assert!(rt; cpu.tlb().look(3).is_none());
    Ok(())
}
