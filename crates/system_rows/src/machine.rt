//! The machine that turns run on.

ghost use Rattle.std.specs.Prelude.{◌≡◌, ◌≢◌, false, IfOk, OnOk};
ghost use Rattle.cpu_step.specs.declared.stepped.Stepped.TheVariants as stepped;
ghost use Rattle.cpu_step.specs.Processor.{IsSound};
ghost use Rattle.cpu_step.specs.Turns.{turned};
ghost use Rattle.system_rows.specs.WantedTurns.{processor_of, state_in};

use crate::memory::{Memory, SIZE};
use crate::row::{Row, State};
use anyhow::{Result, bail, ensure};
use cpu_step::{Cpu, Stepped};
use nk_bits::Control;
use row_fields::MemoryByte;
use std::alloc::Global;
use x86_regs::Tables;

/// The bases and the limit, which no row changes.
const TABLES: Tables = Tables {
    idt: 0xFFFF_FF80_0000_0000,
    limit: 0x2FF,
    tss: 0xFFFF_FF80_0000_0400,
};

/// EFER: SCE is clear; LME, LMA and NXE are set.
const EFER: u64 = 0xD00;

/// What a turn left in the registers.
#[derive(Clone, Copy)]
pub struct Left {
    pub state: State,
    /// A delivery shut the machine down.
    pub is_shut_down: bool,
}

/// Memory before and after a row's turn.
#[derive(Drop)]
pub struct Machine {
    /// What stands where a row says nothing.
    base: Memory,
    /// The memory of the turn.
    pub found: Memory,
    /// The memory that the row says the turn leaves.
    pub wanted: Memory,
}

impl Machine {
    /// A machine for rows.
    ///
    /// Fails with want of memory.
    pub fn new(alloc: Global) -> Result<Machine> {
        Ok(Machine {
            base: Memory::base(alloc)?,
            found: Memory::base(alloc)?,
            wanted: Memory::base(alloc)?,
        })
    }

    /// Lays the bytes of a row over the base memory, whatever stood in memory before.
    ///
    /// Fails where a byte lies outside memory.
    pub fn lay(&mut self, row: &Row) -> Result<()> {
        self.found.put_all(&self.base);
        self.wanted.put_all(&self.base);
        lay_bytes(&mut self.found, &row.before.memory)?;
        lay_bytes(&mut self.wanted, &row.before.memory)?;
        lay_bytes(&mut self.wanted, &row.after.memory)
    }

    /// Makes one turn from these registers. No translation is kept before.
    ///
    /// Fails where no turn begins with these registers, or with want of memory.
    pub fn turn(&mut self, alloc: Global, before: &State) -> Result<Left>
        ensures state { IfOk result (λ left. left.state
            ≡ state_in (turned (processor_of before.now) self.old.found.bytes).processor) }
        ensures runs { IfOk result (λ left. left.is_shut_down ≡ false
            → (turned (processor_of before.now) self.old.found.bytes).stepped ≢ stepped.Shutdown) }
        ensures memory { OnOk result (self.new.found.bytes ≡ (turned (processor_of before.now) self.old.found.bytes).memory) }
        ensures wanted { self.new.wanted ≡ self.old.wanted }
    {
        let mut cpu = processor(alloc, before)?;
        if cpu.enters_body() {
            bail!("the nested kernel's body is to run");
        }
        let stepped = self.found.turn(&mut cpu);
        Ok(Left {
            state: state_of(&cpu),
            is_shut_down: stepped == Stepped::Shutdown,
        })
    }
}

fn lay_bytes(memory: &mut Memory, bytes: &[MemoryByte]) -> Result<()> {
    for it in bytes {
        let place = it.address;
        ensure!(place < SIZE, "no byte of memory stands at {place:x}");
        memory.put(place, it.byte);
    }
    Ok(())
}

/// A processor with these registers, which keeps no translation.
fn processor(alloc: Global, before: &State) -> Result<Cpu>
    ensures sound { IfOk result (λ cpu. IsSound 262144 cpu) }
    ensures running { IfOk result (λ cpu. cpu.halted ≡ false) }
    ensures started { IfOk result (λ cpu. cpu ≡ processor_of before.now) }
{
    let cpl = before.regs.cpl;
    if cpl != 0 && cpl != 3 {
        bail!("no turn is at CPL {cpl:x}");
    }
    let root = before.cr3 / 4096;
    if before.cr3 % 4096 != 0 || root >= 64 {
        bail!("CR3 names no frame of memory");
    }
    let control = Control {
        cr0: before.cr0,
        cr2: before.cr2,
        root: root as u32,
        cr4: before.cr4,
        efer: EFER,
    };
    match Cpu::new(alloc, before.regs, control, TABLES, Vec::new(alloc)) {
        Ok(cpu) => Ok(cpu),
        Err(_) => bail!("no memory for the processor"),
    }
}

fn state_of(cpu: &Cpu) -> State
    ensures { result ≡ state_in cpu.now }
{
    let control = cpu.control();
    State {
        regs: *cpu.regs(),
        cr0: control.cr0,
        cr2: control.cr2,
        cr3: 4096 * u64::from(control.root),
        cr4: control.cr4,
        halted: cpu.halted(),
    }
}
