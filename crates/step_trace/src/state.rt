//! The state before the first step, in words. Err where memory for it is wanting.

ghost use Rattle.std.specs.Prelude.{◌≡◌, ◌*◌, ◌<◌, ◌++◌, [], OnOk, codes, decimal, slice_index_or};
ghost use Rattle.step_trace.specs.StepLines.{stand_in};
ghost use Rattle.step_trace.specs.StepTexts.{
  control_text,
  flag_text,
  hex_4,
  named_text,
  register_names,
  registers_text,
  stand_name,
  state_text,
};

use crate::registers::register_name;
use crate::words::{put_4, put_decimal, put_flag, put_named, put_text};
use cpu_step::Cpu;
use nk_bits::Control;
use std::alloc::AllocError;
use x86_regs::Regs;

/// Where the supervisor stands.
pub(crate) fn put_stand(line: &mut Vec<u8>, cpu: &Cpu) -> Result<(), AllocError>
    ensures { OnOk result (line.new.items ≡ line.old.items ++ stand_name (stand_in cpu.now)) }
{
    if cpu.control().write_protect() {
        put_text(line, "outer")
    } else if cpu.enters_body() {
        put_text(line, "nested")
    } else {
        put_text(line, "gate")
    }
}

/// The turns that were taken, and where the processor stands.
fn put_place(line: &mut Vec<u8>, turns: u64, cpu: &Cpu) -> Result<(), AllocError>
    ensures { OnOk result (line.new.items ≡ line.old.items ++ (codes "state turn " ++ (decimal turns
        ++ (codes " " ++ (stand_name (stand_in cpu.now) ++ (codes " cpl " ++ decimal cpu.now.regs.cpl)))))) }
{
    put_text(line, "state turn ")?;
    put_decimal(line, turns)?;
    put_text(line, " ")?;
    put_stand(line, cpu)?;
    put_text(line, " cpl ")?;
    put_decimal(line, u64::from(cpu.regs().cpl))
}

/// A number behind a blank and its name.
fn put_under(line: &mut Vec<u8>, name: &str, number: u64) -> Result<(), AllocError>
    ensures { OnOk result (line.new.items ≡ line.old.items ++ (codes " " ++ named_text name.now number)) }
{
    put_text(line, " ")?;
    put_named(line, name, number)
}

/// One of the general registers.
fn put_one(line: &mut Vec<u8>, number: usize, value: u64) -> Result<(), AllocError>
    requires { number < 16 }
    ensures { OnOk result (line.new.items ≡ line.old.items
        ++ (codes " " ++ named_text (slice_index_or register_names number []) value)) }
{
    put_under(line, register_name(number), value)
}

/// The general registers.
fn put_all_general(line: &mut Vec<u8>, general: &[u64; 16]) -> Result<(), AllocError>
    ensures { OnOk result (line.new.items ≡ line.old.items ++ registers_text register_names general.now) }
{
    for number in 0..16 {
        put_one(line, number, general[number])?;
    }
    Ok(())
}

/// RIP, the word of flags, the general registers, and SS.
fn put_held(line: &mut Vec<u8>, regs: &Regs) -> Result<(), AllocError>
    ensures { OnOk result (line.new.items ≡ line.old.items ++ (codes " " ++ (named_text (codes "rip") regs.now.rip
        ++ (codes " " ++ (named_text (codes "flags") regs.now.flags ++ (registers_text register_names regs.now.general
        ++ (codes " ss " ++ hex_4 regs.now.ss))))))) }
{
    put_under(line, "rip", regs.rip)?;
    put_under(line, "flags", regs.flags)?;
    put_all_general(line, &regs.general)?;
    put_text(line, " ss ")?;
    put_4(line, regs.ss)
}

/// The control registers.
fn put_all_control(line: &mut Vec<u8>, control: &Control) -> Result<(), AllocError>
    ensures { OnOk result (line.new.items ≡ line.old.items ++ control_text control.now) }
{
    put_under(line, "cr0", control.cr0)?;
    put_under(line, "cr2", control.cr2)?;
    put_under(line, "cr3", 4096 * u64::from(control.root))?;
    put_under(line, "cr4", control.cr4)
}

/// What waits, and whether the processor is halted.
fn put_waits(line: &mut Vec<u8>, cpu: &Cpu) -> Result<(), AllocError>
    ensures { OnOk result (line.new.items ≡ line.old.items ++ (codes " pending " ++ (hex_4 cpu.now.pending
        ++ (codes " shielded" ++ (flag_text cpu.now.shielded ++ (codes " halted" ++ (flag_text cpu.now.halted
        ++ codes "\n"))))))) }
{
    put_text(line, " pending ")?;
    put_4(line, cpu.pending())?;
    put_text(line, " shielded")?;
    put_flag(line, cpu.shielded())?;
    put_text(line, " halted")?;
    put_flag(line, cpu.halted())?;
    put_text(line, "\n")
}

/// Puts the line of a state behind so many turns. Err where memory for it is wanting.
pub fn put_state(line: &mut Vec<u8>, turns: u64, cpu: &Cpu) -> Result<(), AllocError>
    ensures { OnOk result (line.new.items ≡ line.old.items ++ state_text turns cpu.now) }
{
    put_place(line, turns, cpu)?;
    put_held(line, cpu.regs())?;
    put_all_control(line, cpu.control())?;
    put_waits(line, cpu)
}
