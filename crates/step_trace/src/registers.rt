//! The changes of registers, in the words of a line. Err where memory for it is wanting.

ghost use Rattle.std.specs.Prelude.{◌≡◌, ◌+◌, ◌*◌, ◌<◌, ◌==◌, not, ◌++◌, [], OnOk, codes, slice_index, slice_index_or};
ghost use Rattle.x86_alu.specs.SignedNumbers.{bit, differ};
ghost use Rattle.x86_regs.specs.Operands.{wrapped};
ghost use Rattle.step_trace.specs.StepChanges.{
  ControlRegister,
  Flag,
  Flags,
  General,
  Privilege,
  Rip,
  Stack,
  cleared,
  control_changes,
  flag_changes,
  general_changes,
  named_flags,
  where_so,
};
ghost use Rattle.step_trace.specs.StepTexts.{changes_text, flag_names, named_text, register_names};

use crate::names::{FLAGS, REGISTERS};
use crate::words::{put_4, put_16, put_decimal, put_flag, put_named, put_text};
use nk_bits::Control;
use std::alloc::AllocError;
use x86_alu::with_flag;
use x86_regs::{Regs, bit};

/// A change to this number, behind its name.
fn put_number(line: &mut Vec<u8>, name: &str, number: u64) -> Result<(), AllocError>
    ensures { OnOk result (line.new.items ≡ line.old.items ++ (codes "; " ++ named_text name.now number)) }
{
    put_text(line, "; ")?;
    put_named(line, name, number)
}

/// RIP, where it isn't behind the instruction's bytes.
pub(crate) fn put_rip(
    line: &mut Vec<u8>,
    before: &Regs,
    size: u64,
    after: &Regs,
) -> Result<(), AllocError>
    ensures { OnOk result (line.new.items ≡ line.old.items
        ++ changes_text (where_so (not (wrapped (before.now.rip + size) == after.now.rip)) (Rip after.now.rip))) }
{
    if before.rip.wrapping_add(size) == after.rip {
        Ok(())
    } else {
        put_number(line, "rip", after.rip)
    }
}

/// The name of a general register.
#[tactic(auto, unfolding(crate::specs::StepTexts::register_names))]
pub(crate) fn register_name(number: usize) -> &'static str
    requires { number < 16 }
    ensures { result.now ≡ slice_index_or register_names number [] }
{
    REGISTERS[number]
}

/// One of the general registers.
fn put_register(
    line: &mut Vec<u8>,
    number: usize,
    before: u64,
    after: u64,
) -> Result<(), AllocError>
    requires { number < 16 }
    ensures { OnOk result (line.new.items ≡ line.old.items
        ++ changes_text (where_so (not (before == after)) (General number after))) }
{
    if before == after {
        Ok(())
    } else {
        put_number(line, register_name(number), after)
    }
}

/// The general registers.
pub(crate) fn put_general(
    line: &mut Vec<u8>,
    before: &[u64; 16],
    after: &[u64; 16],
) -> Result<(), AllocError>
    ensures { OnOk result (line.new.items ≡ line.old.items ++ changes_text (general_changes 0 before.now after.now)) }
{
    for number in 0..16 {
        put_register(line, number, before[number], after[number])?;
    }
    Ok(())
}

/// The name of a flag, by its number among those that have names.
#[tactic(auto, unfolding(crate::specs::StepTexts::flag_names))]
fn flag_name(number: usize) -> &'static str
    requires { number < 8 }
    ensures { result.now ≡ slice_index_or flag_names (slice_index named_flags number) [] }
{
    FLAGS[number].0
}

/// The place of a flag in RFLAGS.
fn flag_place(number: usize) -> u8
    requires { number < 8 }
    ensures place { result ≡ slice_index named_flags number }
    ensures bound { result < 64 }
{
    FLAGS[number].1
}

/// One of the flags that have names.
fn put_flag_change(
    line: &mut Vec<u8>,
    number: usize,
    before: u64,
    after: u64,
) -> Result<(), AllocError>
    requires { number < 8 }
    ensures { OnOk result (line.new.items ≡ line.old.items
        ++ changes_text (where_so
        (differ (bit before (slice_index named_flags number)) (bit after (slice_index named_flags number)))
        (Flag (slice_index named_flags number) (bit after (slice_index named_flags number))))) }
{
    let is_set = bit(after, flag_place(number));
    if bit(before, flag_place(number)) == is_set {
        return Ok(());
    }
    put_text(line, "; ")?;
    put_text(line, flag_name(number))?;
    put_flag(line, is_set)
}

/// The flags that have names.
fn put_named_flags(line: &mut Vec<u8>, before: u64, after: u64) -> Result<(), AllocError>
    ensures { OnOk result (line.new.items ≡ line.old.items ++ changes_text (flag_changes named_flags before after)) }
{
    for number in 0..8 {
        put_flag_change(line, number, before, after)?;
    }
    Ok(())
}

/// The word of flags with those that have names clear.
fn cleared(word: u64) -> u64
    ensures { result ≡ cleared named_flags word }
{
    let mut others = with_flag(word, 11, false);
    others = with_flag(others, 10, false);
    others = with_flag(others, 9, false);
    others = with_flag(others, 7, false);
    others = with_flag(others, 6, false);
    others = with_flag(others, 4, false);
    others = with_flag(others, 2, false);
    with_flag(others, 0, false)
}

/// The whole word of flags, where another bit of it changed.
fn put_word(line: &mut Vec<u8>, before: u64, after: u64) -> Result<(), AllocError>
    ensures { OnOk result (line.new.items ≡ line.old.items
        ++ changes_text (where_so (not (cleared named_flags before == cleared named_flags after)) (Flags after))) }
{
    if cleared(before) == cleared(after) {
        Ok(())
    } else {
        put_number(line, "flags", after)
    }
}

/// The flags, and the word where another bit of it changed.
pub(crate) fn put_flags(line: &mut Vec<u8>, before: u64, after: u64) -> Result<(), AllocError>
    ensures { OnOk result (line.new.items ≡ line.old.items
        ++ changes_text (flag_changes named_flags before after
        ++ where_so (not (cleared named_flags before == cleared named_flags after)) (Flags after))) }
{
    put_named_flags(line, before, after)?;
    put_word(line, before, after)
}

/// The CPL.
fn put_level(line: &mut Vec<u8>, before: u8, after: u8) -> Result<(), AllocError>
    ensures { OnOk result (line.new.items ≡ line.old.items
        ++ changes_text (where_so (not (before == after)) (Privilege after))) }
{
    if before == after {
        return Ok(());
    }
    put_text(line, "; cpl ")?;
    put_decimal(line, u64::from(after))
}

/// SS.
fn put_stack(line: &mut Vec<u8>, before: u16, after: u16) -> Result<(), AllocError>
    ensures { OnOk result (line.new.items ≡ line.old.items
        ++ changes_text (where_so (not (before == after)) (Stack after))) }
{
    if before == after {
        return Ok(());
    }
    put_text(line, "; ss ")?;
    put_4(line, after)
}

/// The CPL and SS.
pub(crate) fn put_privilege(
    line: &mut Vec<u8>,
    before: &Regs,
    after: &Regs,
) -> Result<(), AllocError>
    ensures { OnOk result (line.new.items ≡ line.old.items
        ++ changes_text (where_so (not (before.now.cpl == after.now.cpl)) (Privilege after.now.cpl)
        ++ where_so (not (before.now.ss == after.now.ss)) (Stack after.now.ss))) }
{
    put_level(line, before.cpl, after.cpl)?;
    put_stack(line, before.ss, after.ss)
}

/// A control register, by its number, where it changed.
fn put_control_register(
    line: &mut Vec<u8>,
    number: u64,
    is_changed: bool,
    after: u64,
) -> Result<(), AllocError>
    ensures { OnOk result (line.new.items ≡ line.old.items
        ++ changes_text (where_so is_changed (ControlRegister number after))) }
{
    if !is_changed {
        return Ok(());
    }
    put_text(line, "; cr")?;
    put_decimal(line, number)?;
    put_text(line, " ")?;
    put_16(line, after)
}

/// The control registers.
pub(crate) fn put_control(
    line: &mut Vec<u8>,
    before: &Control,
    after: &Control,
) -> Result<(), AllocError>
    ensures { OnOk result (line.new.items ≡ line.old.items ++ changes_text (control_changes before.now after.now)) }
{
    put_control_register(line, 0, before.cr0 != after.cr0, after.cr0)?;
    put_control_register(line, 2, before.cr2 != after.cr2, after.cr2)?;
    put_control_register(
        line,
        3,
        before.root != after.root,
        4096 * u64::from(after.root),
    )?;
    put_control_register(line, 4, before.cr4 != after.cr4, after.cr4)
}

/// The general registers, the flags, the CPL and SS.
pub(crate) fn put_registers(
    line: &mut Vec<u8>,
    before: &Regs,
    after: &Regs,
) -> Result<(), AllocError>
    ensures { OnOk result (line.new.items ≡ line.old.items
        ++ changes_text (general_changes 0 before.now.general after.now.general
        ++ (flag_changes named_flags before.now.flags after.now.flags
        ++ (where_so (not (cleared named_flags before.now.flags == cleared named_flags after.now.flags))
        (Flags after.now.flags)
        ++ (where_so (not (before.now.cpl == after.now.cpl)) (Privilege after.now.cpl)
        ++ where_so (not (before.now.ss == after.now.ss)) (Stack after.now.ss)))))) }
{
    put_general(line, &before.general, &after.general)?;
    put_flags(line, before.flags, after.flags)?;
    put_privilege(line, before, after)
}
