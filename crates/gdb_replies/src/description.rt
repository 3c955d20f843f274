//! The features that are served, and the description of the registers (GDB's manual, appendix G).

ghost use Rattle.std.specs.Prelude.{◌≡◌, ◌++◌, OnOk, codes, decimal};
ghost use Rattle.gdb_replies.specs.Descriptions.{attribute, core_feature, core_head, description_text, features_text, field_text, flags_head, flags_register, flags_text, four_registers, general_registers, high_flags, middle_flags, place_registers, register_element, status_flags, system_feature, system_registers, target_head, two_registers, unit_registers};

use std::alloc::AllocError;
use step_trace::{put_decimal, put_text};

/// Puts which features are served: packets of 4,096 bytes, the description, and moves backwards.
#[tactic(auto, unfolding(crate::specs::Descriptions::features_text))]
pub fn put_features(text: &mut Vec<u8>) -> Result<(), AllocError>
    ensures { OnOk result (text.new.items ≡ text.old.items ++ features_text) }
{
    put_text(text, "PacketSize=1000;qXfer:features:read+;ReverseStep+;")?;
    put_text(text, "ReverseContinue+;swbreak+;hwbreak+")
}

/// An attribute of an element.
#[tactic(auto, unfolding(crate::specs::Descriptions::attribute))]
fn put_attribute(text: &mut Vec<u8>, name: &str, value: &str) -> Result<(), AllocError>
    ensures { OnOk result (text.new.items ≡ text.old.items ++ attribute name.now value.now) }
{
    put_text(text, " ")?;
    put_text(text, name)?;
    put_text(text, "='")?;
    put_text(text, value)?;
    put_text(text, "'")
}

/// An attribute that is a number.
#[tactic(auto, unfolding(crate::specs::Descriptions::attribute))]
fn put_number(text: &mut Vec<u8>, name: &str, number: u64) -> Result<(), AllocError>
    ensures { OnOk result (text.new.items ≡ text.old.items ++ attribute name.now (decimal number)) }
{
    put_text(text, " ")?;
    put_text(text, name)?;
    put_text(text, "='")?;
    put_decimal(text, number)?;
    put_text(text, "'")
}

/// A flag of EFLAGS, with its bit (SDM volume 1, 3.4.3).
#[tactic(auto, unfolding(crate::specs::Descriptions::field_text))]
fn put_field(text: &mut Vec<u8>, name: &str, bit: u64) -> Result<(), AllocError>
    ensures { OnOk result (text.new.items ≡ text.old.items ++ field_text name.now bit) }
{
    put_text(text, "<field")?;
    put_attribute(text, "name", name)?;
    put_number(text, "start", bit)?;
    put_number(text, "end", bit)?;
    put_text(text, "/>")
}

/// A register, with its bits, and its type in GDB's words.
#[tactic(auto, unfolding(crate::specs::Descriptions::register_element))]
fn put_register(text: &mut Vec<u8>, name: &str, bits: u64, kind: &str) -> Result<(), AllocError>
    ensures { OnOk result (text.new.items ≡ text.old.items ++ register_element bits kind.now name.now) }
{
    put_text(text, "<reg")?;
    put_attribute(text, "name", name)?;
    put_number(text, "bitsize", bits)?;
    put_attribute(text, "type", kind)?;
    put_text(text, "/>")
}

/// Two registers of one size and type.
#[tactic(auto, unfolding(crate::specs::Descriptions::two_registers))]
fn put_two(text: &mut Vec<u8>, bits: u64, kind: &str, a: &str, b: &str) -> Result<(), AllocError>
    ensures { OnOk result (text.new.items ≡ text.old.items ++ two_registers bits kind.now a.now b.now) }
{
    put_register(text, a, bits, kind)?;
    put_register(text, b, bits, kind)
}

/// Four of them.
#[tactic(auto, unfolding(crate::specs::Descriptions::four_registers))]
fn put_four(
    text: &mut Vec<u8>,
    bits: u64,
    kind: &str,
    a: &str,
    b: &str,
    c: &str,
    d: &str,
) -> Result<(), AllocError>
    ensures { OnOk result (text.new.items ≡ text.old.items ++ four_registers bits kind.now a.now b.now c.now d.now) }
{
    put_two(text, bits, kind, a, b)?;
    put_two(text, bits, kind, c, d)
}

/// The flags below bit 8.
#[tactic(auto, unfolding(crate::specs::Descriptions::status_flags))]
fn put_status_flags(text: &mut Vec<u8>) -> Result<(), AllocError>
    ensures { OnOk result (text.new.items ≡ text.old.items ++ status_flags) }
{
    put_field(text, "CF", 0)?;
    put_field(text, "PF", 2)?;
    put_field(text, "AF", 4)?;
    put_field(text, "ZF", 6)?;
    put_field(text, "SF", 7)
}

/// The flags from bit 8 on.
#[tactic(auto, unfolding(crate::specs::Descriptions::middle_flags))]
fn put_middle_flags(text: &mut Vec<u8>) -> Result<(), AllocError>
    ensures { OnOk result (text.new.items ≡ text.old.items ++ middle_flags) }
{
    put_field(text, "TF", 8)?;
    put_field(text, "IF", 9)?;
    put_field(text, "DF", 10)?;
    put_field(text, "OF", 11)
}

/// The flags from bit 14 on.
#[tactic(auto, unfolding(crate::specs::Descriptions::high_flags))]
fn put_high_flags(text: &mut Vec<u8>) -> Result<(), AllocError>
    ensures { OnOk result (text.new.items ≡ text.old.items ++ high_flags) }
{
    put_field(text, "NT", 14)?;
    put_field(text, "RF", 16)?;
    put_field(text, "VM", 17)?;
    put_field(text, "AC", 18)
}

/// The head of the flags.
#[tactic(auto, unfolding(crate::specs::Descriptions::flags_head))]
fn put_flags_head(text: &mut Vec<u8>) -> Result<(), AllocError>
    ensures { OnOk result (text.new.items ≡ text.old.items ++ flags_head) }
{
    put_text(text, "<flags id='i386_eflags' size='4'>")
}

/// EFLAGS.
#[tactic(auto, unfolding(crate::specs::Descriptions::flags_text))]
fn put_flags(text: &mut Vec<u8>) -> Result<(), AllocError>
    ensures { OnOk result (text.new.items ≡ text.old.items ++ flags_text) }
{
    put_flags_head(text)?;
    put_status_flags(text)?;
    put_middle_flags(text)?;
    put_high_flags(text)?;
    put_text(text, "</flags>")
}

/// The general registers.
#[tactic(auto, unfolding(crate::specs::Descriptions::general_registers))]
fn put_general_registers(text: &mut Vec<u8>) -> Result<(), AllocError>
    ensures { OnOk result (text.new.items ≡ text.old.items ++ general_registers) }
{
    put_four(text, 64, "int64", "rax", "rbx", "rcx", "rdx")?;
    put_two(text, 64, "int64", "rsi", "rdi")?;
    put_two(text, 64, "data_ptr", "rbp", "rsp")?;
    put_four(text, 64, "int64", "r8", "r9", "r10", "r11")?;
    put_four(text, 64, "int64", "r12", "r13", "r14", "r15")
}

/// EFLAGS as a register.
#[tactic(auto, unfolding(crate::specs::Descriptions::flags_register))]
fn put_flags_register(text: &mut Vec<u8>) -> Result<(), AllocError>
    ensures { OnOk result (text.new.items ≡ text.old.items ++ flags_register) }
{
    put_register(text, "eflags", 32, "i386_eflags")
}

/// RIP, EFLAGS and the selectors.
#[tactic(auto, unfolding(crate::specs::Descriptions::place_registers))]
fn put_place_registers(text: &mut Vec<u8>) -> Result<(), AllocError>
    ensures { OnOk result (text.new.items ≡ text.old.items ++ place_registers) }
{
    put_register(text, "rip", 64, "code_ptr")?;
    put_flags_register(text)?;
    put_four(text, 32, "int32", "cs", "ss", "ds", "es")?;
    put_two(text, 32, "int32", "fs", "gs")
}

/// The floating-point unit's registers.
#[tactic(auto, unfolding(crate::specs::Descriptions::unit_registers))]
fn put_unit_registers(text: &mut Vec<u8>) -> Result<(), AllocError>
    ensures { OnOk result (text.new.items ≡ text.old.items ++ unit_registers) }
{
    put_four(text, 80, "i387_ext", "st0", "st1", "st2", "st3")?;
    put_four(text, 80, "i387_ext", "st4", "st5", "st6", "st7")?;
    put_four(text, 32, "int", "fctrl", "fstat", "ftag", "fiseg")?;
    put_four(text, 32, "int", "fioff", "foseg", "fooff", "fop")
}

/// What this machine has beside them.
#[tactic(auto, unfolding(crate::specs::Descriptions::system_registers))]
fn put_system_registers(text: &mut Vec<u8>) -> Result<(), AllocError>
    ensures { OnOk result (text.new.items ≡ text.old.items ++ system_registers) }
{
    put_four(text, 64, "int64", "cr0", "cr2", "cr3", "cr4")?;
    put_register(text, "cpl", 64, "int64")?;
    put_two(text, 64, "int64", "turn", "step")
}

/// The head of GDB's feature for this processor.
#[tactic(auto, unfolding(crate::specs::Descriptions::core_head))]
fn put_core_head(text: &mut Vec<u8>) -> Result<(), AllocError>
    ensures { OnOk result (text.new.items ≡ text.old.items ++ core_head) }
{
    put_text(text, "<feature name='org.gnu.gdb.i386.core'>")
}

/// GDB's feature for this processor.
#[tactic(auto, unfolding(crate::specs::Descriptions::core_feature))]
fn put_core_feature(text: &mut Vec<u8>) -> Result<(), AllocError>
    ensures { OnOk result (text.new.items ≡ text.old.items ++ core_feature) }
{
    put_core_head(text)?;
    put_flags(text)?;
    put_general_registers(text)?;
    put_place_registers(text)?;
    put_unit_registers(text)?;
    put_text(text, "</feature>")
}

/// The feature of what this machine has beside it.
#[tactic(auto, unfolding(crate::specs::Descriptions::system_feature))]
fn put_system_feature(text: &mut Vec<u8>) -> Result<(), AllocError>
    ensures { OnOk result (text.new.items ≡ text.old.items ++ system_feature) }
{
    put_text(text, "<feature name='org.nkrun.system'>")?;
    put_system_registers(text)?;
    put_text(text, "</feature>")
}

/// The head of the description.
#[tactic(auto, unfolding(crate::specs::Descriptions::target_head))]
fn put_target_head(text: &mut Vec<u8>) -> Result<(), AllocError>
    ensures { OnOk result (text.new.items ≡ text.old.items ++ target_head) }
{
    put_text(
        text,
        "<?xml version='1.0'?><!DOCTYPE target SYSTEM 'gdb-target.dtd'>",
    )?;
    put_text(
        text,
        "<target version='1.0'><architecture>i386:x86-64</architecture>",
    )
}

/// Puts the description of the registers.
#[tactic(auto, unfolding(crate::specs::Descriptions::description_text))]
pub fn put_description(text: &mut Vec<u8>) -> Result<(), AllocError>
    ensures { OnOk result (text.new.items ≡ text.old.items ++ description_text) }
{
    put_target_head(text)?;
    put_core_feature(text)?;
    put_system_feature(text)?;
    put_text(text, "</target>")
}
