//! The fields of an instruction around its opcode: prefixes, ModRM with SIB and displacement, and immediates. It meets
//! the grammar of `specs/`, which is that of the SDM, volume 2, 2.1 and 2.2.1. It looks at the bytes that it is given
//! and at nothing else; which opcodes there are, and what an instruction does, others say. Floor: words.

#![tactic(auto)]

mod place;

pub use place::{Address, Place};

mod parts;

pub use parts::{ModRm, Prefixes, Rep};

mod front;

pub use front::prefixes;

mod operand;

pub use operand::{
    modrm, names_register, needs_sib, reg_field, register_by_reg, register_by_rm, rm_field,
    size_of_displacement,
};

mod number;

pub use number::immediate;

mod law;

pub use law::{longer_law, prefixes_law};
