//! The status flags, kept apart: a flags word whose CF, PF, AF, ZF, SF and OF stand each as what it is read from, so that
//! an operation leaves them without packing them, and a condition asks for those alone that it names (SDM volume 1,
//! 3.4.3.1). What the word is, and what each operation makes of it, are the definitions of `x86_alu` and `x86_regs`.

mod arithmetic;
mod carries;
mod conditions;
mod parts;
mod shifts;
mod word;

pub use word::FlagParts;
