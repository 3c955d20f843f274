//! The conditions under which an operation faults, whatever its operands hold.

ghost use Rattle.std.specs.Prelude.{◌≡◌};
ghost use Rattle.x86_decode.specs.Conditions.{conditions_of};

use crate::operation::Op;

/// Where an operation raises #UD though bytes spell it.
#[derive(Clone, Copy, Debug, PartialEq, Eq)]
pub enum UndefinedWhere {
    Nowhere,

    /// At either CPL.
    Everywhere,

    /// With an operand size of 16 bits, at either CPL.
    AtWidth16,

    /// At CPL 0; above, it raises #GP(0).
    AtCpl0,
}

/// When an operation faults.
#[derive(Clone, Copy, Debug, PartialEq, Eq)]
pub struct Conditions {
    /// Whether LOCK may stand before it where its first operand is a place in memory; elsewhere LOCK raises #UD.
    pub takes_lock: bool,

    /// Whether it raises #GP(0) above CPL 0.
    pub needs_cpl_0: bool,

    /// Where it raises #UD.
    pub undefined: UndefinedWhere,

    /// Whether its encodings are protected: those that the scan of outer code refuses.
    pub is_protected: bool,
}

/// No condition: it may not be locked, runs at each CPL, and loads nothing that is protected.
const PLAIN: Conditions = Conditions {
    takes_lock: false,
    needs_cpl_0: false,
    undefined: UndefinedWhere::Nowhere,
    is_protected: false,
};

/// LOCK may stand before it.
const LOCKABLE: Conditions = Conditions {
    takes_lock: true,
    needs_cpl_0: false,
    undefined: UndefinedWhere::Nowhere,
    is_protected: false,
};

/// It has no operand size of 16 bits.
const WIDE: Conditions = Conditions {
    takes_lock: false,
    needs_cpl_0: false,
    undefined: UndefinedWhere::AtWidth16,
    is_protected: false,
};

/// It always raises #UD.
const UNDEFINED: Conditions = Conditions {
    takes_lock: false,
    needs_cpl_0: false,
    undefined: UndefinedWhere::Everywhere,
    is_protected: false,
};

/// It runs at CPL 0 alone.
const PRIVILEGED: Conditions = Conditions {
    takes_lock: false,
    needs_cpl_0: true,
    undefined: UndefinedWhere::Nowhere,
    is_protected: false,
};

/// And it loads what the scan protects.
const PROTECTED: Conditions = Conditions {
    takes_lock: false,
    needs_cpl_0: true,
    undefined: UndefinedWhere::Nowhere,
    is_protected: true,
};

/// And this machine has it in the table of opcodes alone.
const SPELLED: Conditions = Conditions {
    takes_lock: false,
    needs_cpl_0: true,
    undefined: UndefinedWhere::AtCpl0,
    is_protected: true,
};

/// The conditions of an operation, from the pages of the SDM, volume 2.
pub fn conditions_of(op: Op) -> Conditions
    ensures { result ≡ conditions_of op }
{
    match op {
        Op::Add | Op::Or | Op::Adc | Op::Sbb | Op::And | Op::Sub | Op::Xor => LOCKABLE,
        Op::Not | Op::Neg | Op::Inc | Op::Dec => LOCKABLE,
        Op::Bts | Op::Btr | Op::Btc => LOCKABLE,
        Op::Xchg | Op::Xadd | Op::Cmpxchg => LOCKABLE,
        Op::Pushfq | Op::Popfq => WIDE,
        Op::Ud2 => UNDEFINED,
        Op::Cli | Op::Sti | Op::Hlt | Op::In | Op::Out => PRIVILEGED,
        Op::Movfc | Op::Invlpg => PRIVILEGED,
        Op::Movtc | Op::Lidt => PROTECTED,
        Op::Movtd | Op::Wrmsr | Op::Lldt | Op::Ltr | Op::Lgdt | Op::Lmsw => SPELLED,
        _ => PLAIN,
    }
}
