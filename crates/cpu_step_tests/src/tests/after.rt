//! What a turn leaves, told by what it leaves otherwise than it was.

use cpu_step::Stepped;
use nk_bits::{Control, Delivery};
use x86_regs::{RSP, Regs, Tables, with_register};

/// The number of RBX.
pub(super) const RBX: u8 = 3;

pub(super) const CONTROL: Control = Control {
    cr0: 0x8001_0001,
    ..memory_kit::CONTROL
};

/// The last gate is that of vector 47.
pub(super) const TABLES: Tables = Tables {
    idt: 0x8000,
    limit: 767,
    tss: 0x8400,
};

/// RAX 41, RCX 3, RDX 10, RBX 1010, RSP 1800, RSI 1100, RDI 1200, at address 0 and CPL 0.
const REGS: Regs = Regs {
    general: [
        0x41, 3, 0x10, 0x1010, 0x1800, 0, 0x1100, 0x1200, 0, 0, 0, 0, 0, 0, 0, 0,
    ],
    rip: 0,
    flags: 2,
    cpl: 0,
    ss: 0x10,
};

/// The same at address 6000 and CPL 3, with RSP 7800 and IF set.
const USER: Regs = Regs {
    general: [
        0x41, 3, 0x10, 0x1010, 0x7800, 0, 0x1100, 0x1200, 0, 0, 0, 0, 0, 0, 0, 0,
    ],
    rip: 0x6000,
    flags: 0x202,
    cpl: 3,
    ss: 0x23,
};

/// Whose registers a case begins with.
#[derive(Clone, Copy)]
pub(super) enum Start {
    Supervisor,
    User,
    /// The supervisor's but for these.
    SupervisorBut(&'static [Change]),
    /// The user's but for these.
    UserBut(&'static [Change]),
}

/// What a turn leaves.
#[derive(Clone, Copy, PartialEq, Eq)]
pub(super) struct After {
    pub(super) stepped: Stepped,
    pub(super) regs: Regs,
    pub(super) control: Control,
    pub(super) tables: Tables,
    pub(super) shielded: bool,
    pub(super) halted: bool,
    /// The six numbers at the top of the trap stack, the lowest first.
    pub(super) frame: [u64; 6],
}

/// What is otherwise than before.
#[derive(Clone, Copy)]
pub(super) enum Change {
    /// A general register, by the number of its encoding.
    Register(u8, u64),
    Rip(u64),
    Flags(u64),
    Cpl(u8),
    Ss(u16),
    Cr0(u64),
    Cr2(u64),
    /// The frame of CR3.
    Root(u32),
    Cr4(u64),
    /// The base and the limit of the table of gates.
    Gates(u64, u16),
    Shielded,
    Halted,
}

/// What a turn shows and leaves.
#[derive(Clone, Copy)]
pub(super) enum Leaves {
    /// The instruction ran, and the next one stands at this address.
    Ran(u64),
    /// The same, and these changed.
    Changed(u64, &'static [Change]),
    /// It ran and wrote a byte to the console; the next one stands at this address.
    Console(u8, u64),
    /// A vector was delivered with its code, and returns to where the turn began.
    Delivered(u8, Option<u64>),
    /// A vector was delivered without a code, and returns to this address.
    Trapped(u8, u64),
    /// A page fault was delivered with this code, and CR2 has this address.
    PageFault(u64, u64),
    /// The machine shut down; these changed.
    Shutdown(&'static [Change]),
    /// All that is left, told in full.
    Exactly(After),
}

/// What stands before the first turn.
pub(super) fn begun(start: &Start) -> After {
    match start {
        Start::Supervisor => begun_with(&REGS, &[]),
        Start::User => begun_with(&USER, &[]),
        Start::SupervisorBut(changes) => begun_with(&REGS, changes),
        Start::UserBut(changes) => begun_with(&USER, changes),
    }
}

fn begun_with(regs: &Regs, changes: &[Change]) -> After {
    let after = After {
        stepped: Stepped::Ran,
        regs: *regs,
        control: CONTROL,
        tables: TABLES,
        shielded: false,
        halted: false,
        frame: [0; 6],
    };
    changed(&after, changes)
}

/// What stands after these changes.
pub(super) fn changed(before: &After, changes: &[Change]) -> After {
    let mut after = *before;
    for change in changes {
        set(&mut after, change);
    }
    after
}

/// Makes one change.
pub(super) fn set(after: &mut After, change: &Change) {
    match *change {
        Change::Register(number, value) => {
            if number < 16 {
                after.regs.general[number as usize] = value;
            }
        }
        Change::Rip(rip) => after.regs.rip = rip,
        Change::Flags(flags) => after.regs.flags = flags,
        Change::Cpl(cpl) => after.regs.cpl = cpl,
        Change::Ss(ss) => after.regs.ss = ss,
        Change::Cr0(cr0) => after.control.cr0 = cr0,
        Change::Cr2(cr2) => after.control.cr2 = cr2,
        Change::Root(root) => after.control.root = root,
        Change::Cr4(cr4) => after.control.cr4 = cr4,
        Change::Gates(idt, limit) => {
            after.tables.idt = idt;
            after.tables.limit = limit;
        }
        Change::Shielded => after.shielded = true,
        Change::Halted => after.halted = true,
    }
}

/// What a turn leaves that begins here.
pub(super) fn left(before: &After, leaves: &Leaves) -> After {
    match leaves {
        Leaves::Ran(rip) => ran(before, *rip),
        Leaves::Changed(rip, changes) => changed(&ran(before, *rip), changes),
        Leaves::Console(byte, rip) => After {
            stepped: Stepped::Console(*byte),
            ..ran(before, *rip)
        },
        Leaves::Delivered(vector, code) => delivered(before, *vector, *code, before.regs.rip),
        Leaves::Trapped(vector, rip) => delivered(before, *vector, None, *rip),
        Leaves::PageFault(code, address) => page_fault(before, *code, *address),
        Leaves::Shutdown(changes) => {
            let shut = After {
                stepped: Stepped::Shutdown,
                ..*before
            };
            changed(&shut, changes)
        }
        Leaves::Exactly(after) => *after,
    }
}

/// The instruction ran, and the next one stands at `rip`.
fn ran(before: &After, rip: u64) -> After {
    After {
        stepped: Stepped::Ran,
        regs: Regs { rip, ..before.regs },
        shielded: false,
        halted: false,
        ..*before
    }
}

/// A vector was delivered that returns to `rip`: SS, RSP, RFLAGS, CS, RIP and the code stand on the trap stack, and the
/// handler begins at CPL 0 with IF clear.
fn delivered(before: &After, vector: u8, code: Option<u64>, rip: u64) -> After {
    let from = before.regs;
    let at_user = from.cpl == 3;
    let rsp = if code.is_some() { 0x9FD0 } else { 0x9FD8 };
    let handler = Regs {
        general: with_register(&from.general, RSP, rsp),
        rip: 0x3000 + 0x10 * u64::from(vector),
        flags: from.flags & !0x200,
        cpl: 0,
        ss: if at_user { 0 } else { from.ss },
    };
    After {
        stepped: Stepped::Delivered(Delivery {
            vector,
            code,
            rip,
            cr2: None,
        }),
        regs: handler,
        shielded: false,
        halted: false,
        frame: [
            code.unwrap_or(before.frame[0]),
            rip,
            if at_user { 0x1B } else { 8 },
            from.flags,
            from.general[4],
            u64::from(from.ss),
        ],
        ..*before
    }
}

/// A page fault was delivered, and CR2 has its address.
fn page_fault(before: &After, code: u64, address: u64) -> After {
    let rip = before.regs.rip;
    After {
        stepped: Stepped::Delivered(Delivery {
            vector: 14,
            code: Some(code),
            rip,
            cr2: Some(address),
        }),
        control: Control {
            cr2: address,
            ..before.control
        },
        ..delivered(before, 14, Some(code), rip)
    }
}
