//! INT3 and INT n (SDM volume 2, INT n/INTO/INT3/INT1; volume 3, 6.12.1.2). The code of #GP for the vector n is 8 n + 2.

use super::after::Change::{Cr2, Rip};
use super::after::Leaves::{Changed, Delivered, Exactly, Shutdown, Trapped};
use super::after::Start::{Supervisor, User};
use super::after::{After, CONTROL, TABLES};
use super::cases::Step::{Begins, Store, Turn};
use super::cases::{Row, Step, first_failing, wrong_row};
use cpu_step::Stepped;
use nk_bits::{Control, Delivery};
use x86_regs::Regs;

/// The gates of 3 and 47 are the user's too; the return is to the next instruction.
#[test]
fn allowed(rt: HostRuntime) {
    let rows: &[Row] = &[
        (Supervisor, b"\xCC", Trapped(3, 1)),
        (Supervisor, b"\xCD\x20", Trapped(32, 2)),
        (User, b"\xCC", Trapped(3, 0x6001)),
        (User, b"\xCD\x2F", Trapped(47, 0x6002)),
    ];
    assert_eq!(rt; wrong_row(rt.alloc(), rows), None);
}

/// INT 32 and INT 13 at CPL 3: #GP is delivered in their place, and RIP is theirs. INT 48 and INT 255, at either CPL; INT
/// 47 is the last within the limit. LOCK before INT3 raises #UD.
#[test]
fn refused(rt: HostRuntime) {
    let rows: &[Row] = &[
        (User, b"\xCD\x20", Delivered(13, Some(258))),
        (User, b"\xCD\x0D", Delivered(13, Some(106))),
        (Supervisor, b"\xCD\x30", Delivered(13, Some(386))),
        (User, b"\xCD\xFF", Delivered(13, Some(2042))),
        (Supervisor, b"\xCD\x2F", Trapped(47, 2)),
        (Supervisor, b"\xF0\xCC", Delivered(6, None)),
    ];
    assert_eq!(rt; wrong_row(rt.alloc(), rows), None);
}

/// What INT 14 leaves at address 3, where CR2 is 41.
const PAGE_FAULT_VECTOR: After = After {
    stepped: Stepped::Delivered(Delivery {
        vector: 14,
        code: None,
        rip: 5,
        cr2: Some(0x41),
    }),
    regs: Regs {
        general: [
            0x41, 3, 0x10, 0x1010, 0x9FD8, 0, 0x1100, 0x1200, 0, 0, 0, 0, 0, 0, 0, 0,
        ],
        rip: 0x30E0,
        flags: 2,
        cpl: 0,
        ss: 0x10,
    },
    control: Control {
        cr2: 0x41,
        ..CONTROL
    },
    tables: TABLES,
    shielded: false,
    halted: false,
    frame: [0, 5, 8, 2, 0x1800, 0x10],
};

/// mov cr2, rax; int 14: no code is pushed, and CR2 is shown as it stands. Then INT 34, whose gate isn't present, with RIP
/// at the next instruction already; and INT3 where the gates' page is absent, with RIP its own.
#[test]
fn page_fault_vector_and_absent_gates(rt: HostRuntime) {
    let steps: &[Step] = &[
        Begins(Supervisor, b"\x0F\x22\xD0\xCD\x0E"),
        Turn(Changed(3, &[Cr2(0x41)])),
        Turn(Exactly(PAGE_FAULT_VECTOR)),
        Begins(Supervisor, b"\xCD\x22"),
        Turn(Shutdown(&[Rip(2)])),
        Begins(Supervisor, b"\xCC"),
        Store(0x4040, &[0]),
        Turn(Shutdown(&[])),
    ];
    assert_eq!(rt; first_failing(rt.alloc(), steps), None);
}
