//! Single jumps into the gates' text, and one from CPL 3: what is delivered, and after how many turns the machine rests in
//! the halt loop, eleven after a delivery.

use super::cases::{Case, Due, Wanted, wrong_case};
use super::programs::Program;
use nk_bits::GATE;

/// CR0 as it is while the outer kernel runs, and the same with WP clear.
const WITH_WP: u32 = 0x8001_0001;

pub(super) const WITHOUT_WP: u32 = 0x8000_0001;

/// R10 is 0, from which 53 pops; RSP is FFFFFF8000004000, where the nested stack's page begins, which may be read: so 54
/// returns to 0.
#[rattlefmt::skip]
const FAULTS: [Case; 14] = [
    // With WP clear from 16 on the body is run, and the exit gate sets WP.
    (Program::Jump(false, 13, WITHOUT_WP), Due::Never, Wanted::PageFault(0, GATE + 53, 0, 27)),
    (Program::Jump(false, 8, WITH_WP), Due::Never, Wanted::PageFault(0, GATE + 53, 0, 28)),
    (Program::Jump(false, 2, WITH_WP), Due::Never, Wanted::PageFault(0x10, 0, 0, 32)),
    // With WP set the body's first push faults.
    (Program::Jump(false, 13, WITH_WP), Due::Never,
     Wanted::PageFault(3, GATE + 27, 0xFFFF_FF80_0000_4FF8, 19)),
    (Program::Jump(false, 27, WITH_WP), Due::Never,
     Wanted::PageFault(3, GATE + 27, 0xFFFF_FF80_0000_4FF8, 16)),
    // The exit gate turns once more where WP was cleared.
    (Program::Jump(false, 37, WITHOUT_WP), Due::Never, Wanted::PageFault(0, GATE + 53, 0, 26)),
    (Program::Jump(false, 37, WITH_WP), Due::Never, Wanted::PageFault(0, GATE + 53, 0, 21)),
    (Program::Jump(false, 54, WITH_WP), Due::Never, Wanted::PageFault(0x10, 0, 0, 17)),
    // PG is clear; PE is clear; NW is set and CD clear.
    (Program::Jump(false, 13, 1), Due::Never, Wanted::Fault(13, Some(0), GATE + 13, 16)),
    (Program::Jump(false, 37, 0x8000_0000), Due::Never, Wanted::Fault(13, Some(0), GATE + 37, 16)),
    (Program::Jump(false, 457, 0xA001_0001), Due::Never,
     Wanted::Fault(13, Some(0), GATE + 457, 16)),
    // INT3 between the gates, and behind them.
    (Program::Jump(false, 55, WITH_WP), Due::Never, Wanted::Fault(3, None, GATE + 56, 16)),
    (Program::Jump(false, 4095, WITH_WP), Due::Never, Wanted::Fault(3, None, GATE + 4096, 16)),
    // FF FF begins no spelling.
    (Program::Jump(false, 24, WITH_WP), Due::Never, Wanted::Fault(6, None, GATE + 24, 16)),
];

/// A jump that reaches the halt loop without a delivery.
#[rattlefmt::skip]
const HALTED: [Case; 8] = [
    (Program::Jump(false, 474, WITH_WP), Due::Never, Wanted::Halted(5)),
    (Program::Jump(false, 475, WITH_WP), Due::Never, Wanted::Halted(6)),
    // and eax, E26; add ah, dh and jmp 474.
    (Program::Jump(false, 469, WITH_WP), Due::Never, Wanted::Halted(6)),
    (Program::Jump(false, 473, WITH_WP), Due::Never, Wanted::Halted(7)),
    (Program::Jump(false, 448, WITH_WP), Due::Never, Wanted::Halted(13)),
    // The stub of vector 13. The trap gate turns once more where WP was cleared.
    (Program::Jump(false, 168, WITH_WP), Due::Never, Wanted::Halted(15)),
    (Program::Jump(false, 457, WITH_WP), Due::Never, Wanted::Halted(10)),
    (Program::Jump(false, 457, WITHOUT_WP), Due::Never, Wanted::Halted(15)),
];

/// IF is set, and WP is clear but at the first and in the last two.
#[rattlefmt::skip]
const INTERRUPTED: [Case; 14] = [
    (Program::Jump(true, 13, WITHOUT_WP), Due::After(4), Wanted::Interrupted(GATE + 13, 16)),
    (Program::Jump(true, 13, WITHOUT_WP), Due::After(5), Wanted::Interrupted(GATE + 16, 17)),
    (Program::Jump(true, 37, WITHOUT_WP), Due::After(5), Wanted::Interrupted(GATE + 40, 17)),
    (Program::Jump(true, 37, WITHOUT_WP), Due::After(6), Wanted::Interrupted(GATE + 45, 18)),
    (Program::Jump(true, 37, WITHOUT_WP), Due::After(7), Wanted::Interrupted(GATE + 29, 19)),
    (Program::Jump(true, 37, WITHOUT_WP), Due::After(8), Wanted::Interrupted(GATE + 32, 20)),
    (Program::Jump(true, 37, WITHOUT_WP), Due::After(9), Wanted::Interrupted(GATE + 37, 21)),
    (Program::Jump(true, 457, WITHOUT_WP), Due::After(5), Wanted::Interrupted(GATE + 460, 17)),
    (Program::Jump(true, 457, WITHOUT_WP), Due::After(6), Wanted::Interrupted(GATE + 465, 18)),
    (Program::Jump(true, 457, WITHOUT_WP), Due::After(7), Wanted::Interrupted(GATE + 449, 19)),
    (Program::Jump(true, 457, WITHOUT_WP), Due::After(8), Wanted::Interrupted(GATE + 452, 20)),
    (Program::Jump(true, 457, WITHOUT_WP), Due::After(9), Wanted::Interrupted(GATE + 457, 21)),
    (Program::Jump(true, 37, WITHOUT_WP), Due::After(10), Wanted::Interrupted(GATE + 40, 22)),
    (Program::Jump(true, 457, WITH_WP), Due::After(5), Wanted::Interrupted(GATE + 460, 17)),
];

/// The user may fetch nothing: at the gate, which is present, the code has bits 0, 2 and 4. IRETQ is the seventh turn. Then
/// RSP is no canonical address, a page table's, and an absent page's, in which PUSHFQ faults.
#[rattlefmt::skip]
const OTHERS: [Case; 5] = [
    (Program::ToUser, Due::Never, Wanted::PageFault(0x15, GATE, GATE, 19)),
    (Program::Stack(0x8000_0000_0000_0000), Due::Never, Wanted::Fault(12, Some(0), GATE, 15)),
    (Program::Stack(0x9000_0000_0000_0000), Due::Never, Wanted::Fault(12, Some(0), GATE, 15)),
    (Program::Stack(0xFFFF_8000_0000_5800), Due::Never,
     Wanted::PageFault(3, GATE, 0xFFFF_8000_0000_57F8, 15)),
    (Program::Stack(0x8000_0000_0000), Due::Never,
     Wanted::PageFault(2, GATE, 0x7FFF_FFFF_FFF8, 15)),
];

#[test]
fn jumps_into_the_gates(rt: HostRuntime) {
    assert_eq!(rt; wrong_case(rt.alloc(), 60, &FAULTS), None);
    assert_eq!(rt; wrong_case(rt.alloc(), 60, &HALTED), None);
    assert_eq!(rt; wrong_case(rt.alloc(), 60, &INTERRUPTED), None);
    assert_eq!(rt; wrong_case(rt.alloc(), 60, &OTHERS), None);
}

/// The jump to 475 takes a turn more than is said of it.
#[test]
fn wrong_jump_is_found(rt: HostRuntime) {
    let wrong = [
        (
            Program::Jump(false, 474, WITH_WP),
            Due::Never,
            Wanted::Halted(5),
        ),
        (
            Program::Jump(false, 475, WITH_WP),
            Due::Never,
            Wanted::Halted(5),
        ),
        (
            Program::Jump(false, 469, WITH_WP),
            Due::Never,
            Wanted::Halted(5),
        ),
    ];
    assert_eq!(rt; wrong_case(rt.alloc(), 60, &wrong), Some(1));
}
