//! An outer kernel that jumps to each byte of the gates, one jump after the other: its handler of traps makes the next one.

use super::{NOTHING, Ran, advanced, begun, ended, program, seen_in};
use boot_map::Layout;
use gate_state::{Machine, OuterMachine};
use irq_plan::Plan;
use std::alloc::{AllocError, Global};
use test_kit::first_wrong;

/// The program names 22 its handler, by call 1, and goes on there. From 22 on it lets an interrupt come that waits, reads a
/// jump and makes it, with R10 and RSP at a frame by which POPFQ and RET lead back to 22; it halts at 61 where no jump is
/// left.
#[rattlefmt::skip]
const ATTACKER: [u8; 98] = [
    0x48, 0xBC, 0x00, 0x80, 0x04, 0x00, 0x00, 0x80, 0xFF, 0xFF, // 00 mov rsp, FFFF800000048000
    0xBF, 0x01, 0x00, 0x00, 0x00,                               // 0A mov edi, 1
    0x48, 0xC7, 0xC6, 0x22, 0x00, 0x00, 0x80,                   // 0F mov rsi, FFFFFFFF80000022
    0x48, 0xB8, 0x00, 0x10, 0x00, 0x00, 0x80, 0xFF, 0xFF, 0xFF, // 16 mov rax, FFFFFF8000001000
    0xFF, 0xD0,                                                 // 20 call rax
    0xFB,                                                       // 22 sti
    0x90,                                                       // 23 nop
    0xFA,                                                       // 24 cli
    0x48, 0xBC, 0x00, 0x80, 0x04, 0x00, 0x00, 0x80, 0xFF, 0xFF, // 25 mov rsp, FFFF800000048000
    0x68, 0x22, 0x00, 0x00, 0x80,                               // 2F push FFFFFFFF80000022
    0x6A, 0x02,                                                 // 34 push 2
    0x49, 0x89, 0xE2,                                           // 36 mov r10, rsp
    0x48, 0xB9, 0x00, 0x10, 0x00, 0x00, 0x80, 0xFF, 0xFF, 0xFF, // 39 mov rcx, FFFFFF8000001000
    0xE4, 0xEB,                                                 // 43 in al, EB
    0x84, 0xC0,                                                 // 45 test al, al
    0x74, 0x18,                                                 // 47 jz 61
    0xE4, 0xEA,                                                 // 49 in al, EA
    0x88, 0xC1,                                                 // 4B mov cl, al
    0xE4, 0xEA,                                                 // 4D in al, EA
    0x88, 0xC5,                                                 // 4F mov ch, al
    0xE4, 0xEA,                                                 // 51 in al, EA
    0x0F, 0xB6, 0xC0,                                           // 53 movzx eax, al
    0xC1, 0xE0, 0x10,                                           // 56 shl eax, 16
    0x0D, 0x01, 0x00, 0x00, 0x80,                               // 59 or eax, 80000001
    0x90,                                                       // 5E nop, or sti
    0xFF, 0xE1,                                                 // 5F jmp rcx
    0xF4,                                                       // 61 hlt
];

/// Where the jumps are read and made, and where the machine rests.
const HANDLER: u64 = 0xFFFF_FFFF_8000_0022;

const JUMP: u64 = 0xFFFF_FFFF_8000_005F;

const REST: u64 = 0xFFFF_FFFF_8000_0062;

/// The program, with IF clear or set at its jumps.
fn attacker(sets_if: bool) -> [u8; 98] {
    let mut text = ATTACKER;
    if sets_if {
        text[0x5E] = 0xFB;
    }
    text
}

/// How many jumps are made, two to each offset below 512 but for the four from which the halt loop is reached: 474 and 475,
/// 469 (and eax, E26; hlt) and 473 (add ah, dh; jmp 474).
const JUMPS: u32 = 1016;

const HALTING: [u16; 4] = [469, 473, 474, 475];

/// What the program reads for them: the low 16 bits of an address, and whether WP is set in RAX, once each.
fn jumps(alloc: Global) -> Result<Vec<u8>, AllocError> {
    let mut list = Vec::new(alloc);
    for offset in 0..512u16 {
        if !HALTING.contains(&offset) {
            let [low, high] = (0x1000 + offset).to_le_bytes();
            list.extend_from_slice(&[low, high, 1, low, high, 0])?;
        }
    }
    Ok(list)
}

/// As many events as there are jumps, each at hand at any time.
fn interrupts(alloc: Global) -> Result<Vec<u8>, AllocError> {
    let mut text = Vec::new(alloc);
    for _ in 0..JUMPS {
        text.extend_from_slice(b"0 irq 33\n")?;
    }
    Ok(text)
}

/// The run of the program, in which an interrupt comes so many turns after each jump began, or none; with how many jumps
/// began.
fn attacked(start: OuterMachine, quiet: &Plan, irqs: &Plan, after: Option<u32>) -> (Ran, u32) {
    let mut log = NOTHING;
    let mut jumps = 0u32;
    let mut since = JUMPS;
    let mut machine = Machine::Outer(start);
    for _ in 0..60_000 {
        let (regs, _) = seen_in(&machine);
        since = since.saturating_add(1);
        if regs.rip == JUMP {
            since = 0;
            jumps = jumps.saturating_add(1);
        }
        let plan = if after == Some(since) { irqs } else { quiet };
        machine = advanced(machine, plan, &mut log);
    }
    (ended(machine, quiet, log), jumps)
}

/// As above, from the opening of the program on; None for want of memory.
fn attack(
    alloc: Global,
    sets_if: bool,
    plans: &[Plan; 2],
    after: Option<u32>,
) -> Option<(Ran, u32)> {
    let [quiet, irqs] = plans;
    let Some(image) = program(alloc, &attacker(sets_if)) else {
        return None;
    };
    let Ok(layout) = Layout::of(&image, 512) else {
        return None;
    };
    let Ok(input) = jumps(alloc) else {
        return None;
    };
    match begun(alloc, &image, &layout, input) {
        Some(machine) => Some(attacked(machine, quiet, irqs, after)),
        None => None,
    }
}

/// Whether with WP clear the machine always stood at a gate point, and the program came to its end by so many jumps.
fn came_through(ended: &Option<(Ran, u32)>, wanted: u32) -> bool {
    match ended {
        Some((ran, jumps)) => {
            ran.log.stood
                && *jumps == wanted
                && ran.regs.rip == REST
                && ran.trap == [HANDLER, HANDLER]
        }
        None => false,
    }
}

/// A plan in which no interrupt comes, and one of those at hand; None for want of memory.
fn plans(alloc: Global) -> Option<[Plan; 2]> {
    let Ok(text) = interrupts(alloc) else {
        return None;
    };
    let Ok(quiet) = Plan::read(alloc, b"") else {
        return None;
    };
    match Plan::read(alloc, &text) {
        Ok(irqs) => Some([quiet, irqs]),
        Err(_) => None,
    }
}

/// The place of the first run that doesn't come through: whether IF is set at the jumps, how many turns behind the beginning
/// of each an interrupt comes, and how many jumps there are.
fn wrong_run(alloc: Global, runs: &[(bool, Option<u32>, u32)]) -> Option<usize> {
    let Some(plans) = plans(alloc) else {
        return Some(runs.len());
    };
    first_wrong(runs, |(sets_if, after, jumps)| {
        came_through(&attack(alloc, *sets_if, &plans, *after), *jumps)
    })
}

/// With IF set an interrupt comes at the first byte, and behind up to six instructions; with IF clear it waits.
#[test]
fn each_byte_of_the_gates(rt: HostRuntime) {
    let runs = [
        (false, None, JUMPS),
        (true, None, JUMPS),
        (false, Some(1), JUMPS),
        (true, Some(1), JUMPS),
        (true, Some(2), JUMPS),
        (true, Some(3), JUMPS),
        (true, Some(4), JUMPS),
        (true, Some(5), JUMPS),
        (true, Some(6), JUMPS),
        (true, Some(7), JUMPS),
    ];
    assert_eq!(rt; wrong_run(rt.alloc(), &runs), None);
}

/// In the second run there is a jump more than is said of it.
#[test]
fn wrong_run_is_found(rt: HostRuntime) {
    let runs = [
        (false, None, JUMPS),
        (false, None, 1015),
        (true, None, JUMPS),
    ];
    assert_eq!(rt; wrong_run(rt.alloc(), &runs), Some(1));
}
