//! The ports at worked values, and every other port.

use port_bus::Ports;
use std::alloc::Global;
use test_kit::first_wrong;

/// What is done, and what it is to give.
#[derive(Clone, Copy)]
enum Step {
    /// IN from a port, and the byte.
    Take(u16, u8),
    /// OUT to a port of a byte, and the console's.
    Give(u16, u8, Option<u8>),
}

use Step::{Give, Take};

/// The index of the first step that gives something else over this input. Want of memory fails at 0.
fn wrong_step(alloc: Global, input: &[u8], steps: &[Step]) -> Option<usize> {
    let mut bytes = Vec::new(alloc);
    if bytes.extend_from_slice(input).is_err() {
        return Some(0);
    }
    let mut ports = Ports::new(bytes);
    first_wrong(steps, |step| is_met(&mut ports, step))
}

fn is_met(ports: &mut Ports, step: &Step) -> bool {
    match *step {
        Take(port, byte) => ports.take(port) == byte,
        Give(port, byte, console) => ports.give(port, byte) == console,
    }
}

/// An input, and steps over it.
type Case = (&'static [u8], &'static [Step]);

static CASES: [Case; 4] = [
    // Input is taken in order, to its end.
    (
        &[0x41, 0x00, 0xFF],
        &[
            Take(0xEB, 1),
            Take(0xEB, 1),
            Take(0xEA, 0x41),
            Take(0xEB, 1),
            Take(0xEB, 1),
            Take(0xEA, 0x00),
            Take(0xEB, 1),
            Take(0xEB, 1),
            Take(0xEA, 0xFF),
            Take(0xEB, 0),
            Take(0xEA, 0),
            Take(0xEB, 0),
            Take(0xEA, 0),
            Take(0xEB, 0),
            Take(0xEA, 0),
        ],
    ),
    // No input is at its end.
    (&[], &[Take(0xEB, 0), Take(0xEA, 0)]),
    // Other ports take no input.
    (
        &[0x41],
        &[
            Take(0, 0xFF),
            Take(0x20, 0xFF),
            Take(0x60, 0xFF),
            Take(0xE8, 0xFF),
            Take(0xE9, 0xFF),
            Take(0xEC, 0xFF),
            Take(0x1EA, 0xFF),
            Take(0xEA00, 0xFF),
            Take(0xFFEA, 0xFF),
            Take(0xFFFF, 0xFF),
            Take(0xEA, 0x41),
        ],
    ),
    // The console has one port.
    (
        &[0x41],
        &[
            Give(0xE9, 0, Some(0)),
            Give(0xE9, 0x0A, Some(0x0A)),
            Give(0xE9, 0xFF, Some(0xFF)),
            Give(0, 0x58, None),
            Give(0x80, 0x58, None),
            Give(0xE8, 0x58, None),
            Give(0xEA, 0x58, None),
            Give(0xEB, 0x58, None),
            Give(0x1E9, 0x58, None),
            Give(0xE900, 0x58, None),
            Give(0xFFFF, 0x58, None),
            Take(0xEA, 0x41),
        ],
    ),
];

#[test]
fn each_port_gives_its_own(rt: HostRuntime) {
    for (input, steps) in &CASES {
        assert!(rt; wrong_step(rt.alloc(), input, steps).is_none());
    }
}
