//! Descriptors as memory holds them after calls.

use super::Row;
use super::calls::{DECLARED, REFUSED, ROOTS, TABLE};
use super::cases::{Case, Found, Start, wrong_case};
use std::alloc::Global;

/// In 16,384 frames entry 511 of frame 163 maps the last frame.
const LAST: [(Row, u64); 6] = [
    ((2, 2, 16_383, 0), 5),
    ((3, 163, 511, 0x8000_0000_03FF_F021), 0),
    ((2, 2, 16_383, 0), 0),
    ((2, 2, 16_384, 0), 2),
    ((3, 16_383, 511, 0xA3027), 0),
    ((4, 163, 0, 0), 12),
];

/// In 65,536 frames, the most, entry 511 of frame 451 maps the last frame.
const MOST: [(Row, u64); 7] = [
    ((2, 1, 65_536, 0), 2),
    ((2, 1, 65_535, 0), 5),
    ((3, 451, 511, 0x8000_0000_0FFF_F021), 0),
    ((2, 2, 65_535, 0), 0),
    ((3, 65_535, 511, 0x1C_3027), 0),
    ((3, 65_536, 511, 0x1C_3027), 2),
    ((4, 451, 0, 0), 12),
];

/// Whether the calls are answered so in so many frames, and all descriptors are right behind them.
fn are_right(alloc: Global, frames: u32, calls: &[(Row, u64)]) -> bool {
    let case = Case {
        calls,
        found: &[Found::Descriptors],
    };
    wrong_case(alloc, Start::Opening(frames), &[case]).is_none()
}

#[test]
fn counts_and_bytes_are_those_of_the_tables(rt: HostRuntime) {
    for calls in [
        &TABLE[..0],
        &TABLE[..7],
        &TABLE[..],
        &ROOTS[..],
        &REFUSED[..],
        &DECLARED[..],
    ] {
        assert!(rt; are_right(rt.alloc(), 512, calls));
    }
    assert!(rt; are_right(rt.alloc(), 16_384, &LAST));
    assert!(rt; are_right(rt.alloc(), 65_536, &MOST));
}

/// Whether the descriptor at a place of the opening's memory of so many frames is that of a frame of data, which one leaf
/// names, a writable one, and no link.
fn is_loose_data(alloc: Global, frames: u32, at: u64) -> bool {
    let case = Case {
        calls: &[],
        found: &[
            Found::Number(at, 0x1_0000_0000),
            Found::Number(at.saturating_add(8), 0),
        ],
    };
    wrong_case(alloc, Start::Opening(frames), &[case]).is_none()
}

/// The last frame is data, which one leaf of the direct map names, a writable one, and no link. Its descriptor is the last
/// one: 16,384 frames have it from byte 4,080 of frame 127 on, one frame more from byte 0 of frame 128 on; 65,535 and 65,536
/// have it in frame 319, from byte 4,064 and from byte 4,080 on.
#[test]
fn the_last_frame_has_the_last_descriptor(rt: HostRuntime) {
    assert!(rt; is_loose_data(rt.alloc(), 16_384, 0x7_FFF0));
    assert!(rt; is_loose_data(rt.alloc(), 16_385, 0x8_0000));
    assert!(rt; is_loose_data(rt.alloc(), 65_535, 0x13_FFE0));
    assert!(rt; is_loose_data(rt.alloc(), 65_536, 0x13_FFF0));
}

/// The root after a new one was loaded is data, of no leaf but a read-only one; frame 71 is the root of level 4, which no
/// entry names; a new table of level 4 links frame 6 again; and a declared frame is guarded.
#[test]
fn bytes_after_calls(rt: HostRuntime) {
    let cases = [
        Case {
            calls: &ROOTS[..0],
            found: &[
                Found::Descriptor(5, 2, 4, 0),
                Found::Descriptor(6, 3, 0, 1),
                Found::Descriptor(64, 6, 0, 0),
            ],
        },
        Case {
            calls: &ROOTS[..2],
            found: &[
                Found::Descriptor(6, 3, 0, 2),
                Found::Descriptor(71, 2, 4, 0),
            ],
        },
        Case {
            calls: &ROOTS[..11],
            found: &[
                Found::Descriptor(5, 0, 0, 0),
                Found::Descriptor(6, 3, 0, 1),
                Found::Descriptor(68, 2, 3, 1),
            ],
        },
        Case {
            calls: &DECLARED,
            found: &[Found::Descriptor(71, 5, 0, 0)],
        },
    ];
    assert_eq!(rt; wrong_case(rt.alloc(), Start::Opening(512), &cases), None);
}
