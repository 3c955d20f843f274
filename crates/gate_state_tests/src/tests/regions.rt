//! Regions through the gates: call 7 allocates one, and call 9 writes in it from a source that is read by the processor's
//! translations.

use super::cases::{Case, Due, HOME, Wanted, wrong_case};
use super::programs::Program;
use gate_state::Took;

/// The pool's first address.
const POOL: u64 = 0xFFFF_FF80_0001_0000;

/// Call 7 is the sixth turn. The region's identifier is 256, and it lies at the pool's beginning.
const ALLOCATED: [Case; 1] = [(
    Program::Write(HOME),
    Due::Never,
    Wanted::Allocated(256, POOL, 24),
)];

/// Rule 22 is that of a source of which a byte can't be read: the page behind it isn't mapped, the address isn't
/// canonical, or it wraps.
#[rattlefmt::skip]
const WRITTEN: [Case; 6] = [
    (Program::Write(HOME), Due::Never,
     Wanted::Written(Took::Taken, [0x48, 0xBC, 0x00, 0x80], 0, 49)),
    (Program::Write(HOME + 0xFFC), Due::Never, Wanted::Written(Took::Taken, [0; 4], 0, 49)),
    (Program::Write(HOME + 0xFFD), Due::Never, Wanted::Written(Took::Unreadable, [0; 4], 22, 49)),
    (Program::Write(0x7FFF_FFFF_FFFE), Due::Never,
     Wanted::Written(Took::Unreadable, [0; 4], 22, 49)),
    (Program::Write(0xFFFF_7FFF_FFFF_FFFF), Due::Never,
     Wanted::Written(Took::Unreadable, [0; 4], 22, 49)),
    (Program::Write(0xFFFF_FFFF_FFFF_FFFE), Due::Never,
     Wanted::Written(Took::Unreadable, [0; 4], 22, 49)),
];

#[test]
fn a_region_is_allocated_and_written(rt: HostRuntime) {
    assert_eq!(rt; wrong_case(rt.alloc(), 24, &ALLOCATED), None);
    assert_eq!(rt; wrong_case(rt.alloc(), 60, &WRITTEN), None);
}
