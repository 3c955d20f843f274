//! The registers that a run begins with, as its first delivery pushes them.

use super::cases::{Due, Wanted, wrong_case};
use super::programs::Program;

#[test]
fn first_delivery_pushes_the_opening(rt: HostRuntime) {
    let pushed = [(
        Program::Undefined,
        Due::Never,
        Wanted::Pushed([0xFFFF_FFFF_8000_0000, 8, 2, 0xFFFF_FF80_0000_4000, 0x10]),
    )];
    assert_eq!(rt; wrong_case(rt.alloc(), 1, &pushed), None);
}
