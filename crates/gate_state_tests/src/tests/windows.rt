//! How many turns are left in each state with WP clear, by runs that jump into the gates: six where a call's way is taken,
//! and eleven where an interrupt comes as late as it can.

use super::cases::{Case, Due, Wanted, wrong_case};
use super::jumps::WITHOUT_WP;
use super::programs::Program;

/// A state in which the interrupt comes is two: with it pending too.
#[rattlefmt::skip]
const WINDOWS: [Case; 6] = [
    // A call's way: from 16 through the body to 37.
    (Program::Jump(false, 13, WITHOUT_WP), Due::After(1000),
     Wanted::Lefts([6, 5, 4, 3, 2, 1, 0, 0, 0, 0, 0, 0])),
    (Program::Jump(true, 13, WITHOUT_WP), Due::After(5),
     Wanted::Lefts([7, 7, 6, 5, 4, 3, 2, 1, 0, 0, 0, 0])),
    // The exit gate and the trap gate turn once more.
    (Program::Jump(false, 37, WITHOUT_WP), Due::After(1000),
     Wanted::Lefts([5, 4, 3, 2, 1, 0, 0, 0, 0, 0, 0, 0])),
    (Program::Jump(false, 457, WITHOUT_WP), Due::After(1000),
     Wanted::Lefts([5, 4, 3, 2, 1, 0, 0, 0, 0, 0, 0, 0])),
    (Program::Jump(true, 37, WITHOUT_WP), Due::After(9),
     Wanted::Lefts([11, 10, 9, 8, 7, 7, 6, 5, 4, 3, 2, 1])),
    (Program::Jump(true, 457, WITHOUT_WP), Due::After(9),
     Wanted::Lefts([11, 10, 9, 8, 7, 7, 6, 5, 4, 3, 2, 1])),
];

#[test]
fn windows(rt: HostRuntime) {
    assert_eq!(rt; wrong_case(rt.alloc(), 40, &WINDOWS), None);
}
