//! The bytes of watchpoints.

ghost use Rattle.std.specs.Prelude.{◌≡◌, ◌≤◌, All, OnOk, length, not};
ghost use Rattle.std.specs.Str.{bytes_eq};
ghost use Rattle.gate_state.specs.MachineOf.{whole_of};
ghost use Rattle.run_moments.specs.StopsMet.{all_seen, glances_of, differs_by};

use crate::stops::{Stop, Watch};
use arrayvec::ArrayVec;
use gate_state::Machine;
use memory_sights::glance;
use std::alloc::AllocError;

/// The bytes of a watchpoint, as they are now.
fn glances_of(machine: &Machine<'_>, watch: &Watch) -> ArrayVec<u8, 8>
    requires count { watch.now.count ≤ 8 }
    ensures { result ≡ glances_of (whole_of machine.now).state watch.now }
{
    glance(machine, watch.address, watch.count)
}

/// Keeps the bytes of each watchpoint, as they are now.
pub(crate) fn look(
    machine: &Machine<'_>,
    watches: &[Watch],
    kept: &mut Vec<ArrayVec<u8, 8>>,
) -> Result<(), AllocError>
    requires counts { All (λ watch. watch.count ≤ 8) watches.now }
    ensures { OnOk result (kept.new.items ≡ all_seen watches.now (whole_of machine.now).state) }
{
    kept.clear();
    for i in 0..watches.len() {
        kept.push(glances_of(machine, &watches[i]))?;
    }
    Ok(())
}

/// Whether a watchpoint sees other bytes than those that were kept.
fn differs(machine: &Machine<'_>, watch: &Watch, kept: &ArrayVec<u8, 8>) -> bool
    requires count { watch.now.count ≤ 8 }
    ensures { result ≡ not (bytes_eq kept.now.items (glances_of (whole_of machine.now).state watch.now).items) }
{
    let bytes = glances_of(machine, watch);
    kept.as_slice() != bytes.as_slice()
}

/// The first watchpoint that sees other bytes than those that were kept.
pub(crate) fn first_changed(
    machine: &Machine<'_>,
    watches: &[Watch],
    kept: &[ArrayVec<u8, 8>],
) -> Option<Stop>
    requires counts { All (λ watch. watch.count ≤ 8) watches.now }
    requires same { length kept.now ≡ length watches.now }
    ensures { result ≡ differs_by watches.now kept.now (whole_of machine.now).state }
{
    for i in 0..watches.len() {
        if differs(machine, &watches[i], &kept[i]) {
            return Some(Stop::Watched(watches[i].address));
        }
    }
    None
}
