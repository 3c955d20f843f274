//! The chain of a region's slots.

ghost use Rattle.std.specs.Prelude.{◌≡◌, length};
ghost use Rattle.proc_audit.specs.FollowedChain.{IsFollowed};
ghost use Rattle.proc_audit.specs.ProcessList.{slot_count};

use crate::slot::{link_of, next_at};

/// Follows the links from slot 0, at most as many as there are slots, and marks each slot that the chain meets, and no
/// other. Says whether the chain is good.
pub(crate) fn follow(region: &[u8], met: &mut [bool]) -> bool
    requires { length met.old ≡ slot_count region.now }
    ensures { IsFollowed region.now met.new result }
{
    met.fill(false);
    let count = met.len();
    if count == 0 {
        return true;
    }
    let mut slot = 0;
    for _links in 0..count {
        met[slot] = true;
        let next = next_at(region, slot);
        let Some(linked) = link_of(count, next) else {
            return next == 0;
        };
        slot = linked;
    }
    false
}
