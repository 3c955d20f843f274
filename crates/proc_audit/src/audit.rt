//! The bytes of a region, with the slots that their chain meets.

ghost use Rattle.std.specs.Prelude.{◌≡◌, ◌+◌, ◌<◌, ◌≤◌, IfOk, length, not, replicate};
ghost use Rattle.proc_audit.specs.ProcessList.{hidden_at, is_chain_good, overwritten, slot_count};

use crate::chain::follow;
use crate::slot::{SLOT_SIZE, pid_at};
use std::alloc::Global;
use std::marker::Model;

/// There is no room for the region's bytes and a mark a slot.
#[derive(Clone, Copy, Debug, PartialEq, Eq)]
pub struct NoMemory;

/// The bytes of a region, and what its list of processes hides. To contracts it is the bytes.
#[derive(Drop)]
pub struct Audit {
    region: Vec<u8>,
    // Whether the chain meets the slot, for each slot.
    met: Vec<bool>,
    good: bool,
}

impl Model for Audit {
    ghost use Rattle.std.specs.Prelude.{ℕ, List};
    ghost use Rattle.proc_audit.specs.FollowedChain.{IsAudited};

    ghost Value = { List ℕ };

    ghost view = { λ audit. audit.region.items };

    ghost invariant = { λ audit. IsAudited audit.region.items audit.met.items audit.good };
}

/// Puts bytes over others, from a place on.
fn overwrite(region: &mut [u8], at: usize, bytes: &[u8])
    requires { at + length bytes.now ≤ length region.old }
    ensures { region.new ≡ overwritten region.old at bytes.now }
{
    region[at..at + bytes.len()].copy_from_slice(bytes);
}

impl Audit {
    /// The audit of a region of this many bytes, all of them 0. Takes all memory that the audit ever takes: the bytes,
    /// and one byte a slot.
    pub fn start(alloc: Global, size: u32) -> Result<Audit, NoMemory>
        ensures { IfOk result (λ audit. audit ≡ replicate size 0) }
    {
        let Ok(region) = vec![in alloc; 0u8; size as usize] else {
            return Err(NoMemory);
        };
        let Ok(mut met) = vec![in alloc; false; size as usize / SLOT_SIZE] else {
            return Err(NoMemory);
        };
        let good = follow(region.as_slice(), met.as_mut_slice());
        Ok(Audit { region, met, good })
    }

    /// How many bytes the region has.
    pub fn size(&self) -> u32
        ensures { result ≡ length self.now }
    {
        self.region.len() as u32
    }

    /// How many slots of sixteen bytes fit whole.
    pub fn slots(&self) -> u32
        ensures { result ≡ slot_count self.now }
    {
        self.met.len() as u32
    }

    /// Writes bytes over the region's, from an offset on, and follows the chain anew: in time linear in the slots and
    /// the bytes, without memory.
    pub fn apply(&mut self, offset: u32, bytes: &[u8])
        requires { offset + length bytes.now ≤ length self.old }
        ensures { self.new ≡ overwritten self.old offset bytes.now }
    {
        overwrite(self.region.as_mut_slice(), offset as usize, bytes);
        self.good = follow(self.region.as_slice(), self.met.as_mut_slice());
    }

    /// Whether the chain is broken: by a next that isn't 0 and leads to no slot, or by a slot that is met again.
    pub fn broken(&self) -> bool
        ensures { result ≡ not (is_chain_good self.now) }
    {
        !self.good
    }

    /// The identifier of the process that a slot hides, in constant time; None where it hides none.
    pub fn hidden(&self, slot: u32) -> Option<u64>
        requires { slot < slot_count self.now }
        ensures { result ≡ hidden_at self.now slot }
    {
        if slot == 0 || self.met[slot as usize] {
            return None;
        }
        let pid = pid_at(self.region.as_slice(), slot as usize);
        if pid == 0 { None } else { Some(pid) }
    }
}
