//! What follows from the definitions, for those who say what a turn of the machine shows.

ghost use Rattle.cpu_step.specs.TurnLaws.{FetchLaws, PendingLaws, TurnStoresLaws, AlikeFetchLaws};

use nk_bits::access_law;
use phys_mem::memory_law;
use trap_unit::delivery_law;
use x86_decode::decoding_law;
use x86_regs::{alike_law, bound_law};

/// The numbers of the fault of a fetch have 64 bits. The fetch goes by what the decoder computes of the bytes so far, at
/// most fifteen: that is an answer which the relation of bytes and answers allows, and the only one.
pub fn fetch_law()
    ensures { FetchLaws }
{
    access_law();
    bound_law();
    decoding_law();
}

/// Of sixteen pending vectors the one that is deliverable is 32 to 47, and sixteen are left where one waits or no longer.
pub fn pending_law()
    ensures { PendingLaws }
{}

/// Memory after a turn is memory after the turn's stores.
pub fn turn_stores_law()
    ensures { TurnStoresLaws }
{
    memory_law();
    delivery_law();
}

/// Over two memories that are alike where translations that pass a claim lead, the same instruction is fetched, or the
/// same fault raised; and one that is well formed has the same effect.
pub fn alike_fetch_law()
    ensures { AlikeFetchLaws }
{
    access_law();
    alike_law();
}
