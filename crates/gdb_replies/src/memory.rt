//! Bytes of memory.

ghost use Rattle.std.specs.Prelude.{◌≡◌, ◌++◌, OnOk};
ghost use Rattle.gate_state.specs.MachineOf.{whole_of};
ghost use Rattle.gdb_replies.specs.ReplyTexts.{seen_text, memory_reply};

use gate_state::Machine;
use memory_sights::read_seen;
use std::alloc::{AllocError, Global};
use step_trace::{put_bytes, put_text};

/// The most bytes that are told at once.
const MOST: u64 = 4096;

fn put_seen(reply: &mut Vec<u8>, bytes: &[u8]) -> Result<(), AllocError>
    ensures { OnOk result (reply.new.items ≡ reply.old.items ++ seen_text bytes.now) }
{
    if bytes.is_empty() {
        put_text(reply, "E14")
    } else {
        put_bytes(reply, bytes)
    }
}

/// So many bytes from an address on, as memory_sights names it: at most 4,096, as far as they are seen.
pub fn put_memory(
    alloc: Global,
    reply: &mut Vec<u8>,
    machine: &Machine<'_>,
    address: u64,
    count: u64,
) -> Result<(), AllocError>
    ensures { OnOk result (reply.new.items ≡ reply.old.items ++ memory_reply (whole_of machine.now).state address count) }
{
    let mut bytes = Vec::new(alloc);
    read_seen(machine, address, count.min(MOST) as usize, &mut bytes)?;
    put_seen(reply, bytes.as_slice())
}
