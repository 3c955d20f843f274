//! A piece of a text, and the text of the description.

ghost use Rattle.std.specs.Prelude.{◌≡◌, ◌++◌, OnOk};
ghost use Rattle.gdb_replies.specs.ReplyTexts.{piece_text};

use std::alloc::AllocError;
use step_trace::put_text;

/// A piece of a text from a place on, of at most so many bytes, marked as the last one or not.
pub fn put_piece(
    reply: &mut Vec<u8>,
    text: &[u8],
    offset: u64,
    count: u64,
) -> Result<(), AllocError>
    ensures { OnOk result (reply.new.items ≡ reply.old.items ++ piece_text text.now offset count) }
{
    let size = text.len() as u64;
    let first = offset.min(size);
    let end = offset.saturating_add(count).min(size);
    put_text(reply, if end == size { "l" } else { "m" })?;
    reply.extend_from_slice(&text[first as usize..end as usize])
}
