//! Words of a reply, each put behind what stands there already. Err where memory for it is wanting.

ghost use Rattle.std.specs.Prelude.{◌≡◌, ◌++◌, OnOk};
ghost use Rattle.hex.specs.Hex.{encode_lower};
ghost use Rattle.gdb_replies.specs.RegisterTexts.{number_text, untold_text};

use std::alloc::AllocError;
use step_trace::{put_bytes, put_text};

/// Sixteen bytes that there aren't.
const UNTOLD: &str = "xxxxxxxxxxxxxxxxxxxxxxxxxxxxxxxx";

/// A number of eight bytes.
pub(crate) fn put_8_bytes(reply: &mut Vec<u8>, number: u64) -> Result<(), AllocError>
    ensures { OnOk result (reply.new.items ≡ reply.old.items ++ number_text 8 number) }
{
    put_bytes(reply, &number.to_le_bytes())
}

/// A number of four bytes.
pub(crate) fn put_4_bytes(reply: &mut Vec<u8>, number: u32) -> Result<(), AllocError>
    ensures { OnOk result (reply.new.items ≡ reply.old.items ++ number_text 4 number) }
{
    put_bytes(reply, &number.to_le_bytes())
}

/// What this processor doesn't have: DS, ES, FS and GS, and the floating-point unit.
pub(crate) fn put_untold(reply: &mut Vec<u8>) -> Result<(), AllocError>
    ensures { OnOk result (reply.new.items ≡ reply.old.items ++ untold_text) }
{
    put_text(reply, UNTOLD)?;
    put_text(reply, UNTOLD)?;
    put_text(reply, UNTOLD)?;
    put_text(reply, UNTOLD)?;
    put_text(reply, UNTOLD)?;
    put_text(reply, UNTOLD)?;
    put_text(reply, UNTOLD)?;
    put_text(reply, UNTOLD)
}
