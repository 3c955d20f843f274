//! Why the machine stands.

ghost use Rattle.std.specs.Prelude.{◌≡◌, ◌++◌, OnOk};
ghost use Rattle.gdb_replies.specs.ReplyTexts.{stop_text};

use run_moments::Stop;
use std::alloc::AllocError;
use step_trace::{put_16, put_text};

/// Why a debugger stopped.
pub fn put_stop(reply: &mut Vec<u8>, why: Stop) -> Result<(), AllocError>
    ensures { OnOk result (reply.new.items ≡ reply.old.items ++ stop_text why) }
{
    match why {
        Stop::Breakpoint => put_text(reply, "T05swbreak:;"),
        Stop::Watched(address) => {
            put_text(reply, "T05watch:")?;
            put_16(reply, address)?;
            put_text(reply, ";")
        }
        Stop::Caught | Stop::Stepped => put_text(reply, "T05"),
        Stop::Ended => put_text(reply, "T05replaylog:end;"),
        Stop::Begun => put_text(reply, "T05replaylog:begin;"),
    }
}
