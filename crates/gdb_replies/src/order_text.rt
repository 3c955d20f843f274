//! What is answered to orders in words: turns and steps, what is caught, and which orders there are.

ghost use Rattle.std.specs.Prelude.{◌≡◌, ◌++◌, OnOk};
ghost use Rattle.gdb_replies.specs.ReplyTexts.{catches_line, help_text, place_line, word_if};

use run_moments::Catches;
use std::alloc::AllocError;
use step_trace::{put_decimal, put_text};

/// How many turns and steps were taken.
pub fn put_turns(text: &mut Vec<u8>, turns: u64, steps: u64) -> Result<(), AllocError>
    ensures { OnOk result (text.new.items ≡ text.old.items ++ place_line turns steps) }
{
    put_text(text, "turn ")?;
    put_decimal(text, turns)?;
    put_text(text, " step ")?;
    put_decimal(text, steps)?;
    put_text(text, "\n")
}

fn put_if(text: &mut Vec<u8>, is_so: bool, word: &str) -> Result<(), AllocError>
    ensures { OnOk result (text.new.items ≡ text.old.items ++ word_if is_so word.now) }
{
    if is_so { put_text(text, word) } else { Ok(()) }
}

/// What is caught.
pub fn put_catches(text: &mut Vec<u8>, catches: Catches) -> Result<(), AllocError>
    ensures { OnOk result (text.new.items ≡ text.old.items ++ catches_line catches) }
{
    put_text(text, "caught:")?;
    put_if(text, catches.calls, " calls")?;
    put_if(text, catches.deliveries, " deliveries")?;
    put_if(text, catches.events, " events")?;
    put_if(text, catches.console, " console")?;
    put_text(text, "\n")
}

/// Which orders there are.
pub fn put_help(text: &mut Vec<u8>) -> Result<(), AllocError>
    ensures { OnOk result (text.new.items ≡ text.old.items ++ help_text) }
{
    put_text(text, "turn | turn N | step N | state | kept | section\n")?;
    put_text(
        text,
        "catch calls | catch deliveries | catch events | catch console | catch none\n",
    )
}
