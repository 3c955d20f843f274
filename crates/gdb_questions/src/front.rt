//! A word at the front of a text.

ghost use Rattle.std.specs.Prelude.{◌≡◌};
ghost use Rattle.std.specs.Option.{option_copied};
ghost use Rattle.gdb_questions.specs.Words.{behind_word};

/// What stands behind a word at the front.
pub(crate) fn behind_word<'t>(text: &'t [u8], word: &[u8]) -> Option<&'t [u8]>
    ensures { option_copied result ≡ behind_word word.now text.now }
{
    text.strip_prefix(word)
}
