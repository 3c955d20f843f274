//! A text cut at the first byte of a value.

ghost use Rattle.std.specs.Prelude.{◌≡◌, ◌==◌, MatchOption};
ghost use Rattle.std.specs.List.{position};
ghost use Rattle.text_lines.specs.Cuts.{IsCut, Lacks};

/// The place of the first byte of this value.
fn first_place(text: &[u8], mark: u8) -> Option<usize>
    ensures { result ≡ position (λ c. c == mark) text.now }
{
    text.iter().position(|byte| *byte == mark)
}

/// The bytes before the first byte of this value, and those behind it; None where there is no such byte.
pub(crate) fn cut_at(text: &[u8], mark: u8) -> Option<(&[u8], &[u8])>
    ensures { MatchOption result (Lacks mark text.now)
        (λ parts. IsCut mark text.now parts.0.now parts.1.now) }
{
    match first_place(text, mark) {
        Some(place) => Some((text.split_at(place).0, text.split_at(place + 1).1)),
        None => None,
    }
}
