//! Rows of a table, tried in order.

ghost use Rattle.std.specs.Prelude.{◌<◌, IfSome, length};

/// The index of the first row that isn't right.
pub fn first_wrong<T, F: FnMut(&T) -> bool>(rows: &[T], mut is_right: F) -> Option<usize>
    requires { F.IsAlwaysCallable is_right }
    ensures { IfSome result (λ index. index < length rows.now) }
{
    for (index, row) in rows.iter().enumerate() {
        if !is_right(row) {
            return Some(index);
        }
    }
    None
}

/// The index of the first case in which something is wrong, and where in it.
pub fn first_wrong_case<T, F: FnMut(&T) -> Option<usize>>(
    cases: &[T],
    mut wrong_in: F,
) -> Option<(usize, usize)>
    requires { F.IsAlwaysCallable wrong_in }
{
    for (index, case) in cases.iter().enumerate() {
        if let Some(place) = wrong_in(case) {
            return Some((index, place));
        }
    }
    None
}
