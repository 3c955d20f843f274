//! Which of two byte strings comes first: the shorter, and of equally long ones the less, byte by byte.

ghost use Rattle.std.specs.Prelude.{◌≡◌};
ghost use Rattle.asm_text.specs.LeastSpelling.{is_bytewise_least, is_not_behind};

/// Whether the first bytes that differ are less in the first of the two; where none differ, whether it ends first.
pub(crate) fn is_bytewise_least(bytes: &[u8], other: &[u8]) -> bool
    ensures { result ≡ is_bytewise_least bytes.now other.now }
{
    for i in 0..bytes.len() {
        if i >= other.len() {
            return false;
        }
        if bytes[i] != other[i] {
            return bytes[i] < other[i];
        }
    }
    true
}

/// Whether the first is shorter than the second, or as long and not greater.
pub(crate) fn is_not_behind(bytes: &[u8], other: &[u8]) -> bool
    ensures { result ≡ is_not_behind bytes.now other.now }
{
    if bytes.len() == other.len() {
        is_bytewise_least(bytes, other)
    } else {
        bytes.len() < other.len()
    }
}
