//! Words of a line. Each is put before the one behind it, so that the line stands at the end of its room, which is on
//! the stack. A text of hexadecimal digits has room for just its bytes, so that its encoding never fails.
ghost use Rattle.std.specs.Prelude.{◌≡◌, ℕ, ◌+◌, ◌*◌, ◌^◌, ◌<◌, ◌≤◌, ◌++◌, false, drop, length, codes, decimal};
ghost use Rattle.std.specs.Fmt.{digits};
ghost use Rattle.std.specs.Int.{bytes_high_first};
ghost use Rattle.hex.specs.Hex.{encode_lower};
ghost use Rattle.report_text.specs.RunLines.{hex_16, hex_16_word, hex_word};

use asm_text::hex_digit;

/// Puts a text before a place of the room, and gives the place where it starts.
pub(crate) fn put(room: &mut [u8], end: usize, text: &[u8]) -> usize
    requires room { length text.now ≤ end }
    requires end { end ≤ length room.old }
    ensures start { result + length text.now ≡ end }
    ensures written { drop result room.new ≡ text.now ++ drop end room.old }
{
    let start = end - text.len();
    room[start..end].copy_from_slice(text);
    start
}

/// Puts a number's decimal digits.
pub(crate) fn put_decimal(room: &mut [u8], end: usize, number: u64) -> usize
    requires room { 20 ≤ end }
    requires end { end ≤ length room.old }
    ensures start { (result ≤ end) × (end ≤ result + 20) }
    ensures written { drop result room.new ≡ decimal number ++ drop end room.old }
{
    itoa::write_digits(number, room, end)
}

/// Puts sixteen hexadecimal digits.
pub(crate) fn put_16(room: &mut [u8], end: usize, number: u64) -> usize
    requires room { 16 ≤ end }
    requires end { end ≤ length room.old }
    ensures start { result + 16 ≡ end }
    ensures written { drop result room.new ≡ hex_16 number ++ drop end room.old }
{
    let mut digits = [0; 16];
    let _whole = hex::encode_to_slice(number.to_be_bytes(), &mut digits);
    put(room, end, &digits)
}

/// The most bytes of which the digits are put into a line at once.
const MOST_BYTES: usize = 15;

/// Puts two hexadecimal digits for each of some bytes.
pub(crate) fn put_bytes(room: &mut [u8], end: usize, bytes: &[u8]) -> usize
    requires few { length bytes.now ≤ 15 }
    requires room { 2 * length bytes.now ≤ end }
    requires end { end ≤ length room.old }
    ensures start { result + 2 * length bytes.now ≡ end }
    ensures written { drop result room.new ≡ encode_lower bytes.now ++ drop end room.old }
{
    let mut digits = [0; 2 * MOST_BYTES];
    let shown = &mut digits[..2 * bytes.len()];
    let _whole = hex::encode_to_slice(bytes, shown);
    put(room, end, shown)
}

/// Puts as few hexadecimal digits as there are, from the last to the first.
pub(crate) fn put_least(room: &mut [u8], end: usize, number: u64) -> usize
    requires room { 16 ≤ end }
    requires end { end ≤ length room.old }
    ensures start { (result ≤ end) × (end ≤ result + 16) }
    ensures written { drop result room.new ≡ digits 16 false number ++ drop end room.old }
{
    let mut start = end;
    let mut rest = number;
    loop {
        start -= 1;
        room[start] = hex_digit((rest % 16) as u8);
        rest /= 16;
        if rest == 0 {
            return start;
        }
    }
}

/// Puts sixteen hexadecimal digits, or `-` where there is no number.
pub(crate) fn put_word_16(room: &mut [u8], end: usize, number: Option<u64>) -> usize
    requires room { 16 ≤ end }
    requires end { end ≤ length room.old }
    ensures start { (result ≤ end) × (end ≤ result + 16) }
    ensures written { drop result room.new ≡ hex_16_word number ++ drop end room.old }
{
    match number {
        Some(number) => put_16(room, end, number),
        None => put(room, end, b"-"),
    }
}

/// Puts as few hexadecimal digits as there are, or `-` where there is no number.
pub(crate) fn put_word(room: &mut [u8], end: usize, number: Option<u64>) -> usize
    requires room { 16 ≤ end }
    requires end { end ≤ length room.old }
    ensures start { (result ≤ end) × (end ≤ result + 16) }
    ensures written { drop result room.new ≡ hex_word number ++ drop end room.old }
{
    match number {
        Some(number) => put_least(room, end, number),
        None => put(room, end, b"-"),
    }
}

/// The most bytes of a line that ends with a number: a word of eleven, twenty digits, and the line's end.
pub(crate) const NUMBERED: usize = 32;

/// A line of a word and a number, at the end of the room.
pub(crate) fn numbered<'a>(room: &'a mut [u8; NUMBERED], word: &str, number: u64) -> &'a [u8]
    requires { length word.now ≤ 11 }
    ensures { result.now ≡ word.now ++ (decimal number ++ codes "\n") }
{
    room[NUMBERED - 1] = b'\n';
    let digits = itoa::write_digits(number, room, NUMBERED - 1);
    let start = put(room, digits, word.as_bytes());
    room.split_at(start).1
}

/// Sixteen hexadecimal digits are the text of a number's eight bytes, the highest first.
pub fn hexadecimal_law()
    ensures { (n : ℕ) → n < 2 ^ 64 → encode_lower (bytes_high_first 8 n) ≡ hex_16 n }
{}
