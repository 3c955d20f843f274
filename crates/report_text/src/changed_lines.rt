//! The lines of the closing section that tell what root and handler are, and which kinds and entries changed.
ghost use Rattle.std.specs.Prelude.{◌≡◌, ◌+◌, ◌≤◌, ◌++◌, drop, length};
ghost use Rattle.report_text.specs.RunLines.{entry_line, kind_line, kind_word, root_line, trap_line};

use crate::words::{NUMBERED, numbered, put, put_16};
use nk_bits::Kind;

/// The frame of the root of the page tables.
#[tactic(auto, unfolding(crate::specs::RunLines::root_line))]
pub(crate) fn root_line(room: &mut [u8; NUMBERED], frame: u32) -> &[u8]
    ensures { result.now ≡ root_line frame }
{
    numbered(room, "root ", u64::from(frame))
}

/// The address of the trap handler.
pub(crate) fn trap_line(address: u64) -> [u8; 22]
    ensures { result ≡ trap_line address }
{
    let mut line = *b"trap 0000000000000000\n";
    let _whole = hex::encode_to_slice(address.to_be_bytes(), &mut line[5..21]);
    line
}

/// The most bytes of the line of a frame's kind: `f`, ten digits and a word of eight, each behind a space, and the
/// line's end.
pub(crate) const KIND: usize = 22;

/// A frame whose kind changed, at the end of the room.
pub(crate) fn kind_line(room: &mut [u8; KIND], frame: u32, kind: Kind) -> &[u8]
    ensures { result.now ≡ kind_line frame kind }
{
    room[KIND - 1] = b'\n';
    let word = put_kind(room, KIND - 1, kind);
    let frame_end = put(room, word, b" ");
    let digits = itoa::write_digits(u64::from(frame), room, frame_end);
    let start = put(room, digits, b"f ");
    room.split_at(start).1
}

/// Puts a kind's word.
fn put_kind(room: &mut [u8], end: usize, kind: Kind) -> usize
    requires room { 8 ≤ end }
    requires end { end ≤ length room.old }
    ensures start { (result ≤ end) × (end ≤ result + 8) }
    ensures written { drop result room.new ≡ kind_word kind ++ drop end room.old }
{
    match kind {
        Kind::Data => put(room, end, b"data"),
        Kind::Code => put(room, end, b"code"),
        Kind::Table(level) => put_table(room, end, level),
        Kind::Fixed => put(room, end, b"fixed"),
        Kind::Trap => put(room, end, b"trap"),
        Kind::Guarded => put(room, end, b"guarded"),
        Kind::Hidden => put(room, end, b"hidden"),
    }
}

/// Puts the word of a page table of a level.
fn put_table(room: &mut [u8], end: usize, level: u8) -> usize
    requires room { 8 ≤ end }
    requires end { end ≤ length room.old }
    ensures start { (result ≤ end) × (end ≤ result + 8) }
    ensures written { drop result room.new ≡ kind_word (Kind.Table level) ++ drop end room.old }
{
    let digits = itoa::write_digits(u64::from(level), room, end);
    put(room, digits, b"table")
}

/// The most bytes of the line of an entry: `t`, two numbers of ten digits and a word of sixteen, each behind a space,
/// and the line's end.
pub(crate) const ENTRY: usize = 41;

/// An entry of a page table that changed, at the end of the room.
pub(crate) fn entry_line(room: &mut [u8; ENTRY], frame: u32, index: u32, value: u64) -> &[u8]
    ensures { result.now ≡ entry_line frame index value }
{
    room[ENTRY - 1] = b'\n';
    let word = put_16(room, ENTRY - 1, value);
    let index_end = put(room, word, b" ");
    let index_digits = itoa::write_digits(u64::from(index), room, index_end);
    let frame_end = put(room, index_digits, b" ");
    let digits = itoa::write_digits(u64::from(frame), room, frame_end);
    let start = put(room, digits, b"t ");
    room.split_at(start).1
}
