//! What holds of any list of bytes: where its prefix bytes end, and that more bytes change no field that is whole.

ghost use Rattle.decode_fields.specs.FieldLaws.{PrefixesLaws, LongerLaws};

/// The prefix bytes of a list stand in front, are prefix bytes all, and end where the next byte is none.
pub fn prefixes_law()
    ensures { PrefixesLaws }
{}

/// A longer list has the same prefixes, once a byte stands behind them, the same fields, once they are whole, and the
/// same protected encodings, with their lengths in bytes. How many bytes the fields of ModRM need is known as soon as
/// they are there.
pub fn longer_law()
    ensures { LongerLaws }
{}
