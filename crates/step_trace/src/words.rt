//! Words of a line, each put behind what stands there already. Err where memory for it is wanting.

ghost use Rattle.std.specs.Prelude.{◌≡◌, ◌++◌, ◌∷◌, [], OnOk, decimal};
ghost use Rattle.hex.specs.Hex.{encode_lower};
ghost use Rattle.report_text.specs.RunLines.{hex_16};
ghost use Rattle.step_trace.specs.StepTexts.{flag_text, hex_4, named_text};

use itoa::Buffer;
use report_text::hexadecimal_law;
use std::alloc::AllocError;

/// Puts a text behind what stands in a line. Err where memory for it is wanting.
pub fn put_text(line: &mut Vec<u8>, text: &str) -> Result<(), AllocError>
    ensures { OnOk result (line.new.items ≡ line.old.items ++ text.now) }
{
    line.extend_from_slice(text.as_bytes())
}

/// Puts a number's decimal digits behind it.
pub fn put_decimal(line: &mut Vec<u8>, number: u64) -> Result<(), AllocError>
    ensures { OnOk result (line.new.items ≡ line.old.items ++ decimal number) }
{
    put_text(line, Buffer::new().format(number))
}

/// Puts sixteen hexadecimal digits behind it.
pub fn put_16(line: &mut Vec<u8>, number: u64) -> Result<(), AllocError>
    ensures { OnOk result (line.new.items ≡ line.old.items ++ hex_16 number) }
{
    hexadecimal_law();
    let mut digits = [0; 16];
    let _whole = hex::encode_to_slice(number.to_be_bytes(), &mut digits);
    line.extend_from_slice(&digits)
}

/// Four hexadecimal digits.
pub(crate) fn put_4(line: &mut Vec<u8>, number: u16) -> Result<(), AllocError>
    ensures { OnOk result (line.new.items ≡ line.old.items ++ hex_4 number) }
{
    hexadecimal_law();
    let mut digits = [0; 4];
    let _whole = hex::encode_to_slice(number.to_be_bytes(), &mut digits);
    line.extend_from_slice(&digits)
}

/// Two hexadecimal digits.
pub(crate) fn put_byte(line: &mut Vec<u8>, byte: u8) -> Result<(), AllocError>
    ensures { OnOk result (line.new.items ≡ line.old.items ++ encode_lower (byte ∷ [])) }
{
    let mut digits = [0; 2];
    let _whole = hex::encode_to_slice([byte], &mut digits);
    line.extend_from_slice(&digits)
}

/// Puts two hexadecimal digits for each byte behind it.
pub fn put_bytes(line: &mut Vec<u8>, bytes: &[u8]) -> Result<(), AllocError>
    ensures { OnOk result (line.new.items ≡ line.old.items ++ encode_lower bytes.now) }
{
    for i in 0..bytes.len() {
        put_byte(line, bytes[i])?;
    }
    Ok(())
}

/// A number of sixteen hexadecimal digits behind its name.
pub(crate) fn put_named(line: &mut Vec<u8>, name: &str, number: u64) -> Result<(), AllocError>
    ensures { OnOk result (line.new.items ≡ line.old.items ++ named_text name.now number) }
{
    put_text(line, name)?;
    put_text(line, " ")?;
    put_16(line, number)
}

/// A flag, behind its name.
pub(crate) fn put_flag(line: &mut Vec<u8>, is_set: bool) -> Result<(), AllocError>
    ensures { OnOk result (line.new.items ≡ line.old.items ++ flag_text is_set) }
{
    put_text(line, if is_set { " 1" } else { " 0" })
}
