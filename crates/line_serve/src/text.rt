//! Numbers and bytes as text.
ghost use Rattle.std.specs.Prelude.{◌≡◌, ◌++◌, OnOk, OnErr, decimal};
ghost use Rattle.hex.specs.Hex.{encode_lower};
ghost use Rattle.line_serve.specs.Texts.{hex_line, number_line};

use crate::bytes::ByteString;
use itoa::Buffer;
use std::alloc::AllocError;

/// Puts a number at the end, without leading zeros.
pub fn push_number(text: &mut ByteString, number: u64) -> Result<(), AllocError>
    ensures ok { OnOk result (text.new ≡ text.old ++ decimal number) }
    ensures err { OnErr result (text.new ≡ text.old) }
{
    let mut buffer = Buffer::new();
    text.push_slice(buffer.format(number).as_bytes())
}

/// Puts bytes at the end, as hexadecimal digits of lower case.
pub fn push_hex(text: &mut ByteString, bytes: &[u8]) -> Result<(), AllocError>
    ensures ok { OnOk result (text.new ≡ text.old ++ encode_lower bytes.now) }
    ensures err { OnErr result (text.new ≡ text.old) }
{
    let start = text.len();
    let digits = bytes.len().saturating_mul(2);
    text.resize(start.saturating_add(digits), 0)?;
    hex::encode_to_slice(bytes, &mut text.as_mut_slice()[start..]).unwrap();
    Ok(())
}

/// Puts a word, a number and a line feed at the end. After an error a part of them is there.
pub fn push_number_line(text: &mut ByteString, word: &[u8], number: u64) -> Result<(), AllocError>
    ensures { OnOk result (text.new ≡ text.old ++ number_line word.now number) }
{
    text.push_slice(word)?;
    push_number(text, number)?;
    text.push_slice(b"\n")
}

/// Puts a word, the hexadecimal digits of bytes and a line feed at the end. After an error a part
/// of them is there.
pub fn push_hex_line(text: &mut ByteString, word: &[u8], bytes: &[u8]) -> Result<(), AllocError>
    ensures { OnOk result (text.new ≡ text.old ++ hex_line word.now bytes.now) }
{
    text.push_slice(word)?;
    push_hex(text, bytes)?;
    text.push_slice(b"\n")
}
