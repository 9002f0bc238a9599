//! Verdicts, for people and as objects of JSON.
ghost use Rattle.std.specs.Prelude.{◌≡◌, ◌++◌, ◌∷◌, IfOk, OnOk};
ghost use Rattle.std.specs.Io.KnownBytes.{Appends};
ghost use Rattle.slh_bytes.specs.Verdicts.{behind_word, told_line};
ghost use Rattle.slh_bytes.specs.declared.verdicts.Form.TheVariants.{Text};
ghost use Rattle.slh_bytes.specs.Verdicts.{detail_members, hex_member, json_byte};
ghost use Rattle.slh_bytes.specs.Verdicts.{json_text as spec_json_text, string_member};
ghost use Rattle.slh_bytes.specs.Verdicts.{verdict_line};

use crate::outcome::Outcome;
use crate::printable::shown;
use line_serve::{ByteString, push_hex, push_number};
use std::alloc::{AllocError, Global};
use std::io::{self, Write};

/// What a verdict tells besides its word.
#[derive(Clone, Copy, Debug)]
pub enum Detail<'a> {
    Nothing,
    /// The name of a file.
    Name(&'a str),
    /// The name of a file that isn't UTF-8.
    OtherName(&'a [u8]),
    /// Which message of a batch, from 0, and of how many.
    Place(u32, u32),
    /// The words of an audit's evidence.
    Evidence(&'a [u8]),
}

// Puts a byte of a string at the end.
fn push_byte(text: &mut ByteString, byte: u8) -> Result<(), AllocError>
    ensures { OnOk result (text.new ≡ text.old ++ json_byte byte) }
{
    if byte == b'"' || byte == b'\\' {
        text.push_slice(&[b'\\', byte])
    } else if byte < b' ' || byte == 127 {
        text.push_slice(b"\\u00")?;
        push_hex(text, &[byte])
    } else {
        text.push_slice(&[byte])
    }
}

// The text of a string.
fn json_text(alloc: Global, bytes: &[u8]) -> Result<ByteString, AllocError>
    ensures { IfOk result (λ text. text ≡ spec_json_text bytes.now) }
{
    let mut text = ByteString::new(alloc);
    for i in 0..bytes.len() {
        push_byte(&mut text, bytes[i])?;
    }
    Ok(text)
}

// Puts a member whose value is a string at the end, behind what stands before its text.
fn push_string(
    alloc: Global,
    line: &mut ByteString,
    before: &[u8],
    bytes: &[u8],
) -> Result<(), AllocError>
    ensures { OnOk result (line.new ≡ line.old ++ string_member before.now bytes.now) }
{
    let text = json_text(alloc, bytes)?;
    line.push_slice(before)?;
    line.push_slice(text.as_slice())?;
    line.push_slice(b"\"")
}

// The same of a string of hexadecimal digits.
fn push_digits(line: &mut ByteString, before: &[u8], bytes: &[u8]) -> Result<(), AllocError>
    ensures { OnOk result (line.new ≡ line.old ++ hex_member before.now bytes.now) }
{
    line.push_slice(before)?;
    push_hex(line, bytes)?;
    line.push_slice(b"\"")
}

// Puts what a verdict has besides its word at the end.
fn push_detail(alloc: Global, line: &mut ByteString, detail: Detail<'_>) -> Result<(), AllocError>
    ensures { OnOk result (line.new ≡ line.old ++ detail_members detail.entry) }
{
    match detail {
        Detail::Nothing => Ok(()),
        Detail::Name(name) => push_string(alloc, line, b",\"name\":\"", name.as_bytes()),
        Detail::OtherName(name) => push_digits(line, b",\"name_hex\":\"", name),
        Detail::Place(index, count) => {
            line.push_slice(b",\"index\":")?;
            push_number(line, u64::from(index))?;
            line.push_slice(b",\"count\":")?;
            push_number(line, u64::from(count))
        }
        Detail::Evidence(words) => push_string(alloc, line, b",\"evidence\":\"", words),
    }
}

/// The line of a verdict: an object of JSON, and a line feed.
pub fn verdict_json(alloc: Global, word: &str, detail: Detail<'_>) -> Result<ByteString, AllocError>
    ensures { IfOk result (λ line. line ≡ verdict_line word.now detail.entry) }
{
    let mut line = ByteString::new(alloc);
    push_string(alloc, &mut line, b"{\"verdict\":\"", word.as_bytes())?;
    push_detail(alloc, &mut line, detail)?;
    line.push_slice(b"}\n")?;
    Ok(line)
}

/// How a verdict is told.
#[derive(Clone, Copy, Debug, PartialEq, Eq)]
pub enum Form {
    /// For people: its word, and a name or evidence behind it.
    Text,
    /// For programs: an object of JSON.
    Json,
}

fn push_word(line: &mut ByteString, word: &[u8]) -> Result<(), AllocError>
    ensures { OnOk result (line.new ≡ line.old ++ 32 ∷ word.now) }
{
    line.push_slice(b" ")?;
    line.push_slice(word)
}

// Puts what stands behind a verdict's word at the end.
fn push_behind(alloc: Global, line: &mut ByteString, detail: Detail<'_>) -> Result<(), AllocError>
    ensures { OnOk result (line.new ≡ line.old ++ behind_word detail.entry) }
{
    match detail {
        Detail::Nothing | Detail::Place(_, _) => Ok(()),
        Detail::Name(name) => push_word(line, shown(alloc, name.as_bytes())?.as_bytes()),
        Detail::OtherName(name) => push_word(line, shown(alloc, name)?.as_bytes()),
        Detail::Evidence(words) => push_word(line, words),
    }
}

// The line of a verdict for people.
fn verdict_text(
    alloc: Global,
    outcome: Outcome,
    detail: Detail<'_>,
) -> Result<ByteString, AllocError>
    ensures { IfOk result (λ line. line ≡ told_line Text outcome detail.entry) }
{
    let mut line = ByteString::new(alloc);
    line.push_slice(outcome.word().as_bytes())?;
    push_behind(alloc, &mut line, detail)?;
    line.push_slice(b"\n")?;
    Ok(line)
}

fn verdict_line(
    alloc: Global,
    form: Form,
    outcome: Outcome,
    detail: Detail<'_>,
) -> Result<ByteString, AllocError>
    ensures { IfOk result (λ line. line ≡ told_line form outcome detail.entry) }
{
    match form {
        Form::Text => verdict_text(alloc, outcome, detail),
        Form::Json => verdict_json(alloc, outcome.word(), detail),
    }
}

/// Writes the line of a verdict. After an error some of it may be written.
pub fn tell<W: Write>(
    writer: &mut W,
    alloc: Global,
    form: Form,
    outcome: Outcome,
    detail: Detail<'_>,
) -> io::Result<Outcome>
    ensures line { OnOk result (Appends (W.contents writer.old) (W.contents writer.new)
        (told_line form outcome detail.entry)) }
    ensures outcome { IfOk result (λ told. told ≡ outcome) }
{
    let line = verdict_line(alloc, form, outcome, detail)?;
    writer.write_all(line.as_slice())?;
    Ok(outcome)
}
