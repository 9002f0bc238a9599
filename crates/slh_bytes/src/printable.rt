//! Names of others' files and links, on a terminal.
ghost use Rattle.std.specs.Prelude.{◌≡◌, ◌<◌, IfOk, map, string_bytes};
ghost use Rattle.std.specs.Str.{chars};
ghost use Rattle.slh_bytes.specs.Shown.{has_control as spec_has_control};
ghost use Rattle.slh_bytes.specs.Shown.{shown_byte as spec_shown_byte, shown_name};

use std::alloc::{AllocError, Global};
use std::{fmt, str};

/// A name as it is printed: UTF-8 without control characters as it stands; of any other name what
/// isn't graphic ASCII is shown as `?`.
pub fn shown(alloc: Global, name: &[u8]) -> Result<String, AllocError>
    ensures { IfOk result (λ text. string_bytes text ≡ shown_name name.now) }
{
    match str::from_utf8(name) {
        Ok(text) if !has_control(text) => text.to_owned(alloc),
        _ => shown_bytes(alloc, name),
    }
}

// Whether a text has a control character.
fn has_control(text: &str) -> bool
    ensures { result ≡ spec_has_control (chars text.now) }
{
    for c in text.chars() {
        if c.is_control() {
            return true;
        }
    }
    false
}

// A byte of a name that isn't printed as it stands.
fn shown_byte(byte: u8) -> u8
    ensures is { result ≡ spec_shown_byte byte }
    ensures ascii { result < 128 }
{
    if byte.is_ascii_graphic() || byte == b' ' {
        byte
    } else {
        b'?'
    }
}

fn shown_bytes(alloc: Global, name: &[u8]) -> Result<String, AllocError>
    ensures { IfOk result (λ text. string_bytes text ≡ map spec_shown_byte name.now) }
{
    let mut shown = String::new(alloc);
    for byte in name {
        shown.push(char::from(shown_byte(*byte)))?;
    }
    Ok(shown)
}

/// A text as [`shown`] gives it.
#[derive(Clone, Copy, Debug)]
pub struct Printable<'a>(pub &'a str);

impl fmt::Display for Printable<'_> {
    fn fmt<W: fmt::Write>(&self, f: &mut fmt::Formatter<W>) -> fmt::Result {
        if !has_control(self.0) {
            return f.write_str(self.0);
        }
        for byte in self.0.as_bytes() {
            f.write_char(char::from(shown_byte(*byte)))?;
        }
        Ok(())
    }
}
