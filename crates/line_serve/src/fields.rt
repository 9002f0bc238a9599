//! The fields of a line. One carriage return at the line's end is dropped, and what is left is cut
//! at its spaces (0x20); parts without bytes are no fields.
ghost use Rattle.std.specs.Prelude.{◌≡◌, ◌≤◌, ◌++◌, length, take, slice_get, true, false, IfOk};
ghost use Rattle.std.specs.Prelude.{OnErr, OnOk, MatchOption, ◌==◌, ◌∷◌, [], filter, not};
ghost use Rattle.std.specs.Option.{option_copied};
ghost use Rattle.std.specs.Str.Lines.{strip_carriage_return};
ghost use Rattle.line_serve.specs.Fields.{contents, fields, field_at as spec_field_at};
ghost use Rattle.line_serve.specs.Fields.{hex_value, is_dash};

use crate::bytes::ByteString;
use crate::digits::decode;
use crate::place::first_place;
use std::alloc::{AllocError, Global};

// The line without one carriage return at its end.
fn without_return(line: &[u8]) -> &[u8]
    ensures { result.now ≡ strip_carriage_return line.now }
{
    match line {
        [front @ .., b'\r'] => front,
        _ => line,
    }
}

/// How many fields the line has.
pub fn count_fields(line: &[u8]) -> usize
    ensures { result ≡ length (fields line.now) }
{
    without_return(line)
        .split(|b| *b == b' ')
        .filter(|part| !part.is_empty())
        .count()
}

/// The field at an index from 0, `None` where the line has not so many.
pub fn field(line: &[u8], i: usize) -> Option<&[u8]>
    ensures { option_copied result ≡ slice_get (fields line.now) i }
{
    without_return(line)
        .split(|b| *b == b' ')
        .filter(|part| !part.is_empty())
        .nth(i)
}

/// Cuts the line once, from its start: puts its first fields at the front of `out`, as many as
/// there is room for, and says how many.
pub fn cut_fields<'a>(line: &'a [u8], out: &mut [&'a [u8]]) -> usize
    ensures bound { result ≤ length out.old }
    ensures front { contents (take result out.new) ≡ take (length out.old) (fields line.now) }
{
    let parts = without_return(line)
        .split(|b| *b == b' ')
        .filter(|part| !part.is_empty());
    let mut count = 0;
    for part in parts {
        if count >= out.len() {
            break;
        }
        out[count] = part;
        count += 1;
    }
    count
}

// Keeps a part of a line that has bytes.
#[inline]
fn keep<'a>(all: &mut Vec<&'a [u8]>, part: &'a [u8]) -> Result<(), AllocError>
    ensures { OnOk result (contents all.new.items
        ≡ contents all.old.items ++ filter (λ x. not (length x == 0)) (part.now ∷ [])) }
{
    if !part.is_empty() {
        all.push(part)?;
    }
    Ok(())
}

/// All fields of the line, one after another.
pub fn all_fields<'a>(alloc: Global, line: &'a [u8]) -> Result<Vec<&'a [u8]>, AllocError>
    ensures { IfOk result (λ all. contents all.items ≡ fields line.now) }
{
    let text = without_return(line);
    let mut all = Vec::new(alloc);
    let mut done = 0;
    while let Some(at) = first_place(b' ', &text[done..]) {
        keep(&mut all, &text[done..done + at])?;
        done += at + 1;
    }
    keep(&mut all, &text[done..])?;
    Ok(all)
}

/// The field at an index, with no bytes where there are not so many.
pub fn field_at<'a>(fields: &[&'a [u8]], i: usize) -> &'a [u8]
    ensures { result.now ≡ spec_field_at (contents fields.now) i }
{
    match fields.get(i) {
        Some(&found) => found,
        None => &[],
    }
}

fn is_only_dash(field: &[u8]) -> bool
    ensures { result ≡ is_dash field.now }
{
    field.len() == 1 && field[0] == b'-'
}

/// Puts the bytes that a field stands for at the end of `out`: none for `-`, else those of its
/// hexadecimal digits, of either case. `false`, with `out` as it was, where the field is neither
/// `-` nor an even number of digits.
pub fn hex_field(_alloc: Global, bytes: &[u8], out: &mut ByteString) -> Result<bool, AllocError>
    ensures ok { IfOk result (λ found. MatchOption (hex_value bytes.now)
        ((found ≡ false) × (out.new ≡ out.old))
        (λ value. (found ≡ true) × (out.new ≡ out.old ++ value))) }
    ensures err { OnErr result (out.new ≡ out.old) }
{
    if is_only_dash(bytes) {
        return Ok(true);
    }
    let start = out.len();
    out.resize(start.saturating_add(bytes.len() / 2), 0)?;
    if decode(bytes, &mut out.as_mut_slice()[start..]) {
        return Ok(true);
    }
    out.truncate(start);
    Ok(false)
}
