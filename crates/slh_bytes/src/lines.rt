//! A key as a line `SET KEY`, as the programs of lines have it.
ghost use Rattle.std.specs.Prelude.{◌≡◌, ◌⊎◌, IfOk, Err, length};
ghost use Rattle.line_serve.specs.Fields.{contents, field_at};
ghost use Rattle.slh_bytes.specs.Heads.{key_len};
ghost use Rattle.slh_bytes.specs.Lines.{has_line as spec_has_line, is_blank as spec_is_blank};
ghost use Rattle.slh_bytes.specs.Lines.{is_line as spec_is_line, line_key, set_key};
ghost use Rattle.slh_bytes.specs.Lines.{sized_key as spec_sized_key};
ghost use Rattle.slh_bytes.specs.Lines.{words_of};
ghost use Rattle.slh_sets.specs.Sets.{set_named};
ghost use Rattle.slh_bytes.specs.declared.error.KeyFileError.TheVariants.{Memory};

use crate::error::KeyFileError;
use crate::key::{Key, Kind};
use line_serve::hex_field;
use slh_jobs::ByteString;
use slh_sets::Set;
use std::alloc::{AllocError, Global};

/// Whether a byte is a space, a tab or of an end of a line.
pub(crate) fn is_blank(byte: u8) -> bool
    ensures { result ≡ spec_is_blank byte }
{
    matches!(byte, b' ' | b'\t' | b'\r' | b'\n')
}

/// The words of a text, which are what stands between blanks.
pub(crate) fn words(alloc: Global, text: &[u8]) -> Result<Vec<&[u8]>, AllocError>
    ensures { IfOk result (λ all. contents all.items ≡ words_of text.now) }
{
    let parts = text.split(|b| is_blank(*b)).filter(|part| !part.is_empty());
    let mut all = Vec::new(alloc);
    for part in parts {
        all.push(part)?;
    }
    Ok(all)
}

/// The key of a kind and a set that has these bytes.
pub(crate) fn sized_key(kind: Kind, set: Set, bytes: ByteString) -> Result<Key, KeyFileError>
    ensures value { result ≡ spec_sized_key kind set bytes }
    ensures length { IfOk result (λ key. length key.bytes ≡ key_len kind key.set) }
{
    if bytes.len() == kind.key_len(set) {
        Ok(Key { set, bytes })
    } else if bytes.len() == kind.other().key_len(set) {
        Err(KeyFileError::OtherKind)
    } else {
        Err(KeyFileError::Length)
    }
}

// The key of a set's name and hexadecimal digits.
fn key_of_words(alloc: Global, kind: Kind, name: &[u8], digits: &[u8]) -> Result<Key, KeyFileError>
    ensures value { (result ≡ set_key kind digits.now (set_named name.now)) ⊎ (result ≡ Err Memory) }
    ensures length { IfOk result (λ key. length key.bytes ≡ key_len kind key.set) }
{
    let Some(set) = Set::from_name(name) else {
        return Err(KeyFileError::NoKey);
    };
    let mut bytes = ByteString::new(alloc);
    if !hex_field(alloc, digits, &mut bytes)? {
        return Err(KeyFileError::Hex);
    }
    sized_key(kind, set, bytes)
}

/// The key of a text of two words.
pub(crate) fn read_line(alloc: Global, kind: Kind, text: &[u8]) -> Result<Key, KeyFileError>
    ensures value { (result ≡ line_key kind text.now) ⊎ (result ≡ Err Memory) }
    ensures length { IfOk result (λ key. length key.bytes ≡ key_len kind key.set) }
{
    let words = words(alloc, text)?;
    if words.is_empty() {
        return Err(KeyFileError::Empty);
    }
    if words.len() != 2 {
        return Err(KeyFileError::NoKey);
    }
    key_of_words(alloc, kind, words[0], words[1])
}

// Whether two words are a set's name and a key of it.
fn is_line(alloc: Global, kind: Kind, name: &[u8], digits: &[u8]) -> Result<bool, AllocError>
    ensures { IfOk result (λ is. is ≡ spec_is_line kind name.now digits.now) }
{
    match key_of_words(alloc, kind, name, digits) {
        Ok(_) => Ok(true),
        Err(KeyFileError::Memory) => Err(AllocError),
        Err(_) => Ok(false),
    }
}

// The word at a place, where there is one.
fn word_at<'a>(words: &[&'a [u8]], at: usize) -> &'a [u8]
    ensures { result.now ≡ field_at (contents words.now) at }
{
    match words.get(at) {
        Some(word) => word,
        None => b"",
    }
}

/// Whether two words of a text that follow each other are a line `SET KEY` of a kind, whatever
/// stands before and behind them.
pub fn has_line(alloc: Global, kind: Kind, text: &[u8]) -> Result<bool, AllocError>
    ensures { IfOk result (λ has. has ≡ spec_has_line kind (words_of text.now)) }
{
    let words = words(alloc, text)?;
    let words = words.as_slice();
    for at in 0..words.len() {
        if is_line(alloc, kind, word_at(words, at), word_at(words, at + 1))? {
            return Ok(true);
        }
    }
    Ok(false)
}
