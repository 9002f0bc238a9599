//! Signature files: the bytes, as OpenSSL writes them, or hexadecimal digits of them.
ghost use Rattle.std.specs.Prelude.{◌≡◌, ◌==◌, IfOk};
ghost use Rattle.std.specs.List.{find};
ghost use Rattle.slh_bytes.specs.Lines.{squeezed};
ghost use Rattle.slh_bytes.specs.Signatures.{digits_value, signature_in};
ghost use Rattle.slh_sets.specs.Sets.{all_sets, scheme_for};
ghost use Rattle.slh_trees.specs.Checking.{signature_size};

use crate::reading::squeeze;
use line_serve::hex_field;
use slh_jobs::ByteString;
use slh_sets::Set;
use std::alloc::{AllocError, Global};

/// The bytes that a text's hexadecimal digits stand for. Blanks and ends of lines don't count.
/// `None`: it has other bytes, or an odd number of digits.
pub fn digits_of(alloc: Global, text: &[u8]) -> Result<Option<ByteString>, AllocError>
    ensures { IfOk result (λ bytes. bytes ≡ digits_value (squeezed text.now)) }
{
    let digits = squeeze(alloc, text)?;
    if digits.as_slice() == b"-".as_slice() {
        return Ok(None);
    }
    let mut bytes = ByteString::new(alloc);
    if hex_field(alloc, &digits, &mut bytes)? {
        Ok(Some(bytes))
    } else {
        Ok(None)
    }
}

/// The signature that a file has, for a key of a set: the file itself where it has as many bytes as
/// a signature or isn't hexadecimal, else the bytes that its digits stand for.
pub fn read_signature(alloc: Global, set: Set, file: ByteString) -> Result<ByteString, AllocError>
    ensures { IfOk result (λ signature. signature ≡ signature_in set file) }
{
    if file.len() == set.signature_len() {
        return Ok(file);
    }
    match digits_of(alloc, file.as_slice())? {
        Some(bytes) => Ok(bytes),
        None => Ok(file),
    }
}

/// The set whose signatures have so many bytes.
pub fn set_of_signature(len: usize) -> Option<Set>
    ensures { result ≡ find (λ set. signature_size (scheme_for set) == len) all_sets }
{
    Set::ALL
        .as_slice()
        .iter()
        .copied()
        .find(|set| set.signature_len() == len)
}
