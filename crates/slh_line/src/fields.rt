//! What the fields of a line stand for.
ghost use Rattle.std.specs.Prelude.{◌≡◌, ◌-◌, ◌<◌, ◌⊎◌, Err, IfOk, [], length, slice_index_or};
ghost use Rattle.std.specs.Option.{option_copied};
ghost use Rattle.line_serve.specs.Fields.{contents, field_at as spec_field_at};
ghost use Rattle.slh_line.specs.Readings.{all_bytes, all_bytes_at, bytes_at, bytes_of};
ghost use Rattle.slh_line.specs.Readings.{checked_randomizer, randomizer_at};
ghost use Rattle.slh_line.specs.Readings.{signing_key, verifying_key};
ghost use Rattle.slh_line.specs.declared.line_error.LineError.TheVariants.{Memory};

use crate::line_error::LineError;
use line_serve::{ByteString, Words, field_at, hex_field};
use slh_core::array::ArraySize;
use slh_core::params::chain_sizes;
use slh_dsa::{SetSizes, SigningKey, VerifyingKey};
use std::alloc::Global;

/// The bytes that a field stands for, which is `-` or hexadecimal.
pub fn field_bytes(alloc: Global, field: &[u8]) -> Result<ByteString, LineError>
    ensures { (result ≡ bytes_of field.now) ⊎ (result ≡ Err Memory) }
{
    let mut bytes = ByteString::new(alloc);
    if hex_field(alloc, field, &mut bytes)? {
        Ok(bytes)
    } else {
        Err(LineError::Hex)
    }
}

/// The bytes that the field at an index stands for.
pub fn bytes_at(alloc: Global, fields: &[&[u8]], i: usize) -> Result<ByteString, LineError>
    ensures { (result ≡ bytes_at (contents fields.now) i) ⊎ (result ≡ Err Memory) }
{
    field_bytes(alloc, field_at(fields, i))
}

fn all_bytes(alloc: Global, fields: &[&[u8]]) -> Result<Words, LineError>
    ensures value { (result ≡ all_bytes (contents fields.now)) ⊎ (result ≡ Err Memory) }
    ensures count { IfOk result (λ all. length all ≡ length fields.now) }
{
    let mut all = Words::new(alloc);
    for field in fields {
        all.push_string(field_bytes(alloc, field)?)?;
    }
    Ok(all)
}

/// The bytes that each field from an index on stands for. There may be none.
#[tactic(auto, using(crate::proofs::ByteFields::from_one_on))]
pub fn all_bytes_at(alloc: Global, fields: &[&[u8]], from: usize) -> Result<Words, LineError>
    ensures value { (result ≡ all_bytes_at (contents fields.now) from) ⊎ (result ≡ Err Memory) }
    ensures count { IfOk result (λ all. length all ≡ length fields.now - from) }
{
    if from >= fields.len() {
        return Ok(Words::new(alloc));
    }
    all_bytes(alloc, &fields[from..])
}

/// The randomizer that the field at an index stands for, which may be `none`.
pub fn randomizer_at(
    alloc: Global,
    fields: &[&[u8]],
    i: usize,
) -> Result<Option<ByteString>, LineError>
    ensures { (result ≡ randomizer_at (contents fields.now) i) ⊎ (result ≡ Err Memory) }
{
    if field_at(fields, i) == b"none".as_slice() {
        return Ok(None);
    }
    Ok(Some(bytes_at(alloc, fields, i)?))
}

/// The signing key of these bytes. `Length`: they aren't 4n.
pub fn signing_key<P: SetSizes>(bytes: &[u8]) -> Result<SigningKey<P>, LineError>
    ensures { result ≡ signing_key P.scheme bytes.now }
{
    match SigningKey::try_from(bytes) {
        Ok(key) => Ok(key),
        Err(_) => Err(LineError::Length),
    }
}

/// The verifying key of these bytes. `Length`: they aren't 2n.
pub fn verifying_key<P: SetSizes>(bytes: &[u8]) -> Result<VerifyingKey<P>, LineError>
    ensures { result ≡ verifying_key P.scheme bytes.now }
{
    match VerifyingKey::try_from(bytes) {
        Ok(key) => Ok(key),
        Err(_) => Err(LineError::Length),
    }
}

/// The randomizer, if there is one. `Randomizer`: it hasn't n bytes.
pub fn checked_randomizer<P: SetSizes>(
    randomizer: Option<ByteString>,
) -> Result<Option<ByteString>, LineError>
    ensures { result ≡ checked_randomizer P.scheme randomizer }
{
    chain_sizes::<P>();
    match randomizer {
        Some(bytes) if bytes.len() != P::N::USIZE => Err(LineError::Randomizer),
        _ => Ok(randomizer),
    }
}

/// The bytes of a string, where there is one, as signing takes them.
pub fn as_bytes(string: &Option<ByteString>) -> Option<&[u8]>
    ensures { option_copied result ≡ string.now }
{
    match string {
        Some(string) => Some(string.as_slice()),
        None => None,
    }
}

/// The word at an index, which there has to be.
pub fn word_at(words: &Words, i: usize) -> &[u8]
    requires { i < length words.now }
    ensures { result.now ≡ slice_index_or words.now i [] }
{
    match words.get(i) {
        Some(word) => word,
        None => unreachable!(),
    }
}
