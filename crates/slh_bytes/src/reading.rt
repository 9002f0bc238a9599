//! Key files read.
ghost use Rattle.std.specs.Prelude.{◌≡◌, ◌⊎◌, ◌≤◌, IfOk, IfSome, Ok, Err, length, not};
ghost use Rattle.std.specs.List.{find};
ghost use Rattle.slh_bytes.specs.Heads.{is_der, key_len};
ghost use Rattle.slh_bytes.specs.Jobs.{own_key as spec_own_key};
ghost use Rattle.slh_sets.specs.Sets.{all_sets};
ghost use Rattle.slh_bytes.specs.Lines.{is_blank as spec_is_blank, squeezed};
ghost use Rattle.slh_bytes.specs.Reading.{body_key, der_key, der_error as spec_der_error};
ghost use Rattle.slh_bytes.specs.Reading.{key_in, label_error as spec_label_error};
ghost use Rattle.slh_bytes.specs.Reading.{names_set as spec_names_set, pem_key};
ghost use Rattle.slh_bytes.specs.declared.error.KeyFileError.TheVariants.{Memory};
ghost use Rattle.slh_bytes.specs.declared.key.Kind.TheVariants.{Signing};

use crate::blocks::{BEGIN, block_of};
use crate::error::KeyFileError;
use crate::heads::{algorithm, head};
use crate::key::{Key, Kind};
use crate::lines::{is_blank, read_line};
use crate::making::has_own_root;
use crate::places::place_of;
use base64::DecodeAllocError;
use base64::engine::general_purpose::STANDARD;
use slh_jobs::{ByteString, Error};
use slh_sets::Set;
use std::alloc::{AllocError, Global};

/// The key of a key file: of its one PEM block, or of a line `SET KEY`.
pub fn read_key(alloc: Global, kind: Kind, text: &[u8]) -> Result<Key, KeyFileError>
    ensures exact { (result ≡ key_in kind text.now) ⊎ (result ≡ Err Memory) }
    ensures length { IfOk result (λ key. length key.bytes ≡ key_len kind key.set) }
{
    if place_of(text, BEGIN).is_some() {
        read_pem(alloc, kind, text)
    } else {
        read_line(alloc, kind, text)
    }
}

/// The signing key of a key file, which is used only where it is the one that its own seeds make.
/// `Root`: its root is another.
pub fn read_signing_key(alloc: Global, text: &[u8]) -> Result<Key, KeyFileError>
    ensures exact { (result ≡ spec_own_key (key_in Signing text.now)) ⊎ (result ≡ Err Memory) }
{
    own_key(alloc, read_key(alloc, Kind::Signing, text)?)
}

/// A signing key of 4n bytes, where it is the one that its own seeds make.
pub(crate) fn own_key(alloc: Global, key: Key) -> Result<Key, KeyFileError>
    requires { length key.bytes ≡ key_len Signing key.set }
    ensures { (result ≡ spec_own_key (Ok key)) ⊎ (result ≡ Err Memory) }
{
    match has_own_root(alloc, &key) {
        Ok(true) => Ok(key),
        Ok(false) => Err(KeyFileError::Root),
        Err(Error::Memory) => Err(KeyFileError::Memory),
        Err(_) => unreachable!(),
    }
}

fn read_pem(alloc: Global, kind: Kind, text: &[u8]) -> Result<Key, KeyFileError>
    ensures value { (result ≡ pem_key kind text.now) ⊎ (result ≡ Err Memory) }
    ensures length { IfOk result (λ key. length key.bytes ≡ key_len kind key.set) }
{
    let block = block_of(text)?;
    if block.label == kind.label() {
        read_body(alloc, kind, block.body)
    } else {
        Err(label_error(kind, block.label))
    }
}

// Why a block with another label isn't read.
fn label_error(kind: Kind, label: &[u8]) -> KeyFileError
    ensures { result ≡ spec_label_error kind label.now }
{
    if label == b"ENCRYPTED PRIVATE KEY".as_slice() {
        KeyFileError::Encrypted
    } else if label == kind.other().label() {
        KeyFileError::OtherKind
    } else {
        KeyFileError::OtherLabel
    }
}

/// The bytes that aren't blanks.
pub(crate) fn squeeze(alloc: Global, text: &[u8]) -> Result<Vec<u8>, AllocError>
    ensures { IfOk result (λ rest. rest.items ≡ squeezed text.now) }
{
    text.iter().copied().filter(is_kept).collect(alloc)
}

fn is_kept(byte: &u8) -> bool
    ensures { result ≡ not (spec_is_blank byte.now) }
{
    !is_blank(*byte)
}

// The key of what stands between a block's lines.
fn read_body(alloc: Global, kind: Kind, body: &[u8]) -> Result<Key, KeyFileError>
    ensures value { (result ≡ body_key kind body.now) ⊎ (result ≡ Err Memory) }
    ensures length { IfOk result (λ key. length key.bytes ≡ key_len kind key.set) }
{
    let symbols = squeeze(alloc, body)?;
    match STANDARD.decode(alloc, &symbols) {
        Ok(der) => read_der(alloc, kind, &der),
        Err(DecodeAllocError::OutOfMemory) => Err(KeyFileError::Memory),
        Err(_) => Err(KeyFileError::Base64),
    }
}

/// The key whose DER these bytes are.
pub(crate) fn read_der(alloc: Global, kind: Kind, der: &[u8]) -> Result<Key, KeyFileError>
    ensures value { (result ≡ der_key kind der.now) ⊎ (result ≡ Err Memory) }
    ensures length { IfOk result (λ key. length key.bytes ≡ key_len kind key.set) }
{
    let Some(set) = set_of_der(kind, der) else {
        return Err(der_error(der));
    };
    let bytes = ByteString::from_slice(alloc, &der[der.len() - kind.key_len(set)..])?;
    Ok(Key { set, bytes })
}

fn set_of_der(kind: Kind, der: &[u8]) -> Option<Set>
    ensures value { result ≡ find (λ set. is_der kind set der.now) all_sets }
    ensures within { IfSome result (λ set. key_len kind set ≤ length der.now) }
{
    Set::ALL
        .as_slice()
        .iter()
        .copied()
        .find(|set| has_head(kind, *set, der))
}

// Whether these bytes are the DER of a key of a set.
fn has_head(kind: Kind, set: Set, der: &[u8]) -> bool
    ensures { result ≡ is_der kind set der.now }
{
    match der.strip_prefix(head(kind, set)) {
        Some(key) => key.len() == kind.key_len(set),
        None => false,
    }
}

// Why these bytes are no DER of a key.
fn der_error(der: &[u8]) -> KeyFileError
    ensures { result ≡ spec_der_error der.now }
{
    match named_set(der) {
        Some(_) => KeyFileError::Length,
        None => KeyFileError::Algorithm,
    }
}

// The first set whose identifier stands in the bytes.
fn named_set(der: &[u8]) -> Option<Set>
    ensures { result ≡ find (spec_names_set der.now) all_sets }
{
    Set::ALL
        .as_slice()
        .iter()
        .copied()
        .find(|set| names_set(der, *set))
}

// Whether the identifier of a set stands in the bytes.
fn names_set(der: &[u8], set: Set) -> bool
    ensures { result ≡ spec_names_set der.now set }
{
    place_of(der, algorithm(set)).is_some()
}
