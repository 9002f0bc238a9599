//! Key files written.
ghost use Rattle.std.specs.Prelude.{◌≡◌, ◌⊎◌, ◌↔◌, ◌≢◌, ◌≤◌, ◌++◌, IfOk, IfErr, OnOk, Ok, Err, length, codes};
ghost use Rattle.base64.specs.Engines.{standard};
ghost use Rattle.base64.specs.GeneralPurpose.{encode_of};
ghost use Rattle.slh_bytes.specs.Heads.{der_of, key_len};
ghost use Rattle.slh_bytes.specs.Reading.{key_in};
ghost use Rattle.slh_bytes.specs.Writing.{key_file, lines_of_64};
ghost use Rattle.slh_bytes.specs.declared.error.KeyFileError.TheVariants.{Length, Memory};
ghost use Rattle.slh_bytes.specs.declared.key.Kind.TheVariants.{Signing, Verifying};

use crate::error::KeyFileError;
use crate::heads::head;
use crate::key::{Key, Kind};
use crate::secret::SecretText;
use base64::engine::general_purpose::STANDARD;
use slh_jobs::ByteString;
use std::alloc::{AllocError, Global};

// How many symbols a line has.
const LINE: usize = 64;

/// The file of a signing key in PEM: lines of 64 symbols, each with a line feed, as OpenSSL writes
/// it. `Length`: it isn't a signing key of its set.
pub fn signing_key_file(alloc: Global, key: &Key) -> Result<SecretText, KeyFileError>
    ensures text { IfOk result
        (λ secret. secret.text ≡ key_file Signing key.now.set key.now.bytes) }
    ensures length { (result ≡ Err Length)
        ↔ (length key.now.bytes ≢ key_len Signing key.now.set) }
    ensures other { IfErr result (λ e. (e ≡ Length) ⊎ (e ≡ Memory)) }
{
    Ok(SecretText::new(encode_key(alloc, Kind::Signing, key)?))
}

/// The file of a verifying key, in the same form. `Length`: it isn't a verifying key of its set.
pub fn verifying_key_file(alloc: Global, key: &Key) -> Result<ByteString, KeyFileError>
    ensures text { IfOk result (λ text. text ≡ key_file Verifying key.now.set key.now.bytes) }
    ensures length { (result ≡ Err Length)
        ↔ (length key.now.bytes ≢ key_len Verifying key.now.set) }
    ensures other { IfErr result (λ e. (e ≡ Length) ⊎ (e ≡ Memory)) }
{
    encode_key(alloc, Kind::Verifying, key)
}

// The file of a key of a kind.
fn encode_key(alloc: Global, kind: Kind, key: &Key) -> Result<ByteString, KeyFileError>
    ensures text { IfOk result (λ text. text ≡ key_file kind key.now.set key.now.bytes) }
    ensures length { (result ≡ Err Length)
        ↔ (length key.now.bytes ≢ key_len kind key.now.set) }
    ensures other { IfErr result (λ e. (e ≡ Length) ⊎ (e ≡ Memory)) }
{
    let der = key_der(alloc, kind, key)?;
    let text = block_text(alloc, kind.begin_line(), der.as_slice(), kind.end_line())?;
    Ok(text)
}

/// The DER of a key. `Length`: it isn't a key of its kind and set.
pub(crate) fn key_der(alloc: Global, kind: Kind, key: &Key) -> Result<ByteString, KeyFileError>
    ensures value { IfOk result (λ der. der ≡ der_of kind key.now.set key.now.bytes) }
    ensures most { IfOk result (λ der. length der ≤ 150) }
    ensures length { (result ≡ Err Length)
        ↔ (length key.now.bytes ≢ key_len kind key.now.set) }
    ensures other { IfErr result (λ e. (e ≡ Length) ⊎ (e ≡ Memory)) }
{
    if key.bytes.len() != kind.key_len(key.set) {
        return Err(KeyFileError::Length);
    }
    let mut der = ByteString::from_slice(alloc, head(kind, key.set))?;
    der.push_slice(key.bytes.as_slice())?;
    Ok(der)
}

/// The Base64 of bytes in lines of 64 symbols, between two lines.
pub(crate) fn block_text(
    alloc: Global,
    begin_line: &[u8],
    bytes: &[u8],
    end_line: &[u8],
) -> Result<ByteString, AllocError>
    ensures { IfOk result (λ text. text ≡ begin_line.now
        ++ lines_of_64 (encode_of standard bytes.now) ++ end_line.now) }
{
    let symbols = STANDARD.encode(alloc, bytes)?;
    let mut text = ByteString::from_slice(alloc, begin_line)?;
    push_lines(&mut text, symbols.as_bytes())?;
    text.push_slice(end_line)?;
    Ok(text)
}

// Puts lines of 64 bytes at the end.
fn push_lines(text: &mut ByteString, bytes: &[u8]) -> Result<(), AllocError>
    ensures { OnOk result (text.new ≡ text.old ++ lines_of_64 bytes.now) }
{
    for i in 0..bytes.len().div_ceil(LINE) {
        let rest = &bytes[LINE * i..];
        text.push_slice(&rest[..rest.len().min(LINE)])?;
        text.push_slice(b"\n")?;
    }
    Ok(())
}
