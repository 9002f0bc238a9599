//! What `slh inspect` tells of the bytes of a file.
ghost use Rattle.std.specs.Prelude.{◌≡◌, ◌⊎◌, ◌++◌, length, Err, IfErr, IfOk, OnOk};
ghost use Rattle.slh_bytes.specs.Inspection.{key_text as spec_key_text, root_text};
ghost use Rattle.slh_bytes.specs.Inspection.{other_text as spec_other_text};
ghost use Rattle.slh_bytes.specs.Inspection.{set_text as spec_set_text};
ghost use Rattle.slh_bytes.specs.Inspection.{signature_text as spec_signature_text};
ghost use Rattle.slh_bytes.specs.Inspection.{signing_key_text, text_by, told_text};
ghost use Rattle.slh_bytes.specs.Encrypted.{told_text_under};
ghost use Rattle.slh_bytes.specs.Heads.{key_len};
ghost use Rattle.slh_bytes.specs.Reading.{key_in};
ghost use Rattle.slh_bytes.specs.declared.error.KeyFileError.TheVariants.{Memory};
ghost use Rattle.slh_bytes.specs.declared.key.Kind.TheVariants.{Signing, Verifying};

use crate::encrypted::read_key_under;
use crate::error::KeyFileError;
use crate::key::{Key, Kind};
use crate::making::{has_own_root, verifying_key};
use crate::passphrase::Passphrase;
use crate::reading::read_key;
use crate::signatures::{digits_of, set_of_signature};
use line_serve::push_hex_line;
use slh_jobs::ByteString;
use slh_sets::Set;
use std::alloc::{AllocError, Global};

/// What a file's bytes are: a key or a signature, of which set, and the verifying key of a key. Of a
/// signing key nothing else is told but whether its root is that of its seeds. `None`: they are
/// neither.
pub fn inspected(alloc: Global, file: &[u8]) -> Result<Option<ByteString>, KeyFileError>
    ensures { (result ≡ told_text file.now) ⊎ (result ≡ Err Memory) }
{
    told_of(alloc, file, read_key(alloc, Kind::Signing, file))
}

/// The same, where a signing key may be encrypted under this passphrase.
pub fn inspected_under(
    alloc: Global,
    passphrase: &Passphrase,
    file: &[u8],
) -> Result<Option<ByteString>, KeyFileError>
    ensures { (result ≡ told_text_under passphrase.now file.now) ⊎ (result ≡ Err Memory) }
{
    told_of(alloc, file, read_key_under(alloc, passphrase, file))
}

// What is told of a file's bytes, of which this was read as a signing key.
fn told_of(
    alloc: Global,
    file: &[u8],
    read: Result<Key, KeyFileError>,
) -> Result<Option<ByteString>, KeyFileError>
    requires { IfOk read (λ key. length key.bytes ≡ key_len Signing key.set) }
    ensures { (result ≡ text_by file.now read) ⊎ (result ≡ Err Memory) }
{
    match read {
        Ok(key) => Ok(Some(signing_text(alloc, &key)?)),
        Err(KeyFileError::OtherKind) => other_text(alloc, file),
        Err(KeyFileError::NoKey) => Ok(signature_text(alloc, file)?),
        Err(error) => Err(error),
    }
}

// The text for a file with a key of the other kind.
fn other_text(alloc: Global, file: &[u8]) -> Result<Option<ByteString>, KeyFileError>
    ensures { (result ≡ spec_other_text (key_in Verifying file.now)) ⊎ (result ≡ Err Memory) }
{
    let key = read_key(alloc, Kind::Verifying, file)?;
    Ok(Some(key_text(alloc, "verifying key", &key)?))
}

fn signing_text(alloc: Global, key: &Key) -> Result<ByteString, KeyFileError>
    requires { length key.now.bytes ≡ key_len Signing key.now.set }
    ensures value { IfOk result (λ text. text ≡ signing_key_text key.now) }
    ensures error { IfErr result (λ e. e ≡ Memory) }
{
    let mut text = key_text(alloc, "signing key", &verifying_key(alloc, key)?)?;
    let Ok(is_own) = has_own_root(alloc, key) else {
        return Err(KeyFileError::Memory);
    };
    push_root(&mut text, is_own)?;
    Ok(text)
}

fn push_root(text: &mut ByteString, is_own: bool) -> Result<(), AllocError>
    ensures { OnOk result (text.new ≡ text.old ++ root_text is_own) }
{
    if is_own {
        text.push_slice(b"root: that of its seeds\n")
    } else {
        text.push_slice(b"root: not that of its seeds\n")
    }
}

fn key_text(alloc: Global, what: &str, key: &Key) -> Result<ByteString, AllocError>
    ensures { IfOk result (λ text. text ≡ spec_key_text what.now key.now.set key.now.bytes) }
{
    let mut text = set_text(alloc, what, key.set)?;
    push_hex_line(&mut text, b"verifying key: ", key.bytes.as_slice())?;
    Ok(text)
}

fn set_text(alloc: Global, what: &str, set: Set) -> Result<ByteString, AllocError>
    ensures { IfOk result (λ text. text ≡ spec_set_text what.now set) }
{
    let mut text = ByteString::from_slice(alloc, what.as_bytes())?;
    text.push_slice(b"\nset: ")?;
    text.push_slice(set.name().as_bytes())?;
    text.push_slice(b"\n")?;
    Ok(text)
}

// The text for a file without a key, where it is a signature.
fn signature_text(alloc: Global, file: &[u8]) -> Result<Option<ByteString>, AllocError>
    ensures { IfOk result (λ text. text ≡ spec_signature_text file.now) }
{
    if let Some(set) = set_of_signature(file.len()) {
        return Ok(Some(set_text(alloc, "signature", set)?));
    }
    if let Some(bytes) = digits_of(alloc, file)?
        && let Some(set) = set_of_signature(bytes.len())
    {
        return Ok(Some(set_text(alloc, "signature in hexadecimal", set)?));
    }
    Ok(None)
}
