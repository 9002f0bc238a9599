//! Files decrypted.
ghost use Rattle.std.specs.Prelude.{◌≡◌, ◌≤◌, ◌^◌, ◌⊎◌, Ok, Err, MatchResult, length};
ghost use Rattle.encrypted_key.specs.Reading.{begins_key, decrypted, is_private_key, opened, told};
ghost use Rattle.encrypted_key.specs.declared.error.EncryptedKeyError.TheVariants.{Memory};

use crate::der::{SEQUENCE, alone};
use crate::error::EncryptedKeyError;
use crate::parts::{Parts, parts_of};
use aes::{BLOCK_BYTES, RoundKeys, unpadded_len};
use pbkdf2::derive;
use std::alloc::Global;

// Whether a version 0 or 1 and an algorithm stand first.
fn begins_key(content: &[u8]) -> bool
    ensures { result ≡ begins_key content.now }
{
    content.starts_with(b"\x02\x01\x00\x30") || content.starts_with(b"\x02\x01\x01\x30")
}

// Whether the bytes are one sequence that begins as a private key does.
#[tactic(auto, unfolding(crate::specs::Reading::is_private_key))]
fn is_private_key(bytes: &[u8]) -> bool
    ensures { result ≡ is_private_key bytes.now }
{
    match alone(SEQUENCE, bytes) {
        Some(content) => begins_key(content),
        None => false,
    }
}

// The private key of what is told.
fn opened(alloc: Global, passphrase: &[u8], parts: &Parts<'_>) -> Result<Vec<u8>, EncryptedKeyError>
    requires passphrase { length passphrase.now ≤ 2 ^ 60 }
    requires salt { length parts.now.salt.now ≤ 255 }
    requires some { 1 ≤ parts.now.count }
    requires iv { length parts.now.iv.now ≡ 16 }
    ensures { let told = told parts.now.cipher parts.now.salt.now parts.now.count
        parts.now.iv.now parts.now.text.now in
        MatchResult result
        (λ key. opened passphrase.now told ≡ Ok key.items)
        (λ e. (opened passphrase.now told ≡ Err e) ⊎ (e ≡ Memory)) }
{
    let derived = derive(passphrase, parts.salt, parts.count);
    let keys = RoundKeys::new(&derived[..parts.cipher.key_len()]);
    let mut iv = [0u8; BLOCK_BYTES];
    iv.copy_from_slice(parts.iv);
    let mut plain = keys.decrypt_blocks(alloc, &iv, parts.text)?;
    let Some(n) = unpadded_len(&plain) else {
        return Err(EncryptedKeyError::Passphrase);
    };
    plain.truncate(n);
    if is_private_key(&plain) {
        Ok(plain)
    } else {
        Err(EncryptedKeyError::Passphrase)
    }
}

/// The private key of a file under a passphrase: the bytes of its PKCS #8. Nothing is derived of the
/// passphrase before all refusals but `Passphrase` are ruled out.
pub fn decrypt(alloc: Global, file: &[u8], passphrase: &[u8]) -> Result<Vec<u8>, EncryptedKeyError>
    requires { length passphrase.now ≤ 2 ^ 60 }
    ensures exact { MatchResult result
        (λ key. decrypted passphrase.now file.now ≡ Ok key.items)
        (λ e. (decrypted passphrase.now file.now ≡ Err e) ⊎ (e ≡ Memory)) }
{
    let parts = parts_of(file)?;
    opened(alloc, passphrase, &parts)
}
