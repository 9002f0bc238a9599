//! Files written.
ghost use Rattle.std.specs.Prelude.{◌≡◌, ◌+◌, ◌<◌, ◌≤◌, ◌^◌, ◌++◌, IfOk, length};
ghost use Rattle.encrypted_key.specs.Der.{element};
ghost use Rattle.encrypted_key.specs.Form.{sequence};
ghost use Rattle.encrypted_key.specs.Writing.{derivation_of, encrypted, encryption_of, file_of};
ghost use Rattle.encrypted_key.specs.Writing.{number_bytes, parameters, scheme_of, text_of};

use crate::cipher::{Cipher, HMAC_WITH_SHA256};
use crate::der::{IDENTIFIER, INTEGER, OCTETS, SEQUENCE, element, joined};
use crate::parts::MAX_ITERATIONS;
use aes::{Block, RoundKeys, padded};
use pbkdf2::derive;
use std::alloc::{AllocError, Global};

/// The most bytes of a private key that are encrypted.
pub const MAX_KEY: usize = 32768;

// The content of an INTEGER.
#[tactic(auto, unfolding(crate::specs::Writing::number_bytes))]
fn number_bytes(alloc: Global, n: u32) -> Result<Vec<u8>, AllocError>
    requires { n < 2 ^ 31 }
    ensures value { IfOk result (λ bytes. bytes.items ≡ number_bytes n) }
    ensures length { IfOk result (λ bytes. length bytes.items ≤ 4) }
{
    let all = [
        (n / 16777216) as u8,
        (n / 65536 % 256) as u8,
        (n / 256 % 256) as u8,
        (n % 256) as u8,
    ];
    if n < 0x80 {
        Vec::from_slice(alloc, &all[3..])
    } else if n < 0x8000 {
        Vec::from_slice(alloc, &all[2..])
    } else if n < 0x800000 {
        Vec::from_slice(alloc, &all[1..])
    } else {
        Vec::from_slice(alloc, &all)
    }
}

// A sequence of bytes and others behind them.
fn sequence(alloc: Global, front: &[u8], back: &[u8]) -> Result<Vec<u8>, AllocError>
    requires { length front.now + length back.now < 65536 }
    ensures value { IfOk result (λ bytes. bytes.items ≡ element sequence (front.now ++ back.now)) }
    ensures length { IfOk result (λ bytes. length bytes.items
        ≤ length front.now + length back.now + 4) }
{
    let content = joined(alloc, front, back)?;
    element(alloc, SEQUENCE, &content)
}

// The parameters of PBKDF2.
fn parameters(alloc: Global, salt: &Block, count: u32) -> Result<Vec<u8>, AllocError>
    requires { count ≤ MAX_ITERATIONS }
    ensures value { IfOk result (λ bytes. bytes.items ≡ parameters salt.now count) }
    ensures length { IfOk result (λ bytes. length bytes.items ≤ 50) }
{
    let salt = element(alloc, OCTETS, salt)?;
    let number = number_bytes(alloc, count)?;
    let count = element(alloc, INTEGER, &number)?;
    let both = joined(alloc, &salt, &count)?;
    sequence(alloc, &both, HMAC_WITH_SHA256)
}

// PBKDF2 with its parameters.
#[tactic(auto, unfolding(crate::specs::Writing::derivation_of))]
fn derivation_of(alloc: Global, salt: &Block, count: u32) -> Result<Vec<u8>, AllocError>
    requires { count ≤ MAX_ITERATIONS }
    ensures value { IfOk result (λ bytes. bytes.items ≡ derivation_of salt.now count) }
    ensures length { IfOk result (λ bytes. length bytes.items ≤ 70) }
{
    let name = element(alloc, IDENTIFIER, b"\x2a\x86\x48\x86\xf7\x0d\x01\x05\x0c")?;
    let parameters = parameters(alloc, salt, count)?;
    sequence(alloc, &name, &parameters)
}

// AES-256 in CBC with its initial vector.
#[tactic(auto, unfolding(crate::specs::Writing::encryption_of))]
fn encryption_of(alloc: Global, iv: &Block) -> Result<Vec<u8>, AllocError>
    ensures value { IfOk result (λ bytes. bytes.items ≡ encryption_of iv.now) }
    ensures length { IfOk result (λ bytes. length bytes.items ≤ 40) }
{
    let name = element(alloc, IDENTIFIER, b"\x60\x86\x48\x01\x65\x03\x04\x01\x2a")?;
    let iv = element(alloc, OCTETS, iv)?;
    sequence(alloc, &name, &iv)
}

// PBES2 with both.
#[tactic(auto, unfolding(crate::specs::Writing::scheme_of))]
fn scheme_of(alloc: Global, salt: &Block, count: u32, iv: &Block) -> Result<Vec<u8>, AllocError>
    requires { count ≤ MAX_ITERATIONS }
    ensures value { IfOk result (λ bytes. bytes.items ≡ scheme_of salt.now count iv.now) }
    ensures length { IfOk result (λ bytes. length bytes.items ≤ 140) }
{
    let name = element(alloc, IDENTIFIER, b"\x2a\x86\x48\x86\xf7\x0d\x01\x05\x0d")?;
    let derivation = derivation_of(alloc, salt, count)?;
    let encryption = encryption_of(alloc, iv)?;
    let both = sequence(alloc, &derivation, &encryption)?;
    sequence(alloc, &name, &both)
}

// What is encrypted of a private key.
fn text_of(
    alloc: Global,
    private_key: &[u8],
    passphrase: &[u8],
    salt: &Block,
    iv: &Block,
    count: u32,
) -> Result<Vec<u8>, AllocError>
    requires passphrase { length passphrase.now ≤ 2 ^ 60 }
    requires some { 1 ≤ count }
    requires key { length private_key.now ≤ MAX_KEY }
    ensures value { IfOk result (λ bytes. bytes.items
        ≡ text_of passphrase.now salt.now count iv.now private_key.now) }
    ensures length { IfOk result (λ bytes. length bytes.items ≤ 33000) }
{
    let derived = derive(passphrase, salt, count);
    let keys = RoundKeys::new(&derived[..Cipher::Aes256.key_len()]);
    let whole = padded(alloc, private_key)?;
    let text = keys.encrypt_blocks(alloc, iv, &whole)?;
    Ok(text)
}

/// The file of a private key, in PKCS #8, under a passphrase. The salt and the initial vector are
/// random, and new for each file.
#[tactic(auto, unfolding(crate::specs::Writing::file_of))]
pub fn encrypt(
    alloc: Global,
    private_key: &[u8],
    passphrase: &[u8],
    salt: &Block,
    iv: &Block,
    iterations: u32,
) -> Result<Vec<u8>, AllocError>
    requires passphrase { length passphrase.now ≤ 2 ^ 60 }
    requires some { 1 ≤ iterations }
    requires most { iterations ≤ MAX_ITERATIONS }
    requires key { length private_key.now ≤ MAX_KEY }
    ensures { IfOk result (λ file. file.items
        ≡ encrypted passphrase.now salt.now iterations iv.now private_key.now) }
{
    let scheme = scheme_of(alloc, salt, iterations, iv)?;
    let text = text_of(alloc, private_key, passphrase, salt, iv, iterations)?;
    let body = element(alloc, OCTETS, &text)?;
    sequence(alloc, &scheme, &body)
}
