//! What a file tells before it is decrypted.
ghost use Rattle.std.specs.Prelude.{◌≡◌, ◌≤◌, ◌⊎◌, Ok, Err, IfOk, MatchResult, length};
ghost use Rattle.encrypted_key.specs.Reading.{derivation, encryption, iterations, outer, salted};
ghost use Rattle.encrypted_key.specs.Reading.{scheme, told, told_in};

use crate::cipher::Cipher;
use crate::der::{IDENTIFIER, INTEGER, OCTETS, SEQUENCE, alone, cut, number_of};
use crate::error::EncryptedKeyError;

/// The most iterations that a file may ask for.
pub const MAX_ITERATIONS: u32 = 10_000_000;

// The most bytes of a salt.
const MAX_SALT: usize = 255;

// The algorithm, and what is encrypted.
#[tactic(auto, unfolding(crate::specs::Reading::outer))]
fn outer(file: &[u8]) -> Result<(&[u8], &[u8]), EncryptedKeyError>
    ensures { MatchResult result (λ parts. outer file.now ≡ Ok (parts.0.now, parts.1.now))
        (λ e. outer file.now ≡ Err e) }
{
    let Some(all) = alone(SEQUENCE, file) else {
        return Err(EncryptedKeyError::Form);
    };
    let Some((algorithm, body)) = cut(SEQUENCE, all) else {
        return Err(EncryptedKeyError::Form);
    };
    let Some(text) = alone(OCTETS, body) else {
        return Err(EncryptedKeyError::Form);
    };
    Ok((algorithm, text))
}

// The key derivation and the cipher of PBES2.
#[tactic(auto, unfolding(crate::specs::Reading::scheme))]
fn scheme(algorithm: &[u8]) -> Result<(&[u8], &[u8]), EncryptedKeyError>
    ensures { MatchResult result (λ parts. scheme algorithm.now ≡ Ok (parts.0.now, parts.1.now))
        (λ e. scheme algorithm.now ≡ Err e) }
{
    let Some((name, rest)) = cut(IDENTIFIER, algorithm) else {
        return Err(EncryptedKeyError::Form);
    };
    if name != b"\x2a\x86\x48\x86\xf7\x0d\x01\x05\x0d".as_slice() {
        return Err(EncryptedKeyError::Scheme);
    }
    let Some(both) = alone(SEQUENCE, rest) else {
        return Err(EncryptedKeyError::Form);
    };
    let Some((derivation, more)) = cut(SEQUENCE, both) else {
        return Err(EncryptedKeyError::Form);
    };
    let Some(encryption) = alone(SEQUENCE, more) else {
        return Err(EncryptedKeyError::Form);
    };
    Ok((derivation, encryption))
}

// The parameters of PBKDF2.
#[tactic(auto, unfolding(crate::specs::Reading::derivation))]
fn derivation(content: &[u8]) -> Result<&[u8], EncryptedKeyError>
    ensures { MatchResult result (λ parameters. derivation content.now ≡ Ok parameters.now)
        (λ e. derivation content.now ≡ Err e) }
{
    let Some((name, rest)) = cut(IDENTIFIER, content) else {
        return Err(EncryptedKeyError::Form);
    };
    if name != b"\x2a\x86\x48\x86\xf7\x0d\x01\x05\x0c".as_slice() {
        return Err(EncryptedKeyError::Scheme);
    }
    let Some(parameters) = alone(SEQUENCE, rest) else {
        return Err(EncryptedKeyError::Form);
    };
    Ok(parameters)
}

// The cipher, and its initial vector.
#[tactic(auto, unfolding(crate::specs::Reading::encryption))]
fn encryption(content: &[u8]) -> Result<(Cipher, &[u8]), EncryptedKeyError>
    ensures { MatchResult result (λ parts. encryption content.now ≡ Ok (parts.0, parts.1.now))
        (λ e. encryption content.now ≡ Err e) }
{
    let Some((name, rest)) = cut(IDENTIFIER, content) else {
        return Err(EncryptedKeyError::Form);
    };
    let Some(cipher) = Cipher::of_name(name) else {
        return Err(EncryptedKeyError::Scheme);
    };
    let Some(iv) = alone(OCTETS, rest) else {
        return Err(EncryptedKeyError::Form);
    };
    Ok((cipher, iv))
}

// A count of iterations.
#[tactic(auto, unfolding(crate::specs::Reading::iterations))]
fn iterations(content: &[u8]) -> Result<u32, EncryptedKeyError>
    ensures value { result ≡ iterations content.now }
    ensures some { IfOk result (λ n. 1 ≤ n) }
{
    let Some(n) = number_of(content) else {
        return Err(EncryptedKeyError::Iterations);
    };
    if n == 0 || n > MAX_ITERATIONS {
        return Err(EncryptedKeyError::Iterations);
    }
    Ok(n)
}

// The salt and the count of iterations.
#[tactic(auto, unfolding(crate::specs::Reading::salted))]
fn salted(cipher: Cipher, parameters: &[u8]) -> Result<(&[u8], u32), EncryptedKeyError>
    ensures value { MatchResult result
        (λ parts. salted cipher parameters.now ≡ Ok (parts.0.now, parts.1))
        (λ e. salted cipher parameters.now ≡ Err e) }
    ensures some { IfOk result (λ parts. 1 ≤ parts.1) }
{
    let Some((salt, more)) = cut(OCTETS, parameters) else {
        return Err(EncryptedKeyError::Form);
    };
    let Some((count, rest)) = cut(INTEGER, more) else {
        return Err(EncryptedKeyError::Form);
    };
    if !cipher.is_function(rest) {
        return Err(EncryptedKeyError::Scheme);
    }
    let count = iterations(count)?;
    Ok((salt, count))
}

/// What is told of a file.
#[derive(Clone, Copy)]
pub(crate) struct Parts<'a> {
    pub(crate) cipher: Cipher,
    pub(crate) salt: &'a [u8],
    pub(crate) count: u32,
    pub(crate) iv: &'a [u8],
    pub(crate) text: &'a [u8],
}

/// What a file tells.
#[tactic(auto, unfolding(crate::specs::Reading::told_in))]
pub(crate) fn parts_of(file: &[u8]) -> Result<Parts<'_>, EncryptedKeyError>
    ensures value { MatchResult result
        (λ parts. told_in file.now ≡ Ok (told parts.cipher parts.salt.now parts.count
        parts.iv.now parts.text.now))
        (λ e. told_in file.now ≡ Err e) }
    ensures salt { IfOk result (λ parts. length parts.salt.now ≤ 255) }
    ensures some { IfOk result (λ parts. 1 ≤ parts.count) }
    ensures iv { IfOk result (λ parts. length parts.iv.now ≡ 16) }
{
    let (algorithm, text) = outer(file)?;
    let (derived, encrypted) = scheme(algorithm)?;
    let parameters = derivation(derived)?;
    let (cipher, iv) = encryption(encrypted)?;
    let (salt, count) = salted(cipher, parameters)?;
    if salt.len() > MAX_SALT || iv.len() != 16 || text.len() == 0 || text.len() % 16 != 0 {
        return Err(EncryptedKeyError::Length);
    }
    Ok(Parts {
        cipher,
        salt,
        count,
        iv,
        text,
    })
}
