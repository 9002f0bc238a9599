//! Why a file gave no key.
use std::alloc::AllocError;

/// Why a file isn't decrypted, or a key not encrypted.
#[derive(Clone, Copy, Debug, PartialEq, Eq)]
pub enum EncryptedKeyError {
    /// It isn't the DER of an encrypted private key.
    Form,
    /// It is under another scheme than PBES2 of PBKDF2 with HMAC-SHA-256 and AES-128 or AES-256 in
    /// CBC.
    Scheme,
    /// Its count of iterations is 0, more than `MAX_ITERATIONS`, or no number in its shortest form.
    Iterations,
    /// Its salt, its initial vector or what is encrypted has a length that it can't have.
    Length,
    /// What it gives under the passphrase ends with no padding, or is no private key in PKCS #8.
    Passphrase,
    /// There was no memory.
    Memory,
}

impl From<AllocError> for EncryptedKeyError {
    ghost use Rattle.std.specs.Prelude.{◌≡◌};
    ghost use Rattle.encrypted_key.specs.declared.error.EncryptedKeyError.TheVariants.{Memory};

    ghost from_gives = { λ _ e. e ≡ Memory };

    fn from(_: AllocError) -> Self {
        EncryptedKeyError::Memory
    }
}
