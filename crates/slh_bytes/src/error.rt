//! Why a file gave no key, and how that is told.
use encrypted_key::EncryptedKeyError;
use std::alloc::AllocError;

/// Why a text is no key file of the kind that is wanted.
#[derive(Clone, Copy, Debug, PartialEq, Eq, thiserror::Error)]
pub enum KeyFileError {
    /// It has no bytes but blanks.
    #[error("an empty file, not a key")]
    Empty,
    /// It has neither a line `-----BEGIN ..-----` nor the two words of a line `SET KEY`.
    #[error("neither a key in PEM nor a line SET KEY")]
    NoKey,
    /// The block doesn't end with the line that belongs to its first one.
    #[error("the PEM block has no end line of its own")]
    NoEnd,
    /// A second block begins behind the first.
    #[error("more than one PEM block")]
    SecondBlock,
    /// The block is a signing key under a passphrase, and none is given.
    #[error("the key is encrypted: give its passphrase by --passphrase-file")]
    Encrypted,
    /// What is encrypted isn't in the form of an encrypted key.
    #[error("not the bytes of an encrypted key")]
    Form,
    /// The key is encrypted by another scheme.
    #[error("encrypted by another scheme than slh reads: see KEYS.md")]
    Scheme,
    /// It asks for more iterations than are taken, or for none.
    #[error("asks for more than 10000000 iterations, or for none")]
    Iterations,
    /// Under the passphrase there is no private key.
    #[error("not decrypted: the passphrase is wrong, or the file is damaged")]
    Passphrase,
    /// It has the other key of a pair.
    #[error("the other key of a pair: see slh inspect")]
    OtherKind,
    /// The block's label is of something else.
    #[error("PEM of something else than such a key")]
    OtherLabel,
    /// What stands in the block isn't Base64.
    #[error("what stands in the PEM block is not Base64")]
    Base64,
    /// What stands behind the set's name isn't hexadecimal.
    #[error("the key is not hexadecimal")]
    Hex,
    /// The key is of another algorithm than SLH-DSA over SHA-2.
    #[error("a key of another algorithm than SLH-DSA over SHA-2")]
    Algorithm,
    /// It isn't the bytes of a key of the set that is named, and nothing else.
    #[error("not the bytes of a key of its set, and nothing else")]
    Length,
    /// The root of a signing key isn't that of its seeds.
    #[error("the key's root is not that of its seeds")]
    Root,
    /// There was no memory.
    #[error("out of memory")]
    Memory,
}

impl From<AllocError> for KeyFileError {
    ghost use Rattle.std.specs.Prelude.{◌≡◌};
    ghost use Rattle.slh_bytes.specs.declared.error.KeyFileError.TheVariants.{Memory};

    ghost from_gives = { λ _ e. e ≡ Memory };

    fn from(_: AllocError) -> Self {
        KeyFileError::Memory
    }
}

impl From<EncryptedKeyError> for KeyFileError {
    ghost use Rattle.std.specs.Prelude.{◌≡◌};
    ghost use Rattle.slh_bytes.specs.Encrypted.{refusal_of};

    ghost from_gives = { λ e f. f ≡ refusal_of e };

    fn from(error: EncryptedKeyError) -> Self {
        match error {
            EncryptedKeyError::Form | EncryptedKeyError::Length => KeyFileError::Form,
            EncryptedKeyError::Scheme => KeyFileError::Scheme,
            EncryptedKeyError::Iterations => KeyFileError::Iterations,
            EncryptedKeyError::Passphrase => KeyFileError::Passphrase,
            EncryptedKeyError::Memory => KeyFileError::Memory,
        }
    }
}
