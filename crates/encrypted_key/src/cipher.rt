//! The ciphers that are read.
ghost use Rattle.std.specs.Prelude.{◌≡◌, ◌∷◌, ◌⊎◌};
ghost use Rattle.encrypted_key.specs.Form.{hmac_with_sha256};
ghost use Rattle.encrypted_key.specs.Reading.{cipher_named, is_function, key_len};

/// A cipher in CBC.
#[derive(Clone, Copy, Debug, PartialEq, Eq)]
pub(crate) enum Cipher {
    Aes128,
    Aes256,
}

/// HMAC-SHA-256 as the function of PBKDF2, with NULL for its parameters.
pub(crate) const HMAC_WITH_SHA256: &[u8] =
    b"\x30\x0c\x06\x08\x2a\x86\x48\x86\xf7\x0d\x02\x09\x05\x00";

impl Cipher {
    /// How many bytes a key has.
    pub(crate) fn key_len(self) -> usize
        ensures value { result ≡ key_len self }
        ensures either { (result ≡ 16) ⊎ (result ≡ 32) }
    {
        match self {
            Cipher::Aes128 => 16,
            Cipher::Aes256 => 32,
        }
    }

    // The length of a key, and then HMAC-SHA-256.
    fn length_and_function(self) -> &'static [u8]
        ensures { result.now ≡ 0x02 ∷ 0x01 ∷ key_len self ∷ hmac_with_sha256 }
    {
        match self {
            Cipher::Aes128 => {
                b"\x02\x01\x10\x30\x0c\x06\x08\x2a\x86\x48\x86\xf7\x0d\x02\x09\x05\x00"
            }
            Cipher::Aes256 => {
                b"\x02\x01\x20\x30\x0c\x06\x08\x2a\x86\x48\x86\xf7\x0d\x02\x09\x05\x00"
            }
        }
    }

    /// Whether these bytes are HMAC-SHA-256, before which the length of a key may stand.
    #[tactic(auto, unfolding(crate::specs::Reading::is_function))]
    pub(crate) fn is_function(self, rest: &[u8]) -> bool
        ensures { result ≡ is_function self rest.now }
    {
        rest == HMAC_WITH_SHA256 || rest == self.length_and_function()
    }

    /// The cipher of an object identifier.
    #[tactic(auto, unfolding(crate::specs::Reading::cipher_named))]
    pub(crate) fn of_name(name: &[u8]) -> Option<Cipher>
        ensures { result ≡ cipher_named name.now }
    {
        if name == b"\x60\x86\x48\x01\x65\x03\x04\x01\x2a".as_slice() {
            Some(Cipher::Aes256)
        } else if name == b"\x60\x86\x48\x01\x65\x03\x04\x01\x02".as_slice() {
            Some(Cipher::Aes128)
        } else {
            None
        }
    }
}
