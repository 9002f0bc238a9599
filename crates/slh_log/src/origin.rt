//! Origins of logs, and the ids of their keys.
ghost use Rattle.std.specs.Prelude.{◌≡◌, ◌≤◌, length};
ghost use Rattle.slh_log.specs.Reading.{is_origin as spec_is_origin, text_of as spec_text_of};
ghost use Rattle.slh_log.specs.Texts.{key_id as spec_key_id};

use hmac_sha256::Hash;
use slh_core::array::ArraySize;
use slh_core::params::chain_sizes;
use slh_dsa::{SetSizes, VerifyingKey};

/// The most bytes of an origin.
const MAX_ORIGIN: usize = 255;

/// How many bytes the id of a key has.
pub(crate) const ID_LEN: usize = 4;

/// Whether a text has the form of an origin: 1 to 255 bytes, no space, no plus sign and no control
/// character of ASCII.
pub(crate) fn is_origin(origin: &str) -> bool
    ensures value { result ≡ spec_is_origin origin.now }
{
    let bytes = origin.as_bytes();
    if bytes.is_empty() || bytes.len() > MAX_ORIGIN {
        return false;
    }
    'each_byte: for byte in bytes {
        if *byte <= 32 || *byte == b'+' || *byte == 127 {
            return false;
        }
    }
    true
}

/// Bytes as the text that they are, or the empty one, which is no log's origin: so an origin that
/// comes as bytes is refused where its text would be.
pub fn text_of(bytes: &[u8]) -> &str
    ensures { result.now ≡ spec_text_of bytes.now }
{
    match str::from_utf8(bytes) {
        Ok(text) => text,
        Err(_) => "",
    }
}

/// The id of a key of a log with an origin: the first 4 bytes of a digest (C2SP, signed-note).
pub(crate) fn key_id<P: SetSizes>(origin: &str, vk: &VerifyingKey<P>) -> [u8; ID_LEN]
    requires { length origin.now ≤ 255 }
    ensures { result ≡ spec_key_id origin.now P.set_name vk.now }
{
    chain_sizes::<P>();
    let mut key = [0u8; 64];
    let key = &mut key[..2 * P::N::USIZE];
    vk.write_to(key);
    let mut hash = Hash::new();
    hash.update(origin.as_bytes());
    hash.update(b"\n\xff");
    hash.update(P::set_name().as_bytes());
    hash.update(b"\n");
    hash.update(key);
    let digest = hash.finalize();
    [digest[0], digest[1], digest[2], digest[3]]
}
