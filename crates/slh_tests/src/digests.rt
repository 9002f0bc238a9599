//! Digests and other bytes as text.
use hmac_sha256::Hash;

// More bytes than any that are hashed here have.
const MOST: usize = 50_000;

// As many bytes as the longest text has.
const LONGEST: usize = 208;

/// Whether a text is some bytes in hexadecimal.
pub(crate) fn is_hex(bytes: &[u8], text: &str) -> bool {
    let mut wanted = [0; LONGEST];
    let wanted = &mut wanted[..bytes.len().min(LONGEST)];
    hex::decode_to_slice(text, wanted).is_ok() && &*wanted == bytes
}

/// Whether a text is the SHA-256 of some bytes in hexadecimal.
pub(crate) fn has_digest(bytes: &[u8], text: &str) -> bool {
    bytes.len() < MOST && is_hex(&Hash::hash(bytes), text)
}
