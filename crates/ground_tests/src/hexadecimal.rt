//! Digests as text.
use hex::FromHex;

// As many bytes as the longest text has.
const LONGEST: usize = 82;

/// Whether the text is the bytes in hexadecimal.
pub(crate) fn is_hex(text: &str, bytes: &[u8]) -> bool {
    let mut wanted = [0; LONGEST];
    let wanted = &mut wanted[..bytes.len().min(LONGEST)];
    hex::decode_to_slice(text, wanted).is_ok() && &*wanted == bytes
}

/// Whether the lines are the digests in hexadecimal.
pub(crate) fn are_hex<const N: usize>(lines: &str, digests: &[[u8; N]]) -> bool {
    let mut lines = lines.lines();
    for digest in digests {
        let Some(line) = lines.next() else {
            return false;
        };
        if !is_hex(line, digest) {
            return false;
        }
    }
    lines.next().is_none()
}

/// The digest of a text, and zeros where it is none.
pub(crate) fn digest(text: &str) -> [u8; 32] {
    match <[u8; 32] as FromHex>::from_hex(text) {
        Ok(bytes) => bytes,
        Err(_) => [0; 32],
    }
}
