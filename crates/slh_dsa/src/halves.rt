//! The halves of a signing key.
ghost use Rattle.std.specs.Prelude.{◌≡◌, ◌/◌, drop, length};

/// The verifying key among the bytes of a signing key: their second half (FIPS 205, section 9.1).
pub fn verifying_half(key: &[u8]) -> &[u8]
    ensures { result.now ≡ drop (length key.now / 2) key.now }
{
    &key[key.len() / 2..]
}
