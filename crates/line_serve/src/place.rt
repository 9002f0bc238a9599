//! Where a byte stands.
ghost use Rattle.std.specs.Prelude.{◌≡◌, ◌==◌, ◌<◌, IfSome, length, position};

use memchr::memchr;

/// The first place of a byte, found many bytes at a time.
#[inline]
pub(crate) fn first_place(byte: u8, bytes: &[u8]) -> Option<usize>
    ensures value { result ≡ position (λ x. x == byte) bytes.now }
    ensures inside { IfSome result (λ at. at < length bytes.now) }
{
    memchr(byte, bytes)
}
