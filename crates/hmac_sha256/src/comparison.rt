//! Comparing digests.

ghost use Rattle.std.specs.Prelude.{◌≡◌, ◌↔◌, IsTrue};

/// Whether the bytes are the same. Each pair of bytes is looked at, wherever two differ.
pub(crate) fn is_same(x: &[u8], y: &[u8]) -> bool
    ensures { IsTrue result ↔ (x.now ≡ y.now) }
{
    if x.len() != y.len() {
        return false;
    }
    let mut difference = 0u8;
    'each_byte: for i in 0..x.len() {
        difference |= x[i] ^ y[i];
    }
    difference == 0
}
