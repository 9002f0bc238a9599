//! Bytes as elements of GF(2^8) (FIPS 197, section 4), and the substitution box.
ghost use Rattle.std.specs.Prelude.{◌≡◌};
ghost use Rattle.aes.specs.Field.{inverse, inverse_s_box, s_box, times, times_x};

// How many bits a byte has.
const BITS: usize = 8;

// The product of a byte and x, without a branch.
#[inline(always)]
fn times_x(b: u8) -> u8
    ensures { result ≡ times_x b }
{
    let top = b >> 7;
    ((b & 0x7f) << 1) ^ (top * 0x1b)
}

/// The product of two bytes.
pub(crate) fn times(a: u8, b: u8) -> u8
    ensures { result ≡ times a b }
{
    let mut sum = 0u8;
    let mut shifted = a;
    let mut rest = b;
    'bits: for i in 0..BITS {
        sum ^= shifted * (rest & 1);
        shifted = times_x(shifted);
        rest >>= 1;
    }
    sum
}

// The inverse of a byte, or 0 for 0: its power of 254.
fn inverse(a: u8) -> u8
    ensures { result ≡ inverse a }
{
    let a2 = times(a, a);
    let a3 = times(a2, a);
    let a6 = times(a3, a3);
    let a12 = times(a6, a6);
    let a15 = times(a12, a3);
    let a30 = times(a15, a15);
    let a60 = times(a30, a30);
    let a120 = times(a60, a60);
    let a240 = times(a120, a120);
    times(times(a240, a12), a2)
}

/// The substitution box.
pub(crate) fn s_box(b: u8) -> u8
    ensures { result ≡ s_box b }
{
    let b = inverse(b);
    b ^ b.rotate_left(1) ^ b.rotate_left(2) ^ b.rotate_left(3) ^ b.rotate_left(4) ^ 0x63
}

/// The inverse of the substitution box.
pub(crate) fn inverse_s_box(b: u8) -> u8
    ensures { result ≡ inverse_s_box b }
{
    inverse(b.rotate_left(1) ^ b.rotate_left(3) ^ b.rotate_left(6) ^ 0x05)
}
