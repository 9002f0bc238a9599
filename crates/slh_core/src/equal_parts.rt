//! Parts of one length that stand one after the other in a slice.
ghost use Rattle.std.specs.Prelude.{◌≡◌, ◌+◌, ◌*◌, ◌≤◌, ◌++◌, length, take, drop};
ghost use Rattle.slh_core.specs.Bytes.{part as spec_part};

use crate::nbytes::NBytes;
use crate::params::MAX_N;
use hybrid_array::ArraySize;

/// Puts part number `c` of `n` bytes in its place. The bytes around it stay.
#[inline]
pub fn put_part(out: &mut [u8], n: usize, c: usize, part: &[u8])
    requires fits { (c + 1) * n ≤ length out.old }
    requires len { length part.now ≡ n }
    ensures front { take ((c + 1) * n) out.new ≡ take (c * n) out.old ++ part.now }
    ensures rest { drop ((c + 1) * n) out.new ≡ drop ((c + 1) * n) out.old }
{
    out[c * n..c * n + n].copy_from_slice(part);
}

/// Part number `c`.
#[inline]
pub fn part_of<N: ArraySize>(bytes: &[u8], c: usize) -> NBytes<N>
    requires small { N.USIZE ≤ MAX_N }
    requires fits { (c + 1) * N.USIZE ≤ length bytes.now }
    ensures { result ≡ spec_part N.USIZE bytes.now c }
{
    let n = N::USIZE;
    NBytes::exact(&bytes[c * n..c * n + n])
}

/// The bytes of part number `i`, of parts of `len` bytes.
#[inline]
pub fn piece(bytes: &[u8], len: usize, i: usize) -> &[u8]
    requires { (i + 1) * len ≤ length bytes.now }
    ensures value { result.now ≡ spec_part len bytes.now i }
    ensures len { length result.now ≡ len }
{
    &bytes[i * len..i * len + len]
}
