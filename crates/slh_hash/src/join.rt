//! Byte strings one after the other in a buffer.
ghost use Rattle.std.specs.Prelude.{◌≡◌, ◌+◌, ◌≤◌, ◌++◌, length, take};

/// Puts two byte strings at the front of `out`, and says how many bytes they have together.
#[inline]
pub(crate) fn put_two(first: &[u8], second: &[u8], out: &mut [u8]) -> usize
    requires { length first.now + length second.now ≤ length out.old }
    ensures len { result ≡ length first.now + length second.now }
    ensures bytes { take result out.new ≡ first.now ++ second.now }
{
    let (front, rest) = out.split_at_mut(first.len());
    front.copy_from_slice(first);
    rest[..second.len()].copy_from_slice(second);
    first.len() + second.len()
}

/// Puts three byte strings at the front of `out`, and says how many bytes they have together.
pub(crate) fn put_three(first: &[u8], second: &[u8], third: &[u8], out: &mut [u8]) -> usize
    requires { length first.now + length second.now + length third.now ≤ length out.old }
    ensures len { result ≡ length first.now + length second.now + length third.now }
    ensures bytes { take result out.new ≡ first.now ++ second.now ++ third.now }
{
    let (front, rest) = out.split_at_mut(first.len());
    front.copy_from_slice(first);
    first.len() + put_two(second, third, rest)
}
