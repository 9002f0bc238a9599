//! Digits cut from the bits of a byte string.
ghost use Rattle.std.specs.Prelude.{◌≡◌, ℕ, ◌-◌, ◌*◌, ◌^◌, ◌≤◌, ◌<◌, length, take, sum_by};
ghost use Rattle.std.specs.Prelude.{slice_index, EachIndex};
ghost use Rattle.slh_core.specs.Digits.{digits, wots_digits};
ghost use Rattle.slh_core.specs.Parameters.{chain_count};

use crate::nbytes::NBytes;
use crate::params::{MAX_CHAINS, MAX_N};
use hybrid_array::ArraySize;

/// Stands in the place of a digit where no chain value is asked for: a digit is below 16.
pub const NO_DIGIT: u16 = 16;

const NO_DIGITS: [u16; MAX_CHAINS] = [NO_DIGIT; MAX_CHAINS];

/// The digits of a key pair that signs nothing.
#[inline]
pub fn no_digits(count: usize) -> &'static [u16]
    requires { count ≤ MAX_CHAINS }
    ensures len { length result.now ≡ count }
    ensures none { (c : ℕ) → c < count → slice_index result.now c ≡ 16 }
{
    &NO_DIGITS[..count]
}

/// Cuts the front of `x` into digits of `b` bits, one for each place of `out` (FIPS 205, algorithm
/// 4).
#[tactic(auto, unfolding(crate::specs::Digits::listed))]
pub fn base_2b(x: &[u8], b: u32, out: &mut [u16])
    requires low { 1 ≤ b }
    requires high { b ≤ 16 }
    requires enough { b * length out.old ≤ 8 * length x.now }
    ensures value { out.new ≡ digits x.now b (length out.old) }
    ensures below { EachIndex out.new (λ k. slice_index out.new k < 2 ^ b) }
{
    let mut at = 0usize;
    let mut bits = 0u32;
    let mut total = 0u32;
    for slot in out.iter_mut() {
        while bits < b {
            total = total * 256 + u32::from(x[at]);
            at += 1;
            bits += 8;
        }
        bits -= b;
        *slot = (total >> bits) as u16;
        total &= (1 << bits) - 1;
    }
}

/// The digits of a message and of its checksum, in the front of a place for each chain.
#[tactic(auto, unfolding(crate::specs::Digits::wots_digits))]
pub fn message_digits<N: ArraySize>(m: &NBytes<N>) -> [u16; MAX_CHAINS]
    ensures { take (chain_count N.USIZE) result ≡ wots_digits N.USIZE m.now }
{
    let bytes = m.as_slice();
    let mut all = [0u16; MAX_CHAINS];
    let len = 2 * N::USIZE;
    base_2b(bytes, 4, &mut all[..len]);
    let sum = checksum_of(&all[..len]);
    all[len] = sum / 256 % 16;
    all[len + 1] = sum / 16 % 16;
    all[len + 2] = sum % 16;
    all
}

/// The sum of what each digit lacks of fifteen.
fn checksum_of(digits: &[u16]) -> u16
    requires few { length digits.now ≤ 2 * MAX_N }
    requires below { EachIndex digits.now (λ k. slice_index digits.now k < 16) }
    ensures { result ≡ sum_by (λ d. 15 - d) digits.now }
{
    let mut sum = 0;
    for digit in digits {
        sum += 15 - *digit;
    }
    sum
}
