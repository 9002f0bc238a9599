//! Rows of chains: their numbers, and the values that a step leaves.
ghost use Rattle.std.specs.Prelude.{◌≡◌, ◌==◌, ℕ, ◌*◌, ◌≤◌, ◌<◌, List, length};
ghost use Rattle.std.specs.Prelude.{slice_index, if◌then◌else◌};
ghost use Rattle.slh_core.specs.Bytes.{joined, part};

use crate::equal_parts::put_part;
use crate::params::MAX_CHAINS;

/// The numbers of all chains, from 0 on.
pub(crate) fn chain_numbers() -> [u32; MAX_CHAINS]
    ensures { (c : ℕ) → c < MAX_CHAINS → slice_index result c ≡ c }
{
    let mut numbers = [0u32; MAX_CHAINS];
    for c in 0..MAX_CHAINS {
        numbers[c] = c as u32;
    }
    numbers
}

/// The first of these numbers.
#[inline]
pub(crate) fn first_numbers(all: &[u32; MAX_CHAINS], count: usize) -> &[u32]
    requires numbered { (c : ℕ) → c < MAX_CHAINS → slice_index all.now c ≡ c }
    requires few { count ≤ MAX_CHAINS }
    ensures len { length result.now ≡ count }
    ensures numbered { (c : ℕ) → c < count → slice_index result.now c ≡ c }
{
    &all[..count]
}

/// Copies the values of the chains whose digit is `q`. The other places stay.
#[tactic(auto, unfolding(crate::specs::Bytes::joined))]
pub(crate) fn copy_reached(digits: &[u16], q: u16, n: usize, values: &[u8], out: &mut [u8])
    requires whole { length values.now ≡ length digits.now * n }
    requires room { length out.old ≡ length digits.now * n }
    ensures { let is_reached = λ (c : ℕ). slice_index digits.now c == q in
        let current : ℕ → List ℕ = λ c.
        if is_reached c then part n values.now c else part n out.old c in
        out.new ≡ joined current (length digits.now) }
{
    for (c, digit) in digits.iter().enumerate() {
        if *digit == q {
            put_part(out, n, c, &values[c * n..c * n + n]);
        }
    }
}
