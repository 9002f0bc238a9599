//! The SHA-512 hashes of many pairs at once, whose addresses stand in a row.
ghost use Rattle.std.specs.Prelude.{◌≡◌, ℕ, ◌+◌, ◌-◌, ◌*◌, ◌≤◌, ◌<◌, List, [], ◌++◌, length};
ghost use Rattle.std.specs.Prelude.{slice_index, slice_index_or};
ghost use Rattle.sha2.specs.Sha512.{sha512};
ghost use Rattle.slh_core.specs.Address.{compressed_address};
ghost use Rattle.slh_core.specs.Bytes.{joined, part};
ghost use Rattle.slh_hash.specs.Sha2.{seed_block, tweaked_hash_512};

use crate::keyed::Sha2Keyed512;
use crate::rows_256::{ADDRESS_LEN, parts_between, put_hashes_between, tails_of};
use sha512_lanes::{BLOCK_BYTES, MAX_TAIL};
use slh_core::address::RowAddress;
use slh_core::array::ArraySize;
use slh_core::params::MAX_N;
use slh_core::steps::Steps;
use std::sync::ledger::Ledger;

// How many pairs are hashed side by side at most: vectors of four words of 64 bits suit processors
// with AVX2 (x86-64-v3).
const WIDEST: usize = 4;

// The digests of at most four inputs of one width.
#[inline]
fn digests_of_512<N: ArraySize, A: RowAddress + Drop>(
    keyed: &Sha2Keyed512<N>,
    adrs: &A,
    numbers: &[u32],
    inputs: &[u8],
    width: usize,
) -> [[u8; 64]; WIDEST]
    requires some { 1 ≤ length numbers.now }
    requires few { length numbers.now ≤ WIDEST }
    requires whole { length inputs.now ≡ length numbers.now * width }
    requires short { ADDRESS_LEN + width ≤ MAX_TAIL }
    ensures { (k : ℕ) → k < length numbers.now
        → slice_index_or result k [] ≡ sha512 (seed_block 128 N.USIZE keyed.now.keyed.pk_seed
        ++ (compressed_address (A.numbered adrs.now (slice_index numbers.now k))
        ++ part width inputs.now k)) }
{
    let len = ADDRESS_LEN + width;
    if numbers.len() > 1 {
        let tails = tails_of::<A, 4, BLOCK_BYTES>(adrs, numbers, inputs, width);
        return keyed.midstate.finalize_four(&tails, len);
    }
    let mut digests = [[0u8; 64]; WIDEST];
    let tails = tails_of::<A, 1, BLOCK_BYTES>(adrs, numbers, inputs, width);
    digests[..1].copy_from_slice(&keyed.midstate.finalize_one(&tails, len));
    digests
}

/// Hashes pairs of values of `N::USIZE` bytes, which stand one after the other, each a left and a
/// right one. Their addresses are those of a row with the numbers.
pub(crate) fn hash_pairs_512<N: ArraySize, A: RowAddress + Drop, L: Ledger>(
    keyed: &Sha2Keyed512<N>,
    adrs: &A,
    numbers: &[u32],
    pairs: &[u8],
    out: &mut [u8],
    steps: &mut Steps<L>,
)
    requires small { N.USIZE ≤ MAX_N }
    requires pairs { length pairs.now ≡ length numbers.now * (2 * N.USIZE) }
    requires room { length out.old ≡ length numbers.now * N.USIZE }
    ensures value { let n = N.USIZE in
        let at : ℕ → List ℕ = λ k. A.numbered adrs.now (slice_index numbers.now k) in
        let s = keyed.now.keyed.pk_seed in
        let hash : ℕ → List ℕ = λ k. tweaked_hash_512 n s (at k) (part (2 * n) pairs.now k) in
        out.new ≡ joined hash (length numbers.now) }
    ensures step { steps.new ≡ steps.old + length numbers.now }
{
    let width = 2 * N::USIZE;
    let mut done = 0;
    while done < numbers.len() {
        let end = numbers.len().min(done + WIDEST);
        let group = &numbers[done..end];
        let inputs = parts_between(pairs, width, done, end);
        let digests = digests_of_512(keyed, adrs, group, inputs, width);
        put_hashes_between::<N, L, WIDEST, 64>(&digests, out, done, end, steps);
        done = end;
    }
}
