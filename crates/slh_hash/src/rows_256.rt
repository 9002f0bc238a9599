//! The SHA-256 hashes of many values at once, whose addresses stand in a row.
ghost use Rattle.std.specs.Prelude.{◌≡◌, ℕ, ◌+◌, ◌-◌, ◌*◌, ◌≤◌, ◌<◌, List, [], ◌++◌, length, min};
ghost use Rattle.std.specs.Prelude.{slice_index, slice_index_or, slice_range, take, drop};
ghost use Rattle.sha256_lanes.specs.Sha256.{sha256};
ghost use Rattle.slh_core.specs.Address.{compressed_address};
ghost use Rattle.slh_core.specs.Bytes.{joined, part};
ghost use Rattle.slh_hash.specs.Sha2.{seed_block, tweaked_hash_256};

use crate::join::put_two;
use crate::keyed::Sha2Keyed;
use crate::tweaked::short_hash;
use sha256_lanes::{BLOCK_BYTES, MAX_TAIL};
use slh_core::address::{Address, RowAddress};
use slh_core::array::ArraySize;
use slh_core::equal_parts::{piece, put_part};
use slh_core::nbytes::NBytes;
use slh_core::params::MAX_N;
use slh_core::steps::Steps;
use std::sync::ledger::Ledger;

// How many values are hashed side by side at most. Eight suit processors with vectors of eight
// words (x86-64-v3), for which the program is built where it can be; four would suit the others,
// but code cannot know which it is built for.
const WIDEST: usize = 8;

/// How many bytes a compressed address has.
pub(crate) const ADDRESS_LEN: usize = 22;

// The compressed address and the input, at the front of a block.
#[inline(always)]
fn tail_of<A: Address, const B: usize>(adrs: &A, input: &[u8]) -> [u8; B]
    requires block { B ≤ 128 }
    requires short { ADDRESS_LEN + length input.now ≤ B }
    ensures { take (ADDRESS_LEN + length input.now) result
        ≡ compressed_address (A.bytes adrs.now) ++ input.now }
{
    let mut tail = [0u8; B];
    put_two(&adrs.compressed(), input, &mut tail);
    tail
}

/// In each of `W` places the tail of a number, at the front of a block of `B` bytes. The places
/// after the last number repeat it.
#[inline(always)]
pub(crate) fn tails_of<A: RowAddress + Drop, const W: usize, const B: usize>(
    adrs: &A,
    numbers: &[u32],
    inputs: &[u8],
    width: usize,
) -> [[u8; B]; W]
    requires places { W ≤ WIDEST }
    requires block { B ≤ 128 }
    requires some { 1 ≤ length numbers.now }
    requires whole { length inputs.now ≡ length numbers.now * width }
    requires short { ADDRESS_LEN + width ≤ B }
    ensures { (k : ℕ) → k < W
        → let i = min k (length numbers.now - 1) in
        take (ADDRESS_LEN + width) (slice_index_or result k [])
        ≡ compressed_address (A.numbered adrs.now (slice_index numbers.now i))
        ++ part width inputs.now i }
{
    let last = numbers.len() - 1;
    let mut tails = [[0u8; B]; W];
    for k in 0..W {
        let i = k.min(last);
        tails[k] = tail_of(&adrs.at_number(numbers[i]), piece(inputs, width, i));
    }
    tails
}

// The digests of at most eight inputs of one width.
#[inline]
fn digests_of<N: ArraySize, A: RowAddress + Drop>(
    keyed: &Sha2Keyed<N>,
    adrs: &A,
    numbers: &[u32],
    inputs: &[u8],
    width: usize,
) -> [[u8; 32]; WIDEST]
    requires some { 1 ≤ length numbers.now }
    requires few { length numbers.now ≤ WIDEST }
    requires whole { length inputs.now ≡ length numbers.now * width }
    requires short { ADDRESS_LEN + width ≤ MAX_TAIL }
    ensures { (k : ℕ) → k < length numbers.now
        → slice_index_or result k [] ≡ sha256 (seed_block 64 N.USIZE keyed.now.pk_seed
        ++ (compressed_address (A.numbered adrs.now (slice_index numbers.now k))
        ++ part width inputs.now k)) }
{
    let len = ADDRESS_LEN + width;
    if numbers.len() > 4 {
        let tails = tails_of::<A, 8, BLOCK_BYTES>(adrs, numbers, inputs, width);
        return keyed.midstate.finalize_eight(&tails, len);
    }
    let mut digests = [[0u8; 32]; WIDEST];
    if numbers.len() > 1 {
        let tails = tails_of::<A, 4, BLOCK_BYTES>(adrs, numbers, inputs, width);
        digests[..4].copy_from_slice(&keyed.midstate.finalize_four(&tails, len));
    } else {
        let tails = tails_of::<A, 1, BLOCK_BYTES>(adrs, numbers, inputs, width);
        digests[..1].copy_from_slice(&keyed.midstate.finalize_one(&tails, len));
    }
    digests
}

/// Writes the first bytes of the digests, `N::USIZE` of each, and counts a step for each.
#[tactic(auto, unfolding(slh_core::specs::Bytes::joined))]
#[inline]
pub(crate) fn put_hashes<N: ArraySize, L: Ledger, const W: usize, const D: usize>(
    digests: &[[u8; D]; W],
    count: usize,
    out: &mut [u8],
    steps: &mut Steps<L>,
)
    requires small { N.USIZE ≤ D }
    requires few { count ≤ W }
    requires room { length out.old ≡ count * N.USIZE }
    ensures value { out.new ≡ joined (λ k. take N.USIZE (slice_index_or digests.now k [])) count }
    ensures step { steps.new ≡ steps.old + count }
{
    let n = N::USIZE;
    for k in 0..count {
        steps.tick();
        put_part(out, n, k, &digests[k][..n]);
    }
}

/// The parts from number `done` to `end`, of parts of `width` bytes.
#[inline]
pub(crate) fn parts_between(bytes: &[u8], width: usize, done: usize, end: usize) -> &[u8]
    requires order { done ≤ end }
    requires inside { end * width ≤ length bytes.now }
    ensures value { result.now ≡ slice_range bytes.now (done * width) (end * width) }
    ensures len { length result.now ≡ (end - done) * width }
{
    &bytes[done * width..end * width]
}

/// `put_hashes` for the parts from number `done` to `end`. What follows stays.
#[inline]
pub(crate) fn put_hashes_between<N: ArraySize, L: Ledger, const W: usize, const D: usize>(
    digests: &[[u8; D]; W],
    out: &mut [u8],
    done: usize,
    end: usize,
    steps: &mut Steps<L>,
)
    requires small { N.USIZE ≤ D }
    requires order { done ≤ end }
    requires few { end - done ≤ W }
    requires room { end * N.USIZE ≤ length out.old }
    ensures front { let n = N.USIZE in
        take (end * n) out.new ≡ take (done * n) out.old
        ++ joined (λ k. take n (slice_index_or digests.now k [])) (end - done) }
    ensures rest { drop (end * N.USIZE) out.new ≡ drop (end * N.USIZE) out.old }
    ensures step { steps.new ≡ steps.old + (end - done) }
{
    let n = N::USIZE;
    put_hashes::<N, L, W, D>(digests, end - done, &mut out[done * n..end * n], steps);
}

/// Hashes values of `N::USIZE` bytes, which stand one after the other, in their places. Their
/// addresses are those of a row with the numbers.
pub(crate) fn hash_each<N: ArraySize, A: RowAddress + Drop, L: Ledger>(
    keyed: &Sha2Keyed<N>,
    adrs: &A,
    numbers: &[u32],
    values: &mut [u8],
    steps: &mut Steps<L>,
)
    requires room { length values.old ≡ length numbers.now * N.USIZE }
    ensures value { let n = N.USIZE in
        let at : ℕ → List ℕ = λ k. A.numbered adrs.now (slice_index numbers.now k) in
        let s = keyed.now.pk_seed in
        let hash : ℕ → List ℕ = λ k. tweaked_hash_256 n s (at k) (part n values.old k) in
        values.new ≡ joined hash (length numbers.now) }
    ensures step { steps.new ≡ steps.old + length numbers.now }
{
    let n = N::USIZE;
    let mut done = 0;
    while done < numbers.len() {
        let end = numbers.len().min(done + WIDEST);
        let group = &numbers[done..end];
        let inputs = parts_between(values, n, done, end);
        let digests = digests_of(keyed, adrs, group, inputs, n);
        put_hashes_between::<N, L, WIDEST, 32>(&digests, values, done, end, steps);
        done = end;
    }
}

// Pairs that end in one block each.
fn hash_short_pairs<N: ArraySize, A: RowAddress + Drop, L: Ledger>(
    keyed: &Sha2Keyed<N>,
    adrs: &A,
    numbers: &[u32],
    pairs: &[u8],
    out: &mut [u8],
    steps: &mut Steps<L>,
)
    requires short { ADDRESS_LEN + 2 * N.USIZE ≤ MAX_TAIL }
    requires pairs { length pairs.now ≡ length numbers.now * (2 * N.USIZE) }
    requires room { length out.old ≡ length numbers.now * N.USIZE }
    ensures value { let n = N.USIZE in
        let at : ℕ → List ℕ = λ k. A.numbered adrs.now (slice_index numbers.now k) in
        let s = keyed.now.pk_seed in
        let hash : ℕ → List ℕ = λ k. tweaked_hash_256 n s (at k) (part (2 * n) pairs.now k) in
        out.new ≡ joined hash (length numbers.now) }
    ensures step { steps.new ≡ steps.old + length numbers.now }
{
    let width = 2 * N::USIZE;
    let mut done = 0;
    while done < numbers.len() {
        let end = numbers.len().min(done + WIDEST);
        let group = &numbers[done..end];
        let inputs = parts_between(pairs, width, done, end);
        let digests = digests_of(keyed, adrs, group, inputs, width);
        put_hashes_between::<N, L, WIDEST, 32>(&digests, out, done, end, steps);
        done = end;
    }
}

// Pairs of any length.
#[tactic(auto, unfolding(slh_core::specs::Bytes::joined))]
fn hash_long_pairs<N: ArraySize, A: RowAddress + Drop, L: Ledger>(
    keyed: &Sha2Keyed<N>,
    adrs: &A,
    numbers: &[u32],
    pairs: &[u8],
    out: &mut [u8],
    steps: &mut Steps<L>,
)
    requires small { N.USIZE ≤ MAX_N }
    requires pairs { length pairs.now ≡ length numbers.now * (2 * N.USIZE) }
    requires room { length out.old ≡ length numbers.now * N.USIZE }
    ensures value { let n = N.USIZE in
        let at : ℕ → List ℕ = λ k. A.numbered adrs.now (slice_index numbers.now k) in
        let s = keyed.now.pk_seed in
        let hash : ℕ → List ℕ = λ k. tweaked_hash_256 n s (at k) (part (2 * n) pairs.now k) in
        out.new ≡ joined hash (length numbers.now) }
    ensures step { steps.new ≡ steps.old + length numbers.now }
{
    let n = N::USIZE;
    for (k, number) in numbers.iter().enumerate() {
        steps.tick();
        let parent = short_hash(keyed, &adrs.at_number(*number), piece(pairs, 2 * n, k));
        put_part(out, n, k, parent.as_slice());
    }
}

/// Hashes pairs of values of `N::USIZE` bytes, which stand one after the other, each a left and a
/// right one. Their addresses are those of a row with the numbers.
#[inline]
pub(crate) fn hash_pairs<N: ArraySize, A: RowAddress + Drop, L: Ledger>(
    keyed: &Sha2Keyed<N>,
    adrs: &A,
    numbers: &[u32],
    pairs: &[u8],
    out: &mut [u8],
    steps: &mut Steps<L>,
)
    requires small { N.USIZE ≤ MAX_N }
    requires pairs { length pairs.now ≡ length numbers.now * (2 * N.USIZE) }
    requires room { length out.old ≡ length numbers.now * N.USIZE }
    ensures value { let n = N.USIZE in
        let at : ℕ → List ℕ = λ k. A.numbered adrs.now (slice_index numbers.now k) in
        let s = keyed.now.pk_seed in
        let hash : ℕ → List ℕ = λ k. tweaked_hash_256 n s (at k) (part (2 * n) pairs.now k) in
        out.new ≡ joined hash (length numbers.now) }
    ensures step { steps.new ≡ steps.old + length numbers.now }
{
    if ADDRESS_LEN + 2 * N::USIZE <= MAX_TAIL {
        hash_short_pairs(keyed, adrs, numbers, pairs, out, steps);
    } else {
        hash_long_pairs(keyed, adrs, numbers, pairs, out, steps);
    }
}

/// Writes a value `count` times.
#[tactic(auto, unfolding(slh_core::specs::Bytes::joined))]
pub(crate) fn repeat<N: ArraySize>(value: &NBytes<N>, count: usize, out: &mut [u8])
    requires { length out.old ≡ count * N.USIZE }
    ensures values { out.new ≡ joined (λ (k : ℕ). value.now) count }
    ensures len { length value.now ≡ N.USIZE }
{
    let bytes = value.as_slice();
    let n = bytes.len();
    for k in 0..count {
        put_part(out, n, k, bytes);
    }
}
