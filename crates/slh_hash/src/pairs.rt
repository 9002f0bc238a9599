//! The chains of eight key pairs side by side, with values that stay words from the secret to the
//! end.
ghost use Rattle.std.specs.Prelude.{◌≡◌, ℕ, ◌+◌, ◌*◌, ◌/◌, ◌%◌, ◌^◌, ◌≤◌, ◌<◌, List, ◌++◌, length};
ghost use Rattle.std.specs.Prelude.{nat_lt, slice_index, take, if◌then◌else◌};
ghost use Rattle.std.specs.Int.{to_be_bytes, w32};
ghost use Rattle.sha256_lanes.specs.Begun.{HasBegun};
ghost use Rattle.sha256_lanes.specs.Eight.{head_bytes, lane_bytes};
ghost use Rattle.slh_core.specs.Address.{address_bytes, compressed_address, wots_pk_type};
ghost use Rattle.slh_core.specs.Address.{fors_prf_type, fors_tree_type};
ghost use Rattle.slh_core.specs.Bytes.{joined, part};
ghost use Rattle.slh_core.specs.Wots.{chain_value, value_or};
ghost use Rattle.slh_hash.specs.Pairs.{IsRow, short_suite};
ghost use Rattle.slh_hash.specs.Sha2.{seed_block, tweaked_hash_256};

use crate::chain_ends::put_first_lanes;
use crate::keyed::Sha2Keyed;
use crate::messages::{MAX_MESSAGE_LEN, put_messages};
use crate::rows_256::{ADDRESS_LEN, put_hashes};
use sha256_lanes::{Begun, Eight, Heads};
use slh_core::address::{Address, ForsTree, WotsHash};
use slh_core::array::ArraySize;
use slh_core::nbytes::NBytes;
use slh_core::params::{MAX_CHAINS, MAX_ENDS_LEN, MAX_N};
use slh_core::steps::Steps;
use std::sync::ledger::Ledger;

/// The most bytes of all ends of eight key pairs.
pub(crate) const EIGHT_ENDS_LEN: usize = 8 * MAX_ENDS_LEN;

/// What eight key pairs of a tree hash, one in each lane: the secret seed, and the heads of chain
/// 0, for its secret and for its steps.
#[derive(Drop)]
pub(crate) struct PairRow {
    seed: Eight,
    secrets: Heads,
    steps: Heads,
}

impl PairRow {
    /// The key pairs from that of an address on.
    pub(crate) fn new<N: ArraySize>(sk_seed: &NBytes<N>, adrs: &WotsHash) -> PairRow
        requires inside { adrs.now.key_pair_adrs + 8 ≤ 2 ^ 32 }
        ensures { let a = adrs.now in IsRow result N.USIZE sk_seed.now
            a.layer_adrs a.tree_adrs_low a.key_pair_adrs }
    {
        let mut secrets = [[0u8; 22]; 8];
        let mut steps = [[0u8; 22]; 8];
        for k in 0..8 {
            let at = adrs.at_key_pair(adrs.key_pair_adrs + k as u32);
            secrets[k] = at.prf_adrs().compressed();
            steps[k] = at.compressed();
        }
        PairRow {
            seed: Eight::splat(sk_seed.as_slice()),
            secrets: Heads::of(&secrets),
            steps: Heads::of(&steps),
        }
    }
}

/// The hashes of eight values, each with its own address.
#[inline]
pub(crate) fn hash_eight<N: ArraySize>(keyed: &Sha2Keyed<N>, heads: &Heads, values: &Eight) -> Eight
    ensures { (a : List ℕ) (k : ℕ) → k < 8
        → head_bytes heads.now k ≡ compressed_address a
        → take N.USIZE (lane_bytes result k)
        ≡ tweaked_hash_256 N.USIZE keyed.now.pk_seed a
        (take N.USIZE (lane_bytes values.now k)) }
{
    keyed.midstate.finalize_words(heads, values, N::USIZE)
}

/// Begins the hashes of heads but for their last fields, with which a chain goes on step by step.
#[inline]
pub(crate) fn begin_eight<N: ArraySize>(keyed: &Sha2Keyed<N>, heads: &Heads) -> Begun
    ensures { (k : ℕ) → k < 8 → HasBegun result k (seed_block 64 N.USIZE keyed.now.pk_seed)
        (take 18 (head_bytes heads.now k)) }
{
    keyed.midstate.begin(heads)
}

/// The hashes of eight values that take their chains one step on.
#[inline]
pub(crate) fn next_eight(begun: &Begun, step: u32, values: &Eight, n: usize) -> Eight
    requires low { step < 16 }
    requires small { n ≤ MAX_N }
    ensures { (s a front : List ℕ) (k : ℕ) → k < 8 → HasBegun begun.now k (seed_block 64 n s) front
        → front ++ to_be_bytes w32 step ≡ compressed_address a
        → take n (lane_bytes result k)
        ≡ tweaked_hash_256 n s a (take n (lane_bytes values.now k)) }
{
    begun.finalize_words(step, values, n)
}

/// Counts so many steps.
#[inline]
pub(crate) fn count_steps<L: Ledger>(count: usize, steps: &mut Steps<L>)
    ensures { steps.new ≡ steps.old + count }
{
    'each_step: for n in 0..count {
        steps.tick();
    }
}

/// Writes the first `n` bytes of each value, one after the other.
pub(crate) fn put_lanes(values: &Eight, n: usize, out: &mut [u8])
    requires small { n ≤ MAX_N }
    requires room { length out.old ≡ 8 * n }
    ensures { out.new ≡ joined (λ k. take n (lane_bytes values.now k)) 8 }
{
    put_first_lanes(values, 8, n, out);
}

// Takes chain `c` of eight key pairs from the secrets to the ends. The value of key pair number
// `signer` after `digit` steps is left in `place`, but none where that is past the end.
fn run_chain<N: ArraySize>(
    keyed: &Sha2Keyed<N>,
    row: &PairRow,
    c: u32,
    signer: usize,
    digit: u16,
    place: &mut [u8],
) -> Eight
    requires signer { signer < 8 }
    requires room { length place.old ≡ N.USIZE }
    ensures ends { let n = N.USIZE in
        let K = short_suite n keyed.now.pk_seed in
        (sk : List ℕ) (j t l k : ℕ) → IsRow row.now n sk j t l → k < 8
        → take n (lane_bytes result k) ≡ chain_value K sk j t (l + k) c 15 }
    ensures value { let n = N.USIZE in
        let K = short_suite n keyed.now.pk_seed in
        (sk : List ℕ) (j t l : ℕ) → IsRow row.now n sk j t l
        → place.new
        ≡ (if nat_lt digit 16 then chain_value K sk j t (l + signer) c digit else place.old) }
{
    let secrets = row.secrets.numbered(&[c; 8]);
    let mut values = hash_eight(keyed, &secrets, &row.seed);
    let begun = begin_eight(keyed, &row.steps.numbered(&[c; 8]));
    for q in 0..15u16 {
        if q == digit {
            values.write_lane(signer, place);
        }
        values = next_eight(&begun, u32::from(q), &values, N::USIZE);
    }
    if digit == 15 {
        values.write_lane(signer, place);
    }
    values
}

/// Takes the chains of eight key pairs of a tree from their secrets to their ends. `ends` gets the
/// ends of chain 0 of all eight, of chain 1, and so on. Key pair number `signer` of them leaves the
/// values of its chains at digits in `sig`, but none at a digit past the end, where the bytes stay.
pub(crate) fn run_eight<N: ArraySize, L: Ledger>(
    keyed: &Sha2Keyed<N>,
    sk_seed: &NBytes<N>,
    adrs: &WotsHash,
    signer: usize,
    digits: &[u16],
    sig: &mut [u8],
    ends: &mut [u8],
    steps: &mut Steps<L>,
)
    requires signer { signer < 8 }
    requires inside { adrs.now.key_pair_adrs + 8 ≤ 2 ^ 32 }
    requires few { length digits.now ≤ MAX_CHAINS }
    requires whole { length sig.old ≡ length digits.now * N.USIZE }
    requires room { length ends.old ≡ 8 * length digits.now * N.USIZE }
    ensures values { let K = short_suite N.USIZE keyed.now.pk_seed in
        let a = adrs.now in
        let at = a.key_pair_adrs + signer in
        let value = value_or K sk_seed.now a.layer_adrs a.tree_adrs_low at sig.old digits.now in
        sig.new ≡ joined value (length digits.now) }
    ensures ends { let K = short_suite N.USIZE keyed.now.pk_seed in
        let a = adrs.now in
        let end : ℕ → List ℕ = λ i. chain_value K sk_seed.now a.layer_adrs a.tree_adrs_low
        (a.key_pair_adrs + i % 8) (i / 8) 15 in
        ends.new ≡ joined end (8 * length digits.now) }
    ensures cost { steps.new ≡ steps.old + 128 * length digits.now }
{
    let n = N::USIZE;
    let row = PairRow::new(sk_seed, adrs);
    for (c, digit) in digits.iter().enumerate() {
        let place = &mut sig[c * n..(c + 1) * n];
        let values = run_chain(keyed, &row, c as u32, signer, *digit, place);
        put_lanes(&values, n, &mut ends[8 * c * n..(8 * c + 8) * n]);
        count_steps(128, steps);
    }
}

/// The public keys of eight key pairs of a tree from the ends of their chains, which stand as
/// `run_eight` leaves them.
pub(crate) fn keys_of_ends<N: ArraySize, L: Ledger>(
    keyed: &Sha2Keyed<N>,
    adrs: &WotsHash,
    ends: &[u8],
    count: usize,
    out: &mut [u8],
    steps: &mut Steps<L>,
)
    requires inside { adrs.now.key_pair_adrs + 8 ≤ 2 ^ 32 }
    requires small { N.USIZE ≤ MAX_N }
    requires few { count ≤ MAX_CHAINS }
    requires whole { length ends.now ≡ 8 * count * N.USIZE }
    requires room { length out.old ≡ 8 * N.USIZE }
    ensures keys { let a = adrs.now in
        let at : ℕ → List ℕ = λ k. address_bytes a.layer_adrs a.tree_adrs_low wots_pk_type
        (a.key_pair_adrs + k) 0 0 in
        let all : ℕ → List ℕ = λ k. joined (λ c. part N.USIZE ends.now (8 * c + k)) count in
        out.new ≡ joined (λ k. tweaked_hash_256 N.USIZE keyed.now.pk_seed (at k) (all k)) 8 }
    ensures cost { steps.new ≡ steps.old + 8 }
{
    let n = N::USIZE;
    let len = ADDRESS_LEN + count * n;
    let mut store = [0u8; 8 * MAX_MESSAGE_LEN];
    let messages = &mut store[..8 * len];
    put_messages::<8>(adrs, 0, ends, n, count, messages);
    let digests = keyed.midstate.finalize_rows(messages, len);
    put_hashes::<N, L, 8, 32>(&digests, 8, out, steps);
}

// Eight numbers in a row.
fn eight_from(first: u32) -> [u32; 8]
    requires { first + 8 ≤ 2 ^ 32 }
    ensures { (k : ℕ) → k < 8 → slice_index result k ≡ first + k }
{
    let mut numbers = [0u32; 8];
    for k in 0..8 {
        numbers[k] = first + k as u32;
    }
    numbers
}

/// Eight leaves of a forest, from the index `first` on, one after the other: F of their secrets.
pub(crate) fn eight_leaves<N: ArraySize, L: Ledger>(
    keyed: &Sha2Keyed<N>,
    sk_seed: &NBytes<N>,
    adrs: &ForsTree,
    first: u32,
    out: &mut [u8],
    steps: &mut Steps<L>,
)
    requires inside { first + 8 ≤ 2 ^ 32 }
    requires room { length out.old ≡ 8 * N.USIZE }
    ensures value { let hash = tweaked_hash_256 N.USIZE keyed.now.pk_seed in
        let t = adrs.now.tree_adrs_low in
        let l = adrs.now.key_pair_adrs in
        let secret : ℕ → List ℕ = λ i. hash (address_bytes 0 t fors_prf_type l 0 i) sk_seed.now in
        let leaf : ℕ → List ℕ = λ i. hash (address_bytes 0 t fors_tree_type l 0 i) (secret i) in
        out.new ≡ joined (λ k. leaf (first + k)) 8 }
    ensures cost { steps.new ≡ steps.old + 16 }
{
    let forest = ForsTree::new(adrs.tree_adrs_low, adrs.key_pair_adrs);
    let numbers = eight_from(first);
    let seed = Eight::splat(sk_seed.as_slice());
    let secret_heads = Heads::splat(&forest.prf_adrs().compressed()).ended(&numbers);
    let leaf_heads = Heads::splat(&forest.compressed()).ended(&numbers);
    let secrets = hash_eight(keyed, &secret_heads, &seed);
    let leaves = hash_eight(keyed, &leaf_heads, &secrets);
    count_steps(16, steps);
    put_lanes(&leaves, N::USIZE, out);
}
