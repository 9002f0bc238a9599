//! The public keys of key pairs of the categories 3 and 5: T is SHA-512, four side by side.
ghost use Rattle.std.specs.Prelude.{◌≡◌, ℕ, ◌+◌, ◌*◌, ◌^◌, ◌≤◌, List, length};
ghost use Rattle.slh_core.specs.Address.{address_bytes, wots_pk_type};
ghost use Rattle.slh_core.specs.Bytes.{joined, part};
ghost use Rattle.slh_hash.specs.Sha2.{tweaked_hash_512};

use crate::keyed::Sha2Keyed512;
use crate::messages::{MAX_MESSAGE_LEN, put_messages};
use crate::rows_256::{ADDRESS_LEN, put_hashes};
use slh_core::address::WotsHash;
use slh_core::array::ArraySize;
use slh_core::params::{MAX_CHAINS, MAX_N};
use slh_core::steps::Steps;
use std::sync::ledger::Ledger;

// How many public keys are hashed side by side.
const WIDEST: usize = 4;

// The public keys of four key pairs of the eight, from number `first` on.
fn four_keys<N: ArraySize, L: Ledger>(
    keyed: &Sha2Keyed512<N>,
    adrs: &WotsHash,
    first: usize,
    ends: &[u8],
    count: usize,
    out: &mut [u8],
    steps: &mut Steps<L>,
)
    requires lanes { first + 4 ≤ 8 }
    requires inside { adrs.now.key_pair_adrs + 8 ≤ 2 ^ 32 }
    requires small { N.USIZE ≤ MAX_N }
    requires few { count ≤ MAX_CHAINS }
    requires whole { length ends.now ≡ 8 * count * N.USIZE }
    requires room { length out.old ≡ 4 * N.USIZE }
    ensures keys { let a = adrs.now in
        let s = keyed.now.keyed.pk_seed in
        let at : ℕ → List ℕ = λ k. address_bytes a.layer_adrs a.tree_adrs_low wots_pk_type
        (a.key_pair_adrs + k) 0 0 in
        let all : ℕ → List ℕ = λ k. joined (λ c. part N.USIZE ends.now (8 * c + k)) count in
        out.new
        ≡ joined (λ k. tweaked_hash_512 N.USIZE s (at (first + k)) (all (first + k))) 4 }
    ensures cost { steps.new ≡ steps.old + 4 }
{
    let n = N::USIZE;
    let len = ADDRESS_LEN + count * n;
    let mut store = [0u8; WIDEST * MAX_MESSAGE_LEN];
    let messages = &mut store[..WIDEST * len];
    put_messages::<WIDEST>(adrs, first, ends, n, count, messages);
    let digests = keyed.midstate.finalize_rows(messages, len);
    put_hashes::<N, L, WIDEST, 64>(&digests, WIDEST, out, steps);
}

/// The public keys of eight key pairs of a tree from the ends of their chains, which stand as
/// `run_eight` leaves them.
pub(crate) fn keys_of_ends_512<N: ArraySize, L: Ledger>(
    keyed: &Sha2Keyed512<N>,
    adrs: &WotsHash,
    ends: &[u8],
    count: usize,
    out: &mut [u8],
    steps: &mut Steps<L>,
)
    requires inside { adrs.now.key_pair_adrs + 8 ≤ 2 ^ 32 }
    requires small { N.USIZE ≤ MAX_N }
    requires few { count ≤ MAX_CHAINS }
    requires whole { length ends.now ≡ 8 * count * N.USIZE }
    requires room { length out.old ≡ 8 * N.USIZE }
    ensures keys { let a = adrs.now in
        let s = keyed.now.keyed.pk_seed in
        let at : ℕ → List ℕ = λ k. address_bytes a.layer_adrs a.tree_adrs_low wots_pk_type
        (a.key_pair_adrs + k) 0 0 in
        let all : ℕ → List ℕ = λ k. joined (λ c. part N.USIZE ends.now (8 * c + k)) count in
        out.new ≡ joined (λ k. tweaked_hash_512 N.USIZE s (at k) (all k)) 8 }
    ensures cost { steps.new ≡ steps.old + 8 }
{
    let (front, back) = out.split_at_mut(WIDEST * N::USIZE);
    four_keys(keyed, adrs, 0, ends, count, front, steps);
    four_keys(keyed, adrs, 4, ends, count, back, steps);
}
