//! What T hashes for key pairs side by side: the messages stand one after the other.
ghost use Rattle.std.specs.Prelude.{◌≡◌, ℕ, ◌+◌, ◌*◌, ◌^◌, ◌≤◌, ◌<◌, List, ◌++◌, length};
ghost use Rattle.slh_core.specs.Address.{address_bytes, compressed_address, wots_pk_type};
ghost use Rattle.slh_core.specs.Bytes.{joined, part};

use crate::rows_256::ADDRESS_LEN;
use slh_core::address::{Address, WotsHash};
use slh_core::equal_parts::{piece, put_part};
use slh_core::params::{MAX_CHAINS, MAX_ENDS_LEN};

/// The most bytes of one message, without the public seed.
pub(crate) const MAX_MESSAGE_LEN: usize = ADDRESS_LEN + MAX_ENDS_LEN;

// Every eighth part of `n` bytes, from number `k` on.
#[tactic(auto, unfolding(slh_core::specs::Bytes::joined))]
fn gather(ends: &[u8], n: usize, k: usize, out: &mut [u8], count: usize)
    requires lane { k < 8 }
    requires few { count ≤ MAX_CHAINS }
    requires whole { length ends.now ≡ 8 * count * n }
    requires room { length out.old ≡ count * n }
    ensures { out.new ≡ joined (λ c. part n ends.now (8 * c + k)) count }
{
    for c in 0..count {
        put_part(out, n, c, piece(ends, n, 8 * c + k));
    }
}

// Writes what T hashes for key pair number `k` of eight after the seed: the address of its public
// key, and the ends of its chains.
#[inline]
fn put_message(adrs: &WotsHash, k: usize, ends: &[u8], n: usize, count: usize, out: &mut [u8])
    requires lane { k < 8 }
    requires inside { adrs.now.key_pair_adrs + 8 ≤ 2 ^ 32 }
    requires few { count ≤ MAX_CHAINS }
    requires whole { length ends.now ≡ 8 * count * n }
    requires room { length out.old ≡ ADDRESS_LEN + count * n }
    ensures { let a = adrs.now in
        out.new ≡ compressed_address (address_bytes a.layer_adrs a.tree_adrs_low wots_pk_type
        (a.key_pair_adrs + k) 0 0) ++ joined (λ c. part n ends.now (8 * c + k)) count }
{
    let at = adrs.at_key_pair(adrs.key_pair_adrs + k as u32);
    let (head, rest) = out.split_at_mut(ADDRESS_LEN);
    head.copy_from_slice(&at.pk_adrs().compressed());
    gather(ends, n, k, rest, count);
}

/// Writes what T hashes after the seed for `W` key pairs of eight, from number `first` on. The ends
/// of the chains stand as `run_eight` leaves them.
#[tactic(auto, unfolding(slh_core::specs::Bytes::joined))]
pub(crate) fn put_messages<const W: usize>(
    adrs: &WotsHash,
    first: usize,
    ends: &[u8],
    n: usize,
    count: usize,
    out: &mut [u8],
)
    requires lanes { first + W ≤ 8 }
    requires inside { adrs.now.key_pair_adrs + 8 ≤ 2 ^ 32 }
    requires few { count ≤ MAX_CHAINS }
    requires whole { length ends.now ≡ 8 * count * n }
    requires room { length out.old ≡ W * (ADDRESS_LEN + count * n) }
    ensures { let a = adrs.now in
        let at : ℕ → List ℕ = λ k. address_bytes a.layer_adrs a.tree_adrs_low wots_pk_type
        (a.key_pair_adrs + k) 0 0 in
        let all : ℕ → List ℕ = λ k. joined (λ c. part n ends.now (8 * c + k)) count in
        out.new ≡ joined (λ k. compressed_address (at (first + k)) ++ all (first + k)) W }
{
    let len = ADDRESS_LEN + count * n;
    for k in 0..W {
        let message = &mut out[k * len..(k + 1) * len];
        put_message(adrs, first + k, ends, n, count, message);
    }
}
