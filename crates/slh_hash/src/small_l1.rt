//! The suite of security category 1 (FIPS 205, section 11.2.1) in little code.
ghost use Rattle.slh_core.specs.declared.params.TheConstants.{MAX_N};
ghost use Rattle.std.specs.Prelude.{◌≡◌, ℕ, ◌+◌, ◌≤◌, List, ◌++◌, length};
ghost use Rattle.hmac_sha256.specs.Hash.{StandsFor, StandsFor-prop, absorbed_bytes};
ghost use Rattle.sha256_lanes.specs.Sha256.{sha256};
ghost use Rattle.slh_hash.specs.Sha2.{mgf1_sha256, seed_block, tweaked_hash_256};

use crate::join::put_three;
use crate::sha2_l1::Sha2L1;
use crate::small::SmallSuite;
use crate::tweaked::block_of;
use hmac_sha256::Hash;
use slh_core::address::Address;
use slh_core::array::ArraySize;
use slh_core::equal_parts::put_part;
use slh_core::nbytes::NBytes;
use slh_core::params::{MAX_ENDS_LEN, MAX_MESSAGE_LEN};

const SHA256_LEN: usize = 32;

const MAX_OUTPUT: usize = 256;

/// A public seed, and SHA-256 as it stands after the seed and the zeros that fill its block of 64
/// bytes (FIPS 205, section 11.2).
#[derive(Drop)]
pub struct SmallKeyed<N: ArraySize> {
    pub(crate) pk_seed: NBytes<N>,
    started: Hash,
    ghost stands: { StandsFor started (seed_block 64 N.USIZE pk_seed) } by { StandsFor-prop started (seed_block 64 N.USIZE pk_seed) },
    ghost one_block: { absorbed_bytes started ≡ 64 },
    ghost small: { N.USIZE ≤ MAX_N },
}

/// The state for a public seed.
pub(crate) fn start_small<N: ArraySize>(pk_seed: &NBytes<N>) -> SmallKeyed<N>
    ensures { result.pk_seed ≡ pk_seed.now }
{
    let mut started = Hash::new();
    started.update_each(&block_of::<N, 64>(pk_seed));
    SmallKeyed {
        pk_seed: pk_seed.copy(),
        started,
    }
}

// The hash of what was absorbed and of three byte strings.
#[inline(never)]
fn digest_after(started: &Hash, adrs: &[u8; 22], first: &[u8], second: &[u8]) -> [u8; 32]
    requires begun { absorbed_bytes started.now ≡ 64 }
    requires few { length first.now + length second.now ≤ MAX_ENDS_LEN }
    ensures { (m : List ℕ) → StandsFor started.now m
        → result ≡ sha256 (m ++ (adrs.now ++ (first.now ++ second.now))) }
{
    let mut hash = started.copy();
    hash.update_each(adrs);
    hash.update_each(first);
    hash.update_each(second);
    hash.finalize()
}

/// The SHA-256 hash of an address and of two inputs, joined, which have no more bytes than the ends
/// of a key pair's chains.
pub(crate) fn small_hash<N: ArraySize, A: Address>(
    keyed: &SmallKeyed<N>,
    adrs: &A,
    first: &[u8],
    second: &[u8],
) -> NBytes<N>
    requires { length first.now + length second.now ≤ MAX_ENDS_LEN }
    ensures { let input = first.now ++ second.now in
        result ≡ tweaked_hash_256 N.USIZE keyed.now.pk_seed (A.bytes adrs.now) input }
{
    NBytes::first_of(digest_after(&keyed.started, &adrs.compressed(), first, second))
}

// As `mgf1_256`, block by block.
#[tactic(auto, unfolding(crate::specs::Sha2::mgf1_sha256, slh_core::specs::Bytes::joined))]
fn small_mgf1(seed: &[u8], out: &mut [u8])
    requires seed { length seed.now ≤ 128 }
    requires room { length out.old ≤ 256 }
    ensures { out.new ≡ mgf1_sha256 seed.now (length out.old) }
{
    let mut blocks = [0u8; MAX_OUTPUT];
    let count = out.len().div_ceil(SHA256_LEN);
    for i in 0..count {
        let mut hash = Hash::new();
        hash.update_each(seed);
        hash.update_each(&(i as u32).to_be_bytes());
        put_part(&mut blocks, SHA256_LEN, i, &hash.finalize());
    }
    out.copy_from_slice(&blocks[..out.len()]);
}

// The hash of a signature's randomizer, the public seed, the root and the message.
fn message_hash<N: ArraySize>(
    rand: &NBytes<N>,
    pk_seed: &NBytes<N>,
    pk_root: &NBytes<N>,
    head: &[u8],
    ctx: &[u8],
    msg: &[u8],
) -> [u8; 32]
    requires { length head.now + length ctx.now + length msg.now ≤ MAX_MESSAGE_LEN }
    ensures { result ≡ sha256 (rand.now ++ pk_seed.now ++ pk_root.now
        ++ (head.now ++ ctx.now ++ msg.now)) }
{
    let mut hash = Hash::new();
    hash.update_each(rand.as_slice());
    hash.update_each(pk_seed.as_slice());
    hash.update_each(pk_root.as_slice());
    hash.update_each(head);
    hash.update_each(ctx);
    hash.update_each(msg);
    hash.finalize()
}

#[tactic(auto, unfolding(crate::specs::Sha2::message_digest_256))]
impl<N: ArraySize, M: ArraySize> SmallSuite for Sha2L1<N, M> {
    type Small = SmallKeyed<N>;

    ghost small_seed = { λ keyed. keyed.pk_seed };

    fn small_keyed(pk_seed: &NBytes<N>) -> SmallKeyed<N> {
        start_small(pk_seed)
    }

    fn small_f<A: Address>(keyed: &SmallKeyed<N>, adrs: &A, m: &NBytes<N>) -> NBytes<N> {
        small_hash(keyed, adrs, m.as_slice(), &[])
    }

    fn small_h<A: Address>(
        keyed: &SmallKeyed<N>,
        adrs: &A,
        m1: &NBytes<N>,
        m2: &NBytes<N>,
    ) -> NBytes<N> {
        small_hash(keyed, adrs, m1.as_slice(), m2.as_slice())
    }

    fn small_t<A: Address>(keyed: &SmallKeyed<N>, adrs: &A, m: &[u8]) -> NBytes<N> {
        small_hash(keyed, adrs, m, &[])
    }

    fn small_prf<A: Address>(keyed: &SmallKeyed<N>, adrs: &A, sk_seed: &NBytes<N>) -> NBytes<N> {
        small_hash(keyed, adrs, sk_seed.as_slice(), &[])
    }

    fn small_h_msg(
        rand: &NBytes<N>,
        pk_seed: &NBytes<N>,
        pk_root: &NBytes<N>,
        head: &[u8],
        ctx: &[u8],
        msg: &[u8],
        out: &mut [u8],
    ) {
        let digest = message_hash(rand, pk_seed, pk_root, head, ctx, msg);
        let mut seed = [0u8; 96];
        let end = put_three(rand.as_slice(), pk_seed.as_slice(), &digest, &mut seed);
        small_mgf1(&seed[..end], out);
    }
}
