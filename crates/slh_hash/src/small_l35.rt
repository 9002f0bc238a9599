//! The suite of security categories 3 and 5 (FIPS 205, section 11.2.2) in little code.
ghost use Rattle.std.specs.Prelude.{◌≡◌, ℕ, ◌≤◌, List, ◌++◌, length};
ghost use Rattle.sha2.specs.Sha512.{sha512};
ghost use Rattle.sha512_lanes.specs.Hash.{StandsFor, StandsFor-prop};
ghost use Rattle.slh_hash.specs.Sha2.{mgf1_sha512, seed_block, tweaked_hash_512};

use crate::join::put_three;
use crate::sha2_l35::Sha2L35;
use crate::small::SmallSuite;
use crate::small_l1::{SmallKeyed, small_hash, start_small};
use crate::tweaked::block_of;
use sha512_lanes::Hash512;
use slh_core::address::Address;
use slh_core::array::ArraySize;
use slh_core::equal_parts::put_part;
use slh_core::nbytes::NBytes;

const SHA512_LEN: usize = 64;

const MAX_OUTPUT: usize = 256;

/// The same for the categories 3 and 5, where H and T go on from SHA-512 as it stands after the
/// seed and the zeros that fill its block of 128 bytes (FIPS 205, section 11.2.2).
#[derive(Drop)]
pub struct SmallKeyed512<N: ArraySize> {
    pub(crate) keyed: SmallKeyed<N>,
    started: Hash512,
    ghost stands: { StandsFor started (seed_block 128 N.USIZE keyed.pk_seed) } by { StandsFor-prop started (seed_block 128 N.USIZE keyed.pk_seed) },
}

// The hash of what was absorbed and of three byte strings.
#[inline(never)]
fn digest_after(started: &Hash512, adrs: &[u8; 22], first: &[u8], second: &[u8]) -> [u8; 64]
    ensures { (m : List ℕ) → StandsFor started.now m
        → result ≡ sha512 (m ++ (adrs.now ++ (first.now ++ second.now))) }
{
    let mut hash = started.copy();
    hash.update_each(adrs);
    hash.update_each(first);
    hash.update_each(second);
    hash.finalize()
}

// The SHA-512 hash of an address and of two inputs, joined.
fn small_hash_512<N: ArraySize, A: Address>(
    keyed: &SmallKeyed512<N>,
    adrs: &A,
    first: &[u8],
    second: &[u8],
) -> NBytes<N>
    ensures { let input = first.now ++ second.now in
        let seed = keyed.now.keyed.pk_seed in
        result ≡ tweaked_hash_512 N.USIZE seed (A.bytes adrs.now) input }
{
    let digest = digest_after(&keyed.started, &adrs.compressed(), first, second);
    NBytes::exact(&digest[..N::USIZE])
}

// As `mgf1_512`, block by block.
#[tactic(auto, unfolding(crate::specs::Sha2::mgf1_sha512, slh_core::specs::Bytes::joined))]
fn small_mgf1_512(seed: &[u8], out: &mut [u8])
    requires seed { length seed.now ≤ 128 }
    requires room { length out.old ≤ 256 }
    ensures { out.new ≡ mgf1_sha512 seed.now (length out.old) }
{
    let mut blocks = [0u8; MAX_OUTPUT];
    let count = out.len().div_ceil(SHA512_LEN);
    for i in 0..count {
        let mut hash = Hash512::new();
        hash.update_each(seed);
        hash.update_each(&(i as u32).to_be_bytes());
        put_part(&mut blocks, SHA512_LEN, i, &hash.finalize());
    }
    out.copy_from_slice(&blocks[..out.len()]);
}

// The hash of a signature's randomizer, the public seed, the root and the message.
fn message_hash_512<N: ArraySize>(
    rand: &NBytes<N>,
    pk_seed: &NBytes<N>,
    pk_root: &NBytes<N>,
    head: &[u8],
    ctx: &[u8],
    msg: &[u8],
) -> [u8; 64]
    ensures { result ≡ sha512 (rand.now ++ pk_seed.now ++ pk_root.now
        ++ (head.now ++ ctx.now ++ msg.now)) }
{
    let mut hash = Hash512::new();
    hash.update_each(rand.as_slice());
    hash.update_each(pk_seed.as_slice());
    hash.update_each(pk_root.as_slice());
    hash.update_each(head);
    hash.update_each(ctx);
    hash.update_each(msg);
    hash.finalize()
}

#[tactic(auto, unfolding(crate::specs::Sha2::message_digest_512))]
impl<N: ArraySize, M: ArraySize> SmallSuite for Sha2L35<N, M> {
    type Small = SmallKeyed512<N>;

    ghost small_seed = { λ keyed. keyed.keyed.pk_seed };

    fn small_keyed(pk_seed: &NBytes<N>) -> SmallKeyed512<N> {
        let mut started = Hash512::new();
        started.update_each(&block_of::<N, 128>(pk_seed));
        SmallKeyed512 {
            keyed: start_small(pk_seed),
            started,
        }
    }

    fn small_f<A: Address>(keyed: &SmallKeyed512<N>, adrs: &A, m: &NBytes<N>) -> NBytes<N> {
        small_hash(&keyed.keyed, adrs, m.as_slice(), &[])
    }

    fn small_h<A: Address>(
        keyed: &SmallKeyed512<N>,
        adrs: &A,
        m1: &NBytes<N>,
        m2: &NBytes<N>,
    ) -> NBytes<N> {
        small_hash_512(keyed, adrs, m1.as_slice(), m2.as_slice())
    }

    fn small_t<A: Address>(keyed: &SmallKeyed512<N>, adrs: &A, m: &[u8]) -> NBytes<N> {
        small_hash_512(keyed, adrs, m, &[])
    }

    fn small_prf<A: Address>(keyed: &SmallKeyed512<N>, adrs: &A, sk_seed: &NBytes<N>) -> NBytes<N> {
        small_hash(&keyed.keyed, adrs, sk_seed.as_slice(), &[])
    }

    fn small_h_msg(
        rand: &NBytes<N>,
        pk_seed: &NBytes<N>,
        pk_root: &NBytes<N>,
        head: &[u8],
        ctx: &[u8],
        msg: &[u8],
        out: &mut [u8],
    ) {
        let digest = message_hash_512(rand, pk_seed, pk_root, head, ctx, msg);
        let mut seed = [0u8; 128];
        let end = put_three(rand.as_slice(), pk_seed.as_slice(), &digest, &mut seed);
        small_mgf1_512(&seed[..end], out);
    }
}
