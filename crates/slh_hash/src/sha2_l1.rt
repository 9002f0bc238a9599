//! The suite of security category 1 (FIPS 205, section 11.2.1).
ghost use Rattle.std.specs.Prelude.{◌≡◌, ◌+◌, ◌≤◌, ◌++◌, length, refl};
ghost use Rattle.sha256_lanes.specs.Sha256.{sha256};
ghost use Rattle.slh_core.specs.Suite.{seeded};
ghost use Rattle.slh_hash.specs.Sha2.{sha2_category_1};
ghost use Rattle.slh_hash.specs.Lengths.{sha2_category_1_lengths, sha2_category_1_digest_length};
ghost use Rattle.slh_hash.specs.ValueBytes.{sha2_category_1_bytes};

use crate::chain_ends::finish_eight;
use crate::join::{put_three, put_two};
use crate::keyed::Sha2Keyed;
use crate::mgf1::mgf1_256;
use crate::pairs::{EIGHT_ENDS_LEN, eight_leaves, keys_of_ends, run_eight};
use crate::rows_256::{hash_each, hash_pairs, repeat};
use crate::tweaked::{long_hash, short_hash, start};
use hmac_sha256::digest_core::{FixedOutput, Update};
use hmac_sha256::{HMAC, Hash, WrappedHash};
use slh_core::address::{Address, ForsTree, RowAddress, WotsHash};
use slh_core::array::ArraySize;
use slh_core::nbytes::NBytes;
use slh_core::params::MAX_MESSAGE_LEN;
use slh_core::steps::Steps;
use slh_core::suite::HashSuite;
use std::marker::PhantomData;
use std::sync::ledger::Ledger;

/// SHA-256 throughout, with values of `N::USIZE` bytes and digests of `M::USIZE`.
pub struct Sha2L1<N: ArraySize, M: ArraySize> {
    value: PhantomData<N>,
    digest: PhantomData<M>,
}

#[tactic(auto, unfolding(crate::specs::Sha2::message_digest_256))]
impl<N: ArraySize, M: ArraySize> HashSuite for Sha2L1<N, M> {
    type N = N;

    type M = M;

    type Keyed = Sha2Keyed<N>;

    ghost suite = { sha2_category_1 N.USIZE M.USIZE };

    ghost seed_of = { λ keyed. keyed.pk_seed };

    ghost keyed_suite = { λ keyed.
        seeded (sha2_category_1 N.USIZE M.USIZE) N.USIZE keyed.pk_seed };

    fn keyed(pk_seed: &NBytes<N>) -> Sha2Keyed<N> {
        start(pk_seed)
    }

    #[inline]
    fn f<A: Address, L: Ledger>(
        keyed: &Sha2Keyed<N>,
        adrs: &A,
        m: &NBytes<N>,
        steps: &mut Steps<L>,
    ) -> NBytes<N> {
        steps.tick();
        short_hash(keyed, adrs, m.as_slice())
    }

    #[inline]
    fn h<A: Address, L: Ledger>(
        keyed: &Sha2Keyed<N>,
        adrs: &A,
        m1: &NBytes<N>,
        m2: &NBytes<N>,
        steps: &mut Steps<L>,
    ) -> NBytes<N> {
        steps.tick();
        let mut both = [0u8; 64];
        let end = put_two(m1.as_slice(), m2.as_slice(), &mut both);
        short_hash(keyed, adrs, &both[..end])
    }

    fn t<A: Address, L: Ledger>(
        keyed: &Sha2Keyed<N>,
        adrs: &A,
        m: &[u8],
        steps: &mut Steps<L>,
    ) -> NBytes<N> {
        steps.tick();
        long_hash(keyed, adrs, m)
    }

    #[inline]
    fn prf_sk<A: Address, L: Ledger>(
        keyed: &Sha2Keyed<N>,
        sk_seed: &NBytes<N>,
        adrs: &A,
        steps: &mut Steps<L>,
    ) -> NBytes<N> {
        steps.tick();
        short_hash(keyed, adrs, sk_seed.as_slice())
    }

    fn f_each<A: RowAddress + Drop, L: Ledger>(
        keyed: &Sha2Keyed<N>,
        adrs: &A,
        numbers: &[u32],
        values: &mut [u8],
        steps: &mut Steps<L>,
    ) {
        hash_each(keyed, adrs, numbers, values, steps);
    }

    fn h_each<A: RowAddress + Drop, L: Ledger>(
        keyed: &Sha2Keyed<N>,
        adrs: &A,
        numbers: &[u32],
        pairs: &[u8],
        out: &mut [u8],
        steps: &mut Steps<L>,
    ) {
        hash_pairs(keyed, adrs, numbers, pairs, out, steps);
    }

    fn prf_each<A: RowAddress + Drop, L: Ledger>(
        keyed: &Sha2Keyed<N>,
        sk_seed: &NBytes<N>,
        adrs: &A,
        numbers: &[u32],
        out: &mut [u8],
        steps: &mut Steps<L>,
    ) {
        repeat(sk_seed, numbers.len(), out);
        hash_each(keyed, adrs, numbers, out, steps);
    }

    fn pairs_eight<L: Ledger>(
        keyed: &Sha2Keyed<N>,
        sk_seed: &NBytes<N>,
        adrs: &WotsHash,
        signer: usize,
        digits: &[u16],
        sig: &mut [u8],
        out: &mut [u8],
        steps: &mut Steps<L>,
    ) {
        let count = digits.len();
        let mut store = [0u8; EIGHT_ENDS_LEN];
        let ends = &mut store[..8 * count * N::USIZE];
        run_eight(keyed, sk_seed, adrs, signer, digits, sig, ends, steps);
        keys_of_ends(keyed, adrs, ends, count, out, steps);
    }

    fn finish_each<L: Ledger>(
        keyed: &Sha2Keyed<N>,
        digits: &[u16],
        sig: &[u8],
        adrs: &WotsHash,
        out: &mut [u8],
        steps: &mut Steps<L>,
    ) {
        finish_eight(keyed, digits, sig, adrs, out, steps);
    }

    fn leaves_eight<L: Ledger>(
        keyed: &Sha2Keyed<N>,
        sk_seed: &NBytes<N>,
        adrs: &ForsTree,
        first: u32,
        out: &mut [u8],
        steps: &mut Steps<L>,
    ) {
        eight_leaves(keyed, sk_seed, adrs, first, out, steps);
    }

    fn prf_msg(
        sk_prf: &NBytes<N>,
        opt_rand: &NBytes<N>,
        head: &[u8],
        ctx: &[u8],
        msg: &[u8],
    ) -> NBytes<N> {
        let mut mac = HMAC::new(sk_prf.as_slice());
        mac.update(opt_rand.as_slice());
        mac.update(head);
        mac.update(ctx);
        mac.update(msg);
        NBytes::first_of(mac.finalize())
    }

    fn h_msg(
        rand: &NBytes<N>,
        pk_seed: &NBytes<N>,
        pk_root: &NBytes<N>,
        head: &[u8],
        ctx: &[u8],
        msg: &[u8],
        out: &mut [u8],
    ) {
        let digest = message_hash(rand, pk_seed, pk_root, head, ctx, msg);
        let mut seed = [0u8; 96];
        let end = put_three(rand.as_slice(), pk_seed.as_slice(), &digest, &mut seed);
        mgf1_256(&seed[..end], out);
    }

    ghost keyed_suite_is = { λ _. refl };

    ghost lengths = { sha2_category_1_lengths N.USIZE M.USIZE };

    ghost digest_length = { λ _. sha2_category_1_digest_length N.USIZE M.USIZE };

    ghost value_bytes = { sha2_category_1_bytes N.USIZE M.USIZE };
}

// The hash of a signature's randomizer, the public seed, the root and the message.
fn message_hash<N: ArraySize>(
    rand: &NBytes<N>,
    pk_seed: &NBytes<N>,
    pk_root: &NBytes<N>,
    head: &[u8],
    ctx: &[u8],
    msg: &[u8],
) -> [u8; 32]
    requires { length head.now + length ctx.now + length msg.now ≤ MAX_MESSAGE_LEN }
    ensures { result ≡ sha256 (rand.now ++ pk_seed.now ++ pk_root.now
        ++ (head.now ++ ctx.now ++ msg.now)) }
{
    let mut hash = WrappedHash::from_core(Hash::new());
    hash.update(rand.as_slice());
    hash.update(pk_seed.as_slice());
    hash.update(pk_root.as_slice());
    hash.update(head);
    hash.update(ctx);
    hash.update(msg);
    let mut digest = [0u8; 32];
    hash.finalize_into(&mut digest);
    digest
}
