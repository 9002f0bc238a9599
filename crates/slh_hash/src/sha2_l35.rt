//! The suite of security categories 3 and 5 (FIPS 205, section 11.2.2).
ghost use Rattle.std.specs.Prelude.{◌≡◌, ◌++◌, refl};
ghost use Rattle.sha2.specs.Sha512.{sha512};
ghost use Rattle.slh_core.specs.Suite.{seeded};
ghost use Rattle.slh_hash.specs.Sha2.{sha2_category_3_5};
ghost use Rattle.slh_hash.specs.Lengths.{sha2_category_3_5_lengths};
ghost use Rattle.slh_hash.specs.Lengths.{sha2_category_3_5_digest_length};
ghost use Rattle.slh_hash.specs.ValueBytes.{sha2_category_3_5_bytes};

use crate::chain_ends::finish_eight;
use crate::join::{put_three, put_two};
use crate::keyed::Sha2Keyed512;
use crate::mac::hmac_sha512;
use crate::mgf1::mgf1_512;
use crate::pairs::{EIGHT_ENDS_LEN, eight_leaves, run_eight};
use crate::pairs_512::keys_of_ends_512;
use crate::rows_256::{hash_each, repeat};
use crate::rows_512::hash_pairs_512;
use crate::tweaked::{long_hash_512, short_hash, start_512};
use sha512_lanes::Hash512;
use slh_core::address::{Address, ForsTree, RowAddress, WotsHash};
use slh_core::array::ArraySize;
use slh_core::nbytes::NBytes;
use slh_core::steps::Steps;
use slh_core::suite::HashSuite;
use std::marker::PhantomData;
use std::sync::ledger::Ledger;

/// SHA-256 for F and PRF and SHA-512 for the others, with values of `N::USIZE` bytes and digests of
/// `M::USIZE`.
pub struct Sha2L35<N: ArraySize, M: ArraySize> {
    value: PhantomData<N>,
    digest: PhantomData<M>,
}

#[tactic(auto, unfolding(crate::specs::Sha2::message_digest_512))]
impl<N: ArraySize, M: ArraySize> HashSuite for Sha2L35<N, M> {
    type N = N;

    type M = M;

    type Keyed = Sha2Keyed512<N>;

    ghost suite = { sha2_category_3_5 N.USIZE M.USIZE };

    ghost seed_of = { λ keyed. keyed.keyed.pk_seed };

    ghost keyed_suite = { λ keyed.
        seeded (sha2_category_3_5 N.USIZE M.USIZE) N.USIZE keyed.keyed.pk_seed };

    fn keyed(pk_seed: &NBytes<N>) -> Sha2Keyed512<N> {
        start_512(pk_seed)
    }

    #[inline]
    fn f<A: Address, L: Ledger>(
        keyed: &Sha2Keyed512<N>,
        adrs: &A,
        m: &NBytes<N>,
        steps: &mut Steps<L>,
    ) -> NBytes<N> {
        steps.tick();
        short_hash(&keyed.keyed, adrs, m.as_slice())
    }

    fn h<A: Address, L: Ledger>(
        keyed: &Sha2Keyed512<N>,
        adrs: &A,
        m1: &NBytes<N>,
        m2: &NBytes<N>,
        steps: &mut Steps<L>,
    ) -> NBytes<N> {
        steps.tick();
        let mut both = [0u8; 64];
        let end = put_two(m1.as_slice(), m2.as_slice(), &mut both);
        long_hash_512(keyed, adrs, &both[..end])
    }

    fn t<A: Address, L: Ledger>(
        keyed: &Sha2Keyed512<N>,
        adrs: &A,
        m: &[u8],
        steps: &mut Steps<L>,
    ) -> NBytes<N> {
        steps.tick();
        long_hash_512(keyed, adrs, m)
    }

    #[inline]
    fn prf_sk<A: Address, L: Ledger>(
        keyed: &Sha2Keyed512<N>,
        sk_seed: &NBytes<N>,
        adrs: &A,
        steps: &mut Steps<L>,
    ) -> NBytes<N> {
        steps.tick();
        short_hash(&keyed.keyed, adrs, sk_seed.as_slice())
    }

    fn f_each<A: RowAddress + Drop, L: Ledger>(
        keyed: &Sha2Keyed512<N>,
        adrs: &A,
        numbers: &[u32],
        values: &mut [u8],
        steps: &mut Steps<L>,
    ) {
        hash_each(&keyed.keyed, adrs, numbers, values, steps);
    }

    fn h_each<A: RowAddress + Drop, L: Ledger>(
        keyed: &Sha2Keyed512<N>,
        adrs: &A,
        numbers: &[u32],
        pairs: &[u8],
        out: &mut [u8],
        steps: &mut Steps<L>,
    ) {
        hash_pairs_512(keyed, adrs, numbers, pairs, out, steps);
    }

    fn prf_each<A: RowAddress + Drop, L: Ledger>(
        keyed: &Sha2Keyed512<N>,
        sk_seed: &NBytes<N>,
        adrs: &A,
        numbers: &[u32],
        out: &mut [u8],
        steps: &mut Steps<L>,
    ) {
        repeat(sk_seed, numbers.len(), out);
        hash_each(&keyed.keyed, adrs, numbers, out, steps);
    }

    fn pairs_eight<L: Ledger>(
        keyed: &Sha2Keyed512<N>,
        sk_seed: &NBytes<N>,
        adrs: &WotsHash,
        signer: usize,
        digits: &[u16],
        sig: &mut [u8],
        out: &mut [u8],
        steps: &mut Steps<L>,
    ) {
        let count = digits.len();
        let mut store = [0u8; EIGHT_ENDS_LEN];
        let ends = &mut store[..8 * count * N::USIZE];
        run_eight(
            &keyed.keyed,
            sk_seed,
            adrs,
            signer,
            digits,
            sig,
            ends,
            steps,
        );
        keys_of_ends_512(keyed, adrs, ends, count, out, steps);
    }

    fn finish_each<L: Ledger>(
        keyed: &Sha2Keyed512<N>,
        digits: &[u16],
        sig: &[u8],
        adrs: &WotsHash,
        out: &mut [u8],
        steps: &mut Steps<L>,
    ) {
        finish_eight(&keyed.keyed, digits, sig, adrs, out, steps);
    }

    fn leaves_eight<L: Ledger>(
        keyed: &Sha2Keyed512<N>,
        sk_seed: &NBytes<N>,
        adrs: &ForsTree,
        first: u32,
        out: &mut [u8],
        steps: &mut Steps<L>,
    ) {
        eight_leaves(&keyed.keyed, sk_seed, adrs, first, out, steps);
    }

    fn prf_msg(
        sk_prf: &NBytes<N>,
        opt_rand: &NBytes<N>,
        head: &[u8],
        ctx: &[u8],
        msg: &[u8],
    ) -> NBytes<N> {
        let code = hmac_sha512(sk_prf.as_slice(), opt_rand.as_slice(), head, ctx, msg);
        NBytes::exact(&code[..N::USIZE])
    }

    fn h_msg(
        rand: &NBytes<N>,
        pk_seed: &NBytes<N>,
        pk_root: &NBytes<N>,
        head: &[u8],
        ctx: &[u8],
        msg: &[u8],
        out: &mut [u8],
    ) {
        let digest = message_hash(rand, pk_seed, pk_root, head, ctx, msg);
        let mut seed = [0u8; 128];
        let end = put_three(rand.as_slice(), pk_seed.as_slice(), &digest, &mut seed);
        mgf1_512(&seed[..end], out);
    }

    ghost keyed_suite_is = { λ _. refl };

    ghost lengths = { sha2_category_3_5_lengths N.USIZE M.USIZE };

    ghost digest_length = { λ _. sha2_category_3_5_digest_length N.USIZE M.USIZE };

    ghost value_bytes = { sha2_category_3_5_bytes N.USIZE M.USIZE };
}

// The hash of a signature's randomizer, the public seed, the root and the message.
fn message_hash<N: ArraySize>(
    rand: &NBytes<N>,
    pk_seed: &NBytes<N>,
    pk_root: &NBytes<N>,
    head: &[u8],
    ctx: &[u8],
    msg: &[u8],
) -> [u8; 64]
    ensures { result ≡ sha512 (rand.now ++ pk_seed.now ++ pk_root.now
        ++ (head.now ++ ctx.now ++ msg.now)) }
{
    let mut hash = Hash512::new_with_prefix(rand.as_slice());
    hash.update(pk_seed.as_slice());
    hash.update(pk_root.as_slice());
    hash.update(head);
    hash.update(ctx);
    hash.update(msg);
    hash.finalize()
}
