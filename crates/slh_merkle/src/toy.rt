//! A suite of one byte, whose values can be computed by hand. It hides nothing.
ghost use Rattle.std.specs.Prelude.{◌≡◌, ◌%◌, ◌<◌, ◌++◌, [], ◌∷◌, sum, slice_index, refl};
ghost use Rattle.slh_core.specs.Parameters.{scheme_of};
ghost use Rattle.slh_core.specs.Suite.{seeded};
ghost use Rattle.slh_merkle.specs.ToySuite.{toy, toy_lengths, toy_bytes, toy_digest_length};

use slh_core::address::Address;
use slh_core::array::sizes::{U1, U2, U3, U4, U5};
use slh_core::nbytes::NBytes;
use slh_core::params::{ForsParams, HypertreeParams, WotsParams, XmssParams};
use slh_core::steps::Steps;
use slh_core::suite::HashSuite;
use std::sync::ledger::Ledger;

/// Two layers of trees of height 2, and two trees of height 2 below them, over values of one byte.
pub struct Toy;

/// The byte string of one byte.
fn one(byte: u32) -> NBytes<U1>
    ensures { result ≡ byte % 256 ∷ [] }
{
    NBytes::exact(&[(byte % 256) as u8])
}

/// The byte of a byte string of one byte.
pub(crate) fn byte_of(bytes: &NBytes<U1>) -> u32
    ensures value { result ≡ slice_index bytes.now 0 }
    ensures small { result < 256 }
{
    u32::from(bytes.as_slice()[0])
}

/// The sum of all bytes, modulo 256.
pub(crate) fn sum_of(bytes: &[u8]) -> u32
    ensures { result ≡ sum bytes.now % 256 }
{
    let mut total = 0;
    for byte in bytes {
        total = (total + u32::from(*byte)) % 256;
    }
    total
}

/// The sum of all bytes of three slices, modulo 256.
#[tactic(auto, using(std::proofs::lemmas::Grind::common_steps))]
fn sum_of_three(head: &[u8], ctx: &[u8], msg: &[u8]) -> u32
    ensures { result ≡ sum (head.now ++ ctx.now ++ msg.now) % 256 }
{
    (sum_of(head) + sum_of(ctx) + sum_of(msg)) % 256
}

impl HashSuite for Toy {
    type N = U1;

    type M = U3;

    type Keyed = NBytes<U1>;

    ghost suite = { toy };

    ghost seed_of = { λ keyed. keyed };

    ghost keyed_suite = { λ keyed. seeded toy 1 keyed };

    fn keyed(pk_seed: &NBytes<U1>) -> NBytes<U1> {
        pk_seed.copy()
    }

    fn f<A: Address, L: Ledger>(
        keyed: &NBytes<U1>,
        adrs: &A,
        m: &NBytes<U1>,
        steps: &mut Steps<L>,
    ) -> NBytes<U1> {
        steps.tick();
        let at = adrs.to_bytes();
        one(byte_of(m) / 2 + byte_of(keyed) + u32::from(at[31]))
    }

    fn h<A: Address, L: Ledger>(
        keyed: &NBytes<U1>,
        adrs: &A,
        m1: &NBytes<U1>,
        m2: &NBytes<U1>,
        steps: &mut Steps<L>,
    ) -> NBytes<U1> {
        steps.tick();
        let at = adrs.to_bytes();
        let place = u32::from(at[27]) + u32::from(at[31]);
        one(byte_of(m1) / 2 + 3 * byte_of(m2) + byte_of(keyed) + place)
    }

    fn t<A: Address, L: Ledger>(
        keyed: &NBytes<U1>,
        _adrs: &A,
        m: &[u8],
        steps: &mut Steps<L>,
    ) -> NBytes<U1> {
        steps.tick();
        one(byte_of(keyed) + sum_of(m))
    }

    fn prf_sk<A: Address, L: Ledger>(
        _keyed: &NBytes<U1>,
        sk_seed: &NBytes<U1>,
        adrs: &A,
        steps: &mut Steps<L>,
    ) -> NBytes<U1> {
        steps.tick();
        let at = adrs.to_bytes();
        let words = 5 * u32::from(at[23]) + 7 * u32::from(at[27]) + 11 * u32::from(at[31]);
        let tree = 13 * u32::from(at[3]) + 17 * u32::from(at[15]);
        one(byte_of(sk_seed) + u32::from(at[19]) + words + tree)
    }

    fn prf_msg(
        sk_prf: &NBytes<U1>,
        opt_rand: &NBytes<U1>,
        head: &[u8],
        ctx: &[u8],
        msg: &[u8],
    ) -> NBytes<U1> {
        one(byte_of(sk_prf) + byte_of(opt_rand) + sum_of_three(head, ctx, msg))
    }

    fn h_msg(
        rand: &NBytes<U1>,
        pk_seed: &NBytes<U1>,
        _pk_root: &NBytes<U1>,
        head: &[u8],
        ctx: &[u8],
        msg: &[u8],
        out: &mut [u8],
    ) {
        let first = byte_of(rand) + byte_of(pk_seed) + sum_of_three(head, ctx, msg);
        out[0] = (first % 256) as u8;
        out[1] = ((first + 37) % 256) as u8;
        out[2] = ((first + 74) % 256) as u8;
    }

    ghost keyed_suite_is = { λ _. refl };

    ghost lengths = { λ _. toy_lengths };

    ghost digest_length = { λ _. toy_digest_length };

    ghost value_bytes = { toy_bytes };
}

impl WotsParams for Toy {
    ghost use Rattle.std.proofs.Common.{rules};

    type WotsMsgLen = U2;

    type WotsSigLen = U5;

    ghost valid_wots = { Prim.search rules };
}

impl XmssParams for Toy {
    ghost use Rattle.std.proofs.Common.{lit≤};

    type HPrime = U2;

    ghost valid_xmss = { record { height_low = lit≤ tt; height_high = lit≤ tt } };
}

impl HypertreeParams for Toy {
    ghost use Rattle.std.proofs.Common.{rules};

    type D = U2;

    type H = U4;

    ghost valid_hypertree = { Prim.search rules };
}

impl ForsParams for Toy {
    ghost use Rattle.std.proofs.Common.{rules};

    type K = U2;

    type A = U2;

    type MD = U1;

    ghost scheme = { scheme_of toy 1 2 2 2 2 };

    ghost scheme_is = { refl };

    ghost valid_fors = { Prim.search rules };
}
