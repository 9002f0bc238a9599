//! A parameter set whose suite hashes one value after the other, for small code.
ghost use Rattle.std.specs.Prelude.{◌≡◌, ◌+◌, ◌*◌, ◌≤◌, ◌++◌, length, refl};
ghost use Rattle.slh_core.specs.Suite.{seeded};

use slh_core::address::Address;
use slh_core::nbytes::NBytes;
use slh_core::params::{ForsParams, HypertreeParams, WotsParams, XmssParams};
use slh_core::steps::Steps;
use slh_core::suite::HashSuite;
use slh_dsa::ParameterSet;
use slh_hash::SmallSuite;
use std::marker::PhantomData;
use std::sync::ledger::Ledger;

/// The set, by the functions of its suite in little code, with those of many values left to the
/// trait's own bodies. Its values, and so its scheme, are the set's. What hashes a value is a call and
/// never in line: the code of SHA-2 stands in a program once.
pub struct OneByOne<P: ParameterSet + SmallSuite> {
    set: PhantomData<P>,
}

impl<P: ParameterSet + SmallSuite> HashSuite for OneByOne<P> {
    type N = P::N;

    type M = P::M;

    type Keyed = <P as SmallSuite>::Small;

    ghost suite = { P.suite };

    ghost seed_of = { P.small_seed };

    ghost keyed_suite = { λ keyed. seeded P.suite P.N.USIZE (P.small_seed keyed) };

    fn keyed(pk_seed: &NBytes<P::N>) -> <P as SmallSuite>::Small {
        P::small_keyed(pk_seed)
    }

    #[inline(never)]
    fn f<A: Address, L: Ledger>(
        keyed: &<P as SmallSuite>::Small,
        adrs: &A,
        m: &NBytes<P::N>,
        steps: &mut Steps<L>,
    ) -> NBytes<P::N> {
        steps.tick();
        P::small_f(keyed, adrs, m)
    }

    #[inline(never)]
    fn h<A: Address, L: Ledger>(
        keyed: &<P as SmallSuite>::Small,
        adrs: &A,
        m1: &NBytes<P::N>,
        m2: &NBytes<P::N>,
        steps: &mut Steps<L>,
    ) -> NBytes<P::N> {
        steps.tick();
        P::small_h(keyed, adrs, m1, m2)
    }

    #[inline(never)]
    fn t<A: Address, L: Ledger>(
        keyed: &<P as SmallSuite>::Small,
        adrs: &A,
        m: &[u8],
        steps: &mut Steps<L>,
    ) -> NBytes<P::N> {
        steps.tick();
        P::small_t(keyed, adrs, m)
    }

    #[inline(never)]
    fn prf_sk<A: Address, L: Ledger>(
        keyed: &<P as SmallSuite>::Small,
        sk_seed: &NBytes<P::N>,
        adrs: &A,
        steps: &mut Steps<L>,
    ) -> NBytes<P::N> {
        steps.tick();
        P::small_prf(keyed, adrs, sk_seed)
    }

    fn prf_msg(
        sk_prf: &NBytes<P::N>,
        opt_rand: &NBytes<P::N>,
        head: &[u8],
        ctx: &[u8],
        msg: &[u8],
    ) -> NBytes<P::N> {
        P::prf_msg(sk_prf, opt_rand, head, ctx, msg)
    }

    fn h_msg(
        rand: &NBytes<P::N>,
        pk_seed: &NBytes<P::N>,
        pk_root: &NBytes<P::N>,
        head: &[u8],
        ctx: &[u8],
        msg: &[u8],
        out: &mut [u8],
    ) {
        P::small_h_msg(rand, pk_seed, pk_root, head, ctx, msg, out);
    }

    ghost keyed_suite_is = { λ _. refl };

    ghost lengths = { P.lengths };

    ghost digest_length = { P.digest_length };

    ghost value_bytes = { P.value_bytes };
}

impl<P: ParameterSet + SmallSuite> WotsParams for OneByOne<P> {
    type WotsMsgLen = P::WotsMsgLen;

    type WotsSigLen = P::WotsSigLen;

    ghost valid_wots = { P.valid_wots };
}

impl<P: ParameterSet + SmallSuite> XmssParams for OneByOne<P> {
    type HPrime = P::HPrime;

    ghost valid_xmss = { P.valid_xmss };
}

impl<P: ParameterSet + SmallSuite> HypertreeParams for OneByOne<P> {
    type D = P::D;

    type H = P::H;

    ghost valid_hypertree = { P.valid_hypertree };
}

impl<P: ParameterSet + SmallSuite> ForsParams for OneByOne<P> {
    type K = P::K;

    type A = P::A;

    type MD = P::MD;

    ghost scheme = { P.scheme };

    ghost scheme_is = { P.scheme_is };

    ghost valid_fors = { P.valid_fors };
}

impl<P: ParameterSet + SmallSuite> ParameterSet for OneByOne<P> {
    const NAME: &'static str = <P as ParameterSet>::NAME;

    type SkLen = P::SkLen;

    type VkLen = P::VkLen;

    type SigLen = P::SigLen;

    ghost set_name = { P.set_name };

    fn set_name() -> &'static str {
        P::set_name()
    }

    ghost name_len = { P.name_len };

    ghost sk_len = { P.sk_len };

    ghost vk_len = { P.vk_len };

    ghost sig_len = { P.sig_len };
}
