//! WOTS+: chains and key pairs (FIPS 205, section 5).
ghost use Rattle.std.specs.Prelude.{◌≡◌, ℕ, ◌+◌, ◌*◌, ◌≤◌, ◌<◌, List, length, EachIndex};
ghost use Rattle.std.specs.Prelude.{slice_index, nat_lt, if◌then◌else◌};
ghost use Rattle.slh_core.specs.Bytes.{joined, part};
ghost use Rattle.slh_core.specs.Costs.{wots_pk_cost, wots_sign_cost, wots_sign_bound};
ghost use Rattle.slh_core.specs.Costs.{wots_pk_from_sig_cost, wots_pk_from_sig_bound};
ghost use Rattle.slh_core.specs.Wots.{chain, chain_value, wots_pk, chain_values, wots_sig};
ghost use Rattle.slh_core.specs.Wots.{wots_pk_from_sig as spec_wots_pk_from_sig};
ghost use Rattle.slh_core.specs.Digits.{wots_digits};
ghost use Rattle.slh_core.specs.Parameters.{chain_count};

use crate::address::{WotsHash, WotsPrf};
use crate::chain_rows::{chain_numbers, first_numbers};
use crate::digits::message_digits;
use crate::equal_parts::put_part;
use crate::nbytes::NBytes;
use crate::params::{MAX_ENDS_LEN, MAX_N, WotsSizes, chain_sizes};
use crate::steps::Steps;
use hybrid_array::ArraySize;
use std::sync::ledger::Ledger;

/// `x`, taken `s` steps on from step `i` of the chain of an address, whose own step doesn't matter
/// (FIPS 205, algorithm 5).
#[tactic(auto, unfolding(crate::specs::Wots::chain))]
pub fn wots_chain<P: WotsSizes, L: Ledger>(
    x: &NBytes<P::N>,
    i: u32,
    s: u32,
    keyed: &P::Keyed,
    adrs: &WotsHash,
    steps: &mut Steps<L>,
) -> NBytes<P::N>
    requires { i + s ≤ 15 }
    ensures value { let K = P.keyed_suite keyed.now in
        let a = adrs.now in
        result ≡ chain K a.layer_adrs a.tree_adrs_low a.key_pair_adrs a.chain_adrs x.now i s }
    ensures cost { steps.new ≡ steps.old + s }
{
    let mut value = x.copy();
    for q in 0..s {
        let at = adrs.at_step(adrs.chain_adrs, i + q);
        value = P::f(keyed, &at, &value, steps);
    }
    value
}

/// The key's own chain `c` after `q` steps.
pub fn own_chain<P: WotsSizes, L: Ledger>(
    sk_seed: &NBytes<P::N>,
    keyed: &P::Keyed,
    adrs: &WotsHash,
    c: u32,
    q: u32,
    steps: &mut Steps<L>,
) -> NBytes<P::N>
    requires { q ≤ 15 }
    ensures value { let K = P.keyed_suite keyed.now in
        let a = adrs.now in
        result ≡ chain_value K sk_seed.now a.layer_adrs a.tree_adrs_low a.key_pair_adrs c q }
    ensures cost { steps.new ≡ steps.old + (q + 1) }
{
    let secret_at = WotsPrf {
        chain_adrs: c,
        ..adrs.prf_adrs()
    };
    let secret = P::prf_sk(keyed, sk_seed, &secret_at, steps);
    wots_chain::<P, L>(&secret, 0, q, keyed, &adrs.at_step(c, 0), steps)
}

/// Writes the ends of a key pair's chains, which are all taken on together, step by step.
fn write_ends<P: WotsSizes, L: Ledger>(
    sk_seed: &NBytes<P::N>,
    keyed: &P::Keyed,
    adrs: &WotsHash,
    out: &mut [u8],
    steps: &mut Steps<L>,
)
    requires { length out.old ≡ P.WOTS_SIG_LEN * P.N.USIZE }
    ensures value { let K = P.keyed_suite keyed.now in
        let sk = sk_seed.now in
        let a = adrs.now in
        let j = a.layer_adrs in
        let t = a.tree_adrs_low in
        out.new ≡ joined (λ c. chain_value K sk j t a.key_pair_adrs c 15) P.WOTS_SIG_LEN }
    ensures cost { steps.new ≡ steps.old + 16 * P.WOTS_SIG_LEN }
{
    chain_sizes::<P>();
    let all = chain_numbers();
    let numbers = first_numbers(&all, P::WOTS_SIG_LEN);
    P::prf_each(keyed, sk_seed, &adrs.prf_adrs(), numbers, out, steps);
    for q in 0..15 {
        P::f_each(keyed, &adrs.at_step(0, q), numbers, out, steps);
    }
}

/// How many bytes the values of all chains of a key pair have.
#[inline]
pub fn ends_len<P: WotsSizes>() -> usize
    ensures value { result ≡ P.WOTS_SIG_LEN * P.N.USIZE }
    ensures small { result ≤ MAX_ENDS_LEN }
{
    chain_sizes::<P>();
    P::WOTS_SIG_LEN * P::N::USIZE
}

/// The public key of a key pair, which is its tree's leaf (FIPS 205, algorithm 6).
pub fn wots_pk_gen<P: WotsSizes, L: Ledger>(
    sk_seed: &NBytes<P::N>,
    keyed: &P::Keyed,
    adrs: &WotsHash,
    steps: &mut Steps<L>,
) -> NBytes<P::N>
    ensures value { let K = P.keyed_suite keyed.now in
        let a = adrs.now in
        result ≡ wots_pk K sk_seed.now a.layer_adrs a.tree_adrs_low a.key_pair_adrs }
    ensures cost { steps.new ≡ steps.old + wots_pk_cost P.WOTS_SIG_LEN }
{
    chain_sizes::<P>();
    let mut store = [0u8; MAX_ENDS_LEN];
    let ends = &mut store[..ends_len::<P>()];
    write_ends::<P, L>(sk_seed, keyed, adrs, ends, steps);
    P::t(keyed, &adrs.pk_adrs(), ends, steps)
}

/// Writes the signature of a message: each chain's value at its digit (FIPS 205, algorithm 7).
#[tactic(auto, using(crate::proofs::DigitSteps::wots_digits_below))]
pub fn wots_sign<P: WotsSizes, L: Ledger>(
    m: &NBytes<P::N>,
    sk_seed: &NBytes<P::N>,
    keyed: &P::Keyed,
    adrs: &WotsHash,
    out: &mut [u8],
    steps: &mut Steps<L>,
)
    requires { length out.old ≡ P.WOTS_SIG_LEN * P.N.USIZE }
    ensures value { let K = P.keyed_suite keyed.now in
        let a = adrs.now in
        out.new ≡ wots_sig K sk_seed.now a.layer_adrs a.tree_adrs_low a.key_pair_adrs m.now }
    ensures cost { let digits = wots_digits P.N.USIZE m.now in
        steps.new ≡ steps.old + wots_sign_cost P.WOTS_SIG_LEN digits }
    ensures bound { steps.new ≤ steps.old + wots_sign_bound P.WOTS_SIG_LEN }
{
    chain_sizes::<P>();
    let all = message_digits(m);
    let digits = &all[..P::WOTS_SIG_LEN];
    write_chains::<P, L>(digits, sk_seed, keyed, adrs, out, steps);
}

/// Writes the chain values that belong to digits.
#[tactic(auto, unfolding(crate::specs::Wots::chain_values, crate::specs::Bytes::joined))]
fn write_chains<P: WotsSizes, L: Ledger>(
    digits: &[u16],
    sk_seed: &NBytes<P::N>,
    keyed: &P::Keyed,
    adrs: &WotsHash,
    out: &mut [u8],
    steps: &mut Steps<L>,
)
    requires n { P.N.USIZE ≤ MAX_N }
    requires count { length digits.now ≡ chain_count P.N.USIZE }
    requires below { EachIndex digits.now (λ k. slice_index digits.now k < 16) }
    requires room { length out.old ≡ length digits.now * P.N.USIZE }
    ensures value { let K = P.keyed_suite keyed.now in
        let a = adrs.now in
        let sk = sk_seed.now in
        out.new ≡ chain_values K sk a.layer_adrs a.tree_adrs_low a.key_pair_adrs digits.now }
    ensures cost { steps.new ≡ steps.old + wots_sign_cost (length digits.now) digits.now }
{
    let n = P::N::USIZE;
    for (c, digit) in digits.iter().enumerate() {
        let value = own_chain::<P, L>(sk_seed, keyed, adrs, c as u32, u32::from(*digit), steps);
        put_part(out, n, c, value.as_slice());
    }
}

/// Writes the signature of a message, and answers the public key: each chain is taken to its digit,
/// and on from there to its end.
pub fn wots_sign_leaf<P: WotsSizes, L: Ledger>(
    m: &NBytes<P::N>,
    sk_seed: &NBytes<P::N>,
    keyed: &P::Keyed,
    adrs: &WotsHash,
    out: &mut [u8],
    steps: &mut Steps<L>,
) -> NBytes<P::N>
    requires { length out.old ≡ P.WOTS_SIG_LEN * P.N.USIZE }
    ensures leaf { let K = P.keyed_suite keyed.now in
        let a = adrs.now in
        result ≡ wots_pk K sk_seed.now a.layer_adrs a.tree_adrs_low a.key_pair_adrs }
    ensures value { let K = P.keyed_suite keyed.now in
        let a = adrs.now in
        out.new ≡ wots_sig K sk_seed.now a.layer_adrs a.tree_adrs_low a.key_pair_adrs m.now }
    ensures cost { steps.new ≡ steps.old + wots_pk_cost P.WOTS_SIG_LEN }
{
    chain_sizes::<P>();
    let len = P::WOTS_SIG_LEN;
    let all = message_digits(m);
    let mut store = [0u8; MAX_ENDS_LEN];
    let ends = &mut store[..ends_len::<P>()];
    P::run_chains(keyed, sk_seed, adrs, &all[..len], out, ends, steps);
    P::t(keyed, &adrs.pk_adrs(), ends, steps)
}

/// The public key that the signature of a message leads to (FIPS 205, algorithm 8).
#[tactic(auto, using(crate::proofs::DigitSteps::wots_digits_below))]
pub fn wots_pk_from_sig<P: WotsSizes, L: Ledger>(
    sig: &[u8],
    m: &NBytes<P::N>,
    keyed: &P::Keyed,
    adrs: &WotsHash,
    steps: &mut Steps<L>,
) -> NBytes<P::N>
    requires { length sig.now ≡ P.WOTS_SIG_LEN * P.N.USIZE }
    ensures value { let K = P.keyed_suite keyed.now in
        let a = adrs.now in
        let j = a.layer_adrs in
        result ≡ spec_wots_pk_from_sig K j a.tree_adrs_low a.key_pair_adrs sig.now m.now }
    ensures cost { let digits = wots_digits P.N.USIZE m.now in
        steps.new ≡ steps.old + wots_pk_from_sig_cost P.WOTS_SIG_LEN digits }
    ensures bound { steps.new ≤ steps.old + wots_pk_from_sig_bound P.WOTS_SIG_LEN }
{
    chain_sizes::<P>();
    let len = P::WOTS_SIG_LEN;
    let all = message_digits(m);
    let mut store = [0u8; MAX_ENDS_LEN];
    let ends = &mut store[..ends_len::<P>()];
    P::finish_each(keyed, &all[..len], sig, adrs, ends, steps);
    P::t(keyed, &adrs.pk_adrs(), ends, steps)
}
