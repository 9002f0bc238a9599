//! FORS: the forest below a leaf of the lowest layer (FIPS 205, section 8).
ghost use Rattle.std.specs.Prelude.{◌≡◌, ◌+◌, ◌-◌, ◌*◌, ◌^◌, ◌≤◌, ◌<◌, ◌++◌, length, take, drop};
ghost use Rattle.std.specs.Prelude.{slice_index, EachIndex};
ghost use Rattle.slh_core.specs.Bytes.{joined};
ghost use Rattle.slh_core.specs.Costs.{auth_path_cost, fors_leaf_cost, fors_node_cost};
ghost use Rattle.slh_core.specs.Costs.{fors_sign_cost, fors_pk_from_sig_cost, fors_pk_cost};
ghost use Rattle.slh_merkle.specs.Checking.{checked_fors_node, forest_size};
ghost use Rattle.slh_merkle.specs.Checking.{fors_pk_from_sig as spec_fors_pk_from_sig};
ghost use Rattle.slh_merkle.specs.Fors.{fors_secret, fors_leaf, fors_node as spec_fors_node};
ghost use Rattle.slh_merkle.specs.Fors.{fors_auth_path, fors_pk, opened_leaves, fors_sig};

use crate::climb_rows::{climb_level, leaf_indices, opened_secrets};
use crate::laws::forest_leads_to_key;
use crate::leaves::{Leaves, number_from};
use crate::node::NodeAddress;
use crate::treehash::{treehash, write_auth_path};
use slh_core::address::{ForsPrf, ForsTree};
use slh_core::array::ArraySize;
use slh_core::digits::base_2b;
use slh_core::nbytes::NBytes;
use slh_core::params::{ForsSizes, MAX_FORS_TREES, MAX_OPENED_LEN, MAX_ROOTS_LEN, forest_sizes};
use slh_core::steps::Steps;
use std::sync::ledger::Ledger;

/// The secret with an index, which runs through all trees of the forest (FIPS 205, algorithm 14).
#[tactic(auto, unfolding(crate::specs::Fors::fors_secret))]
pub fn fors_sk_gen<P: ForsSizes, L: Ledger>(
    sk_seed: &NBytes<P::N>,
    keyed: &P::Keyed,
    adrs: &ForsTree,
    idx: u32,
    steps: &mut Steps<L>,
) -> NBytes<P::N>
    requires { idx < P.K * 2 ^ P.A }
    ensures value { let K = P.keyed_suite keyed.now in
        let a = adrs.now in
        result ≡ fors_secret K sk_seed.now a.tree_adrs_low a.key_pair_adrs idx }
    ensures cost { steps.new ≡ steps.old + 1 }
{
    let at = ForsPrf {
        tree_index: idx,
        ..adrs.prf_adrs()
    };
    P::prf_sk(keyed, sk_seed, &at, steps)
}

impl<P: ForsSizes> Leaves<P> for ForsTree {
    ghost use Rattle.slh_merkle.specs.Lengths.{length-fors_leaf};
    ghost use Rattle.std.proofs.Common.{rules};

    ghost trees = { P.K };

    ghost height = { P.A };

    ghost leaf = { λ K sk a. fors_leaf K sk a.tree_adrs_low a.key_pair_adrs };

    ghost leaf_cost = { fors_leaf_cost };

    fn write_eights<L: Ledger>(
        &self,
        sk_seed: &NBytes<P::N>,
        first: u32,
        groups: usize,
        keyed: &P::Keyed,
        out: &mut [u8],
        steps: &mut Steps<L>,
    ) {
        forest_sizes::<P>();
        let size = 8 * P::N::USIZE;
        for g in 0..groups {
            let leaves = &mut out[g * size..(g + 1) * size];
            P::leaves_eight(keyed, sk_seed, self, first + 8 * g as u32, leaves, steps);
        }
    }

    fn write_rest<L: Ledger>(
        &self,
        sk_seed: &NBytes<P::N>,
        first: u32,
        count: usize,
        keyed: &P::Keyed,
        out: &mut [u8],
        steps: &mut Steps<L>,
    ) {
        forest_sizes::<P>();
        let mut row = [0u32; 8];
        let numbers = &mut row[..count];
        number_from(first, numbers);
        P::prf_each(keyed, sk_seed, &self.prf_adrs(), numbers, out, steps);
        P::f_each(keyed, &self.at_node(0, 0), numbers, out, steps);
    }

    ghost height_high = { Prim.search rules };

    ghost few = { Prim.search rules };

    ghost leaf_length = { λ K sk a. length-fors_leaf K sk a.tree_adrs_low a.key_pair_adrs };
}

/// The node with index `i` at height `z` (FIPS 205, algorithm 15), where indices run through all
/// trees of the forest.
pub fn fors_node<P: ForsSizes, L: Ledger>(
    sk_seed: &NBytes<P::N>,
    i: u32,
    z: u32,
    keyed: &P::Keyed,
    adrs: &ForsTree,
    steps: &mut Steps<L>,
) -> NBytes<P::N>
    requires height { z ≤ P.A }
    requires node { i < P.K * 2 ^ (P.A - z) }
    ensures value { let K = P.keyed_suite keyed.now in
        let a = adrs.now in
        result ≡ spec_fors_node K sk_seed.now a.tree_adrs_low a.key_pair_adrs z i }
    ensures cost { steps.new ≡ steps.old + fors_node_cost z }
{
    treehash::<P, ForsTree, L>(sk_seed, i, z, keyed, adrs, steps)
}

/// Opens the secret with index `y`: writes it, and the siblings on the way up from it.
#[tactic(auto, unfolding(crate::specs::Fors::fors_leaf))]
fn open_secret<P: ForsSizes, L: Ledger>(
    sk_seed: &NBytes<P::N>,
    keyed: &P::Keyed,
    y: u32,
    adrs: &ForsTree,
    out: &mut [u8],
    steps: &mut Steps<L>,
)
    requires leaf { y < P.K * 2 ^ P.A }
    requires room { length out.old ≡ (1 + P.A) * P.N.USIZE }
    ensures value { let K = P.keyed_suite keyed.now in
        let a = adrs.now in
        out.new ≡ fors_secret K sk_seed.now a.tree_adrs_low a.key_pair_adrs y
        ++ fors_auth_path K sk_seed.now a.tree_adrs_low a.key_pair_adrs y P.A }
    ensures cost { steps.new ≡ steps.old + (1 + auth_path_cost fors_leaf_cost P.A) }
{
    forest_sizes::<P>();
    let (secret, path) = out.split_at_mut(P::N::USIZE);
    secret.copy_from_slice(fors_sk_gen::<P, L>(sk_seed, keyed, adrs, y, steps).as_slice());
    let height = P::A;
    write_auth_path::<P, ForsTree, L>(sk_seed, y, height, keyed, adrs, path, steps);
}

/// How many bytes are opened in one tree.
pub fn opened_len<P: ForsSizes>() -> usize
    ensures value { result ≡ (1 + P.A) * P.N.USIZE }
    ensures small { result ≤ MAX_OPENED_LEN }
{
    forest_sizes::<P>();
    (1 + P::A) * P::N::USIZE
}

/// How many bytes the forest's part of a signature has.
#[inline]
pub fn forest_len<P: ForsSizes>() -> usize
    ensures value { result ≡ forest_size P.N.USIZE P.K P.A }
    ensures small { result ≤ MAX_FORS_TREES * MAX_OPENED_LEN }
{
    forest_sizes::<P>();
    P::K * opened_len::<P>()
}

/// How many bytes the roots of all trees of the forest have.
pub fn roots_len<P: ForsSizes>() -> usize
    ensures value { result ≡ P.K * P.N.USIZE }
    ensures small { result ≤ MAX_ROOTS_LEN }
{
    forest_sizes::<P>();
    P::K * P::N::USIZE
}

/// Writes the signature of the digest's first part: it opens one secret in each tree, which the
/// part's digits name (FIPS 205, algorithm 16).
pub fn fors_sign<P: ForsSizes, L: Ledger>(
    md: &[u8],
    sk_seed: &NBytes<P::N>,
    keyed: &P::Keyed,
    adrs: &ForsTree,
    out: &mut [u8],
    steps: &mut Steps<L>,
)
    requires digest { length md.now ≡ P.MD }
    requires room { length out.old ≡ P.K * ((1 + P.A) * P.N.USIZE) }
    ensures value { let K = P.keyed_suite keyed.now in
        let t = adrs.now.tree_adrs_low in
        let l = adrs.now.key_pair_adrs in
        out.new ≡ fors_sig K sk_seed.now t l P.K P.A md.now }
    ensures cost { steps.new ≡ steps.old + fors_sign_cost P.K P.A }
{
    forest_sizes::<P>();
    let mut store = [0u16; MAX_FORS_TREES];
    let digits = &mut store[..P::K];
    base_2b(md, P::A as u32, digits);
    open_all::<P, L>(digits, sk_seed, keyed, adrs, out, steps);
}

/// Opens one secret in each tree, by its digit.
fn open_all<P: ForsSizes, L: Ledger>(
    digits: &[u16],
    sk_seed: &NBytes<P::N>,
    keyed: &P::Keyed,
    adrs: &ForsTree,
    out: &mut [u8],
    steps: &mut Steps<L>,
)
    requires count { length digits.now ≡ P.K }
    requires below { EachIndex digits.now (λ i. slice_index digits.now i < 2 ^ P.A) }
    requires room { length out.old ≡ P.K * ((1 + P.A) * P.N.USIZE) }
    ensures value { let K = P.keyed_suite keyed.now in
        let t = adrs.now.tree_adrs_low in
        let l = adrs.now.key_pair_adrs in
        out.new ≡ opened_leaves K sk_seed.now t l P.K P.A digits.now }
    ensures cost { steps.new ≡ steps.old + fors_sign_cost P.K P.A }
{
    forest_sizes::<P>();
    let size = opened_len::<P>();
    for (i, digit) in digits.iter().enumerate() {
        let y = index_of::<P>(i, *digit);
        let opened = &mut out[i * size..(i + 1) * size];
        open_secret::<P, L>(sk_seed, keyed, y, adrs, opened, steps);
    }
}

/// The index of the leaf that a digit names in tree `i`.
pub fn index_of<P: ForsSizes>(i: usize, digit: u16) -> u32
    requires tree { i < P.K }
    requires digit { digit < 2 ^ P.A }
    ensures value { result ≡ i * 2 ^ P.A + digit }
    ensures below { result < P.K * 2 ^ P.A }
{
    forest_sizes::<P>();
    i as u32 * (1u32 << P::A) + u32::from(digit)
}

/// The forest's public key that the signature of the digest's first part leads to (FIPS 205,
/// algorithm 17).
pub fn fors_pk_from_sig<P: ForsSizes, L: Ledger>(
    sig: &[u8],
    md: &[u8],
    keyed: &P::Keyed,
    adrs: &ForsTree,
    steps: &mut Steps<L>,
) -> NBytes<P::N>
    requires digest { length md.now ≡ P.MD }
    requires whole { length sig.now ≡ P.K * ((1 + P.A) * P.N.USIZE) }
    ensures value { let K = P.keyed_suite keyed.now in
        let t = adrs.now.tree_adrs_low in
        let l = adrs.now.key_pair_adrs in
        result ≡ spec_fors_pk_from_sig K t l P.K P.A sig.now md.now }
    ensures cost { steps.new ≡ steps.old + fors_pk_from_sig_cost P.K P.A }
{
    forest_sizes::<P>();
    let mut store = [0u16; MAX_FORS_TREES];
    let digits = &mut store[..P::K];
    base_2b(md, P::A as u32, digits);
    let mut roots_store = [0u8; MAX_ROOTS_LEN];
    let roots = &mut roots_store[..roots_len::<P>()];
    climb_all::<P, L>(digits, sig, keyed, adrs, roots, steps);
    P::t(keyed, &adrs.fors_roots(), roots, steps)
}

/// Climbs from each opened secret to the root of its tree, in all trees together.
pub fn climb_all<P: ForsSizes, L: Ledger>(
    digits: &[u16],
    sig: &[u8],
    keyed: &P::Keyed,
    adrs: &ForsTree,
    out: &mut [u8],
    steps: &mut Steps<L>,
)
    requires count { length digits.now ≡ P.K }
    requires below { EachIndex digits.now (λ i. slice_index digits.now i < 2 ^ P.A) }
    requires whole { length sig.now ≡ P.K * ((1 + P.A) * P.N.USIZE) }
    requires room { length out.old ≡ P.K * P.N.USIZE }
    ensures value { let K = P.keyed_suite keyed.now in
        let t = adrs.now.tree_adrs_low in
        let l = adrs.now.key_pair_adrs in
        let a = P.A in
        out.new ≡ joined (λ i. checked_fors_node K t l a sig.now digits.now i a) P.K }
    ensures cost { steps.new ≡ steps.old + P.K * (1 + P.A) }
{
    forest_sizes::<P>();
    let mut row = [0u32; MAX_FORS_TREES];
    let indices = &mut row[..P::K];
    leaf_indices::<P>(digits, indices);
    opened_secrets::<P>(sig, out);
    P::f_each(keyed, &adrs.at_node(0, 0), indices, out, steps);
    for z in 0..P::A {
        climb_level::<P, L>(indices, z, sig, keyed, adrs, out, steps);
    }
}

/// Writes the signature of the digest's first part, and answers the forest's public key, which the
/// lowest layer signs: the hash of the roots of all trees, and no root itself. Each node of the
/// forest is hashed once.
pub fn fors_sign_root<P: ForsSizes, L: Ledger>(
    md: &[u8],
    sk_seed: &NBytes<P::N>,
    keyed: &P::Keyed,
    adrs: &ForsTree,
    out: &mut [u8],
    steps: &mut Steps<L>,
) -> NBytes<P::N>
    requires digest { length md.now ≡ P.MD }
    requires room { length out.old ≡ P.K * ((1 + P.A) * P.N.USIZE) }
    ensures key { let K = P.keyed_suite keyed.now in
        let t = adrs.now.tree_adrs_low in
        let l = adrs.now.key_pair_adrs in
        result ≡ fors_pk K sk_seed.now t l P.K P.A }
    ensures value { let K = P.keyed_suite keyed.now in
        let t = adrs.now.tree_adrs_low in
        let l = adrs.now.key_pair_adrs in
        out.new ≡ fors_sig K sk_seed.now t l P.K P.A md.now }
    ensures cost { steps.new ≡ steps.old + fors_pk_cost P.K P.A }
{
    forest_leads_to_key::<P>();
    fors_sign::<P, L>(md, sk_seed, keyed, adrs, out, steps);
    fors_pk_from_sig::<P, L>(out, md, keyed, adrs, steps)
}
