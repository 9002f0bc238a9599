//! XMSS: the trees of a layer (FIPS 205, section 6).
ghost use Rattle.std.specs.Prelude.{◌≡◌, ◌+◌, ◌-◌, ◌*◌, ◌^◌, ◌≤◌, ◌<◌, length};
ghost use Rattle.slh_core.specs.Bytes.{joined};
ghost use Rattle.slh_core.specs.Costs.{wots_pk_cost, xmss_node_cost, xmss_sign_cost};
ghost use Rattle.slh_core.specs.Costs.{xmss_pk_from_sig_cost, xmss_pk_from_sig_bound};
ghost use Rattle.slh_core.specs.Digits.{wots_digits};
ghost use Rattle.slh_core.specs.Wots.{value_or, wots_pk};
ghost use Rattle.slh_merkle.specs.Checking.{checked_node};
ghost use Rattle.slh_merkle.specs.Xmss.{xmss_node as spec_xmss_node, xmss_sig};

use crate::climb::root_from_auth_path;
use crate::leaves::{Leaves, MAX_ROW, ROW_HEIGHT};
use crate::subtree::{hash_up_and_path, row_len, row_size};
use crate::treehash::{treehash, write_auth_path};
use slh_core::address::{HashTree, WotsHash};
use slh_core::array::ArraySize;
use slh_core::digits::{message_digits, no_digits};
use slh_core::equal_parts::{part_of, put_part};
use slh_core::nbytes::NBytes;
use slh_core::params::{MAX_ENDS_LEN, MAX_N, XmssSizes, tree_sizes};
use slh_core::steps::Steps;
use slh_core::wots::{ends_len, wots_pk_from_sig, wots_pk_gen, wots_sign, wots_sign_leaf};
use std::sync::ledger::Ledger;

/// The address of a key pair whose public key is a leaf of a tree.
#[inline]
fn key_pair_of(adrs: &HashTree, key_pair: u32) -> WotsHash
    ensures { result ≡ record {
      layer_adrs = adrs.now.layer_adrs;
      tree_adrs_low = adrs.now.tree_adrs_low;
      key_pair_adrs = key_pair;
      chain_adrs = 0;
      hash_adrs = 0;
    } }
{
    WotsHash {
        layer_adrs: adrs.layer_adrs,
        tree_adrs_low: adrs.tree_adrs_low,
        key_pair_adrs: key_pair,
        ..WotsHash::default()
    }
}

/// Writes the leaves from index `first` on, eight key pairs at a time. Number `signer` of them,
/// from 0, leaves the values of its chains at digits in `sig`.
fn leaves_by_eight<P: XmssSizes, L: Ledger>(
    sk_seed: &NBytes<P::N>,
    first: u32,
    groups: usize,
    signer: usize,
    digits: &[u16],
    keyed: &P::Keyed,
    adrs: &HashTree,
    sig: &mut [u8],
    out: &mut [u8],
    steps: &mut Steps<L>,
)
    requires inside { first + 8 * groups ≤ 2 ^ 32 }
    requires count { length digits.now ≡ P.WOTS_SIG_LEN }
    requires whole { length sig.old ≡ length digits.now * P.N.USIZE }
    requires room { length out.old ≡ groups * (8 * P.N.USIZE) }
    ensures leaves { let K = P.keyed_suite keyed.now in
        let leaf = wots_pk K sk_seed.now adrs.now.layer_adrs adrs.now.tree_adrs_low in
        out.new ≡ joined (λ k. leaf (first + k)) (8 * groups) }
    ensures values { let K = P.keyed_suite keyed.now in
        let sk = sk_seed.now in
        let j = adrs.now.layer_adrs in
        let t = adrs.now.tree_adrs_low in
        let value = value_or K sk j t (first + signer) sig.old digits.now in
        signer < 8 * groups → sig.new ≡ joined value (length digits.now) }
    ensures kept { 8 * groups ≤ signer → sig.new ≡ sig.old }
    ensures cost { steps.new ≡ steps.old + 8 * groups * wots_pk_cost P.WOTS_SIG_LEN }
{
    tree_sizes::<P>();
    let none = no_digits(digits.len());
    let size = 8 * P::N::USIZE;
    for g in 0..groups {
        let at = key_pair_of(adrs, first + 8 * g as u32);
        let asked = if signer / 8 == g { digits } else { none };
        let keys = &mut out[g * size..(g + 1) * size];
        P::pairs_eight(keyed, sk_seed, &at, signer % 8, asked, sig, keys, steps);
    }
}

impl<P: XmssSizes> Leaves<P> for HashTree {
    ghost use Rattle.slh_core.proofs.Chains.{length-wots_pk};
    ghost use Rattle.std.proofs.Common.{rules};

    ghost trees = { 1 };

    ghost height = { P.H_PRIME };

    ghost leaf = { λ K sk a. wots_pk K sk a.layer_adrs a.tree_adrs_low };

    ghost leaf_cost = { wots_pk_cost P.WOTS_SIG_LEN };

    fn write_eights<L: Ledger>(
        &self,
        sk_seed: &NBytes<P::N>,
        first: u32,
        groups: usize,
        keyed: &P::Keyed,
        out: &mut [u8],
        steps: &mut Steps<L>,
    ) {
        tree_sizes::<P>();
        let mut store = [0u8; MAX_ENDS_LEN];
        let sig = &mut store[..ends_len::<P>()];
        let none = no_digits(P::WOTS_SIG_LEN);
        leaves_by_eight::<P, L>(
            sk_seed, first, groups, 0, none, keyed, self, sig, out, steps,
        );
    }

    fn write_rest<L: Ledger>(
        &self,
        sk_seed: &NBytes<P::N>,
        first: u32,
        count: usize,
        keyed: &P::Keyed,
        out: &mut [u8],
        steps: &mut Steps<L>,
    ) {
        tree_sizes::<P>();
        let n = P::N::USIZE;
        for k in 0..count {
            let at = key_pair_of(self, first + k as u32);
            let leaf = wots_pk_gen::<P, L>(sk_seed, keyed, &at, steps);
            put_part(out, n, k, leaf.as_slice());
        }
    }

    ghost height_high = { Prim.search rules };

    ghost few = { Prim.search rules };

    ghost leaf_length = { λ K sk a. length-wots_pk K sk a.layer_adrs a.tree_adrs_low };
}

/// The node with index `node` at a height of the tree of an address (FIPS 205, algorithm 9).
pub fn xmss_node<P: XmssSizes, L: Ledger>(
    sk_seed: &NBytes<P::N>,
    node: u32,
    height: u32,
    keyed: &P::Keyed,
    adrs: &WotsHash,
    steps: &mut Steps<L>,
) -> NBytes<P::N>
    requires height { height ≤ P.H_PRIME }
    requires node { node < 2 ^ (P.H_PRIME - height) }
    ensures value { let K = P.keyed_suite keyed.now in
        let a = adrs.now in
        result ≡ spec_xmss_node K sk_seed.now a.layer_adrs a.tree_adrs_low height node }
    ensures cost { steps.new ≡ steps.old + xmss_node_cost P.WOTS_SIG_LEN height }
{
    treehash::<P, HashTree, L>(sk_seed, node, height, keyed, &adrs.tree_adrs(), steps)
}

/// Writes the signature of a message under leaf `idx`: the key pair's signature, and the siblings
/// on the way up (FIPS 205, algorithm 10).
pub fn xmss_sign<P: XmssSizes, L: Ledger>(
    m: &NBytes<P::N>,
    sk_seed: &NBytes<P::N>,
    keyed: &P::Keyed,
    idx: u32,
    adrs: &WotsHash,
    out: &mut [u8],
    steps: &mut Steps<L>,
)
    requires idx { idx < 2 ^ P.H_PRIME }
    requires room { length out.old ≡ (P.WOTS_SIG_LEN + P.H_PRIME) * P.N.USIZE }
    ensures value { let K = P.keyed_suite keyed.now in
        let a = adrs.now in
        let hp = P.H_PRIME in
        out.new ≡ xmss_sig K sk_seed.now a.layer_adrs a.tree_adrs_low idx m.now hp }
    ensures cost { let digits = wots_digits P.N.USIZE m.now in
        steps.new ≡ steps.old + xmss_sign_cost P.WOTS_SIG_LEN P.H_PRIME digits }
    ensures bound { steps.new ≤ steps.old + xmss_node_cost P.WOTS_SIG_LEN P.H_PRIME }
{
    tree_sizes::<P>();
    let height = P::H_PRIME;
    let (chains, path) = out.split_at_mut(ends_len::<P>());
    wots_sign::<P, L>(m, sk_seed, keyed, &adrs.at_key_pair(idx), chains, steps);
    let place = adrs.tree_adrs();
    write_auth_path::<P, HashTree, L>(sk_seed, idx, height, keyed, &place, path, steps);
}

/// The root that the signature of a message under leaf `idx` leads to (FIPS 205, algorithm 11).
pub fn xmss_pk_from_sig<P: XmssSizes, L: Ledger>(
    idx: u32,
    sig: &[u8],
    m: &NBytes<P::N>,
    keyed: &P::Keyed,
    adrs: &WotsHash,
    steps: &mut Steps<L>,
) -> NBytes<P::N>
    requires idx { idx < 2 ^ P.H_PRIME }
    requires whole { length sig.now ≡ (P.WOTS_SIG_LEN + P.H_PRIME) * P.N.USIZE }
    ensures value { let K = P.keyed_suite keyed.now in
        let a = adrs.now in
        let hp = P.H_PRIME in
        result ≡ checked_node K a.layer_adrs a.tree_adrs_low idx sig.now m.now hp }
    ensures cost { let digits = wots_digits P.N.USIZE m.now in
        steps.new ≡ steps.old + xmss_pk_from_sig_cost P.WOTS_SIG_LEN P.H_PRIME digits }
    ensures bound { let len = P.WOTS_SIG_LEN in
        steps.new ≤ steps.old + xmss_pk_from_sig_bound len P.H_PRIME }
{
    tree_sizes::<P>();
    let height = P::H_PRIME;
    let (chains, path) = sig.split_at(ends_len::<P>());
    let leaf = wots_pk_from_sig::<P, L>(chains, m, keyed, &adrs.at_key_pair(idx), steps);
    root_from_auth_path::<P, HashTree, L>(&leaf, idx, height, path, keyed, &adrs.tree_adrs(), steps)
}

/// `xmss_sign_root` for trees whose leaves stand in one row: of heights from 3, where they fill
/// eights, to `ROW_HEIGHT`.
fn sign_in_row<P: XmssSizes, L: Ledger>(
    m: &NBytes<P::N>,
    sk_seed: &NBytes<P::N>,
    keyed: &P::Keyed,
    idx: u32,
    adrs: &WotsHash,
    out: &mut [u8],
    steps: &mut Steps<L>,
) -> NBytes<P::N>
    requires eights { 3 ≤ P.H_PRIME }
    requires low { P.H_PRIME ≤ ROW_HEIGHT }
    requires idx { idx < 2 ^ P.H_PRIME }
    requires room { length out.old ≡ (P.WOTS_SIG_LEN + P.H_PRIME) * P.N.USIZE }
    ensures root { let K = P.keyed_suite keyed.now in
        let a = adrs.now in
        result ≡ spec_xmss_node K sk_seed.now a.layer_adrs a.tree_adrs_low P.H_PRIME 0 }
    ensures value { let K = P.keyed_suite keyed.now in
        let a = adrs.now in
        let hp = P.H_PRIME in
        out.new ≡ xmss_sig K sk_seed.now a.layer_adrs a.tree_adrs_low idx m.now hp }
    ensures cost { steps.new ≡ steps.old + xmss_node_cost P.WOTS_SIG_LEN P.H_PRIME }
{
    tree_sizes::<P>();
    let height = P::H_PRIME;
    let len = P::WOTS_SIG_LEN;
    let (chains, path) = out.split_at_mut(ends_len::<P>());
    let all = message_digits(m);
    let digits = &all[..len];
    let place = adrs.tree_adrs();
    let count = row_len(height as u32);
    let signer = idx as usize;
    let mut store = [0u8; MAX_ROW * MAX_N];
    let nodes = &mut store[..row_size::<P>(count)];
    leaves_by_eight::<P, L>(
        sk_seed,
        0,
        count / 8,
        signer,
        digits,
        keyed,
        &place,
        chains,
        nodes,
        steps,
    );
    hash_up_and_path::<P, HashTree, L>(nodes, idx, height as u32, keyed, &place, path, steps);
    part_of::<P::N>(nodes, 0)
}

/// Writes the signature of a message under leaf `idx`, and answers the root of the tree. Each node
/// of the tree is hashed once.
pub fn xmss_sign_root<P: XmssSizes, L: Ledger>(
    m: &NBytes<P::N>,
    sk_seed: &NBytes<P::N>,
    keyed: &P::Keyed,
    idx: u32,
    adrs: &WotsHash,
    out: &mut [u8],
    steps: &mut Steps<L>,
) -> NBytes<P::N>
    requires idx { idx < 2 ^ P.H_PRIME }
    requires room { length out.old ≡ (P.WOTS_SIG_LEN + P.H_PRIME) * P.N.USIZE }
    ensures root { let K = P.keyed_suite keyed.now in
        let a = adrs.now in
        result ≡ spec_xmss_node K sk_seed.now a.layer_adrs a.tree_adrs_low P.H_PRIME 0 }
    ensures value { let K = P.keyed_suite keyed.now in
        let a = adrs.now in
        let hp = P.H_PRIME in
        out.new ≡ xmss_sig K sk_seed.now a.layer_adrs a.tree_adrs_low idx m.now hp }
    ensures cost { steps.new ≡ steps.old + xmss_node_cost P.WOTS_SIG_LEN P.H_PRIME }
{
    tree_sizes::<P>();
    let height = P::H_PRIME;
    if 3 <= height && height <= ROW_HEIGHT as usize {
        return sign_in_row::<P, L>(m, sk_seed, keyed, idx, adrs, out, steps);
    }
    let (chains, path) = out.split_at_mut(ends_len::<P>());
    let leaf = wots_sign_leaf::<P, L>(m, sk_seed, keyed, &adrs.at_key_pair(idx), chains, steps);
    let place = adrs.tree_adrs();
    write_auth_path::<P, HashTree, L>(sk_seed, idx, height, keyed, &place, path, steps);
    root_from_auth_path::<P, HashTree, L>(&leaf, idx, height, path, keyed, &place, steps)
}
