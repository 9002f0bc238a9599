//! The hypertree: layers of trees, each of which signs the root below (FIPS 205, section 7).
ghost use Rattle.std.specs.Prelude.{◌≡◌, ◌↔◌, ◌+◌, ◌-◌, ◌*◌, ◌/◌, ◌%◌, ◌^◌, ◌≤◌, ◌<◌};
ghost use Rattle.std.specs.Prelude.{length, IsTrue};
ghost use Rattle.slh_core.specs.Costs.{ht_sign_cost, ht_verify_bound};
ghost use Rattle.slh_merkle.specs.Checking.{checked_message};
ghost use Rattle.slh_merkle.specs.Hypertree.{ht_sig, layer_size};

use crate::xmss::{xmss_pk_from_sig, xmss_sign_root};
use slh_core::address::WotsHash;
use slh_core::array::ArraySize;
use slh_core::equal_parts::piece;
use slh_core::nbytes::NBytes;
use slh_core::params::{HypertreeSizes, XmssSizes, layer_sizes, tree_sizes};
use slh_core::steps::Steps;
use std::sync::ledger::Ledger;

/// How many bytes a layer's signature has.
pub fn layer_len<P: XmssSizes>() -> usize
    ensures value { result ≡ layer_size P.N.USIZE P.H_PRIME }
    ensures small { result ≤ 4096 }
{
    tree_sizes::<P>();
    (P::WOTS_SIG_LEN + P::H_PRIME) * P::N::USIZE
}

/// The tree and the leaf of the next layer.
pub fn next_place(tree: u64, height: usize) -> (u64, u32)
    requires { height ≤ 31 }
    ensures tree { result.0 ≡ tree / 2 ^ height }
    ensures leaf { result.1 ≡ tree % 2 ^ height }
    ensures below { result.1 < 2 ^ height }
{
    (tree >> height, (tree % (1 << height)) as u32)
}

/// The address of a tree of a layer.
#[inline]
pub fn tree_adrs_of(layer: u32, tree: u64) -> WotsHash
    ensures { result ≡ record {
      layer_adrs = layer;
      tree_adrs_low = tree;
      key_pair_adrs = 0;
      chain_adrs = 0;
      hash_adrs = 0;
    } }
{
    WotsHash {
        layer_adrs: layer,
        tree_adrs_low: tree,
        ..WotsHash::default()
    }
}

/// Writes the signature of a message under a leaf of a tree of the lowest layer: the signatures of
/// all layers, from the lowest up (FIPS 205, algorithm 12).
pub fn ht_sign<P: HypertreeSizes, L: Ledger>(
    m: &NBytes<P::N>,
    sk_seed: &NBytes<P::N>,
    keyed: &P::Keyed,
    idx_tree: u64,
    idx_leaf: u32,
    out: &mut [u8],
    steps: &mut Steps<L>,
)
    requires tree { idx_tree < 2 ^ (P.H - P.H_PRIME) }
    requires leaf { idx_leaf < 2 ^ P.H_PRIME }
    requires room { length out.old ≡ P.D * layer_size P.N.USIZE P.H_PRIME }
    ensures value { let K = P.keyed_suite keyed.now in
        let hp = P.H_PRIME in
        out.new ≡ ht_sig K hp sk_seed.now idx_tree idx_leaf m.now P.D }
    ensures cost { let hp = P.H_PRIME in
        steps.new ≡ steps.old + ht_sign_cost P.WOTS_SIG_LEN hp P.D }
{
    layer_sizes::<P>();
    let height = P::H_PRIME;
    let size = layer_len::<P>();
    let mut message = m.copy();
    let mut tree = idx_tree;
    let mut leaf = idx_leaf;
    for j in 0..P::D {
        let at = tree_adrs_of(j as u32, tree);
        let layer = &mut out[j * size..(j + 1) * size];
        message = xmss_sign_root::<P, L>(&message, sk_seed, keyed, leaf, &at, layer, steps);
        (tree, leaf) = next_place(tree, height);
    }
}

/// The root that the signatures of all layers lead to.
pub fn ht_root<P: HypertreeSizes, L: Ledger>(
    m: &NBytes<P::N>,
    sig: &[u8],
    keyed: &P::Keyed,
    idx_tree: u64,
    idx_leaf: u32,
    steps: &mut Steps<L>,
) -> NBytes<P::N>
    requires tree { idx_tree < 2 ^ (P.H - P.H_PRIME) }
    requires leaf { idx_leaf < 2 ^ P.H_PRIME }
    requires whole { length sig.now ≡ P.D * layer_size P.N.USIZE P.H_PRIME }
    ensures value { let K = P.keyed_suite keyed.now in
        let hp = P.H_PRIME in
        result ≡ checked_message K hp idx_tree idx_leaf sig.now m.now P.D }
    ensures bound { let hp = P.H_PRIME in
        steps.new ≤ steps.old + ht_verify_bound P.WOTS_SIG_LEN hp P.D }
    ensures rises { steps.old ≤ steps.new }
{
    layer_sizes::<P>();
    let height = P::H_PRIME;
    let size = layer_len::<P>();
    let mut message = m.copy();
    let mut tree = idx_tree;
    let mut leaf = idx_leaf;
    for j in 0..P::D {
        let at = tree_adrs_of(j as u32, tree);
        let layer = piece(sig, size, j);
        message = xmss_pk_from_sig::<P, L>(leaf, layer, &message, keyed, &at, steps);
        (tree, leaf) = next_place(tree, height);
    }
    message
}

/// Whether the signature of a message leads to a root (FIPS 205, algorithm 13).
pub fn ht_verify<P: HypertreeSizes, L: Ledger>(
    m: &NBytes<P::N>,
    sig: &[u8],
    keyed: &P::Keyed,
    idx_tree: u64,
    idx_leaf: u32,
    pk_root: &NBytes<P::N>,
    steps: &mut Steps<L>,
) -> bool
    requires tree { idx_tree < 2 ^ (P.H - P.H_PRIME) }
    requires leaf { idx_leaf < 2 ^ P.H_PRIME }
    requires whole { length sig.now ≡ P.D * layer_size P.N.USIZE P.H_PRIME }
    ensures value { let K = P.keyed_suite keyed.now in
        let hp = P.H_PRIME in
        let root = checked_message K hp idx_tree idx_leaf sig.now m.now P.D in
        IsTrue result ↔ (root ≡ pk_root.now) }
    ensures bound { let hp = P.H_PRIME in
        steps.new ≤ steps.old + ht_verify_bound P.WOTS_SIG_LEN hp P.D }
    ensures rises { steps.old ≤ steps.new }
{
    let root = ht_root::<P, L>(m, sig, keyed, idx_tree, idx_leaf, steps);
    root.as_slice() == pk_root.as_slice()
}
