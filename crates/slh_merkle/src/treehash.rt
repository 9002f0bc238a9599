//! Trees in one pass over their lowest subtrees, with one finished node kept for each height above.
ghost use Rattle.std.specs.Prelude.{◌≡◌, ◌≢◌, ℕ, ◌+◌, ◌-◌, ◌*◌, ◌^◌, ◌≤◌, ◌<◌};
ghost use Rattle.std.specs.Prelude.{List, length, count_ones};
ghost use Rattle.slh_core.specs.Costs.{node_cost, auth_path_cost};
ghost use Rattle.slh_merkle.specs.Merkle.{merkle, merkle_auth_path};
ghost use Rattle.slh_merkle.specs.Treehash.{stored_node, HoldsNodes};

use crate::leaves::{Leaves, ROW_HEIGHT, leaf_numbers};
use crate::node::{NodeAddress, parent, sibling};
use crate::subtree::{index_below, subtree};
use slh_core::array::ArraySize;
use slh_core::equal_parts::put_part;
use slh_core::nbytes::NBytes;
use slh_core::params::{MAX_N, WotsSizes, chain_sizes};
use slh_core::steps::Steps;
use std::sync::ledger::Ledger;

/// The bytes of a store of nodes: a place of 32 for each height from 0 to 31.
const TREEHASH_LEN: usize = 32 * 32;

/// Puts a node in the place of its height.
#[tactic(auto, unfolding(crate::specs::Treehash::stored_node))]
fn store_node<N: ArraySize>(store: &mut [u8], h: usize, node: &NBytes<N>)
    requires fits { 32 * h + 32 ≤ length store.old }
    ensures there { stored_node N.USIZE store.new h ≡ node.now }
    ensures others { (k : ℕ)
        → k ≢ h
        → stored_node N.USIZE store.new k ≡ stored_node N.USIZE store.old k }
{
    let bytes = node.as_slice();
    store[32 * h..32 * h + bytes.len()].copy_from_slice(bytes);
}

/// The node in the place of a height.
#[tactic(auto, unfolding(crate::specs::Treehash::stored_node))]
fn node_of<N: ArraySize>(store: &[u8], h: usize) -> NBytes<N>
    requires few { N.USIZE ≤ MAX_N }
    requires fits { 32 * h + 32 ≤ length store.now }
    ensures { result ≡ stored_node N.USIZE store.now h }
{
    NBytes::exact(&store[32 * h..32 * h + N::USIZE])
}

/// Takes the node with an index at the height `base`, before which `q` such nodes were taken: pairs
/// that it finishes are hashed, and the node that is left is put in its place.
fn push_node<P: WotsSizes, A: NodeAddress + Drop, L: Ledger>(
    node: &NBytes<P::N>,
    base: u32,
    index: u32,
    q: u32,
    keyed: &P::Keyed,
    adrs: &A,
    store: &mut [u8],
    steps: &mut Steps<L>,
)
    requires base { base ≤ ROW_HEIGHT }
    requires few { q < 2 ^ 31 }
    requires room { length store.old ≡ TREEHASH_LEN }
    ensures holds { let node_at = merkle (P.keyed_suite keyed.now) (A.place adrs.now) in
        (leaves : ℕ → List ℕ) (i z : ℕ)
        → index ≡ i * 2 ^ z + q
        → q < 2 ^ z
        → node.now ≡ node_at leaves base index
        → HoldsNodes P.N.USIZE (λ h. node_at leaves (base + h)) z i q store.old
        → HoldsNodes P.N.USIZE (λ h. node_at leaves (base + h)) z i (q + 1) store.new }
    ensures cost { steps.new + count_ones (q + 1) ≡ steps.old + count_ones q + 1 }
{
    chain_sizes::<P>();
    let mut current = node.copy();
    let mut index = index;
    let mut bits = q;
    let mut h = 0;
    while bits % 2 == 1 {
        let left = node_of::<P::N>(store, h);
        bits /= 2;
        index /= 2;
        h += 1;
        let height = base + h as u32;
        current = parent::<P, A, L>(&left, &current, height, index, keyed, adrs, steps);
    }
    store_node(store, h, &current);
}

/// The node with index `i` at height `z` of the trees of an address (FIPS 205, algorithms 9 and
/// 15). The subtrees below it are taken from left to right.
pub(crate) fn treehash<P: WotsSizes, A: Leaves<P> + Drop, L: Ledger>(
    sk_seed: &NBytes<P::N>,
    i: u32,
    z: u32,
    keyed: &P::Keyed,
    adrs: &A,
    steps: &mut Steps<L>,
) -> NBytes<P::N>
    requires height { z ≤ A.height }
    requires node { i < A.trees * 2 ^ (A.height - z) }
    ensures value { let K = P.keyed_suite keyed.now in
        let leaves = A.leaf K sk_seed.now adrs.now in
        result ≡ merkle K (A.place adrs.now) leaves z i }
    ensures cost { steps.new ≡ steps.old + node_cost A.leaf_cost z }
{
    chain_sizes::<P>();
    leaf_numbers::<P, A>();
    let base = z.min(ROW_HEIGHT);
    let above = z - base;
    let mut store = [0u8; TREEHASH_LEN];
    for q in 0..1u32 << above {
        let index = index_below(i, above, q);
        let node = subtree::<P, A, L>(sk_seed, index, base, keyed, adrs, steps);
        push_node::<P, A, L>(&node, base, index, q, keyed, adrs, &mut store, steps);
    }
    node_of::<P::N>(&store, above as usize)
}

/// Writes the siblings on the way up from leaf `y` to the root of its tree.
pub(crate) fn write_auth_path<P: WotsSizes, A: Leaves<P> + Drop, L: Ledger>(
    sk_seed: &NBytes<P::N>,
    y: u32,
    height: usize,
    keyed: &P::Keyed,
    adrs: &A,
    out: &mut [u8],
    steps: &mut Steps<L>,
)
    requires leaf { y < A.trees * 2 ^ A.height }
    requires height { height ≡ A.height }
    requires room { length out.old ≡ height * P.N.USIZE }
    ensures value { let K = P.keyed_suite keyed.now in
        let leaves = A.leaf K sk_seed.now adrs.now in
        out.new ≡ merkle_auth_path K (A.place adrs.now) leaves y height }
    ensures cost { steps.new ≡ steps.old + auth_path_cost A.leaf_cost height }
{
    chain_sizes::<P>();
    leaf_numbers::<P, A>();
    let n = P::N::USIZE;
    for z in 0..height {
        let value = treehash::<P, A, L>(sk_seed, sibling(y >> z), z as u32, keyed, adrs, steps);
        put_part(out, n, z, value.as_slice());
    }
}
