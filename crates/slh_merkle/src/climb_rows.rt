//! The ways up in all trees of a forest, a height at a time.
ghost use Rattle.std.specs.Prelude.{◌≡◌, ℕ, ◌+◌, ◌-◌, ◌*◌, ◌/◌, ◌%◌, ◌^◌, ◌≤◌, ◌<◌, List, length};
ghost use Rattle.std.specs.Prelude.{take, drop, slice_index, EachIndex, ◌==◌, if◌then◌else◌};
ghost use Rattle.slh_core.specs.Bytes.{joined, part};
ghost use Rattle.slh_merkle.specs.Fors.{fors_place, leaf_index};
ghost use Rattle.slh_merkle.specs.Merkle.{node_bytes};

use crate::fors::{index_of, opened_len, roots_len};
use crate::node::NodeAddress;
use slh_core::address::ForsTree;
use slh_core::array::ArraySize;
use slh_core::equal_parts::{part_of, piece, put_part};
use slh_core::nbytes::NBytes;
use slh_core::params::{ForsSizes, MAX_FORS_TREES, MAX_ROOTS_LEN, forest_sizes};
use slh_core::steps::Steps;
use std::sync::ledger::Ledger;

/// Writes the indices of the leaves that the digits name, one in each tree.
pub(crate) fn leaf_indices<P: ForsSizes>(digits: &[u16], indices: &mut [u32])
    requires count { length digits.now ≡ P.K }
    requires below { EachIndex digits.now (λ i. slice_index digits.now i < 2 ^ P.A) }
    requires room { length indices.old ≡ P.K }
    ensures { (i : ℕ)
        → i < P.K
        → slice_index indices.new i ≡ leaf_index P.A digits.now i }
{
    for (i, digit) in digits.iter().enumerate() {
        indices[i] = index_of::<P>(i, *digit);
    }
}

/// Writes the secrets that are opened, one of each tree.
pub(crate) fn opened_secrets<P: ForsSizes>(sig: &[u8], out: &mut [u8])
    requires whole { length sig.now ≡ P.K * ((1 + P.A) * P.N.USIZE) }
    requires room { length out.old ≡ P.K * P.N.USIZE }
    ensures { (i : ℕ)
        → i < P.K
        → part P.N.USIZE out.new i
        ≡ take P.N.USIZE (part ((1 + P.A) * P.N.USIZE) sig.now i) }
{
    let n = P::N::USIZE;
    let size = opened_len::<P>();
    for i in 0..P::K {
        let opened = piece(sig, size, i);
        put_part(out, n, i, &opened[..n]);
    }
}

/// The sibling at height `z` on the way up in tree `i`.
#[inline]
fn sibling_in<P: ForsSizes>(sig: &[u8], i: usize, z: usize) -> NBytes<P::N>
    requires tree { i < P.K }
    requires height { z < P.A }
    requires whole { length sig.now ≡ P.K * ((1 + P.A) * P.N.USIZE) }
    ensures { let opened = part ((1 + P.A) * P.N.USIZE) sig.now i in
        result ≡ part P.N.USIZE (drop P.N.USIZE opened) z }
{
    forest_sizes::<P>();
    let opened = piece(sig, opened_len::<P>(), i);
    part_of::<P::N>(&opened[P::N::USIZE..], z)
}

/// Puts two values into pair `i`. The pairs before it stay.
#[inline]
fn put_pair<N: ArraySize>(pairs: &mut [u8], i: usize, left: &NBytes<N>, right: &NBytes<N>)
    requires few { i < MAX_FORS_TREES }
    requires fits { (i + 1) * (2 * N.USIZE) ≤ length pairs.old }
    ensures left { part N.USIZE pairs.new (2 * i) ≡ left.now }
    ensures right { part N.USIZE pairs.new (2 * i + 1) ≡ right.now }
    ensures before { (j : ℕ) → j < 2 * i → part N.USIZE pairs.new j ≡ part N.USIZE pairs.old j }
{
    let n = N::USIZE;
    put_part(pairs, n, 2 * i, left.as_slice());
    put_part(pairs, n, 2 * i + 1, right.as_slice());
}

/// Puts a node and its sibling into pair `i`, the one with the even index first.
#[inline]
fn put_in_order<N: ArraySize>(
    pairs: &mut [u8],
    i: usize,
    index: u32,
    node: &NBytes<N>,
    beside: &NBytes<N>,
)
    requires few { i < MAX_FORS_TREES }
    requires fits { (i + 1) * (2 * N.USIZE) ≤ length pairs.old }
    ensures left { part N.USIZE pairs.new (2 * i)
        ≡ (if index % 2 == 0 then node.now else beside.now) }
    ensures right { part N.USIZE pairs.new (2 * i + 1)
        ≡ (if index % 2 == 0 then beside.now else node.now) }
    ensures before { (j : ℕ) → j < 2 * i → part N.USIZE pairs.new j ≡ part N.USIZE pairs.old j }
{
    if index % 2 == 0 {
        put_pair(pairs, i, node, beside);
    } else {
        put_pair(pairs, i, beside, node);
    }
}

/// Pairs the nodes of a height, one of each tree, with their siblings.
fn pair_nodes<P: ForsSizes>(indices: &[u32], z: usize, sig: &[u8], nodes: &[u8], pairs: &mut [u8])
    requires count { length indices.now ≡ P.K }
    requires height { z < P.A }
    requires whole { length sig.now ≡ P.K * ((1 + P.A) * P.N.USIZE) }
    requires nodes { length nodes.now ≡ P.K * P.N.USIZE }
    requires room { length pairs.old ≡ P.K * (2 * P.N.USIZE) }
    ensures left { (i : ℕ)
        → i < P.K
        → let opened = part ((1 + P.A) * P.N.USIZE) sig.now i in
        let node = part P.N.USIZE nodes.now i in
        let beside = part P.N.USIZE (drop P.N.USIZE opened) z in
        part P.N.USIZE pairs.new (2 * i)
        ≡ (if slice_index indices.now i % 2 == 0 then node else beside) }
    ensures right { (i : ℕ)
        → i < P.K
        → let opened = part ((1 + P.A) * P.N.USIZE) sig.now i in
        let node = part P.N.USIZE nodes.now i in
        let beside = part P.N.USIZE (drop P.N.USIZE opened) z in
        part P.N.USIZE pairs.new (2 * i + 1)
        ≡ (if slice_index indices.now i % 2 == 0 then beside else node) }
{
    forest_sizes::<P>();
    for (i, index) in indices.iter().enumerate() {
        let node = part_of::<P::N>(nodes, i);
        let beside = sibling_in::<P>(sig, i, z);
        put_in_order(pairs, i, *index, &node, &beside);
    }
}

/// Halves the indices of nodes, which makes them those of their parents.
fn halve(indices: &mut [u32])
    ensures { (i : ℕ)
        → i < length indices.old
        → slice_index indices.new i ≡ slice_index indices.old i / 2 }
{
    for i in 0..indices.len() {
        indices[i] /= 2;
    }
}

/// How many bytes the pairs of a height have, one of each tree.
#[inline]
fn pairs_len<P: ForsSizes>() -> usize
    ensures value { result ≡ P.K * (2 * P.N.USIZE) }
    ensures small { result ≤ 2 * MAX_ROOTS_LEN }
{
    2 * roots_len::<P>()
}

/// Takes the nodes of a height, one of each tree, and their indices to the next height.
pub(crate) fn climb_level<P: ForsSizes, L: Ledger>(
    indices: &mut [u32],
    z: usize,
    sig: &[u8],
    keyed: &P::Keyed,
    adrs: &ForsTree,
    nodes: &mut [u8],
    steps: &mut Steps<L>,
)
    requires count { length indices.old ≡ P.K }
    requires height { z < P.A }
    requires whole { length sig.now ≡ P.K * ((1 + P.A) * P.N.USIZE) }
    requires room { length nodes.old ≡ P.K * P.N.USIZE }
    ensures indices { (i : ℕ)
        → i < P.K
        → slice_index indices.new i ≡ slice_index indices.old i / 2 }
    ensures value { let K = P.keyed_suite keyed.now in
        let B = fors_place adrs.now.tree_adrs_low adrs.now.key_pair_adrs in
        let parent : ℕ → List ℕ = λ i.
        let opened = part ((1 + P.A) * P.N.USIZE) sig.now i in
        let node = part P.N.USIZE nodes.old i in
        let beside = part P.N.USIZE (drop P.N.USIZE opened) z in
        let at = node_bytes B (z + 1) (slice_index indices.old i / 2) in
        if slice_index indices.old i % 2 == 0
        then K.suite.h K.seed at node beside
        else K.suite.h K.seed at beside node in
        nodes.new ≡ joined parent P.K }
    ensures cost { steps.new ≡ steps.old + P.K }
{
    forest_sizes::<P>();
    let mut store = [0u8; 2 * MAX_ROOTS_LEN];
    let pairs = &mut store[..pairs_len::<P>()];
    pair_nodes::<P>(indices, z, sig, nodes, pairs);
    halve(indices);
    let at = adrs.at_node(z as u32 + 1, 0);
    P::h_each(keyed, &at, indices, pairs, nodes, steps);
}
