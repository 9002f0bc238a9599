//! Subtrees whose levels are hashed as rows.
ghost use Rattle.std.specs.Prelude.{◌≡◌, ℕ, ◌+◌, ◌-◌, ◌*◌, ◌^◌, ◌≤◌, ◌<◌, length, List};
ghost use Rattle.slh_core.specs.Bytes.{part};
ghost use Rattle.slh_core.specs.Costs.{node_cost};
ghost use Rattle.slh_merkle.specs.Merkle.{merkle, merkle_auth_path, node_bytes};

use crate::leaves::{Leaves, MAX_ROW, ROW_HEIGHT, leaf_numbers, number_from, write_leaves};
use crate::node::{NodeAddress, sibling};
use slh_core::array::ArraySize;
use slh_core::equal_parts::{part_of, put_part};
use slh_core::nbytes::NBytes;
use slh_core::params::{MAX_N, WotsSizes, chain_sizes};
use slh_core::steps::Steps;
use std::sync::ledger::Ledger;

/// The index of the node after `q` others, `z` heights below the node with index `i`.
#[inline]
pub(crate) fn index_below(i: u32, z: u32, q: u32) -> u32
    requires height { z ≤ 31 }
    requires fits { i * 2 ^ z + q < 2 ^ 32 }
    ensures { result ≡ i * 2 ^ z + q }
{
    (i << z) + q
}

/// How many leaves stand below a node at height `z`.
#[inline]
pub(crate) fn row_len(z: u32) -> usize
    requires { z ≤ ROW_HEIGHT }
    ensures value { result ≡ 2 ^ z }
    ensures few { result ≤ MAX_ROW }
{
    1 << z
}

/// How many bytes the nodes of a row have.
#[inline]
pub(crate) fn row_size<P: WotsSizes>(count: usize) -> usize
    requires { count ≤ MAX_ROW }
    ensures value { result ≡ count * P.N.USIZE }
    ensures small { result ≤ count * MAX_N }
{
    chain_sizes::<P>();
    count * P::N::USIZE
}

/// Puts the parents of a row of nodes at the front of the row: `count` of them, with the indices
/// from `first` on at a height.
fn hash_level<P: WotsSizes, A: NodeAddress + Drop, L: Ledger>(
    nodes: &mut [u8],
    count: usize,
    height: u32,
    first: u32,
    keyed: &P::Keyed,
    adrs: &A,
    steps: &mut Steps<L>,
)
    requires few { 2 * count ≤ MAX_ROW }
    requires indices { first + count ≤ 2 ^ 32 }
    requires room { count * (2 * P.N.USIZE) ≤ length nodes.old }
    ensures parents { let K = P.keyed_suite keyed.now in
        let child : ℕ → List ℕ = λ k. part P.N.USIZE nodes.old k in
        (k : ℕ)
        → k < count
        → part P.N.USIZE nodes.new k
        ≡ K.suite.h K.seed (node_bytes (A.place adrs.now) height (first + k))
        (child (2 * k)) (child (2 * k + 1)) }
    ensures cost { steps.new ≡ steps.old + count }
{
    chain_sizes::<P>();
    let size = row_size::<P>(count);
    let mut row = [0u32; MAX_ROW / 2];
    let numbers = &mut row[..count];
    number_from(first, numbers);
    let mut buffer = [0u8; MAX_ROW / 2 * MAX_N];
    let parents = &mut buffer[..size];
    let at = adrs.at_node(height, 0);
    P::h_each(keyed, &at, numbers, &nodes[..2 * size], parents, steps);
    nodes[..size].copy_from_slice(parents);
}

/// Hashes the `2 ^ z` leaves below the node with index `i` level by level, up to the node.
fn hash_up<P: WotsSizes, A: NodeAddress + Drop, L: Ledger>(
    nodes: &mut [u8],
    i: u32,
    z: u32,
    keyed: &P::Keyed,
    adrs: &A,
    steps: &mut Steps<L>,
)
    requires low { z ≤ ROW_HEIGHT }
    requires indices { i * 2 ^ z + 2 ^ z ≤ 2 ^ 32 }
    requires room { length nodes.old ≡ 2 ^ z * P.N.USIZE }
    ensures node { let K = P.keyed_suite keyed.now in
        (leaves : ℕ → List ℕ)
        → ((k : ℕ) → k < 2 ^ z → part P.N.USIZE nodes.old k ≡ leaves (i * 2 ^ z + k))
        → part P.N.USIZE nodes.new 0 ≡ merkle K (A.place adrs.now) leaves z i }
    ensures cost { steps.new + 1 ≡ steps.old + 2 ^ z }
{
    chain_sizes::<P>();
    let mut count = row_len(z);
    for h in 0..z {
        count /= 2;
        let first = i * count as u32;
        hash_level::<P, A, L>(nodes, count, h + 1, first, keyed, adrs, steps);
    }
}

/// Hashes the `2 ^ z` leaves of a tree level by level, up to the root, and writes the siblings on
/// the way up from leaf `y`.
pub(crate) fn hash_up_and_path<P: WotsSizes, A: NodeAddress + Drop, L: Ledger>(
    nodes: &mut [u8],
    y: u32,
    z: u32,
    keyed: &P::Keyed,
    adrs: &A,
    path: &mut [u8],
    steps: &mut Steps<L>,
)
    requires low { z ≤ ROW_HEIGHT }
    requires leaf { y < 2 ^ z }
    requires room { length nodes.old ≡ 2 ^ z * P.N.USIZE }
    requires path_room { length path.old ≡ z * P.N.USIZE }
    ensures root { let K = P.keyed_suite keyed.now in
        (leaves : ℕ → List ℕ)
        → ((k : ℕ) → k < 2 ^ z → part P.N.USIZE nodes.old k ≡ leaves k)
        → part P.N.USIZE nodes.new 0 ≡ merkle K (A.place adrs.now) leaves z 0 }
    ensures path { let K = P.keyed_suite keyed.now in
        (leaves : ℕ → List ℕ)
        → ((k : ℕ) → k < 2 ^ z → part P.N.USIZE nodes.old k ≡ leaves k)
        → path.new ≡ merkle_auth_path K (A.place adrs.now) leaves y z }
    ensures cost { steps.new + 1 ≡ steps.old + 2 ^ z }
{
    chain_sizes::<P>();
    let n = P::N::USIZE;
    let mut count = row_len(z);
    for h in 0..z {
        let beside = part_of::<P::N>(nodes, sibling(y >> h) as usize);
        put_part(path, n, h as usize, beside.as_slice());
        count /= 2;
        hash_level::<P, A, L>(nodes, count, h + 1, 0, keyed, adrs, steps);
    }
}

/// The node with index `i` at a height of at most `ROW_HEIGHT`, level by level from its leaves.
pub(crate) fn subtree<P: WotsSizes, A: Leaves<P> + Drop, L: Ledger>(
    sk_seed: &NBytes<P::N>,
    i: u32,
    z: u32,
    keyed: &P::Keyed,
    adrs: &A,
    steps: &mut Steps<L>,
) -> NBytes<P::N>
    requires low { z ≤ ROW_HEIGHT }
    requires height { z ≤ A.height }
    requires node { i < A.trees * 2 ^ (A.height - z) }
    ensures value { let K = P.keyed_suite keyed.now in
        let leaves = A.leaf K sk_seed.now adrs.now in
        result ≡ merkle K (A.place adrs.now) leaves z i }
    ensures cost { steps.new ≡ steps.old + node_cost A.leaf_cost z }
{
    chain_sizes::<P>();
    leaf_numbers::<P, A>();
    let count = row_len(z);
    let mut buffer = [0u8; MAX_ROW * MAX_N];
    let nodes = &mut buffer[..row_size::<P>(count)];
    let first = index_below(i, z, 0);
    write_leaves::<P, A, L>(sk_seed, first, count, keyed, adrs, nodes, steps);
    hash_up::<P, A, L>(nodes, i, z, keyed, adrs, steps);
    part_of::<P::N>(nodes, 0)
}
