//! The makers of paths and proofs.
ghost use Rattle.std.specs.Prelude.{◌≡◌, ◌+◌, ◌-◌, ◌^◌, ◌<◌, ◌≤◌, ◌++◌, List, ℕ, length, take, OnOk, IsTrue};
ghost use Rattle.std.specs.Prelude.{IfErr};
ghost use Rattle.merkle_tree.specs.Consistency.{consistency_proof};
ghost use Rattle.merkle_tree.specs.Tree.{inclusion_path, path_within};
ghost use Rattle.merkle_store.specs.Errors.{IsUngiven};
ghost use Rattle.merkle_store.specs.Nodes.{IsLevel, full_level, node_list};

use crate::level::{Level, above, node_at};
use crate::nodes::{Nodes, StoreError};
use merkle_tree::{DIGEST_LEN, TreeHash, beside};

// Puts a node at the end of `out`, if there is one.
fn put(out: &mut Vec<[u8; DIGEST_LEN]>, node: Option<[u8; DIGEST_LEN]>) -> Result<(), StoreError>
    ensures put { OnOk result (out.new.items ≡ out.old.items ++ node_list node) }
    ensures memory { IfErr result (λ e. e ≡ StoreError.Memory) }
{
    match node {
        None => Ok(()),
        Some(node) => match out.push(node) {
            Ok(()) => Ok(()),
            Err(_) => Err(StoreError::Memory),
        },
    }
}

// Puts the siblings on the way up from node `i` of a level, whose last node has the index `last`.
fn push_siblings<H: TreeHash, N: Nodes<H>>(
    nodes: &N,
    out: &mut Vec<[u8; DIGEST_LEN]>,
    from: Level,
    i: u64,
    last: u64,
) -> Result<(), StoreError>
    requires within { from.whole ≤ length (full_level H.hash from.height (N.digests nodes.now)) }
    requires high { from.height ≤ 64 }
    requires few { last < 2 ^ (64 - from.height) }
    requires inside { i ≤ last }
    ensures path { IsTrue N.tells → (l : List (List ℕ))
        → IsLevel H.hash from.height from.whole from.rest (N.digests nodes.now) l
        → length l ≡ last + 1
        → OnOk result (out.new.items ≡ out.old.items ++ path_within H.hash 64 l i) }
    ensures cause { IfErr result
        (IsUngiven (N.gives nodes.now) (length (N.digests nodes.now))) }
{
    let (mut level, mut at, mut end) = (from, i, last);
    'each_level: while end > 0 {
        let sibling = node_at::<H, N>(nodes, &level, beside(at))?;
        put(out, sibling)?;
        level = above::<H, N>(nodes, &level)?;
        at /= 2;
        end /= 2;
    }
    Ok(())
}

/// Puts the path of digest `i` of the tree over the first `n` digests at the end of `out`.
pub fn push_path<H: TreeHash, N: Nodes<H>>(
    nodes: &N,
    out: &mut Vec<[u8; DIGEST_LEN]>,
    i: u64,
    n: u64,
) -> Result<(), StoreError>
    requires inside { i < n }
    requires within { n ≤ length (N.digests nodes.now) }
    ensures path { IsTrue N.tells → OnOk result (out.new.items
        ≡ out.old.items ++ inclusion_path H.hash (take n (N.digests nodes.now)) i) }
    ensures cause { IfErr result
        (IsUngiven (N.gives nodes.now) (length (N.digests nodes.now))) }
{
    let leaves = Level {
        height: 0,
        whole: n,
        rest: None,
    };
    push_siblings::<H, N>(nodes, out, leaves, i, n - 1)
}

/// Puts the proof that the tree over the first `n` digests grew from that over the first `m` at the
/// end of `out`.
pub fn push_proof<H: TreeHash, N: Nodes<H>>(
    nodes: &N,
    out: &mut Vec<[u8; DIGEST_LEN]>,
    m: u64,
    n: u64,
) -> Result<(), StoreError>
    requires some { 0 < m }
    requires more { m ≤ n }
    requires within { n ≤ length (N.digests nodes.now) }
    ensures proof { IsTrue N.tells → OnOk result (out.new.items
        ≡ out.old.items ++ consistency_proof H.hash (take n (N.digests nodes.now)) m) }
    ensures cause { IfErr result
        (IsUngiven (N.gives nodes.now) (length (N.digests nodes.now))) }
{
    if m == n {
        return Ok(());
    }
    let mut level = Level {
        height: 0,
        whole: n,
        rest: None,
    };
    let (mut at, mut end) = (m - 1, n - 1);
    'each_level: while at % 2 == 1 {
        level = above::<H, N>(nodes, &level)?;
        at /= 2;
        end /= 2;
    }
    if at != 0 {
        let seed = node_at::<H, N>(nodes, &level, at)?;
        put(out, seed)?;
    }
    push_siblings::<H, N>(nodes, out, level, at, end)
}
