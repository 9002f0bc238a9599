//! Paths and proofs of growth that have passed their check before they are handed out.
ghost use Rattle.std.specs.Prelude.{◌≡◌, ◌≢◌, ◌⊎◌, ◌↔◌, ◌≤◌, ◌<◌, IfErr, IfOk, IsTrue};
ghost use Rattle.std.specs.Prelude.{[], length, take, slice_index_or, true};
ghost use Rattle.merkle_store.specs.Errors.{IsUngivenOf};
ghost use Rattle.merkle_tree.specs.Climb.{is_included};
ghost use Rattle.merkle_tree.specs.Consistency.{consistency_proof, is_consistent};
ghost use Rattle.merkle_tree.specs.Tree.{inclusion_path, tree_root};

use crate::making::{push_path, push_proof};
use crate::nodes::{Nodes, StoreError};
use merkle_tree::{DIGEST_LEN, TreeHash, check_consistency, check_inclusion};
use std::alloc::Global;

/// Why no proof was handed out.
#[derive(Clone, Copy, Debug, PartialEq, Eq)]
pub enum ProveError {
    /// The tree has no digest with this index, or it didn't grow from one of this size.
    Range,
    /// The store gave no node, or memory ran out.
    Store(StoreError),
    /// What the store gave doesn't lead to the root.
    Differs,
}

impl From<StoreError> for ProveError {
    ghost use Rattle.std.specs.Prelude.{◌≡◌};
    ghost use Rattle.merkle_store.specs.declared.proving.ProveError.TheVariants.{Store};

    ghost from_gives = { λ e f. f ≡ Store e };

    fn from(error: StoreError) -> Self {
        ProveError::Store(error)
    }
}

/// The path of the digest at `index` in the tree over the first `size` digests, which has passed
/// [`check_inclusion`]: the store needn't be trusted, and the root comes from elsewhere. Asks the
/// store for at most two nodes for each time that `size` can be halved.
pub fn prove_presence<H: TreeHash, N: Nodes<H>>(
    nodes: &N,
    index: u64,
    size: u64,
    leaf: &[u8; DIGEST_LEN],
    root: &[u8; DIGEST_LEN],
    alloc: Global,
) -> Result<Vec<[u8; DIGEST_LEN]>, ProveError>
    requires { size ≤ length (N.digests nodes.now) }
    ensures accepted { IfOk result (λ path.
        is_included H.hash index size leaf.now root.now path.items ≡ true) }
    ensures path { IsTrue N.tells → IfOk result (λ path.
        path.items ≡ inclusion_path H.hash (take size (N.digests nodes.now)) index) }
    ensures range { (result ≡ Err ProveError.Range) ↔ (size ≤ index) }
    ensures differs { IsTrue N.tells
        → root.now ≡ tree_root H.hash (take size (N.digests nodes.now))
        → leaf.now ≡ slice_index_or (N.digests nodes.now) index []
        → result ≢ Err ProveError.Differs }
    ensures cause { IfErr result
        (IsUngivenOf (N.gives nodes.now) (length (N.digests nodes.now))) }
{
    if index >= size {
        return Err(ProveError::Range);
    }
    let mut path = Vec::new(alloc);
    push_path::<H, N>(nodes, &mut path, index, size)?;
    if !check_inclusion::<H>(index, size, leaf, root, &path) {
        return Err(ProveError::Differs);
    }
    Ok(path)
}

/// The proof that the tree over the first `size` digests grew from that over the first `old_size`,
/// which has passed [`check_consistency`]: the store needn't be trusted, and the roots come from
/// elsewhere. Asks the store for at most two nodes for each time that `size` can be halved.
pub fn prove_growth<H: TreeHash, N: Nodes<H>>(
    nodes: &N,
    old_size: u64,
    size: u64,
    old_root: &[u8; DIGEST_LEN],
    root: &[u8; DIGEST_LEN],
    alloc: Global,
) -> Result<Vec<[u8; DIGEST_LEN]>, ProveError>
    requires { size ≤ length (N.digests nodes.now) }
    ensures accepted { IfOk result (λ proof.
        is_consistent H.hash old_size size old_root.now root.now proof.items ≡ true) }
    ensures proof { IsTrue N.tells → IfOk result (λ proof.
        proof.items ≡ consistency_proof H.hash (take size (N.digests nodes.now)) old_size) }
    ensures range { (result ≡ Err ProveError.Range) ↔ (old_size ≡ 0 ⊎ size < old_size) }
    ensures differs { IsTrue N.tells
        → root.now ≡ tree_root H.hash (take size (N.digests nodes.now))
        → old_root.now ≡ tree_root H.hash (take old_size (N.digests nodes.now))
        → result ≢ Err ProveError.Differs }
    ensures cause { IfErr result
        (IsUngivenOf (N.gives nodes.now) (length (N.digests nodes.now))) }
{
    if old_size == 0 || size < old_size {
        return Err(ProveError::Range);
    }
    let mut proof = Vec::new(alloc);
    push_proof::<H, N>(nodes, &mut proof, old_size, size)?;
    if !check_consistency::<H>(old_size, size, old_root, root, &proof) {
        return Err(ProveError::Differs);
    }
    Ok(proof)
}
