//! Paths and proofs of growth from tiles that needn't be trusted.
ghost use Rattle.std.specs.Prelude.{◌≡◌, ◌≢◌, ◌⊎◌, ◌↔◌, ◌≤◌, ◌<◌, IfErr, IfOk, IsTrue, true};
ghost use Rattle.log_tiles.specs.Source.{IsUngivenTile, first_digests, tile_under};
ghost use Rattle.merkle_store.specs.Errors.{IsUngiven, IsUngivenOf};
ghost use Rattle.merkle_tree.specs.Climb.{is_included};
ghost use Rattle.merkle_tree.specs.Consistency.{consistency_proof, is_consistent};
ghost use Rattle.merkle_tree.specs.Tree.{inclusion_path, tree_root};

use crate::kept::{Digests, KeptTiles};
use crate::names::Tile;
use crate::node::node_place;
use crate::source::{StoredTiles, TileSource, tile_at};
use merkle_store::{ProveError, StoreError};
use merkle_tree::{DIGEST_LEN, TreeHash};
use std::alloc::Global;
use std::marker::Brand;

/// Why no proof was handed out.
#[derive(Clone, Copy, Debug, PartialEq, Eq)]
pub enum TileError {
    /// The log has no entry with this index, or it didn't grow from one of this size.
    Range,
    /// The source didn't give this tile.
    Tile(Tile),
    /// The tiles don't lead to the root: one of them is bent, or the root is another log's.
    Differs,
    /// Memory ran out.
    Memory,
}

// The error of a store, with the tile in the place of the node that couldn't be read.
fn unread<H: TreeHash, S: TileSource<H>>(error: StoreError, source: &S, size: u64) -> TileError
    requires { IsUngiven (λ height index. S.has source.now
        (tile_under size height index)) size error }
    ensures range { result ≢ TileError.Range }
    ensures differs { result ≢ TileError.Differs }
    ensures tile { IsUngivenTile (S.has source.now) size result }
{
    match error {
        StoreError::Node { level, index } => {
            TileError::Tile(tile_at(&node_place(level, index), size))
        }
        StoreError::Memory => TileError::Memory,
    }
}

fn tile_error<H: TreeHash, S: TileSource<H>>(error: ProveError, source: &S, size: u64) -> TileError
    requires { IsUngivenOf (λ height index. S.has source.now
        (tile_under size height index)) size error }
    ensures range { (result ≡ TileError.Range) ↔ (error ≡ ProveError.Range) }
    ensures differs { result ≡ TileError.Differs → error ≡ ProveError.Differs }
    ensures tile { IsUngivenTile (S.has source.now) size result }
{
    match error {
        ProveError::Range => TileError::Range,
        ProveError::Store(error) => unread::<H, S>(error, source, size),
        ProveError::Differs => TileError::Differs,
    }
}

// The path, by a store that keeps what the source tells.
fn path_of<H: TreeHash, S: TileSource<H>, D: Digests>(
    source: &S,
    index: u64,
    size: u64,
    leaf: &[u8; DIGEST_LEN],
    root: &[u8; DIGEST_LEN],
    alloc: Global,
) -> Result<Vec<[u8; DIGEST_LEN]>, TileError>
    requires { IsTrue S.tells → D.digest ≡ S.digest source.now }
    ensures accepted { IfOk result (λ path.
        is_included H.hash index size leaf.now root.now path.items ≡ true) }
    ensures path { IsTrue S.tells → IfOk result (λ path. path.items
        ≡ inclusion_path H.hash (first_digests (S.digest source.now) size) index) }
    ensures range { (result ≡ Err TileError.Range) ↔ (size ≤ index) }
    ensures differs { IsTrue S.tells
        → root.now ≡ tree_root H.hash (first_digests (S.digest source.now) size)
        → leaf.now ≡ S.digest source.now index → result ≢ Err TileError.Differs }
    ensures tile { IfErr result (IsUngivenTile (S.has source.now) size) }
{
    let source = &KeptTiles::<'_, H, S, D>::new(source);
    let tiles = StoredTiles { source, size };
    match merkle_store::prove_presence::<H, StoredTiles<'_, KeptTiles<'_, H, S, D>>>(
        &tiles, index, size, leaf, root, alloc,
    ) {
        Ok(path) => Ok(path),
        Err(error) => Err(tile_error::<H, KeptTiles<'_, H, S, D>>(error, source, size)),
    }
}

/// The path of the entry at `index` of the log of `size` entries. It has passed
/// [`merkle_tree::check_inclusion`] from the entry's digest to the root, which comes from
/// elsewhere, so the source needn't be trusted. Reads at most two tiles for each level of tiles, 16 in
/// all, and keeps two of them.
pub fn prove_presence<H: TreeHash, S: TileSource<H>>(
    source: &S,
    index: u64,
    size: u64,
    leaf: &[u8; DIGEST_LEN],
    root: &[u8; DIGEST_LEN],
    alloc: Global,
) -> Result<Vec<[u8; DIGEST_LEN]>, TileError>
    ensures accepted { IfOk result (λ path.
        is_included H.hash index size leaf.now root.now path.items ≡ true) }
    ensures path { IsTrue S.tells → IfOk result (λ path. path.items
        ≡ inclusion_path H.hash (first_digests (S.digest source.now) size) index) }
    ensures range { (result ≡ Err TileError.Range) ↔ (size ≤ index) }

    // With the tiles of a log and its root it is handed out.
    ensures differs { IsTrue S.tells
        → root.now ≡ tree_root H.hash (first_digests (S.digest source.now) size)
        → leaf.now ≡ S.digest source.now index → result ≢ Err TileError.Differs }
    ensures tile { IfErr result (IsUngivenTile (S.has source.now) size) }
{
    path_of::<H, S, Brand>(source, index, size, leaf, root, alloc)
}

// The proof of growth, by a store that keeps what the source tells.
fn growth_of<H: TreeHash, S: TileSource<H>, D: Digests>(
    source: &S,
    old_size: u64,
    size: u64,
    old_root: &[u8; DIGEST_LEN],
    root: &[u8; DIGEST_LEN],
    alloc: Global,
) -> Result<Vec<[u8; DIGEST_LEN]>, TileError>
    requires { IsTrue S.tells → D.digest ≡ S.digest source.now }
    ensures accepted { IfOk result (λ proof.
        is_consistent H.hash old_size size old_root.now root.now proof.items ≡ true) }
    ensures proof { IsTrue S.tells → IfOk result (λ proof. proof.items
        ≡ consistency_proof H.hash (first_digests (S.digest source.now) size) old_size) }
    ensures range { (result ≡ Err TileError.Range) ↔ (old_size ≡ 0 ⊎ size < old_size) }
    ensures differs { IsTrue S.tells
        → root.now ≡ tree_root H.hash (first_digests (S.digest source.now) size)
        → old_root.now ≡ tree_root H.hash (first_digests (S.digest source.now) old_size)
        → result ≢ Err TileError.Differs }
    ensures tile { IfErr result (IsUngivenTile (S.has source.now) size) }
{
    let source = &KeptTiles::<'_, H, S, D>::new(source);
    let tiles = StoredTiles { source, size };
    match merkle_store::prove_growth::<H, StoredTiles<'_, KeptTiles<'_, H, S, D>>>(
        &tiles, old_size, size, old_root, root, alloc,
    ) {
        Ok(proof) => Ok(proof),
        Err(error) => Err(tile_error::<H, KeptTiles<'_, H, S, D>>(error, source, size)),
    }
}

/// The proof that the log of `size` entries grew from that of `old_size`. It has passed
/// [`merkle_tree::check_consistency`] with both roots, which come from elsewhere, so the source
/// needn't be trusted. Reads at most two tiles for each level of tiles, 16 in all, and keeps two of
/// them.
pub fn prove_growth<H: TreeHash, S: TileSource<H>>(
    source: &S,
    old_size: u64,
    size: u64,
    old_root: &[u8; DIGEST_LEN],
    root: &[u8; DIGEST_LEN],
    alloc: Global,
) -> Result<Vec<[u8; DIGEST_LEN]>, TileError>
    ensures accepted { IfOk result (λ proof.
        is_consistent H.hash old_size size old_root.now root.now proof.items ≡ true) }
    ensures proof { IsTrue S.tells → IfOk result (λ proof. proof.items
        ≡ consistency_proof H.hash (first_digests (S.digest source.now) size) old_size) }
    ensures range { (result ≡ Err TileError.Range) ↔ (old_size ≡ 0 ⊎ size < old_size) }

    // With the tiles of a log and its two roots it is handed out.
    ensures differs { IsTrue S.tells
        → root.now ≡ tree_root H.hash (first_digests (S.digest source.now) size)
        → old_root.now ≡ tree_root H.hash (first_digests (S.digest source.now) old_size)
        → result ≢ Err TileError.Differs }
    ensures tile { IfErr result (IsUngivenTile (S.has source.now) size) }
{
    growth_of::<H, S, Brand>(source, old_size, size, old_root, root, alloc)
}
