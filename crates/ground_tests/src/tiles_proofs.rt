ghost use Rattle.std.specs.Prelude.{◌<◌, ◌≤◌};

use crate::hexadecimal::digest;
use crate::shown::shows;
use log_tiles::{Tile, TileError, TileSource, prove_growth, prove_presence};
use merkle_tree::{Sha256, TreeHash, root_of};
use std::alloc::Global;
use std::cell::Cell;

// The tiles over some digests, each hash made anew. One read fails where it is told to, and one
// gives a hash with a bit changed.
#[derive(Drop)]
struct Made<'a> {
    leaves: &'a [[u8; 32]],
    missing: Option<Tile>,
    bent: Option<Tile>,
}

// The root over a run of 256^`level` digests, if there are so many.
fn run_root(leaves: &[[u8; 32]], level: u32, index: u64) -> Option<[u8; 32]> {
    let len = 256u64.checked_pow(level)?;
    let start = index.checked_mul(len)?;
    let end = start.checked_add(len)?;
    if end > leaves.len() as u64 {
        return None;
    }
    Some(root_of::<Sha256>(leaves.get(start as usize..end as usize)?))
}

// Puts a hash at a place of a tile.
fn put(out: &mut [[u8; 32]], place: u32, hash: &[u8; 32]) {
    let place = place as usize;
    if place < out.len() {
        out[place] = *hash;
    }
}

impl<'a> TileSource<Sha256> for Made<'a> {
    ghost use Rattle.std.specs.Prelude.{[], false};

    ghost tells = { false };

    ghost has = { λ _ _. false };

    ghost digest = { λ _ _. [] };

    fn read(&self, tile: Tile, out: &mut [[u8; 32]]) -> bool {
        if self.missing == Some(tile) {
            return false;
        }
        for j in 0..tile.width {
            let index = tile.index.wrapping_mul(256).wrapping_add(j as u64);
            let Some(hash) = run_root(self.leaves, tile.level, index) else {
                return false;
            };
            put(out, j, &hash);
        }
        if self.bent == Some(tile) {
            for j in 0..out.len() {
                out[j][0] ^= 1;
            }
        }
        true
    }
}

fn tiles_over<'a>(leaves: &'a [[u8; 32]]) -> Made<'a> {
    Made {
        leaves,
        missing: None,
        bent: None,
    }
}

// The digests of the entries 0, 1 and so on, of one byte each.
fn leaves(alloc: Global, count: u64) -> Option<Vec<[u8; 32]>> {
    let mut all = Vec::new(alloc);
    for k in 0..count {
        all.push(Sha256::leaf(&[(k % 256) as u8])).ok()?;
    }
    Some(all)
}

fn front(leaves: &[[u8; 32]], count: u64) -> [u8; 32] {
    let count = (count as usize).min(leaves.len());
    root_of::<Sha256>(&leaves[..count])
}

/// A digest with each of a proof.
pub(crate) fn with_proof(before: &[u8; 32], proof: &[[u8; 32]]) -> [u8; 32] {
    let mut all = *before;
    for hash in proof {
        all = Sha256::node(&all, hash);
    }
    all
}

// Three paths and three proofs of a log of so many entries, hashed into the digest.
fn with_log(alloc: Global, before: &[u8; 32], size: u64) -> Option<[u8; 32]>
    requires { 0 < size }
{
    let leaves = leaves(alloc, size)?;
    let root = front(&leaves, size);
    let tiles = tiles_over(&leaves);
    let mut all = *before;
    for i in [0, size / 2, size - 1] {
        let leaf = leaves.get(i as usize)?;
        let path = prove_presence::<Sha256, Made<'_>>(&tiles, i, size, leaf, &root, alloc).ok()?;
        all = with_proof(&all, &path);
    }
    for m in [1, size / 2 + 1, size] {
        let old = front(&leaves, m);
        let proof = prove_growth::<Sha256, Made<'_>>(&tiles, m, size, &old, &root, alloc).ok()?;
        all = with_proof(&all, &proof);
    }
    Some(all)
}

const SIZES: [u64; 9] = [1, 2, 3, 7, 255, 256, 257, 300, 515];

fn all_logs(alloc: Global) -> Option<[u8; 32]> {
    let mut all = [0; 32];
    for size in SIZES {
        if size > 0 {
            all = with_log(alloc, &all, size)?;
        }
    }
    Some(all)
}

#[test]
fn paths_and_proofs_from_tiles(rt: HostRuntime) {
    let expected = digest("01e25513bb085a87111b98818c256f3d9e40da44b61b089f2bdcd1fb59dd79c3");
    shows(&rt, all_logs(rt.alloc()) == Some(expected));
}

// Why the path of entry 3 of 600 isn't handed out.
fn refusal(alloc: Global, missing: Option<Tile>, bent: Option<Tile>) -> Option<TileError> {
    let leaves = leaves(alloc, 600)?;
    let root = front(&leaves, 600);
    let tiles = Made {
        leaves: &leaves,
        missing,
        bent,
    };
    prove_presence::<Sha256, Made<'_>>(&tiles, 3, 600, leaves.get(3)?, &root, alloc).err()
}

fn tile(level: u32, index: u64, width: u32) -> Tile {
    Tile {
        level,
        index,
        width,
    }
}

// Entry 3 of 600 has its sibling in the first tile, the root beside the first 256 entries in the
// first tile of level 1, which has the roots over two runs, and the last 88 in the last tile.
fn is_refused_at(alloc: Global, place: Tile) -> bool {
    refusal(alloc, Some(place), None) == Some(TileError::Tile(place))
        && refusal(alloc, None, Some(place)) == Some(TileError::Differs)
}

#[test]
fn a_tile_that_is_missing_is_named(rt: HostRuntime) {
    let alloc = rt.alloc();
    shows(
        &rt,
        is_refused_at(alloc, tile(0, 0, 256))
            && is_refused_at(alloc, tile(1, 0, 2))
            && is_refused_at(alloc, tile(0, 2, 88))
            && refusal(alloc, Some(tile(0, 1, 256)), None).is_none(),
    );
}

// The tiles of a log whose entries are all the same, and how many were read of them.
#[derive(Drop)]
struct Same {
    reads: Cell<u32>,
}

// The root over 2^`height` of the same entries.
fn same_root(height: u32) -> [u8; 32] {
    let mut root = Sha256::leaf(&[]);
    for _ in 0..height {
        root = Sha256::node(&root, &root);
    }
    root
}

impl TileSource<Sha256> for Same {
    ghost use Rattle.std.specs.Prelude.{[], false};

    ghost tells = { false };

    ghost has = { λ _ _. false };

    ghost digest = { λ _ _. [] };

    fn read(&self, tile: Tile, out: &mut [[u8; 32]]) -> bool {
        self.reads.set(self.reads.get().wrapping_add(1));
        let hash = same_root(tile.level.wrapping_mul(8));
        for j in 0..tile.width {
            put(out, j, &hash);
        }
        true
    }
}

// The root over so many of the same entries.
fn same_entries(count: u64) -> [u8; 32] {
    let mut rest = None;
    for height in 0..64 {
        if count >> height & 1 == 1 {
            let run = same_root(height);
            rest = Some(match &rest {
                Some(rest) => Sha256::node(&run, rest),
                None => run,
            });
        }
    }
    match rest {
        Some(root) => root,
        None => Sha256::empty(),
    }
}

// How many tiles the path of an entry takes, and the proof that the log grew from one entry more.
fn reads(alloc: Global, index: u64, size: u64) -> Option<u32> {
    let tiles = Same {
        reads: Cell::new(0),
    };
    let (leaf, root) = (Sha256::leaf(&[]), same_entries(size));
    prove_presence::<Sha256, Same>(&tiles, index, size, &leaf, &root, alloc).ok()?;
    let path = tiles.reads.replace(0);
    let old_size = index.checked_add(1)?;
    let old = same_entries(old_size);
    prove_growth::<Sha256, Same>(&tiles, old_size, size, &old, &root, alloc).ok()?;
    Some(path.max(tiles.reads.get()))
}

fn are_read(alloc: Global, index: u64, size: u64, most: u32) -> bool {
    match reads(alloc, index, size) {
        Some(count) => count <= most,
        None => false,
    }
}

// 10^9 is below 2^30, which has four levels of tiles.
#[test]
fn a_proof_reads_at_most_8_tiles_of_10_9_entries_and_16_of_the_most(rt: HostRuntime) {
    let alloc = rt.alloc();
    shows(
        &rt,
        are_read(alloc, 0, 1_000_000_000, 8)
            && are_read(alloc, 255, 1_000_000_000, 8)
            && are_read(alloc, 536_870_911, 1_000_000_000, 8)
            && are_read(alloc, 999_999_999, 1_000_000_000, 8)
            && are_read(alloc, 0, u64::MAX, 16)
            && are_read(alloc, u64::MAX - 1, u64::MAX, 16),
    );
}
