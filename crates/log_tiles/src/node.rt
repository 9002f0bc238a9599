//! The nodes between two levels of tiles.
ghost use Rattle.std.specs.Prelude.{◌≡◌, ◌+◌, ◌*◌, ◌/◌, ◌%◌, ◌^◌, ◌<◌, ◌≤◌, List, ℕ, length};
ghost use Rattle.log_tiles.specs.Tiles.{hashes_under};
ghost use Rattle.merkle_store.specs.Nodes.{run_root};

use crate::span::span_under;
use merkle_tree::{DIGEST_LEN, TreeHash, root_of};

/// Which hashes of which tile a node is made of: `len` of them from number `start` on. The tile is
/// the full one of this index, or in a smaller log the partial one.
#[derive(Clone, Copy, Debug, PartialEq, Eq)]
pub struct NodePlace {
    pub level: u32,
    pub index: u64,
    pub start: usize,
    pub len: usize,
}

/// Where the hashes are under the root over the run of 2^`height` entries with an index: at most
/// 128 of one tile.
pub fn node_place(height: u32, index: u64) -> NodePlace
    requires { height < 64 }
    ensures level { result.level ≡ height / 8 }
    ensures index { result.index ≡ index * 2 ^ (height % 8) / 256 }
    ensures start { result.start ≡ index * 2 ^ (height % 8) % 256 }
    ensures len { result.len ≡ 2 ^ (height % 8) }
    ensures fits { result.start + result.len ≤ 256 }
{
    let span = span_under(height % 8, index);
    NodePlace {
        level: height / 8,
        index: index / (256 / span.len) as u64,
        start: span.start,
        len: span.len,
    }
}

/// The root over a run, from the hashes of a tile under it, as [`node_place`] says which. Hashes at
/// most 127 times.
pub fn node_root<H: TreeHash>(
    height: u32,
    index: u64,
    hashes: &[[u8; DIGEST_LEN]],
) -> [u8; DIGEST_LEN]
    ensures { (q : List (List ℕ)) → (index + 1) * 2 ^ height ≤ length q
        → hashes.now ≡ hashes_under H.hash height index q
        → result ≡ run_root H.hash height index q }
{
    root_of::<H>(hashes)
}
