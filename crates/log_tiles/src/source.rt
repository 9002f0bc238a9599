//! Tiles that needn't be trusted.
ghost use Rattle.std.specs.Prelude.{◌≡◌, ◌+◌, ◌*◌, ◌<◌, ◌≤◌};
ghost use Rattle.log_tiles.specs.Source.{tile_with};
ghost use Rattle.log_tiles.specs.Shape.{IsPieceOf};
ghost use Rattle.log_tiles.specs.Tiles.{hash_count as spec_hash_count};

use crate::names::{FULL, Tile};
use crate::node::{NodePlace, node_place, node_root};
use crate::shape::hash_count;
use merkle_store::Nodes;
use merkle_tree::{DIGEST_LEN, TreeHash};

/// Where tiles are read, as the files of a folder or those of a server. Nothing is believed of what
/// it gives.
pub trait TileSource<H: TreeHash> {
    ghost use Rattle.std.specs.Prelude.{◌≡◌, Bool, IsTrue, List, ℕ, false};
    ghost use Rattle.std.specs.Bool.{OnFalse};
    ghost use Rattle.log_tiles.specs.Source.{AreHashesOf};
    ghost use Rattle.log_tiles.specs.declared.names.Tile.{Tile};

    /// Whether it tells the hashes of a log. Where it doesn't, nothing is said of what it gives.
    ghost tells: { Bool };

    /// Whether it promises a tile, whatever its hashes are.
    ghost has: { Self → Tile → Bool };

    /// The digests of the log's entries, where it tells them: of as many as the log will ever have.
    ghost digest: { Self → ℕ → List ℕ };

    /// Puts the hashes of a tile in `out`, which has a place for each of them. False where there is
    /// no such tile, or where it has more hashes or fewer. A log that grew may have the full tile
    /// alone where a partial one is asked for, which is the front of it.
    fn read(&self, tile: Tile, out: &mut [[u8; DIGEST_LEN]]) -> bool
        ensures given { OnFalse result (has self.now tile ≡ false) }
        ensures told { IsTrue tells → IsTrue result
            → AreHashesOf H.hash (digest self.now) tile out.new };
}

/// The tiles of a log of `size` entries, as a store of nodes that isn't believed. Each node is made
/// of one tile, which is read into 8 KiB and not kept.
#[derive(Drop)]
pub struct StoredTiles<'a, S> {
    /// Where the tiles are read.
    pub source: &'a S,
    /// How many entries the log has.
    pub size: u64,
}

/// The tile of a log of `size` entries that has the hashes at a place.
pub(crate) fn tile_at(place: &NodePlace, size: u64) -> Tile
    requires level { place.now.level < 8 }
    requires some { 0 < place.now.len }
    requires fits { place.now.start + place.now.len ≤ 256 }
    requires inside { 256 * place.now.index + (place.now.start + place.now.len)
        ≤ spec_hash_count place.now.level size }
    ensures level { result.level ≡ place.now.level }
    ensures index { result.index ≡ place.now.index }
    ensures piece { IsPieceOf (spec_hash_count result.level size) result.index result.width }
    ensures within { place.now.start + place.now.len ≤ result.width }
    ensures width { result.width ≤ 256 }
    ensures tile { result ≡ tile_with size place.now.level place.now.index }
{
    let count = hash_count(place.level, size);
    let width = if place.index < count / 256 {
        FULL
    } else {
        (count % 256) as u32
    };
    Tile {
        level: place.level,
        index: place.index,
        width,
    }
}

impl<'a, H: TreeHash, S: TileSource<H>> Nodes<H> for StoredTiles<'a, S> {
    ghost use Rattle.log_tiles.specs.Source.{first_digests, tile_under};

    ghost tells = { S.tells };

    ghost gives = { λ s height index. S.has s.source.now (tile_under s.size height index) };

    ghost digests = { λ s. first_digests (S.digest s.source.now) s.size };

    fn node(&self, level: u32, index: u64) -> Option<[u8; DIGEST_LEN]> {
        let size = self.size;
        let place = node_place(level, index);
        let tile = tile_at(&place, size);
        let mut room = [[0; DIGEST_LEN]; FULL as usize];
        let hashes = &mut room[..tile.width as usize];
        if !self.source.read(tile, hashes) {
            return None;
        }
        let under = &hashes[place.start..place.start + place.len];
        Some(node_root::<H>(level, index, under))
    }
}
