//! Tiles that are kept while a proof is made, so that each is read once.
ghost use Rattle.std.specs.Prelude.{◌≡◌, IsTrue, Some, take};
ghost use Rattle.log_tiles.specs.Source.{AreHashesOf};
ghost use Rattle.log_tiles.specs.declared.names.Tile.{Tile};

use crate::names::{FULL, Tile};
use crate::source::TileSource;
use merkle_tree::{DIGEST_LEN, TreeHash};
use std::cell::RefCell;
use std::marker::{Brand, PhantomData};

/// The digests that a source tells, as a type: of what is in a cell its type alone is known.
pub(crate) trait Digests {
    ghost use Rattle.std.specs.Prelude.{List, ℕ};

    ghost digest: { ℕ → List ℕ };
}

impl Digests for Brand {
    ghost use Rattle.std.specs.Prelude.{[]};

    ghost digest = { λ _. [] };
}

// A tile that was read. Its hashes are the first of these, as many as it has.
#[derive(Drop)]
struct KeptTile<H: TreeHash, S: TileSource<H>, D: Digests> {
    tile: Option<Tile>,
    hashes: [[u8; DIGEST_LEN]; FULL as usize],
    hash: PhantomData<H>,
    source: PhantomData<S>,
    digests: PhantomData<D>,
    ghost told: { IsTrue S.tells → (t : Tile) → tile ≡ Some t
        → AreHashesOf H.hash D.digest t (take t.width hashes) },
}

impl<H: TreeHash, S: TileSource<H>, D: Digests> KeptTile<H, S, D> {
    fn new() -> Self {
        KeptTile {
            tile: None,
            hashes: [[0; DIGEST_LEN]; FULL as usize],
            hash: PhantomData,
            source: PhantomData,
            digests: PhantomData,
        }
    }

    // Gives the hashes of a tile, if it is this one.
    fn give(&self, tile: Tile, out: &mut [[u8; DIGEST_LEN]]) -> bool
        ensures { IsTrue S.tells → IsTrue result → AreHashesOf H.hash D.digest tile out.new }
    {
        let width = tile.width as usize;
        if self.tile != Some(tile) || out.len() != width || width > FULL as usize {
            return false;
        }
        out.copy_from_slice(&self.hashes[..width]);
        true
    }

    // The tile with these hashes, or none where it has more of them or fewer.
    fn of(tile: Tile, hashes: &[[u8; DIGEST_LEN]]) -> Self
        requires { IsTrue S.tells → AreHashesOf H.hash D.digest tile hashes.now }
    {
        let width = tile.width as usize;
        if hashes.len() != width || width > FULL as usize {
            return KeptTile::new();
        }
        let mut kept = [[0; DIGEST_LEN]; FULL as usize];
        kept[..width].copy_from_slice(hashes);
        KeptTile {
            tile: Some(tile),
            hashes: kept,
            hash: PhantomData,
            source: PhantomData,
            digests: PhantomData,
        }
    }
}

// Two tiles: on its way up a proof takes hashes beside the entry and at the end of the log.
#[derive(Drop)]
struct KeptPair<H: TreeHash, S: TileSource<H>, D: Digests> {
    first: KeptTile<H, S, D>,
    second: KeptTile<H, S, D>,
    second_is_older: bool,
}

impl<H: TreeHash, S: TileSource<H>, D: Digests> KeptPair<H, S, D> {
    fn give(&self, tile: Tile, out: &mut [[u8; DIGEST_LEN]]) -> bool
        ensures { IsTrue S.tells → IsTrue result → AreHashesOf H.hash D.digest tile out.new }
    {
        self.first.give(tile, out) || self.second.give(tile, out)
    }

    // Keeps a tile in place of the older one.
    fn keep(&mut self, tile: Tile, hashes: &[[u8; DIGEST_LEN]])
        requires { IsTrue S.tells → AreHashesOf H.hash D.digest tile hashes.now }
    {
        if self.second_is_older {
            self.second = KeptTile::of(tile, hashes);
        } else {
            self.first = KeptTile::of(tile, hashes);
        }
        self.second_is_older = !self.second_is_older;
    }
}

/// A source of which the last two tiles are kept, in 16 KiB.
#[derive(Drop)]
pub(crate) struct KeptTiles<'a, H: TreeHash, S: TileSource<H>, D: Digests> {
    source: &'a S,
    pair: RefCell<KeptPair<H, S, D>>,
    ghost same: { IsTrue S.tells → D.digest ≡ S.digest source.now },
}

impl<'a, H: TreeHash, S: TileSource<H>, D: Digests> KeptTiles<'a, H, S, D> {
    /// None is kept yet.
    pub(crate) fn new(source: &'a S) -> Self
        requires { IsTrue S.tells → D.digest ≡ S.digest source.now }
        ensures source { result.source.now ≡ source.now }
    {
        let pair = KeptPair {
            first: KeptTile::new(),
            second: KeptTile::new(),
            second_is_older: false,
        };
        KeptTiles {
            source,
            pair: RefCell::new(pair),
        }
    }
}

impl<'a, H: TreeHash, S: TileSource<H>, D: Digests> TileSource<H> for KeptTiles<'a, H, S, D> {
    ghost tells = { S.tells };

    ghost has = { λ s tile. S.has s.source.now tile };

    ghost digest = { λ s. S.digest s.source.now };

    fn read(&self, tile: Tile, out: &mut [[u8; DIGEST_LEN]]) -> bool {
        if let Ok(pair) = self.pair.try_borrow()
            && pair.give(tile, out)
        {
            return true;
        }
        if !self.source.read(tile, out) {
            return false;
        }
        if let Ok(mut pair) = self.pair.try_borrow_mut() {
            pair.keep(tile, out);
        }
        true
    }
}
