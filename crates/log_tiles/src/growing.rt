//! The tiles of a log that grows, in memory of a fixed size.
ghost use Rattle.std.specs.Bool.{OnFalse};
ghost use Rattle.std.specs.Prelude.{◌≡◌, ◌≢◌, ◌↔◌, ◌+◌, ◌-◌, ◌/◌, ◌%◌, ◌^◌, ◌<◌, ◌≤◌};
ghost use Rattle.std.specs.Prelude.{ℕ, List, [], ◌∷◌, ◌++◌, IsTrue, length};
ghost use Rattle.log_tiles.specs.Tiles.{IsLastTile, last_hashes};
ghost use Rattle.merkle_store.specs.Nodes.{run_root};
ghost use Rattle.merkle_tree.specs.Tree.{tree_root};
ghost use Rattle.log_tiles.specs.Tiles.{AreTilesOf, full_levels, hash_count as spec_hash_count};
ghost use Rattle.log_tiles.specs.Tiles.{last_bytes as spec_last_bytes};
ghost use Rattle.log_tiles.specs.Tiles.{last_width as spec_last_width};

use crate::shape::hash_count;
use crate::span::span_under;
use merkle_tree::{DIGEST_LEN, TreeHash, root_of};
use std::marker::{Model, PhantomData};

/// How many levels of tiles a log has at most.
pub const LEVELS: usize = 8;

// How many hashes a tile has at most.
const WIDTH: usize = 256;

// Places for a tile of each level.
const PLACES: usize = 2048;

/// The last tile of each level of a log that grows by a digest at a time. It takes 64 KiB however
/// many there are. Clauses see it as the number of digests and the places of hashes; `AreTilesOf`
/// says that they are the tiles over a list of digests.
#[derive(Drop)]
pub struct GrowingTiles<H: TreeHash> {
    hashes: [[u8; DIGEST_LEN]; PLACES],
    count: u64,
    hash: PhantomData<H>,
}

impl<H: TreeHash> Model for GrowingTiles<H> {
    ghost use Rattle.std.specs.Prelude.{◌≡◌, length};
    ghost use Rattle.log_tiles.specs.Tiles.{Tiles};

    ghost Value = { Tiles };

    ghost view = { λ s. record { count = s.count; hashes = s.hashes } };

    ghost invariant = { λ s. length s.hashes ≡ 2048 };
}

impl<H: TreeHash> GrowingTiles<H> {
    /// The tiles over no digests: none.
    pub fn new() -> Self
        ensures { AreTilesOf H.hash result [] }
    {
        GrowingTiles {
            hashes: [[0; DIGEST_LEN]; PLACES],
            count: 0,
            hash: PhantomData,
        }
    }

    /// The tiles over so many digests before their hashes are put: `put_tile` takes each level's.
    pub fn resume(count: u64) -> Self
        ensures { result.count ≡ count }
    {
        GrowingTiles {
            hashes: [[0; DIGEST_LEN]; PLACES],
            count,
            hash: PhantomData,
        }
    }

    /// Puts the hashes of the last tile of a level in their places, as they were kept. They are
    /// believed: others show as another root. False where they are more or fewer than it has.
    pub fn put_tile(&mut self, level: u32, hashes: &[[u8; DIGEST_LEN]]) -> bool
        requires { level < 8 }
        ensures len { IsTrue result
            ↔ (length hashes.now ≡ spec_last_width (spec_hash_count level self.old.count)) }
        ensures tile { IsTrue result → (q : List (List ℕ)) → length q ≡ self.old.count
            → hashes.now ≡ last_hashes H.hash level q → IsLastTile H.hash self.new q level }
        ensures others { (q : List (List ℕ)) (other : ℕ) → other ≢ level
            → IsLastTile H.hash self.old q other → IsLastTile H.hash self.new q other }
        ensures count { self.new.count ≡ self.old.count }
        ensures refused { OnFalse result (self.new ≡ self.old) }
    {
        let width = self.last_width(level);
        if hashes.len() != width {
            return false;
        }
        let start = WIDTH * level as usize;
        self.hashes[start..start + width].copy_from_slice(hashes);
        true
    }

    /// How many digests there are.
    pub fn len(&self) -> u64
        ensures { result ≡ self.now.count }
    {
        self.count
    }

    // How many hashes the last tile of a level has.
    fn last_width(&self, level: u32) -> usize
        requires { level < 8 }
        ensures value { result ≡ spec_last_width (spec_hash_count level self.now.count) }
        ensures few { result ≤ 256 }
    {
        let count = hash_count(level, self.count);
        if count == 0 {
            return 0;
        }
        ((count - 1) % 256) as usize + 1
    }

    /// The bytes of the last tile of a level, full or not; no bytes where the level has no hash.
    pub fn last_bytes(&self, level: u32) -> &[u8]
        requires { level < 8 }
        ensures { (q : List (List ℕ)) → AreTilesOf H.hash self.now q
            → result.now ≡ spec_last_bytes H.hash level q }
    {
        let start = WIDTH * level as usize;
        self.hashes[start..start + self.last_width(level)].as_flattened()
    }

    // The root over the last run of 2^`height` digests, of which there are `count`.
    fn last_run(&self, height: u32, count: u64) -> [u8; DIGEST_LEN]
        requires low { height < 64 }
        requires count { count ≡ self.now.count / 2 ^ height }
        requires odd { count % 2 ≡ 1 }
        ensures { (q : List (List ℕ)) → AreTilesOf H.hash self.now q
            → result ≡ run_root H.hash height (count - 1) q }
    {
        let span = span_under(height % 8, count - 1);
        let start = WIDTH * (height / 8) as usize + span.start;
        root_of::<H>(&self.hashes[start..start + span.len])
    }

    /// The root over the digests. Hashes at most 255 times for each level of tiles, and once for
    /// each power of two in their number.
    pub fn root(&self) -> [u8; DIGEST_LEN]
        ensures { (q : List (List ℕ)) → AreTilesOf H.hash self.now q → result ≡ tree_root H.hash q }
    {
        let (mut left, mut height, mut rest) = (self.count, 0, None);
        'each_bit: while left > 0 {
            if left % 2 == 1 {
                let run = self.last_run(height, left);
                rest = Some(match &rest {
                    Some(rest) => H::node(&run, rest),
                    None => run,
                });
            }
            left /= 2;
            height += 1;
        }
        match rest {
            Some(root) => root,
            None => H::empty(),
        }
    }

    /// Adds a digest at the end, and says how many of the lowest levels have a last tile that it
    /// made full. Hashes 255 times for each of them.
    pub fn push(&mut self, digest: &[u8; DIGEST_LEN]) -> usize
        requires { self.old.count < 2 ^ 64 - 1 }
        ensures tiles { (q : List (List ℕ)) → AreTilesOf H.hash self.old q
            → AreTilesOf H.hash self.new (q ++ digest.now ∷ []) }
        ensures full { result ≡ full_levels (self.old.count + 1) }
        ensures count { self.new.count ≡ self.old.count + 1 }
    {
        let (mut at, mut level) = (self.count, 0);
        self.hashes[(at % 256) as usize] = *digest;
        'each_level: while level < LEVELS - 1 && at % 256 == 255 {
            let start = WIDTH * level;
            let root = root_of::<H>(&self.hashes[start..start + WIDTH]);
            at /= 256;
            level += 1;
            self.hashes[WIDTH * level + (at % 256) as usize] = root;
        }
        self.count += 1;
        level
    }
}
