//! Which tiles and bundles a log of so many entries has.
ghost use Rattle.std.specs.Prelude.{◌≡◌, ◌<◌, ◌↔◌, IsTrue};
ghost use Rattle.log_tiles.specs.Shape.{IsPieceOf, last_bundle as spec_last_bundle};
ghost use Rattle.log_tiles.specs.Shape.{last_tile as spec_last_tile};
ghost use Rattle.log_tiles.specs.Tiles.{hash_count as spec_hash_count};

use crate::names::{Bundle, FULL, Tile};

/// How many hashes the tiles of a level have in the log of `size` entries: one for each 256^`level`
/// of them.
pub fn hash_count(level: u32, size: u64) -> u64
    requires { level < 8 }
    ensures { result ≡ spec_hash_count level size }
{
    size >> (8 * level)
}

/// Whether the files that hold so many things by 256 have one with this index and width: a full
/// one, or the one behind them with the rest.
pub fn is_piece(count: u64, index: u64, width: u32) -> bool
    ensures { IsTrue result ↔ IsPieceOf count index width }
{
    let (full, rest) = (count / 256, (count % 256) as u32);
    if width == FULL {
        return index < full;
    }
    width > 0 && width == rest && index == full
}

/// The tile of a level that ends with its last hash, full or not; before it are full ones. `None`
/// where the level has no hash.
pub fn last_tile(level: u32, size: u64) -> Option<Tile>
    requires { level < 8 }
    ensures { result ≡ spec_last_tile level size }
{
    let count = hash_count(level, size);
    if count == 0 {
        return None;
    }
    let last = count - 1;
    Some(Tile {
        level,
        index: last / 256,
        width: (last % 256) as u32 + 1,
    })
}

/// The bundle that ends with the last entry, full or not; before it are full ones. `None` where
/// there is no entry.
pub fn last_bundle(size: u64) -> Option<Bundle>
    ensures { result ≡ spec_last_bundle size }
{
    if size == 0 {
        return None;
    }
    let last = size - 1;
    Some(Bundle {
        index: last / 256,
        width: (last % 256) as u32 + 1,
    })
}
