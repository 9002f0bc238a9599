//! Files that a log doesn't need: what it has by 256, in files of a width, as entries in bundles and
//! the hashes of a level in tiles.
ghost use Rattle.std.specs.Prelude.{◌↔◌, ◌+◌, ◌*◌, ◌<◌, ◌≤◌, IsTrue};
ghost use Rattle.log_tiles.specs.Shape.{IsPieceOf};

use log_tiles::FULL;

/// Whether a file has something that is none of the first `count`: it is ahead of them.
pub fn is_ahead(count: u64, index: u64, width: u32) -> bool
    requires { width ≤ 256 }
    ensures value { IsTrue result ↔ (count < 256 * index + width) }

    // No file that holds the first so many is ahead of them.
    ensures kept { IsPieceOf count index width → ¬ IsTrue result }
{
    let (full, rest) = (count / 256, (count % 256) as u32);
    index > full || (index == full && width > rest)
}

/// Whether a file has the first ones alone of a full one among the first `count`: the full one is in
/// its place.
pub fn is_superseded(count: u64, index: u64, width: u32) -> bool
    ensures value { IsTrue result ↔ ((width < 256) × (256 * index + 256 ≤ count)) }

    // No file that holds the first so many has another one in its place.
    ensures kept { IsPieceOf count index width → ¬ IsTrue result }
{
    width < FULL && index < count / 256
}
