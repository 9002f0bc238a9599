//! The tiles of a signed log, as C2SP's `tlog-tiles` has them: which there are, their names, and
//! their bytes as the log grows.
//!
//! A tile has 256 hashes of 32 bytes, the roots over whole runs of 256^level entries; the last one
//! of a level may have fewer. [`last_tile`] and [`is_piece`] say which tiles a log of so many
//! entries has, [`Tile::path`] and [`Bundle::path`] what their files are called.
//!
//! [`push_entry`] puts an entry into the bytes of a bundle, and [`Entries`] reads them.
//!
//! [`GrowingTiles`] adds digests one at a time, keeps the last tile of each level, 64 KiB in all,
//! and says which tiles became full. The root over all digests is made of them.
//!
//! [`node_place`] says which hashes of which tile stand under any root over a whole run, and
//! [`node_root`] makes it of them.
//!
//! [`prove_presence`] and [`prove_growth`] make proofs of the tiles that a [`TileSource`] gives. It
//! needn't be trusted: what they hand out has passed the check against the root.
#![tactic(auto)]

mod entries;
mod growing;
mod kept;
pub mod laws;
mod names;
mod node;
mod proving;
mod shape;
mod source;
mod span;

pub use entries::{BundleError, Entries, EntryError, MAX_ENTRY_LEN, push_entry};
pub use growing::{GrowingTiles, LEVELS};
pub use names::{Bundle, FULL, NameError, Tile};
pub use node::{NodePlace, node_place, node_root};
pub use proving::{TileError, prove_growth, prove_presence};
pub use shape::{hash_count, is_piece, last_bundle, last_tile};
pub use source::{StoredTiles, TileSource};
