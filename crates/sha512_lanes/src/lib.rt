//! SHA-512 (FIPS 180-4) of a message that comes in pieces, as [`Hash512`], and of several short
//! ones side by side, which begin with the same block of 128 bytes. No call takes memory.
//!
//! What a digest is, and each step on the way to it, are the definitions of the library's `sha2`.
//! Where 16 blocks or more come at once, they are hashed four at a time, faster than there.
//! [`Midstate`] is for many messages that differ in their ends alone, as the hashes of a tree under
//! one public seed do.
//!
//! The digests of a block followed by each of four tails of three bytes. The test
//! `example_of_the_page` of `ground_tests` runs this:
//!
//! ```
//! use sha512_lanes::{BLOCK_BYTES, Midstate};
//!
//! fn tail_of(bytes: &[u8; 3]) -> [u8; BLOCK_BYTES] {
//!     let mut tail = [0; BLOCK_BYTES];
//!     tail[..3].copy_from_slice(bytes);
//!     tail
//! }
//!
//! fn four_digests(block: &[u8; BLOCK_BYTES]) -> [[u8; 64]; 4] {
//!     let midstate = Midstate::new(block);
//!     let tails = [
//!         tail_of(b"one"),
//!         tail_of(b"two"),
//!         tail_of(b"six"),
//!         tail_of(b"ten"),
//!     ];
//!     midstate.finalize_four(&tails, 3)
//! }
//! ```
//!
//! A tail comes in a block of its own, of which the first bytes count, as many as the call says: at
//! most [`MAX_TAIL`], so that the padding fits. The four tails are equally long. Longer messages,
//! of at most [`MAX_ROW`] bytes after the first block, are hashed by [`Midstate::finalize_rows`].
//! No call can fail; the contracts say that each digest is that of the whole message.
#![tactic(auto)]

mod blocks;
mod bulk;
mod compression;
mod hash;
mod hashing;
mod rows;
mod single;
mod word;

pub use blocks::{BLOCK_BYTES, absorb_blocks};
pub use hash::Hash512;
pub use hashing::{MAX_TAIL, Midstate};
pub use rows::MAX_ROW;
