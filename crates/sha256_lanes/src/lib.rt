//! SHA-256 (FIPS 180-4): what it is, block by block, and of many messages side by side which begin
//! with the same block of 64 bytes. No call takes memory.
//!
//! A message of any length, which comes piece by piece, is hashed by `hmac_sha256`, over
//! [`blocks`]. What else is here is for many messages that differ in their ends alone, as the
//! hashes of a tree under one public seed do.
//!
//! The digests of a block followed by each of four tails of three bytes. In `ground_tests`,
//! `sha256_tails::example_of_the_page` runs this:
//!
//! ```
//! use sha256_lanes::{BLOCK_BYTES, Midstate};
//!
//! fn tail_of(bytes: &[u8; 3]) -> [u8; BLOCK_BYTES] {
//!     let mut tail = [0; BLOCK_BYTES];
//!     tail[..3].copy_from_slice(bytes);
//!     tail
//! }
//!
//! fn four_digests(block: &[u8; BLOCK_BYTES]) -> [[u8; 32]; 4] {
//!     let midstate = Midstate::new(block);
//!     let tails = [
//!         tail_of(b"one"),
//!         tail_of(b"two"),
//!         tail_of(b"six"),
//!         tail_of(b"ten"),
//!     ];
//!     midstate.finalize_four(&tails, 3)
//! }
//! ```
//!
//! - A tail comes in a block of its own, of which the first bytes count, as many as the call says:
//!   at most [`MAX_TAIL`], so that the padding fits. All tails of a call are equally long.
//! - Longer messages are hashed by [`Midstate::finalize_rows`].
//! - Where one hash is the next one's input, values stay words in the lanes of [`Eight`], before
//!   which [`Heads`] stand: [`Midstate::finalize_words`], and for steps that differ in a number
//!   alone [`Midstate::begin`].
//!
//! No call can fail; the contracts say that each digest is that of the whole message.
#![tactic(auto)]

pub mod blocks;
mod bulk;
mod chained;
mod compression;
mod eight;
mod hashing;
mod lanes;
mod rows;
mod single;
mod word;

pub use blocks::{BLOCK_BYTES, MAX_TAIL};
pub use eight::Begun;
pub use hashing::Midstate;
pub use lanes::{Eight, Heads};
pub use rows::MAX_ROW;
