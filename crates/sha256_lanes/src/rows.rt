//! Long messages that begin with the same block of 64 bytes, eight side by side.

ghost use Rattle.std.specs.Prelude.{◌≡◌, ℕ, ◌+◌, ◌*◌, ◌/◌, ◌%◌, ◌<◌, ◌≤◌, List, [], ◌++◌};
ghost use Rattle.std.specs.Prelude.{drop, length, slice_index_or, take};
ghost use Rattle.sha256_lanes.specs.Eight.{word_in};
ghost use Rattle.sha256_lanes.specs.Lanes.{variables};
ghost use Rattle.sha256_lanes.specs.Midstate.{BeginsWith};
ghost use Rattle.sha256_lanes.specs.Sha256.{fold_blocks, padding, sha256};

use crate::blocks::{BLOCK_BYTES, put_ended, put_length, word_bytes};
use crate::compression::{Variables, compressed, row, spread, window_of};
use crate::hashing::Midstate;
use std::simd::u32x8;

/// The most bytes of a row: a message with a SHA-256 has fewer than 2^61 (FIPS 180-4, 5.1.1, gives
/// its length in bits 64 bits).
pub const MAX_ROW: usize = (1 << 61) - 1 - BLOCK_BYTES;

// Block `b` of a row and its padding, where the message has `total` bytes.
#[inline]
fn block_at(row: &[u8], total: u64, b: usize) -> [u8; BLOCK_BYTES]
    requires aligned { total % 64 ≡ length row.now % 64 }
    requires inside { 64 * b ≤ length row.now + 8 }
    ensures { result ≡ take 64 (drop (64 * b) (row.now ++ padding total)) }
{
    let start = BLOCK_BYTES * b;
    let mut block = [0u8; BLOCK_BYTES];
    if start + BLOCK_BYTES <= row.len() {
        block.copy_from_slice(&row[start..start + BLOCK_BYTES]);
        return block;
    }
    if start <= row.len() {
        put_ended(&mut block, &row[start..]);
    }
    if row.len() + 9 <= start + BLOCK_BYTES {
        put_length(&mut block, total);
    }
    block
}

// Block `b` of each row.
#[inline]
fn blocks_at(rows: &[u8], len: usize, total: u64, b: usize) -> [[u8; BLOCK_BYTES]; 8]
    requires whole { length rows.now ≡ 8 * len }
    requires aligned { total % 64 ≡ len % 64 }
    requires inside { 64 * b ≤ len + 8 }
    ensures { (j : ℕ) → j < 8 → slice_index_or result j []
        ≡ take 64 (drop (64 * b) (take len (drop (j * len) rows.now) ++ padding total)) }
{
    let mut blocks = [[0u8; BLOCK_BYTES]; 8];
    'each_row: for j in 0..8 {
        blocks[j] = block_at(&rows[j * len..(j + 1) * len], total, b);
    }
    blocks
}

// The words after all blocks of each row.
fn fold_rows(words: &[u32; 8], rows: &[u8], len: usize, total: u64) -> Variables<u32x8>
    requires short { len ≤ MAX_ROW }
    requires whole { length rows.now ≡ 8 * len }
    requires aligned { total % 64 ≡ len % 64 }
    ensures { (j : ℕ) → j < 8 → variables (λ lanes. word_in lanes j) result
        ≡ fold_blocks words.now (take len (drop (j * len) rows.now) ++ padding total)
        ((len + 72) / 64) }
{
    let mut state = spread::<u32x8>(words);
    'each_block: for b in 0..(len + 72) / BLOCK_BYTES {
        state = compressed(state, window_of(&blocks_at(rows, len, total, b)));
    }
    state
}

impl Midstate {
    /// The digests of the first block and then each of eight rows, which stand one after the other
    /// and have `len` bytes each. The eight are taken side by side, where the processor has vectors
    /// of eight words (x86-64-v3) in a quarter of the time of single ones or less.
    pub fn finalize_rows(&self, rows: &[u8], len: usize) -> [[u8; 32]; 8]
        requires short { len ≤ MAX_ROW }
        requires whole { length rows.now ≡ 8 * len }
        ensures { (m : List ℕ) (j : ℕ) → BeginsWith self.now m → j < 8
            → slice_index_or result j [] ≡ sha256 (m ++ take len (drop (j * len) rows.now)) }
    {
        let state = fold_rows(&self.words, rows, len, (BLOCK_BYTES + len) as u64);
        let mut digests = [[0u8; 32]; 8];
        'each_lane: for j in 0..8 {
            digests[j] = word_bytes(&row(state, j));
        }
        digests
    }
}
