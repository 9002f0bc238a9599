//! Long messages that begin with the same block of 128 bytes, side by side.

ghost use Rattle.std.specs.Prelude.{◌≡◌, ℕ, ◌+◌, ◌-◌, ◌*◌, ◌/◌, ◌<◌, ◌≤◌, List, [], ◌∷◌, ◌++◌};
ghost use Rattle.std.specs.Prelude.{drop, length, replicate, slice_index_or, take};
ghost use Rattle.std.specs.Int.{to_be_bytes, w128};
ghost use Rattle.sha2.specs.Sha512.{hash_after, padding, sha512};
ghost use Rattle.sha512_lanes.specs.Lanes.{variables};
ghost use Rattle.sha512_lanes.specs.Midstate.{BeginsWith};

use crate::blocks::BLOCK_BYTES;
use crate::compression::{compressed, row, spread, window_of};
use crate::hashing::{Midstate, digests_of};
use std::simd::u64x4;

// The most blocks after the first one, and how many bytes they have.
const MAX_BLOCKS: usize = 18;

const MAX_PADDED: usize = MAX_BLOCKS * BLOCK_BYTES;

/// The most bytes of a row: the padding takes a byte and the message's length sixteen (FIPS 180-4,
/// 5.1.2).
pub const MAX_ROW: usize = MAX_PADDED - 17;

// How many blocks a row and its padding have.
#[inline(always)]
fn block_count(len: usize) -> usize
    requires { len ≤ MAX_ROW }
    ensures value { result ≡ (len + 144) / 128 }
    ensures few { result ≤ MAX_BLOCKS }
{
    (len + 16) / BLOCK_BYTES + 1
}

// Begins an array of zeros with a row and the bit 1 after it.
#[inline]
fn put_ended(padded: &mut [u8; MAX_PADDED], row: &[u8])
    requires { length row.now < 2304 }
    ensures { padded.old ≡ replicate 2304 0
        → padded.new ≡ row.now ++ 0x80 ∷ replicate (2303 - length row.now) 0 }
{
    padded[..row.len()].copy_from_slice(row);
    padded[row.len()] = 0x80;
}

// Writes the length of a message in bits into the sixteen bytes before a place.
#[inline]
fn put_length(padded: &mut [u8; MAX_PADDED], end: usize, total: u64)
    requires low { 16 ≤ end }
    requires inside { end ≤ 2304 }
    ensures { take end padded.new
        ≡ take (end - 16) padded.old ++ to_be_bytes w128 (total * 8) }
{
    padded[end - 16..end].copy_from_slice(&(u128::from(total) * 8).to_be_bytes());
}

// A row and its padding, at the front of an array.
#[inline]
fn padded_row(row: &[u8]) -> [u8; MAX_PADDED]
    requires { length row.now ≤ MAX_ROW }
    ensures { take (128 * ((length row.now + 144) / 128)) result
        ≡ row.now ++ padding (128 + length row.now) }
{
    let mut padded = [0u8; MAX_PADDED];
    put_ended(&mut padded, row);
    let end = BLOCK_BYTES * block_count(row.len());
    put_length(&mut padded, end, (BLOCK_BYTES + row.len()) as u64);
    padded
}

// Each row with its padding.
fn padded_rows(rows: &[u8], len: usize) -> [[u8; MAX_PADDED]; 4]
    requires short { len ≤ MAX_ROW }
    requires whole { length rows.now ≡ 4 * len }
    ensures long { (j : ℕ) → j < 4 → length (slice_index_or result j []) ≡ 2304 }
    ensures rows { (j : ℕ) → j < 4 → take (128 * ((len + 144) / 128)) (slice_index_or result j [])
        ≡ take len (drop (j * len) rows.now) ++ padding (128 + len) }
{
    [
        padded_row(&rows[..len]),
        padded_row(&rows[len..2 * len]),
        padded_row(&rows[2 * len..3 * len]),
        padded_row(&rows[3 * len..]),
    ]
}

// Block `b` of a padded row.
#[inline(always)]
fn block_at(padded: &[u8; MAX_PADDED], b: usize) -> [u8; BLOCK_BYTES]
    requires { b < MAX_BLOCKS }
    ensures { result ≡ take 128 (drop (b * 128) padded.now) }
{
    let mut block = [0u8; BLOCK_BYTES];
    block.copy_from_slice(&padded[b * BLOCK_BYTES..b * BLOCK_BYTES + BLOCK_BYTES]);
    block
}

// Block `b` of each.
#[inline]
fn blocks_at(padded: &[[u8; MAX_PADDED]; 4], b: usize) -> [[u8; BLOCK_BYTES]; 4]
    requires { b < MAX_BLOCKS }
    ensures { (j : ℕ) → j < 4 → slice_index_or result j []
        ≡ take 128 (drop (b * 128) (slice_index_or padded.now j [])) }
{
    [
        block_at(&padded[0], b),
        block_at(&padded[1], b),
        block_at(&padded[2], b),
        block_at(&padded[3], b),
    ]
}

// The words after the first blocks of each.
fn fold_rows(words: &[u64; 8], padded: &[[u8; MAX_PADDED]; 4], count: usize) -> [[u64; 8]; 4]
    requires { count ≤ MAX_BLOCKS }
    ensures lanes { length result ≡ 4 }
    ensures words { (j : ℕ) → j < 4 → slice_index_or result j []
        ≡ hash_after words.now (slice_index_or padded.now j []) count }
{
    let mut state = spread::<u64x4>(words);
    'each_block: for b in 0..count {
        state = compressed(state, window_of(&blocks_at(padded, b)));
    }
    [row(state, 0), row(state, 1), row(state, 2), row(state, 3)]
}

impl Midstate {
    /// The digests of the first block and then each of four rows, which stand one after the other and
    /// have `len` bytes each. The four are taken side by side.
    pub fn finalize_rows(&self, rows: &[u8], len: usize) -> [[u8; 64]; 4]
        requires short { len ≤ MAX_ROW }
        requires whole { length rows.now ≡ 4 * len }
        ensures { (m : List ℕ) (j : ℕ) → BeginsWith self.now m → j < 4
            → slice_index_or result j [] ≡ sha512 (m ++ take len (drop (j * len) rows.now)) }
    {
        let padded = padded_rows(rows, len);
        digests_of(&fold_rows(&self.words, &padded, block_count(len)))
    }
}
