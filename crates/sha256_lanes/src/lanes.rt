//! Eight values side by side, kept as words: what one hash gives is the next one's input, with no
//! bytes in between.

ghost use Rattle.std.specs.Prelude.{◌≡◌, ℕ, ◌-◌, ◌%◌, ◌^◌, ◌<◌, ◌≤◌, [], ◌++◌, length, take};
ghost use Rattle.std.specs.Prelude.{replicate, slice_index, slice_index_or, nat_le};
ghost use Rattle.std.specs.Prelude.{if◌then◌else◌};
ghost use Rattle.std.specs.Int.{to_be_bytes, w32};
ghost use Rattle.sha256_lanes.specs.Eight.{front_word, head_bytes, head_words, lane_bytes};
ghost use Rattle.sha256_lanes.specs.Eight.{IsBlock, middle_word, word_in};

use crate::blocks::{BLOCK_BYTES, word_bytes, zero_padded};
use crate::compression::{Variables, row};
use crate::word::Word;
use std::simd::prelude::SimdPartialOrd;
use std::simd::u32x8;

/// Eight values of at most 32 bytes, one in each lane of eight words. A shorter value has other
/// bytes after it.
#[derive(Clone, Copy, Drop)]
pub struct Eight {
    pub(crate) words: Variables<u32x8>,
}

/// Eight heads of 22 bytes, one in each lane, which stand before values: five words and a half.
#[derive(Clone, Copy, Drop)]
pub struct Heads {
    pub(crate) w0: u32x8,
    pub(crate) w1: u32x8,
    pub(crate) w2: u32x8,
    pub(crate) w3: u32x8,
    pub(crate) w4: u32x8,
    // Its low half has no meaning.
    pub(crate) w5: u32x8,
}

/// The last half of one word, and the first half of the next.
#[inline(always)]
pub(crate) fn middle<W: Word>(x: W, y: W) -> W
    ensures { (j : ℕ) → j < W.lanes → W.lane result j ≡ middle_word (W.lane x j) (W.lane y j) }
{
    x.and(W::splat(0xffff))
        .sum(y.and(W::splat(0xffff_0000)))
        .rotated(16)
}

/// The first half of one word, and the first half of another.
#[inline(always)]
pub(crate) fn fronts<W: Word>(x: W, y: W) -> W
    ensures { (j : ℕ) → j < W.lanes → W.lane result j ≡ front_word (W.lane x j) (W.lane y j) }
{
    x.and(W::splat(0xffff_0000)).sum(y.shifted(16))
}

// Lane by lane the new word where the digit is at most `q`, and the old one where it is above.
#[inline(always)]
fn chosen(digits: &[u32; 8], q: u32, new: u32x8, old: u32x8) -> u32x8
    ensures { (j : ℕ) → j < 8 → word_in result j
        ≡ (if nat_le (slice_index digits.now j) q then word_in new j else word_in old j) }
{
    let reached = u32x8::from_array(*digits).simd_le(u32x8::splat(q));
    reached.select(new, old)
}

// The bytes, and zeros up to a block.
#[inline(always)]
fn block_of(bytes: &[u8]) -> [u8; BLOCK_BYTES]
    requires { length bytes.now ≤ 64 }
    ensures value { result ≡ bytes.now ++ replicate (64 - length bytes.now) 0 }
    ensures block { IsBlock result }
{
    zero_padded(bytes)
}

impl Eight {
    // The first 32 bytes of each block.
    #[inline(always)]
    fn of_blocks(blocks: &[[u8; BLOCK_BYTES]; 8]) -> Eight
        requires { (j : ℕ) → j < 8 → IsBlock (slice_index_or blocks.now j []) }
        ensures { (j : ℕ) → j < 8
            → lane_bytes result j ≡ take 32 (slice_index_or blocks.now j []) }
    {
        Eight {
            words: Variables {
                a: u32x8::of_blocks(blocks, 0),
                b: u32x8::of_blocks(blocks, 1),
                c: u32x8::of_blocks(blocks, 2),
                d: u32x8::of_blocks(blocks, 3),
                e: u32x8::of_blocks(blocks, 4),
                f: u32x8::of_blocks(blocks, 5),
                g: u32x8::of_blocks(blocks, 6),
                h: u32x8::of_blocks(blocks, 7),
            },
        }
    }

    /// The same value in each lane, with zeros after it.
    pub fn splat(value: &[u8]) -> Eight
        requires { length value.now ≤ 32 }
        ensures { (j : ℕ) → j < 8
            → lane_bytes result j ≡ value.now ++ replicate (32 - length value.now) 0 }
    {
        Eight::of_blocks(&[block_of(value); 8])
    }

    /// One value in each lane.
    pub fn of(values: &[[u8; 32]; 8]) -> Eight
        ensures { (j : ℕ) → j < 8 → lane_bytes result j ≡ slice_index_or values.now j [] }
    {
        let mut blocks = [[0u8; BLOCK_BYTES]; 8];
        'each_value: for j in 0..8 {
            blocks[j] = block_of(&values[j]);
        }
        Eight::of_blocks(&blocks)
    }

    /// Writes the value in lane `j`: as many of its bytes as there is room for.
    pub fn write_lane(&self, j: usize, out: &mut [u8])
        requires lane { j < 8 }
        requires room { length out.old ≤ 32 }
        ensures { out.new ≡ take (length out.old) (lane_bytes self.now j) }
    {
        let bytes = word_bytes(&row(self.words, j));
        out.copy_from_slice(&bytes[..out.len()]);
    }

    /// The new values in the lanes whose digit is at most `q`, and these in the others.
    #[inline]
    pub fn after(&self, new: &Eight, digits: &[u32; 8], q: u32) -> Eight
        ensures { (j : ℕ) → j < 8 → lane_bytes result j
            ≡ (if nat_le (slice_index digits.now j) q
            then lane_bytes new.now j
            else lane_bytes self.now j) }
    {
        let (new, old) = (&new.words, &self.words);
        Eight {
            words: Variables {
                a: chosen(digits, q, new.a, old.a),
                b: chosen(digits, q, new.b, old.b),
                c: chosen(digits, q, new.c, old.c),
                d: chosen(digits, q, new.d, old.d),
                e: chosen(digits, q, new.e, old.e),
                f: chosen(digits, q, new.f, old.f),
                g: chosen(digits, q, new.g, old.g),
                h: chosen(digits, q, new.h, old.h),
            },
        }
    }
}

impl Heads {
    // The first 22 bytes of each block.
    #[inline(always)]
    fn of_blocks(blocks: &[[u8; BLOCK_BYTES]; 8]) -> Heads
        requires { (j : ℕ) → j < 8 → IsBlock (slice_index_or blocks.now j []) }
        ensures { (j : ℕ) → j < 8
            → head_bytes result j ≡ take 22 (slice_index_or blocks.now j []) }
    {
        Heads {
            w0: u32x8::of_blocks(blocks, 0),
            w1: u32x8::of_blocks(blocks, 1),
            w2: u32x8::of_blocks(blocks, 2),
            w3: u32x8::of_blocks(blocks, 3),
            w4: u32x8::of_blocks(blocks, 4),
            w5: u32x8::of_blocks(blocks, 5),
        }
    }

    /// One head in each lane.
    pub fn of(heads: &[[u8; 22]; 8]) -> Heads
        ensures { (j : ℕ) → j < 8 → head_bytes result j ≡ slice_index_or heads.now j [] }
    {
        let mut blocks = [[0u8; BLOCK_BYTES]; 8];
        'each_head: for j in 0..8 {
            blocks[j] = block_of(&heads[j]);
        }
        Heads::of_blocks(&blocks)
    }

    /// The same head in each lane.
    pub fn splat(head: &[u8; 22]) -> Heads
        ensures { (j : ℕ) → j < 8 → head_bytes result j ≡ head.now }
    {
        Heads::of_blocks(&[block_of(head); 8])
    }

    // Writes the head in lane `j`.
    pub(crate) fn write_lane(&self, j: usize, out: &mut [u8])
        requires lane { j < 8 }
        requires room { length out.old ≡ 22 }
        ensures { out.new ≡ head_bytes self.now j }
    {
        let words = [
            self.w0.lane_at(j),
            self.w1.lane_at(j),
            self.w2.lane_at(j),
            self.w3.lane_at(j),
            self.w4.lane_at(j),
            self.w5.lane_at(j),
            0,
            0,
        ];
        out.copy_from_slice(&word_bytes(&words)[..22]);
    }

    /// These heads with other last fields, of 4 bytes each: a number for each lane, and 0.
    #[inline]
    pub fn numbered(&self, numbers: &[u32; 8]) -> Heads
        ensures { (j : ℕ) → j < 8 → head_bytes result j
            ≡ take 14 (head_bytes self.now j)
            ++ (to_be_bytes w32 (slice_index numbers.now j) ++ replicate 4 0) }
    {
        let field = u32x8::from_array(*numbers);
        let zero = u32x8::splat(0);
        Heads {
            w0: self.w0,
            w1: self.w1,
            w2: self.w2,
            w3: fronts(self.w3, field),
            w4: middle(field, zero),
            w5: zero,
        }
    }

    /// These heads with another last field, of 4 bytes: a number for each lane.
    #[inline]
    pub fn ended(&self, numbers: &[u32; 8]) -> Heads
        ensures { (j : ℕ) → j < 8 → head_bytes result j
            ≡ take 18 (head_bytes self.now j) ++ to_be_bytes w32 (slice_index numbers.now j) }
    {
        let field = u32x8::from_array(*numbers);
        Heads {
            w0: self.w0,
            w1: self.w1,
            w2: self.w2,
            w3: self.w3,
            w4: fronts(self.w4, field),
            w5: middle(field, u32x8::splat(0)),
        }
    }

    // These heads with another last field, of 4 bytes, whose first two are 0 before and after.
    #[inline(always)]
    pub(crate) fn stepped(&self, number: u32) -> Heads
        requires low { number < 2 ^ 16 }
        ensures bytes { (j : ℕ) → j < 8 → word_in self.now.w4 j % 2 ^ 16 ≡ 0 → head_bytes result j
            ≡ take 18 (head_bytes self.now j) ++ to_be_bytes w32 number }
        ensures words { (j : ℕ) → j < 8
            → take 5 (head_words result j) ≡ take 5 (head_words self.now j) }
    {
        Heads {
            w0: self.w0,
            w1: self.w1,
            w2: self.w2,
            w3: self.w3,
            w4: self.w4,
            w5: u32x8::splat(number << 16),
        }
    }
}
