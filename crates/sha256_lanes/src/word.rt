//! Words of 32 bits, several side by side: each operation works lane by lane.

ghost use Rattle.std.specs.Prelude.{◌≡◌, ℕ, ◌+◌, ◌*◌, ◌/◌, ◌%◌, ◌^◌, ◌<◌, ◌≤◌, bit_and, bit_xor};
ghost use Rattle.std.specs.Prelude.{length, slice_index, slice_index_or, []};
ghost use Rattle.std.specs.Int.{rotate_right, w32};
ghost use Rattle.sha256_lanes.specs.Sha256.{block_word, sum32};

use std::simd::{u32x4, u32x8};

// The word whose four bytes stand from place `i` of a block on, the highest first.
#[inline(always)]
pub(crate) fn block_word(block: &[u8; 64], i: usize) -> u32
    requires { i + 4 ≤ 64 }
    ensures { result ≡ block_word block.now i }
{
    u32::from_be_bytes([block[i], block[i + 1], block[i + 2], block[i + 3]])
}

/// A word of 32 bits in each of some lanes (FIPS 180-4, sections 2 and 3).
pub(crate) trait Word: Copy + Drop {
    // How many lanes there are, and what stands in one.
    ghost lanes: { ℕ };

    ghost lane: { Self → ℕ → ℕ };

    /// Word `k` of each block, of sixteen.
    fn of_blocks(blocks: &[[u8; 64]], k: usize) -> Self
        requires count { length blocks.now ≡ lanes }
        requires low { k < 16 }
        ensures { (j : ℕ) → j < lanes
            → lane result j ≡ block_word (slice_index_or blocks.now j []) (4 * k) };

    /// Lane `j`.
    fn lane_at(self, j: usize) -> u32
        requires { j < lanes }
        ensures { result ≡ lane self j };

    /// The same word in each lane.
    fn splat(x: u32) -> Self
        ensures { (j : ℕ) → j < lanes → lane result j ≡ x };

    /// The sum modulo 2^32.
    fn sum(self, other: Self) -> Self
        ensures { (j : ℕ) → j < lanes → lane result j ≡ sum32 (lane self j) (lane other j) };

    /// Exclusive or, bit by bit.
    fn xor(self, other: Self) -> Self
        ensures { (j : ℕ) → j < lanes → lane result j ≡ bit_xor (lane self j) (lane other j) };

    /// And, bit by bit.
    fn and(self, other: Self) -> Self
        ensures { (j : ℕ) → j < lanes → lane result j ≡ bit_and (lane self j) (lane other j) };

    /// Turned right by `k` bits.
    fn rotated(self, k: u32) -> Self
        requires { (0 < k) × (k < 32) }
        ensures { (j : ℕ) → j < lanes → lane result j ≡ rotate_right w32 (lane self j) k };

    /// Moved right by `k` bits, with zeros after them.
    fn shifted(self, k: u32) -> Self
        requires { k < 32 }
        ensures { (j : ℕ) → j < lanes → lane result j ≡ lane self j / 2 ^ k };

    // A lane has 32 bits.
    ghost lane_lt: { (x : Self) (j : ℕ) → lane x j < 2 ^ 32 };
}

impl Word for u32x4 {
    ghost use Rattle.std.proofs.Common.{mod-lt, pow_pos};

    ghost lanes = { 4 };

    ghost lane = { λ v j. slice_index v j % 2 ^ 32 };

    ghost lane_lt = { λ v j. mod-lt (slice_index v j) (pow_pos 32) };

    #[inline(always)]
    fn of_blocks(blocks: &[[u8; 64]], k: usize) -> Self {
        u32x4::from_array([
            block_word(&blocks[0], 4 * k),
            block_word(&blocks[1], 4 * k),
            block_word(&blocks[2], 4 * k),
            block_word(&blocks[3], 4 * k),
        ])
    }

    #[inline(always)]
    fn lane_at(self, j: usize) -> u32 {
        self[j]
    }

    #[inline(always)]
    fn splat(x: u32) -> Self {
        u32x4::splat(x)
    }

    #[inline(always)]
    fn sum(self, other: Self) -> Self {
        self + other
    }

    #[inline(always)]
    fn xor(self, other: Self) -> Self {
        self ^ other
    }

    #[inline(always)]
    fn and(self, other: Self) -> Self {
        self & other
    }

    #[inline(always)]
    fn rotated(self, k: u32) -> Self {
        (self >> u32x4::splat(k)) | (self << u32x4::splat(32 - k))
    }

    #[inline(always)]
    fn shifted(self, k: u32) -> Self {
        self >> u32x4::splat(k)
    }
}

impl Word for u32x8 {
    ghost use Rattle.std.proofs.Common.{mod-lt, pow_pos};

    ghost lanes = { 8 };

    ghost lane = { λ v j. slice_index v j % 2 ^ 32 };

    ghost lane_lt = { λ v j. mod-lt (slice_index v j) (pow_pos 32) };

    #[inline(always)]
    fn of_blocks(blocks: &[[u8; 64]], k: usize) -> Self {
        u32x8::from_array([
            block_word(&blocks[0], 4 * k),
            block_word(&blocks[1], 4 * k),
            block_word(&blocks[2], 4 * k),
            block_word(&blocks[3], 4 * k),
            block_word(&blocks[4], 4 * k),
            block_word(&blocks[5], 4 * k),
            block_word(&blocks[6], 4 * k),
            block_word(&blocks[7], 4 * k),
        ])
    }

    #[inline(always)]
    fn lane_at(self, j: usize) -> u32 {
        self[j]
    }

    #[inline(always)]
    fn splat(x: u32) -> Self {
        u32x8::splat(x)
    }

    #[inline(always)]
    fn sum(self, other: Self) -> Self {
        self + other
    }

    #[inline(always)]
    fn xor(self, other: Self) -> Self {
        self ^ other
    }

    #[inline(always)]
    fn and(self, other: Self) -> Self {
        self & other
    }

    #[inline(always)]
    fn rotated(self, k: u32) -> Self {
        (self >> u32x8::splat(k)) | (self << u32x8::splat(32 - k))
    }

    #[inline(always)]
    fn shifted(self, k: u32) -> Self {
        self >> u32x8::splat(k)
    }
}
