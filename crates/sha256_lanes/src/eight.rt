//! Hashes of eight messages side by side, from words to words.

ghost use Rattle.std.specs.Prelude.{◌≡◌, ℕ, ◌+◌, ◌*◌, ◌<◌, ◌≤◌, ◌⊎◌, List, ◌++◌, map, take};
ghost use Rattle.sha256_lanes.specs.Eight.{ended_block, ended_words, head_bytes, lane_bytes};
ghost use Rattle.sha256_lanes.specs.Eight.{word_in};
ghost use Rattle.sha256_lanes.specs.Lanes.{variables, window};
ghost use Rattle.sha256_lanes.specs.Midstate.{BeginsWith};
ghost use Rattle.sha256_lanes.specs.Rounds.{block_words};
ghost use Rattle.sha256_lanes.specs.Sha256.{compress, sha256};

use crate::blocks::BLOCK_BYTES;
use crate::compression::{Opening, Variables, Window, compressed_from, four_steps, spread};
use crate::hashing::Midstate;
use crate::lanes::{Eight, Heads, fronts, middle};
use crate::word::Word;
use std::simd::u32x8;

/// Hashes of eight messages that have begun, one in each lane: of one block, and then of the first
/// 18 bytes of a head.
#[derive(Drop)]
pub struct Begun {
    pub(crate) midstate: Midstate,
    // The last field of each is 0.
    pub(crate) heads: Heads,
    pub(crate) opening: Opening<u32x8>,
}

// The words of the first N bytes of each value, the bit 1 after them (FIPS 180-4, 5.1.1), and
// zeros.
#[inline(always)]
fn ended_words<const N: usize>(values: &Variables<u32x8>) -> [u32x8; 9]
    requires width { (N ≡ 16) ⊎ (N ≡ 24) ⊎ (N ≡ 32) }
    ensures { (j : ℕ) → j < 8 → map (λ lanes. word_in lanes j) result
        ≡ ended_words N (variables (λ lanes. word_in lanes j) values.now) }
{
    let v = values;
    let zero = u32x8::splat(0);
    let one = u32x8::splat(0x8000_0000);
    if N == 16 {
        return [v.a, v.b, v.c, v.d, one, zero, zero, zero, zero];
    }
    if N == 24 {
        return [v.a, v.b, v.c, v.d, v.e, v.f, one, zero, zero];
    }
    [v.a, v.b, v.c, v.d, v.e, v.f, v.g, v.h, one]
}

// The words of the block of a head and N bytes of a value, with which a message ends after its
// first block.
#[inline(always)]
pub(crate) fn last_window<const N: usize>(heads: &Heads, values: &Eight) -> Window<u32x8>
    requires width { (N ≡ 16) ⊎ (N ≡ 24) ⊎ (N ≡ 32) }
    ensures { (j : ℕ) → j < 8 → window (λ lanes. word_in lanes j) result
        ≡ block_words (ended_block
        (head_bytes heads.now j ++ take N (lane_bytes values.now j)) (86 + N)) }
{
    let [e0, e1, e2, e3, e4, e5, e6, e7, e8] = ended_words::<N>(&values.words);
    Window {
        w0: heads.w0,
        w1: heads.w1,
        w2: heads.w2,
        w3: heads.w3,
        w4: heads.w4,
        w5: fronts(heads.w5, e0),
        w6: middle(e0, e1),
        w7: middle(e1, e2),
        w8: middle(e2, e3),
        w9: middle(e3, e4),
        w10: middle(e4, e5),
        w11: middle(e5, e6),
        w12: middle(e6, e7),
        w13: middle(e7, e8),
        w14: u32x8::splat(0),
        w15: u32x8::splat(8 * (86 + N as u32)),
    }
}

// The words of the digests of a message of one block, a head and N bytes of a value. The first
// rounds stand here, where the words of the padding are known, which saves operations.
#[inline(never)]
fn digest_words<const N: usize>(state: &[u32; 8], heads: &Heads, values: &Eight) -> Eight
    requires width { (N ≡ 16) ⊎ (N ≡ 24) ⊎ (N ≡ 32) }
    ensures { (j : ℕ) → j < 8 → variables (λ lanes. word_in lanes j) result.words
        ≡ compress state.now (ended_block
        (head_bytes heads.now j ++ take N (lane_bytes values.now j)) (86 + N)) }
{
    let state = spread(state);
    let words = last_window::<N>(heads, values);
    let (v, w) = four_steps(state, words, 0);
    let (v, w) = four_steps(v, w, 4);
    let (v, w) = four_steps(v, w, 8);
    let (v, w) = four_steps(v, w, 12);
    Eight {
        words: compressed_from::<u32x8, N, false>(&state, &v, &w, 1),
    }
}

// A head and the first `n` bytes of a value, those of lane `j`, at the front of a block.
fn tail_in(heads: &Heads, values: &Eight, n: usize, j: usize) -> [u8; BLOCK_BYTES]
    requires small { n ≤ 32 }
    requires lane { j < 8 }
    ensures { take (22 + n) result
        ≡ head_bytes heads.now j ++ take n (lane_bytes values.now j) }
{
    let mut tail = [0u8; BLOCK_BYTES];
    heads.write_lane(j, &mut tail[..22]);
    values.write_lane(j, &mut tail[22..22 + n]);
    tail
}

impl Midstate {
    // As `finalize_words`, by blocks of bytes.
    fn finalize_by_bytes(&self, heads: &Heads, values: &Eight, n: usize) -> Eight
        requires { n ≤ 32 }
        ensures { (m : List ℕ) (j : ℕ) → BeginsWith self.now m → j < 8 → lane_bytes result j
            ≡ sha256 (m ++ (head_bytes heads.now j ++ take n (lane_bytes values.now j))) }
    {
        let mut tails = [[0u8; BLOCK_BYTES]; 8];
        'each_tail: for j in 0..8 {
            tails[j] = tail_in(heads, values, n, j);
        }
        Eight::of(&self.finalize_eight(&tails, 22 + n))
    }

    /// The digests of the first block, a head, and the first `n` bytes of a value, lane by lane.
    /// Values of 16, 24 and 32 bytes stay words on the way.
    #[inline]
    pub fn finalize_words(&self, heads: &Heads, values: &Eight, n: usize) -> Eight
        requires { n ≤ 32 }
        ensures { (m : List ℕ) (j : ℕ) → BeginsWith self.now m → j < 8 → lane_bytes result j
            ≡ sha256 (m ++ (head_bytes heads.now j ++ take n (lane_bytes values.now j))) }
    {
        match n {
            16 => digest_words::<16>(&self.words, heads, values),
            24 => digest_words::<24>(&self.words, heads, values),
            32 => digest_words::<32>(&self.words, heads, values),
            _ => self.finalize_by_bytes(heads, values, n),
        }
    }
}
