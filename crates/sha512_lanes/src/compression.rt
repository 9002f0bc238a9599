//! The compression function (FIPS 180-4, 6.4.2): one text for any number of blocks side by
//! side.

ghost use Rattle.std.specs.Prelude.{◌≡◌, ℕ, List, [], length, map, slice_index, slice_index_or, ⊤};
ghost use Rattle.std.specs.Prelude.{◌+◌, ◌*◌, ◌<◌, ◌≤◌};
ghost use Rattle.sha2.specs.Sha512.{big_sigma0, big_sigma1, ch, compress, maj, round, rounds};
ghost use Rattle.sha2.specs.Sha512.{schedule, small_sigma0, small_sigma1};
ghost use Rattle.sha512_lanes.specs.Lanes.{variables, window};
ghost use Rattle.sha512_lanes.specs.Steps.{IsBefore, block_words, next_in};

use crate::word::Word;
use std::alloc::AllocError;

/// The constants of the 80 rounds (FIPS 180-4, 4.2.3).
pub(crate) const CONSTANTS: [u64; 80] = [
    0x428a2f98d728ae22,
    0x7137449123ef65cd,
    0xb5c0fbcfec4d3b2f,
    0xe9b5dba58189dbbc,
    0x3956c25bf348b538,
    0x59f111f1b605d019,
    0x923f82a4af194f9b,
    0xab1c5ed5da6d8118,
    0xd807aa98a3030242,
    0x12835b0145706fbe,
    0x243185be4ee4b28c,
    0x550c7dc3d5ffb4e2,
    0x72be5d74f27b896f,
    0x80deb1fe3b1696b1,
    0x9bdc06a725c71235,
    0xc19bf174cf692694,
    0xe49b69c19ef14ad2,
    0xefbe4786384f25e3,
    0x0fc19dc68b8cd5b5,
    0x240ca1cc77ac9c65,
    0x2de92c6f592b0275,
    0x4a7484aa6ea6e483,
    0x5cb0a9dcbd41fbd4,
    0x76f988da831153b5,
    0x983e5152ee66dfab,
    0xa831c66d2db43210,
    0xb00327c898fb213f,
    0xbf597fc7beef0ee4,
    0xc6e00bf33da88fc2,
    0xd5a79147930aa725,
    0x06ca6351e003826f,
    0x142929670a0e6e70,
    0x27b70a8546d22ffc,
    0x2e1b21385c26c926,
    0x4d2c6dfc5ac42aed,
    0x53380d139d95b3df,
    0x650a73548baf63de,
    0x766a0abb3c77b2a8,
    0x81c2c92e47edaee6,
    0x92722c851482353b,
    0xa2bfe8a14cf10364,
    0xa81a664bbc423001,
    0xc24b8b70d0f89791,
    0xc76c51a30654be30,
    0xd192e819d6ef5218,
    0xd69906245565a910,
    0xf40e35855771202a,
    0x106aa07032bbd1b8,
    0x19a4c116b8d2d0c8,
    0x1e376c085141ab53,
    0x2748774cdf8eeb99,
    0x34b0bcb5e19b48a8,
    0x391c0cb3c5c95a63,
    0x4ed8aa4ae3418acb,
    0x5b9cca4f7763e373,
    0x682e6ff3d6b2b8a3,
    0x748f82ee5defb2fc,
    0x78a5636f43172f60,
    0x84c87814a1f0ab72,
    0x8cc702081a6439ec,
    0x90befffa23631e28,
    0xa4506cebde82bde9,
    0xbef9a3f7b2c67915,
    0xc67178f2e372532b,
    0xca273eceea26619c,
    0xd186b8c721c0c207,
    0xeada7dd6cde0eb1e,
    0xf57d4f7fee6ed178,
    0x06f067aa72176fba,
    0x0a637dc5a2c898a6,
    0x113f9804bef90dae,
    0x1b710b35131c471b,
    0x28db77f523047d84,
    0x32caab7b40c72493,
    0x3c9ebe0a15c9bebc,
    0x431d67c49c100d4c,
    0x4cc5d4becb3e42b6,
    0x597f299cfc657e2a,
    0x5fcb6fab3ad6faec,
    0x6c44198c4a475817,
];

/// The eight working variables, or the eight words of a hash value.
#[derive(Drop)]
pub(crate) struct Variables<W> {
    pub(crate) a: W,
    pub(crate) b: W,
    pub(crate) c: W,
    pub(crate) d: W,
    pub(crate) e: W,
    pub(crate) f: W,
    pub(crate) g: W,
    pub(crate) h: W,
}

// By hand: the derived `clone` would go word by word.
impl<W: Copy> Clone for Variables<W> {
    ghost is_clone = { λ x y. y ≡ x };

    ghost is_infallible = { λ _. ⊤ };

    fn clone(&self) -> Result<Self, AllocError> {
        Ok(*self)
    }
}

impl<W: Copy> Copy for Variables<W> {}

/// Sixteen words of the schedule, one after the other.
#[derive(Drop)]
pub(crate) struct Window<W> {
    pub(crate) w0: W,
    pub(crate) w1: W,
    pub(crate) w2: W,
    pub(crate) w3: W,
    pub(crate) w4: W,
    pub(crate) w5: W,
    pub(crate) w6: W,
    pub(crate) w7: W,
    pub(crate) w8: W,
    pub(crate) w9: W,
    pub(crate) w10: W,
    pub(crate) w11: W,
    pub(crate) w12: W,
    pub(crate) w13: W,
    pub(crate) w14: W,
    pub(crate) w15: W,
}

impl<W: Copy> Clone for Window<W> {
    ghost is_clone = { λ x y. y ≡ x };

    ghost is_infallible = { λ _. ⊤ };

    fn clone(&self) -> Result<Self, AllocError> {
        Ok(*self)
    }
}

impl<W: Copy> Copy for Window<W> {}

// One operation fewer than the standard's form.
#[inline(always)]
fn choose<W: Word>(x: W, y: W, z: W) -> W
    ensures { (j : ℕ) → j < W.lanes
        → W.lane result j ≡ ch (W.lane x j) (W.lane y j) (W.lane z j) }
{
    z.xor(x.and(y.xor(z)))
}

// A round's `x ^ y` is the `y ^ z` of the round after it, so the compiler computes it once.
#[inline(always)]
fn majority<W: Word>(x: W, y: W, z: W) -> W
    ensures { (j : ℕ) → j < W.lanes
        → W.lane result j ≡ maj (W.lane x j) (W.lane y j) (W.lane z j) }
{
    y.xor(x.xor(y).and(y.xor(z)))
}

// The rotations nest, which needs fewer registers than rotating `x` afresh each time.
#[inline(always)]
fn upper_sigma0<W: Word>(x: W) -> W
    ensures { (j : ℕ) → j < W.lanes → W.lane result j ≡ big_sigma0 (W.lane x j) }
{
    x.xor(x.xor(x.rotated(5)).rotated(6)).rotated(28)
}

#[inline(always)]
fn upper_sigma1<W: Word>(x: W) -> W
    ensures { (j : ℕ) → j < W.lanes → W.lane result j ≡ big_sigma1 (W.lane x j) }
{
    x.xor(x.xor(x.rotated(23)).rotated(4)).rotated(14)
}

#[inline(always)]
pub(crate) fn lower_sigma0<W: Word>(x: W) -> W
    ensures { (j : ℕ) → j < W.lanes → W.lane result j ≡ small_sigma0 (W.lane x j) }
{
    x.xor(x.rotated(7)).rotated(1).xor(x.shifted(7))
}

#[inline(always)]
pub(crate) fn lower_sigma1<W: Word>(x: W) -> W
    ensures { (j : ℕ) → j < W.lanes → W.lane result j ≡ small_sigma1 (W.lane x j) }
{
    x.xor(x.rotated(42)).rotated(19).xor(x.shifted(6))
}

#[inline(always)]
fn round<W: Word>(v: Variables<W>, constant: u64, word: W) -> Variables<W>
    ensures { (j : ℕ) → j < W.lanes → variables (λ x. W.lane x j) result
        ≡ round (variables (λ x. W.lane x j) v) constant (W.lane word j) }
{
    let temporary1 = v
        .h
        .sum(upper_sigma1(v.e))
        .sum(choose(v.e, v.f, v.g))
        .sum(W::splat(constant))
        .sum(word);
    let temporary2 = upper_sigma0(v.a).sum(majority(v.a, v.b, v.c));
    Variables {
        a: temporary1.sum(temporary2),
        b: v.a,
        c: v.b,
        d: v.c,
        e: v.d.sum(temporary1),
        f: v.e,
        g: v.f,
        h: v.g,
    }
}

// A word of the schedule, from those 16, 15, 7 and 2 places before it.
#[inline(always)]
pub(crate) fn later_word<W: Word>(w0: W, w1: W, w9: W, w14: W) -> W
    ensures { (j : ℕ) → j < W.lanes → W.lane result j
        ≡ next_in (W.lane w0 j) (W.lane w1 j) (W.lane w9 j) (W.lane w14 j) }
{
    lower_sigma1(w14).sum(w9).sum(lower_sigma0(w1)).sum(w0)
}

// Four rounds from round `t` on, and the window four words on.
#[inline(always)]
fn four_steps<W: Word>(v: Variables<W>, w: Window<W>, t: usize) -> (Variables<W>, Window<W>)
    requires { t + 4 ≤ 64 }
    ensures { (j : ℕ) → j < W.lanes → (h b : List ℕ)
        → let at : W → ℕ = λ x. W.lane x j in
        IsBefore h b t (variables at v) (window at w)
        → IsBefore h b (t + 4) (variables at result.0) (window at result.1) }
{
    let v = round(v, CONSTANTS[t], w.w0);
    let w16 = later_word(w.w0, w.w1, w.w9, w.w14);
    let v = round(v, CONSTANTS[t + 1], w.w1);
    let w17 = later_word(w.w1, w.w2, w.w10, w.w15);
    let v = round(v, CONSTANTS[t + 2], w.w2);
    let w18 = later_word(w.w2, w.w3, w.w11, w16);
    let v = round(v, CONSTANTS[t + 3], w.w3);
    let w19 = later_word(w.w3, w.w4, w.w12, w17);
    let moved = Window {
        w0: w.w4,
        w1: w.w5,
        w2: w.w6,
        w3: w.w7,
        w4: w.w8,
        w5: w.w9,
        w6: w.w10,
        w7: w.w11,
        w8: w.w12,
        w9: w.w13,
        w10: w.w14,
        w11: w.w15,
        w12: w16,
        w13: w17,
        w14: w18,
        w15: w19,
    };
    (v, moved)
}

// The last sixteen rounds, in fours: no word follows theirs.
#[inline(always)]
fn four_rounds<W: Word>(v: Variables<W>, words: (W, W, W, W), t: usize) -> Variables<W>
    requires { t + 4 ≤ 80 }
    ensures { (j : ℕ) → j < W.lanes → (h b : List ℕ)
        → variables (λ x. W.lane x j) v ≡ rounds h (schedule b 64) t
        → (W.lane words.0 j ≡ slice_index (schedule b 64) t)
        × (W.lane words.1 j ≡ slice_index (schedule b 64) (t + 1))
        × (W.lane words.2 j ≡ slice_index (schedule b 64) (t + 2))
        × (W.lane words.3 j ≡ slice_index (schedule b 64) (t + 3))
        → variables (λ x. W.lane x j) result ≡ rounds h (schedule b 64) (t + 4) }
{
    let v = round(v, CONSTANTS[t], words.0);
    let v = round(v, CONSTANTS[t + 1], words.1);
    let v = round(v, CONSTANTS[t + 2], words.2);
    round(v, CONSTANTS[t + 3], words.3)
}

/// The hash value after a block of sixteen words, in each lane.
#[inline(never)]
pub(crate) fn compressed<W: Word>(state: Variables<W>, words: Window<W>) -> Variables<W>
    ensures { (j : ℕ) → j < W.lanes → (b : List ℕ)
        → window (λ x. W.lane x j) words ≡ block_words b
        → variables (λ x. W.lane x j) result ≡ compress (variables (λ x. W.lane x j) state) b }
{
    let mut v = state;
    let mut w = words;
    'turns: for turn in 0..4 {
        (v, w) = four_steps(v, w, 16 * turn);
        (v, w) = four_steps(v, w, 16 * turn + 4);
        (v, w) = four_steps(v, w, 16 * turn + 8);
        (v, w) = four_steps(v, w, 16 * turn + 12);
    }
    let v = four_rounds(v, (w.w0, w.w1, w.w2, w.w3), 64);
    let v = four_rounds(v, (w.w4, w.w5, w.w6, w.w7), 68);
    let v = four_rounds(v, (w.w8, w.w9, w.w10, w.w11), 72);
    let v = four_rounds(v, (w.w12, w.w13, w.w14, w.w15), 76);
    Variables {
        a: state.a.sum(v.a),
        b: state.b.sum(v.b),
        c: state.c.sum(v.c),
        d: state.d.sum(v.d),
        e: state.e.sum(v.e),
        f: state.f.sum(v.f),
        g: state.g.sum(v.g),
        h: state.h.sum(v.h),
    }
}

// The words of each block, side by side.
#[inline(always)]
pub(crate) fn window_of<W: Word, const N: usize>(blocks: &[[u8; 128]; N]) -> Window<W>
    requires count { N ≡ W.lanes }
    requires few { N ≤ 4 }
    ensures { (j : ℕ) → j < W.lanes
        → window (λ x. W.lane x j) result ≡ block_words (slice_index_or blocks.now j []) }
{
    Window {
        w0: W::of_blocks(blocks, 0),
        w1: W::of_blocks(blocks, 1),
        w2: W::of_blocks(blocks, 2),
        w3: W::of_blocks(blocks, 3),
        w4: W::of_blocks(blocks, 4),
        w5: W::of_blocks(blocks, 5),
        w6: W::of_blocks(blocks, 6),
        w7: W::of_blocks(blocks, 7),
        w8: W::of_blocks(blocks, 8),
        w9: W::of_blocks(blocks, 9),
        w10: W::of_blocks(blocks, 10),
        w11: W::of_blocks(blocks, 11),
        w12: W::of_blocks(blocks, 12),
        w13: W::of_blocks(blocks, 13),
        w14: W::of_blocks(blocks, 14),
        w15: W::of_blocks(blocks, 15),
    }
}

// The same eight words in each lane.
#[inline(always)]
pub(crate) fn spread<W: Word>(words: &[u64; 8]) -> Variables<W>
    ensures { (j : ℕ) → j < W.lanes → variables (λ x. W.lane x j) result ≡ words.now }
{
    Variables {
        a: W::splat(words[0]),
        b: W::splat(words[1]),
        c: W::splat(words[2]),
        d: W::splat(words[3]),
        e: W::splat(words[4]),
        f: W::splat(words[5]),
        g: W::splat(words[6]),
        h: W::splat(words[7]),
    }
}

// The eight words of lane `j`.
#[inline(always)]
pub(crate) fn row<W: Word>(v: Variables<W>, j: usize) -> [u64; 8]
    requires { j < W.lanes }
    ensures { result ≡ variables (λ x. W.lane x j) v }
{
    [
        v.a.lane_at(j),
        v.b.lane_at(j),
        v.c.lane_at(j),
        v.d.lane_at(j),
        v.e.lane_at(j),
        v.f.lane_at(j),
        v.g.lane_at(j),
        v.h.lane_at(j),
    ]
}

/// The eight words after each of the blocks, which all go on from the same words.
#[inline(always)]
pub(crate) fn compress_each<W: Word, const N: usize>(
    state: &[u64; 8],
    blocks: &[[u8; 128]; N],
) -> [[u64; 8]; N]
    requires count { N ≡ W.lanes }
    requires few { N ≤ 4 }
    ensures { result ≡ map (compress state.now) blocks.now }
{
    let end = compressed::<W>(spread(state), window_of(blocks));
    let mut rows = [[0u64; 8]; N];
    'rows: for j in 0..N {
        rows[j] = row(end, j);
    }
    rows
}
