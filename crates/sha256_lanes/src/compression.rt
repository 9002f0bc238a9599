//! The compression function (FIPS 180-4, 6.2.2): one text for four blocks and for eight side by
//! side.

ghost use Rattle.std.specs.Prelude.{◌≡◌, ℕ, List, [], length, map, slice_index, slice_index_or, ⊤};
ghost use Rattle.std.specs.Prelude.{◌+◌, ◌*◌, ◌<◌, ◌≤◌, ◌∷◌, ◌++◌, drop, take};
ghost use Rattle.sha256_lanes.specs.Lanes.{IsOpened, variables, window};
ghost use Rattle.sha256_lanes.specs.Rounds.{IsBefore, block_words, next_in, rounds_until};
ghost use Rattle.sha256_lanes.specs.Rounds.{share_in, words_from};
ghost use Rattle.sha256_lanes.specs.Sha256.{choose, majority, upper_sigma0, upper_sigma1};
ghost use Rattle.sha256_lanes.specs.Sha256.{lower_sigma0, lower_sigma1, round, schedule, compress};

use crate::word::Word;
use std::alloc::AllocError;

/// The constants of the 64 rounds (FIPS 180-4, 4.2.2).
pub(crate) const CONSTANTS: [u32; 64] = [
    0x428a2f98, 0x71374491, 0xb5c0fbcf, 0xe9b5dba5, 0x3956c25b, 0x59f111f1, 0x923f82a4, 0xab1c5ed5,
    0xd807aa98, 0x12835b01, 0x243185be, 0x550c7dc3, 0x72be5d74, 0x80deb1fe, 0x9bdc06a7, 0xc19bf174,
    0xe49b69c1, 0xefbe4786, 0x0fc19dc6, 0x240ca1cc, 0x2de92c6f, 0x4a7484aa, 0x5cb0a9dc, 0x76f988da,
    0x983e5152, 0xa831c66d, 0xb00327c8, 0xbf597fc7, 0xc6e00bf3, 0xd5a79147, 0x06ca6351, 0x14292967,
    0x27b70a85, 0x2e1b2138, 0x4d2c6dfc, 0x53380d13, 0x650a7354, 0x766a0abb, 0x81c2c92e, 0x92722c85,
    0xa2bfe8a1, 0xa81a664b, 0xc24b8b70, 0xc76c51a3, 0xd192e819, 0xd6990624, 0xf40e3585, 0x106aa070,
    0x19a4c116, 0x1e376c08, 0x2748774c, 0x34b0bcb5, 0x391c0cb3, 0x4ed8aa4a, 0x5b9cca4f, 0x682e6ff3,
    0x748f82ee, 0x78a5636f, 0x84c87814, 0x8cc70208, 0x90befffa, 0xa4506ceb, 0xbef9a3f7, 0xc67178f2,
];

/// The eight working variables, or the eight words of a hash value.
#[derive(Drop)]
pub(crate) struct Variables<W> {
    pub(crate) a: W,
    pub(crate) b: W,
    pub(crate) c: W,
    pub(crate) d: W,
    pub(crate) e: W,
    pub(crate) f: W,
    pub(crate) g: W,
    pub(crate) h: W,
}

// By hand: the derived `clone` would go word by word.
impl<W: Copy> Clone for Variables<W> {
    ghost is_clone = { λ x y. y ≡ x };

    ghost is_infallible = { λ _. ⊤ };

    fn clone(&self) -> Result<Self, AllocError> {
        Ok(*self)
    }
}

impl<W: Copy> Copy for Variables<W> {}

/// Sixteen words of the schedule, one after the other.
#[derive(Drop)]
pub(crate) struct Window<W> {
    pub(crate) w0: W,
    pub(crate) w1: W,
    pub(crate) w2: W,
    pub(crate) w3: W,
    pub(crate) w4: W,
    pub(crate) w5: W,
    pub(crate) w6: W,
    pub(crate) w7: W,
    pub(crate) w8: W,
    pub(crate) w9: W,
    pub(crate) w10: W,
    pub(crate) w11: W,
    pub(crate) w12: W,
    pub(crate) w13: W,
    pub(crate) w14: W,
    pub(crate) w15: W,
}

impl<W: Copy> Clone for Window<W> {
    ghost is_clone = { λ x y. y ≡ x };

    ghost is_infallible = { λ _. ⊤ };

    fn clone(&self) -> Result<Self, AllocError> {
        Ok(*self)
    }
}

impl<W: Copy> Copy for Window<W> {}

// One operation fewer than the standard's form.
#[inline(always)]
fn choose<W: Word>(x: W, y: W, z: W) -> W
    ensures { (j : ℕ) → j < W.lanes
        → W.lane result j ≡ choose (W.lane x j) (W.lane y j) (W.lane z j) }
{
    z.xor(x.and(y.xor(z)))
}

// A round's `x ^ y` is the `y ^ z` of the round after it, so the compiler computes it once.
#[inline(always)]
fn majority<W: Word>(x: W, y: W, z: W) -> W
    ensures { (j : ℕ) → j < W.lanes
        → W.lane result j ≡ majority (W.lane x j) (W.lane y j) (W.lane z j) }
{
    y.xor(x.xor(y).and(y.xor(z)))
}

// The rotations nest, which needs fewer registers than rotating `x` afresh each time.
#[inline(always)]
fn upper_sigma0<W: Word>(x: W) -> W
    ensures { (j : ℕ) → j < W.lanes → W.lane result j ≡ upper_sigma0 (W.lane x j) }
{
    x.xor(x.xor(x.rotated(9)).rotated(11)).rotated(2)
}

#[inline(always)]
fn upper_sigma1<W: Word>(x: W) -> W
    ensures { (j : ℕ) → j < W.lanes → W.lane result j ≡ upper_sigma1 (W.lane x j) }
{
    x.xor(x.xor(x.rotated(14)).rotated(5)).rotated(6)
}

#[inline(always)]
pub(crate) fn lower_sigma0<W: Word>(x: W) -> W
    ensures { (j : ℕ) → j < W.lanes → W.lane result j ≡ lower_sigma0 (W.lane x j) }
{
    x.xor(x.rotated(11)).rotated(7).xor(x.shifted(3))
}

#[inline(always)]
pub(crate) fn lower_sigma1<W: Word>(x: W) -> W
    ensures { (j : ℕ) → j < W.lanes → W.lane result j ≡ lower_sigma1 (W.lane x j) }
{
    x.xor(x.rotated(2)).rotated(17).xor(x.shifted(10))
}

#[inline(always)]
fn round<W: Word>(v: Variables<W>, constant: u32, word: W) -> Variables<W>
    ensures { (j : ℕ) → j < W.lanes → variables (λ x. W.lane x j) result
        ≡ round (variables (λ x. W.lane x j) v) constant (W.lane word j) }
{
    let temporary1 = v
        .h
        .sum(upper_sigma1(v.e))
        .sum(choose(v.e, v.f, v.g))
        .sum(W::splat(constant))
        .sum(word);
    let temporary2 = upper_sigma0(v.a).sum(majority(v.a, v.b, v.c));
    Variables {
        a: temporary1.sum(temporary2),
        b: v.a,
        c: v.b,
        d: v.c,
        e: v.d.sum(temporary1),
        f: v.e,
        g: v.f,
        h: v.g,
    }
}

// A word of the schedule, from those 16, 15, 7 and 2 places before it.
#[inline(always)]
pub(crate) fn later_word<W: Word>(w0: W, w1: W, w9: W, w14: W) -> W
    ensures { (j : ℕ) → j < W.lanes → W.lane result j
        ≡ next_in (W.lane w0 j) (W.lane w1 j) (W.lane w9 j) (W.lane w14 j) }
{
    lower_sigma1(w14).sum(w9).sum(lower_sigma0(w1)).sum(w0)
}

// The window four words on.
#[inline(always)]
fn moved<W: Word>(w: Window<W>, words: (W, W, W, W)) -> Window<W>
    ensures { (j : ℕ) → j < W.lanes → let at : W → ℕ = λ x. W.lane x j in
        window at result
        ≡ drop 4 (window at w) ++ at words.0 ∷ at words.1 ∷ at words.2 ∷ at words.3 ∷ [] }
{
    Window {
        w0: w.w4,
        w1: w.w5,
        w2: w.w6,
        w3: w.w7,
        w4: w.w8,
        w5: w.w9,
        w6: w.w10,
        w7: w.w11,
        w8: w.w12,
        w9: w.w13,
        w10: w.w14,
        w11: w.w15,
        w12: words.0,
        w13: words.1,
        w14: words.2,
        w15: words.3,
    }
}

// Four rounds from round `t` on, and the window four words on.
#[inline(always)]
pub(crate) fn four_steps<W: Word>(
    v: Variables<W>,
    w: Window<W>,
    t: usize,
) -> (Variables<W>, Window<W>)
    requires { t + 4 ≤ 64 }
    ensures { (j : ℕ) → j < W.lanes → (h b : List ℕ)
        → let at : W → ℕ = λ x. W.lane x j in
        IsBefore h b t (variables at v) (window at w)
        → IsBefore h b (t + 4) (variables at result.0) (window at result.1) }
{
    let v = round(v, CONSTANTS[t], w.w0);
    let w16 = later_word(w.w0, w.w1, w.w9, w.w14);
    let v = round(v, CONSTANTS[t + 1], w.w1);
    let w17 = later_word(w.w1, w.w2, w.w10, w.w15);
    let v = round(v, CONSTANTS[t + 2], w.w2);
    let w18 = later_word(w.w2, w.w3, w.w11, w16);
    let v = round(v, CONSTANTS[t + 3], w.w3);
    let w19 = later_word(w.w3, w.w4, w.w12, w17);
    (v, moved(w, (w16, w17, w18, w19)))
}

// The window four words on, with no rounds.
#[inline(always)]
fn four_words<W: Word>(w: Window<W>) -> Window<W>
    ensures { (j : ℕ) → j < W.lanes → (b : List ℕ) (t : ℕ)
        → let at : W → ℕ = λ x. W.lane x j in
        window at w ≡ words_from b t → t + 4 ≤ 64 → window at result ≡ words_from b (t + 4) }
{
    let w16 = later_word(w.w0, w.w1, w.w9, w.w14);
    let w17 = later_word(w.w1, w.w2, w.w10, w.w15);
    let w18 = later_word(w.w2, w.w3, w.w11, w16);
    let w19 = later_word(w.w3, w.w4, w.w12, w17);
    moved(w, (w16, w17, w18, w19))
}

// The last sixteen rounds, in fours: no word follows theirs.
#[inline(always)]
fn four_rounds<W: Word>(v: Variables<W>, words: (W, W, W, W), t: usize) -> Variables<W>
    requires { t + 4 ≤ 64 }
    ensures { (j : ℕ) → j < W.lanes → (h b : List ℕ)
        → variables (λ x. W.lane x j) v ≡ rounds_until h b t
        → (W.lane words.0 j ≡ slice_index (schedule b 64) t)
        × (W.lane words.1 j ≡ slice_index (schedule b 64) (t + 1))
        × (W.lane words.2 j ≡ slice_index (schedule b 64) (t + 2))
        × (W.lane words.3 j ≡ slice_index (schedule b 64) (t + 3))
        → variables (λ x. W.lane x j) result ≡ rounds_until h b (t + 4) }
{
    let v = round(v, CONSTANTS[t], words.0);
    let v = round(v, CONSTANTS[t + 1], words.1);
    let v = round(v, CONSTANTS[t + 2], words.2);
    round(v, CONSTANTS[t + 3], words.3)
}

// What two words give to the word 16 places after the first.
#[inline(always)]
fn share<W: Word>(w0: W, w1: W) -> W
    ensures { (j : ℕ) → j < W.lanes
        → W.lane result j ≡ share_in (W.lane w0 j) (W.lane w1 j) }
{
    lower_sigma0(w1).sum(w0)
}

// A word of the schedule, from those 7 and 2 places before it and the share of two others.
#[inline(always)]
fn shared_word<W: Word>(share: W, w9: W, w14: W) -> W
    ensures { (j : ℕ) → j < W.lanes → (w0 w1 : ℕ) → W.lane share j ≡ share_in w0 w1
        → W.lane result j ≡ next_in w0 w1 (W.lane w9 j) (W.lane w14 j) }
{
    lower_sigma1(w14).sum(w9).sum(share)
}

// The working variables after a round, from those after the same round with the word 0.
#[inline(always)]
fn with_word<W: Word>(v: Variables<W>, word: W) -> Variables<W>
    ensures { (j : ℕ) → j < W.lanes → (u : List ℕ) (k : ℕ)
        → variables (λ x. W.lane x j) v ≡ round u k 0
        → variables (λ x. W.lane x j) result ≡ round u k (W.lane word j) }
{
    Variables {
        a: v.a.sum(word),
        b: v.b,
        c: v.c,
        d: v.d,
        e: v.e.sum(word),
        f: v.f,
        g: v.g,
        h: v.h,
    }
}

/// What the first five words of a block give, in each lane.
#[derive(Drop)]
pub(crate) struct Opening<W> {
    // The hash value before the block.
    pub(crate) state: Variables<W>,
    // The working variables after the sixth round, were its word 0.
    pub(crate) next: Variables<W>,
    // What the words give to those 16 places after the first four.
    pub(crate) shares: (W, W, W, W),
}

impl<W: Copy> Clone for Opening<W> {
    ghost is_clone = { λ x y. y ≡ x };

    ghost is_infallible = { λ _. ⊤ };

    fn clone(&self) -> Result<Self, AllocError> {
        Ok(*self)
    }
}

impl<W: Copy> Copy for Opening<W> {}

/// Takes the rounds of the first five words of a block.
pub(crate) fn opened<W: Word>(state: Variables<W>, words: (W, W, W, W, W)) -> Opening<W>
    ensures opened { (j : ℕ) → j < W.lanes → (b : List ℕ)
        → let at : W → ℕ = λ x. W.lane x j in
        take 5 (block_words b)
        ≡ at words.0 ∷ at words.1 ∷ at words.2 ∷ at words.3 ∷ at words.4 ∷ []
        → IsOpened at b result }
    ensures state { result.state ≡ state }
{
    let (w0, w1, w2, w3, w4) = words;
    let v = four_rounds(state, (w0, w1, w2, w3), 0);
    let v = round(v, CONSTANTS[4], w4);
    Opening {
        state,
        next: round(v, CONSTANTS[5], W::splat(0)),
        shares: (share(w0, w1), share(w1, w2), share(w2, w3), share(w3, w4)),
    }
}

/// The first eight rounds of a block whose first five words were taken, and the window eight words
/// on.
#[inline(always)]
pub(crate) fn eight_steps<W: Word>(opening: &Opening<W>, w: Window<W>) -> (Variables<W>, Window<W>)
    ensures { (j : ℕ) → j < W.lanes → (b : List ℕ)
        → let at : W → ℕ = λ x. W.lane x j in
        IsOpened at b opening.now → window at w ≡ block_words b
        → IsBefore (variables at opening.now.state) b 8
        (variables at result.0) (window at result.1) }
{
    let shares = opening.shares;
    let v = with_word(opening.next, w.w5);
    let w16 = shared_word(shares.0, w.w9, w.w14);
    let v = round(v, CONSTANTS[6], w.w6);
    let w17 = shared_word(shares.1, w.w10, w.w15);
    let v = round(v, CONSTANTS[7], w.w7);
    let w18 = shared_word(shares.2, w.w11, w16);
    let w19 = shared_word(shares.3, w.w12, w17);
    (v, four_words(moved(w, (w16, w17, w18, w19))))
}

/// The hash value after a block, in each lane, from before round `16 * from` on. A caller that
/// knows some of the words does the rounds before that round itself, which saves operations.
///
/// `N` and `IS_OPENED` are the caller's own: the compiler inlines what is called at one place, and
/// this is too large for `inline(always)`.
pub(crate) fn compressed_from<W: Word, const N: usize, const IS_OPENED: bool>(
    state: &Variables<W>,
    v: &Variables<W>,
    w: &Window<W>,
    from: usize,
) -> Variables<W>
    requires { from ≤ 3 }
    ensures { (j : ℕ) → j < W.lanes → (b : List ℕ)
        → let at : W → ℕ = λ x. W.lane x j in
        IsBefore (variables at state.now) b (16 * from) (variables at v.now) (window at w.now)
        → variables at result ≡ compress (variables at state.now) b }
{
    let mut v = *v;
    let mut w = *w;
    'turns: for turn in from..3 {
        (v, w) = four_steps(v, w, 16 * turn);
        (v, w) = four_steps(v, w, 16 * turn + 4);
        (v, w) = four_steps(v, w, 16 * turn + 8);
        (v, w) = four_steps(v, w, 16 * turn + 12);
    }
    let v = four_rounds(v, (w.w0, w.w1, w.w2, w.w3), 48);
    let v = four_rounds(v, (w.w4, w.w5, w.w6, w.w7), 52);
    let v = four_rounds(v, (w.w8, w.w9, w.w10, w.w11), 56);
    let v = four_rounds(v, (w.w12, w.w13, w.w14, w.w15), 60);
    Variables {
        a: state.a.sum(v.a),
        b: state.b.sum(v.b),
        c: state.c.sum(v.c),
        d: state.d.sum(v.d),
        e: state.e.sum(v.e),
        f: state.f.sum(v.f),
        g: state.g.sum(v.g),
        h: state.h.sum(v.h),
    }
}

/// The hash value after a block of sixteen words, in each lane.
#[inline(never)]
pub(crate) fn compressed<W: Word>(state: Variables<W>, words: Window<W>) -> Variables<W>
    ensures { (j : ℕ) → j < W.lanes → (b : List ℕ)
        → window (λ x. W.lane x j) words ≡ block_words b
        → variables (λ x. W.lane x j) result ≡ compress (variables (λ x. W.lane x j) state) b }
{
    compressed_from::<W, 0, false>(&state, &state, &words, 0)
}

// The words of each block, side by side.
#[inline(always)]
pub(crate) fn window_of<W: Word, const N: usize>(blocks: &[[u8; 64]; N]) -> Window<W>
    requires count { N ≡ W.lanes }
    requires few { N ≤ 8 }
    ensures { (j : ℕ) → j < W.lanes
        → window (λ x. W.lane x j) result ≡ block_words (slice_index_or blocks.now j []) }
{
    Window {
        w0: W::of_blocks(blocks, 0),
        w1: W::of_blocks(blocks, 1),
        w2: W::of_blocks(blocks, 2),
        w3: W::of_blocks(blocks, 3),
        w4: W::of_blocks(blocks, 4),
        w5: W::of_blocks(blocks, 5),
        w6: W::of_blocks(blocks, 6),
        w7: W::of_blocks(blocks, 7),
        w8: W::of_blocks(blocks, 8),
        w9: W::of_blocks(blocks, 9),
        w10: W::of_blocks(blocks, 10),
        w11: W::of_blocks(blocks, 11),
        w12: W::of_blocks(blocks, 12),
        w13: W::of_blocks(blocks, 13),
        w14: W::of_blocks(blocks, 14),
        w15: W::of_blocks(blocks, 15),
    }
}

// The same eight words in each lane.
#[inline(always)]
pub(crate) fn spread<W: Word>(words: &[u32; 8]) -> Variables<W>
    ensures { (j : ℕ) → j < W.lanes → variables (λ x. W.lane x j) result ≡ words.now }
{
    Variables {
        a: W::splat(words[0]),
        b: W::splat(words[1]),
        c: W::splat(words[2]),
        d: W::splat(words[3]),
        e: W::splat(words[4]),
        f: W::splat(words[5]),
        g: W::splat(words[6]),
        h: W::splat(words[7]),
    }
}

// The eight words of lane `j`.
#[inline(always)]
pub(crate) fn row<W: Word>(v: Variables<W>, j: usize) -> [u32; 8]
    requires { j < W.lanes }
    ensures { result ≡ variables (λ x. W.lane x j) v }
{
    [
        v.a.lane_at(j),
        v.b.lane_at(j),
        v.c.lane_at(j),
        v.d.lane_at(j),
        v.e.lane_at(j),
        v.f.lane_at(j),
        v.g.lane_at(j),
        v.h.lane_at(j),
    ]
}

/// The eight words after each of the blocks, which all go on from the same words.
#[inline(always)]
pub(crate) fn compress_each<W: Word, const N: usize>(
    state: &[u32; 8],
    blocks: &[[u8; 64]; N],
) -> [[u32; 8]; N]
    requires count { N ≡ W.lanes }
    requires few { N ≤ 8 }
    ensures { result ≡ map (compress state.now) blocks.now }
{
    let end = compressed::<W>(spread(state), window_of(blocks));
    let mut rows = [[0u32; 8]; N];
    'rows: for j in 0..N {
        rows[j] = row(end, j);
    }
    rows
}
