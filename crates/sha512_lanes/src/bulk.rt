//! Long messages, four blocks at a time: the schedules of four blocks are words side by side, and
//! while the rounds of four blocks go on one after the other, those of the next four are made.

ghost use Rattle.std.specs.Prelude.{◌≡◌, ℕ, ◌+◌, ◌*◌, ◌%◌, ◌^◌, ◌<◌, ◌≤◌, List};
ghost use Rattle.std.specs.Prelude.{length, slice_index};
ghost use Rattle.sha2.specs.Sha512.{add64, big_sigma0, big_sigma1, ch, compress, hash_after, maj};
ghost use Rattle.sha2.specs.Sha512.{round, rounds, schedule, word_at};
ghost use Rattle.sha512_lanes.specs.Batches.{IsFilled, batch_at, block_in, word_in};
ghost use Rattle.sha512_lanes.specs.Lanes.{variables};

use crate::compression::{CONSTANTS, Variables, later_word};
use crate::word::Word;
use std::simd::u64x4;

/// How many bytes four blocks have.
pub(crate) const BATCH_BYTES: usize = 512;

/// The words of the schedules of four blocks, and the same with their rounds' constants added.
#[derive(Drop)]
struct Schedules {
    words: [[u64; 4]; 80],
    keyed: [[u64; 4]; 80],
}

#[inline(always)]
fn choose(x: u64, y: u64, z: u64) -> u64
    ensures { result ≡ ch x y z }
{
    (x & y) ^ (!x & z)
}

// A round's `x ^ y` is the `y ^ z` of the round after it, so the compiler computes it once.
#[inline(always)]
fn majority(x: u64, y: u64, z: u64) -> u64
    ensures { result ≡ maj x y z }
{
    y ^ ((x ^ y) & (y ^ z))
}

#[inline(always)]
fn upper_sigma0(x: u64) -> u64
    ensures { result ≡ big_sigma0 x }
{
    (x ^ x.rotate_right(6)).rotate_right(28) ^ x.rotate_right(39)
}

#[inline(always)]
fn upper_sigma1(x: u64) -> u64
    ensures { result ≡ big_sigma1 x }
{
    x.rotate_right(14) ^ x.rotate_right(18) ^ x.rotate_right(41)
}

// A round, with a word to which its constant was added before.
#[inline(always)]
pub(crate) fn keyed_round(v: Variables<u64>, keyed: u64) -> Variables<u64>
    ensures { (k w : ℕ) → keyed % 2 ^ 64 ≡ add64 w k
        → variables (λ x. x) result ≡ round (variables (λ x. x) v) k w }
{
    let temporary1 = v
        .h
        .wrapping_add(keyed)
        .wrapping_add(choose(v.e, v.f, v.g))
        .wrapping_add(upper_sigma1(v.e));
    let temporary2 = upper_sigma0(v.a).wrapping_add(majority(v.a, v.b, v.c));
    Variables {
        a: temporary1.wrapping_add(temporary2),
        b: v.a,
        c: v.b,
        d: v.c,
        e: v.d.wrapping_add(temporary1),
        f: v.e,
        g: v.f,
        h: v.g,
    }
}

// Eight rounds of block `j` of four, from round `t` on.
#[inline(always)]
fn eight_rounds(v: Variables<u64>, now: &Schedules, t: usize, j: usize) -> Variables<u64>
    requires rounds { t + 8 ≤ 80 }
    requires block { j < 4 }
    ensures { (h p : List ℕ) → IsFilled now.now p 80
        → variables (λ x. x) v ≡ rounds h (schedule (block_in p j) 64) t
        → variables (λ x. x) result ≡ rounds h (schedule (block_in p j) 64) (t + 8) }
{
    let v = keyed_round(v, now.keyed[t][j]);
    let v = keyed_round(v, now.keyed[t + 1][j]);
    let v = keyed_round(v, now.keyed[t + 2][j]);
    let v = keyed_round(v, now.keyed[t + 3][j]);
    let v = keyed_round(v, now.keyed[t + 4][j]);
    let v = keyed_round(v, now.keyed[t + 5][j]);
    let v = keyed_round(v, now.keyed[t + 6][j]);
    keyed_round(v, now.keyed[t + 7][j])
}

// The word whose eight bytes stand from place `i` on, the highest first.
#[inline(always)]
fn batch_word(blocks: &[u8; BATCH_BYTES], i: usize) -> u64
    requires { i + 8 ≤ 512 }
    ensures { result ≡ word_at blocks.now i }
{
    u64::from_be_bytes([
        blocks[i],
        blocks[i + 1],
        blocks[i + 2],
        blocks[i + 3],
        blocks[i + 4],
        blocks[i + 5],
        blocks[i + 6],
        blocks[i + 7],
    ])
}

// Puts word `t` of each schedule in its place.
#[inline(always)]
fn put(next: &mut Schedules, t: usize, word: u64x4)
    requires { t < 80 }
    ensures { (p : List ℕ) → IsFilled next.old p t
        → ((j : ℕ) → j < 4 → word_in word j ≡ slice_index (schedule (block_in p j) 64) t)
        → IsFilled next.new p (t + 1) }
{
    next.words[t] = word.to_array();
    next.keyed[t] = word.sum(u64x4::splat(CONSTANTS[t])).to_array();
}

// Word `t` of each block.
#[inline(always)]
fn put_first(next: &mut Schedules, blocks: &[u8; BATCH_BYTES], t: usize)
    requires { t < 16 }
    ensures { IsFilled next.old blocks.now t → IsFilled next.new blocks.now (t + 1) }
{
    let word = u64x4::from_array([
        batch_word(blocks, 8 * t),
        batch_word(blocks, 8 * t + 128),
        batch_word(blocks, 8 * t + 256),
        batch_word(blocks, 8 * t + 384),
    ]);
    put(next, t, word);
}

// Word `t` of each schedule, from those 16, 15, 7 and 2 places before it.
#[inline(always)]
fn put_later(next: &mut Schedules, t: usize)
    requires low { 16 ≤ t }
    requires high { t < 80 }
    ensures { (p : List ℕ) → IsFilled next.old p t → IsFilled next.new p (t + 1) }
{
    let w0 = u64x4::from_array(next.words[t - 16]);
    let w1 = u64x4::from_array(next.words[t - 15]);
    let w9 = u64x4::from_array(next.words[t - 7]);
    let w14 = u64x4::from_array(next.words[t - 2]);
    put(next, t, later_word(w0, w1, w9, w14));
}

// A hash value and the working variables after all rounds.
#[inline(always)]
pub(crate) fn sums(s: Variables<u64>, v: Variables<u64>) -> Variables<u64>
    ensures { (b : List ℕ) → let h = variables (λ x. x) s in
        variables (λ x. x) v ≡ rounds h (schedule b 64) 80
        → variables (λ x. x) result ≡ compress h b }
{
    Variables {
        a: s.a.wrapping_add(v.a),
        b: s.b.wrapping_add(v.b),
        c: s.c.wrapping_add(v.c),
        d: s.d.wrapping_add(v.d),
        e: s.e.wrapping_add(v.e),
        f: s.f.wrapping_add(v.f),
        g: s.g.wrapping_add(v.g),
        h: s.h.wrapping_add(v.h),
    }
}

// The first 64 rounds of the first block whose schedule is there; of the next blocks their own
// words are put.
#[inline(always)]
fn first_rounds(
    v: Variables<u64>,
    now: &Schedules,
    next: &mut Schedules,
    blocks: &[u8; BATCH_BYTES],
) -> Variables<u64>
    ensures value { (p : List ℕ) → IsFilled now.now p 80
        → variables (λ x. x) result
        ≡ rounds (variables (λ x. x) v) (schedule (block_in p 0) 64) 64 }
    ensures next { IsFilled next.new blocks.now 16 }
{
    let mut v = v;
    'groups: for k in 0..8 {
        put_first(next, blocks, 2 * k);
        put_first(next, blocks, 2 * k + 1);
        v = eight_rounds(v, now, 8 * k, 0);
    }
    v
}

// The rounds of block `j` from round `8 * from` on; of the next schedules two words are put in each
// eight rounds, so that each block leads to twenty.
#[inline(always)]
fn later_rounds(
    v: Variables<u64>,
    now: &Schedules,
    next: &mut Schedules,
    from: usize,
    j: usize,
) -> Variables<u64>
    requires block { j < 4 }
    requires low { 8 ≤ 10 * j + from }
    requires high { from ≤ 10 }
    ensures value { (h p : List ℕ) → IsFilled now.now p 80
        → variables (λ x. x) v ≡ rounds h (schedule (block_in p j) 64) (8 * from)
        → variables (λ x. x) result ≡ rounds h (schedule (block_in p j) 64) 80 }
    ensures next { (q : List ℕ) → IsFilled next.old q (20 * j + 2 * from)
        → IsFilled next.new q (20 * j + 20) }
{
    let mut v = v;
    'groups: for k in from..10 {
        put_later(next, 20 * j + 2 * k);
        put_later(next, 20 * j + 2 * k + 1);
        v = eight_rounds(v, now, 8 * k, j);
    }
    v
}

// The rounds of block `j` alone.
#[inline(always)]
fn all_rounds(v: Variables<u64>, now: &Schedules, j: usize) -> Variables<u64>
    requires { j < 4 }
    ensures { (p : List ℕ) → IsFilled now.now p 80
        → variables (λ x. x) result
        ≡ rounds (variables (λ x. x) v) (schedule (block_in p j) 64) 80 }
{
    let mut v = v;
    'groups: for k in 0..10 {
        v = eight_rounds(v, now, 8 * k, j);
    }
    v
}

// The words of a hash value by their names.
#[inline(always)]
pub(crate) fn named(words: &[u64; 8]) -> Variables<u64>
    ensures { variables (λ x. x) result ≡ words.now }
{
    Variables {
        a: words[0],
        b: words[1],
        c: words[2],
        d: words[3],
        e: words[4],
        f: words[5],
        g: words[6],
        h: words[7],
    }
}

// Takes the four blocks whose schedules are there into the state, and makes the schedules of the
// next four blocks.
#[inline(never)]
fn turn(state: &mut [u64; 8], now: &Schedules, next: &mut Schedules, blocks: &[u8; BATCH_BYTES])
    ensures state { (p : List ℕ) → IsFilled now.now p 80
        → state.new ≡ hash_after state.old p 4 }
    ensures next { IsFilled next.new blocks.now 80 }
{
    let s = named(state);
    let v = first_rounds(s, now, next, blocks);
    let mut s = sums(s, later_rounds(v, now, next, 8, 0));
    'later_blocks: for j in 1..4 {
        s = sums(s, later_rounds(s, now, next, 0, j));
    }
    *state = [s.a, s.b, s.c, s.d, s.e, s.f, s.g, s.h];
}

// Takes the four blocks whose schedules are there into the state.
#[inline(never)]
fn last_turn(state: &mut [u64; 8], now: &Schedules)
    ensures { (p : List ℕ) → IsFilled now.now p 80 → state.new ≡ hash_after state.old p 4 }
{
    let mut s = named(state);
    'last_blocks: for j in 0..4 {
        s = sums(s, all_rounds(s, now, j));
    }
    *state = [s.a, s.b, s.c, s.d, s.e, s.f, s.g, s.h];
}

// The words of the blocks themselves.
fn expand_first(next: &mut Schedules, blocks: &[u8; BATCH_BYTES])
    ensures { IsFilled next.new blocks.now 16 }
{
    'firsts: for t in 0..16 {
        put_first(next, blocks, t);
    }
}

// The words after them.
fn expand_later(next: &mut Schedules)
    ensures { (p : List ℕ) → IsFilled next.old p 16 → IsFilled next.new p 80 }
{
    'laters: for t in 16..80 {
        put_later(next, t);
    }
}

// The schedules of four blocks.
fn expand(next: &mut Schedules, blocks: &[u8; BATCH_BYTES])
    ensures { IsFilled next.new blocks.now 80 }
{
    expand_first(next, blocks);
    expand_later(next);
}

// No words yet.
#[inline(always)]
fn empty() -> Schedules {
    Schedules {
        words: [[0; 4]; 80],
        keyed: [[0; 4]; 80],
    }
}

// Four blocks, from block `4 * i` on.
fn batch_at(blocks: &[u8], i: usize) -> [u8; BATCH_BYTES]
    requires { 512 * i + 512 ≤ length blocks.now }
    ensures { result ≡ batch_at blocks.now i }
{
    let mut batch = [0u8; BATCH_BYTES];
    batch.copy_from_slice(&blocks[BATCH_BYTES * i..BATCH_BYTES * i + BATCH_BYTES]);
    batch
}

/// Takes so many times four blocks into the state, one after the other.
pub(crate) fn absorb_batches(state: &mut [u64; 8], blocks: &[u8], count: usize)
    requires some { 1 ≤ count }
    requires inside { 512 * count ≤ length blocks.now }
    ensures { state.new ≡ hash_after state.old blocks.now (4 * count) }
{
    let mut even = empty();
    let mut odd = empty();
    expand(&mut even, &batch_at(blocks, 0));
    'batches: for i in 1..count {
        let following = batch_at(blocks, i);
        if i % 2 == 1 {
            turn(state, &even, &mut odd, &following);
        } else {
            turn(state, &odd, &mut even, &following);
        }
    }
    if count % 2 == 1 {
        last_turn(state, &even);
    } else {
        last_turn(state, &odd);
    }
}
