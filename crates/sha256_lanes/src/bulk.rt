//! Long messages, eight blocks at a time: the schedules of eight blocks are words side by side, and
//! while the rounds of eight blocks go on one after the other, those of the next eight are made.

ghost use Rattle.std.specs.Prelude.{◌≡◌, ℕ, ◌+◌, ◌*◌, ◌%◌, ◌^◌, ◌<◌, ◌≤◌, List};
ghost use Rattle.std.specs.Prelude.{length, slice_index};
ghost use Rattle.sha256_lanes.specs.Batches.{IsFilled, batch_at, block_in};
ghost use Rattle.sha256_lanes.specs.Eight.{word_in};
ghost use Rattle.sha256_lanes.specs.Lanes.{variables};
ghost use Rattle.sha256_lanes.specs.Rounds.{rounds_until};
ghost use Rattle.sha256_lanes.specs.Sha256.{block_word, choose, compress, fold_blocks, majority};
ghost use Rattle.sha256_lanes.specs.Sha256.{round, schedule, sum32, upper_sigma0, upper_sigma1};

use crate::compression::{CONSTANTS, Variables, later_word};
use crate::word::Word;
use std::simd::u32x8;

/// How many bytes eight blocks have.
pub(crate) const BATCH_BYTES: usize = 512;

/// The words of the schedules of eight blocks, and the same with their rounds' constants added.
#[derive(Drop)]
struct Schedules {
    words: [[u32; 8]; 64],
    keyed: [[u32; 8]; 64],
}

#[inline(always)]
fn choose(x: u32, y: u32, z: u32) -> u32
    ensures { result ≡ choose x y z }
{
    (x & y) ^ (!x & z)
}

// A round's `x ^ y` is the `y ^ z` of the round after it, so the compiler computes it once.
#[inline(always)]
fn majority(x: u32, y: u32, z: u32) -> u32
    ensures { result ≡ majority x y z }
{
    y ^ ((x ^ y) & (y ^ z))
}

#[inline(always)]
fn upper_sigma0(x: u32) -> u32
    ensures { result ≡ upper_sigma0 x }
{
    (x ^ x.rotate_right(11)).rotate_right(2) ^ x.rotate_right(22)
}

#[inline(always)]
fn upper_sigma1(x: u32) -> u32
    ensures { result ≡ upper_sigma1 x }
{
    x.rotate_right(6) ^ x.rotate_right(11) ^ x.rotate_right(25)
}

// A round, with a word to which its constant was added before.
#[inline(always)]
pub(crate) fn keyed_round(v: Variables<u32>, keyed: u32) -> Variables<u32>
    ensures { (k w : ℕ) → keyed % 2 ^ 32 ≡ sum32 w k
        → variables (λ x. x) result ≡ round (variables (λ x. x) v) k w }
{
    let temporary1 = v
        .h
        .wrapping_add(keyed)
        .wrapping_add(choose(v.e, v.f, v.g))
        .wrapping_add(upper_sigma1(v.e));
    let temporary2 = upper_sigma0(v.a).wrapping_add(majority(v.a, v.b, v.c));
    Variables {
        a: temporary1.wrapping_add(temporary2),
        b: v.a,
        c: v.b,
        d: v.c,
        e: v.d.wrapping_add(temporary1),
        f: v.e,
        g: v.f,
        h: v.g,
    }
}

// Eight rounds of block `j` of eight, from round `t` on.
#[inline(always)]
fn eight_rounds(v: Variables<u32>, now: &Schedules, t: usize, j: usize) -> Variables<u32>
    requires rounds { t + 8 ≤ 64 }
    requires block { j < 8 }
    ensures { (h p : List ℕ) → IsFilled now.now p 64
        → variables (λ x. x) v ≡ rounds_until h (block_in p j) t
        → variables (λ x. x) result ≡ rounds_until h (block_in p j) (t + 8) }
{
    let v = keyed_round(v, now.keyed[t][j]);
    let v = keyed_round(v, now.keyed[t + 1][j]);
    let v = keyed_round(v, now.keyed[t + 2][j]);
    let v = keyed_round(v, now.keyed[t + 3][j]);
    let v = keyed_round(v, now.keyed[t + 4][j]);
    let v = keyed_round(v, now.keyed[t + 5][j]);
    let v = keyed_round(v, now.keyed[t + 6][j]);
    keyed_round(v, now.keyed[t + 7][j])
}

// The word whose four bytes stand from place `i` on, the highest first.
#[inline(always)]
fn word_at(blocks: &[u8; BATCH_BYTES], i: usize) -> u32
    requires { i + 4 ≤ 512 }
    ensures { result ≡ block_word blocks.now i }
{
    u32::from_be_bytes([blocks[i], blocks[i + 1], blocks[i + 2], blocks[i + 3]])
}

// Puts word `t` of each schedule in its place.
#[inline(always)]
fn put(next: &mut Schedules, t: usize, word: u32x8)
    requires { t < 64 }
    ensures { (p : List ℕ) → IsFilled next.old p t
        → ((j : ℕ) → j < 8 → word_in word j ≡ slice_index (schedule (block_in p j) 64) t)
        → IsFilled next.new p (t + 1) }
{
    next.words[t] = word.to_array();
    next.keyed[t] = word.sum(u32x8::splat(CONSTANTS[t])).to_array();
}

// Word `t` of each block.
#[inline(always)]
fn put_first(next: &mut Schedules, blocks: &[u8; BATCH_BYTES], t: usize)
    requires { t < 16 }
    ensures { IsFilled next.old blocks.now t → IsFilled next.new blocks.now (t + 1) }
{
    let word = u32x8::from_array([
        word_at(blocks, 4 * t),
        word_at(blocks, 4 * t + 64),
        word_at(blocks, 4 * t + 128),
        word_at(blocks, 4 * t + 192),
        word_at(blocks, 4 * t + 256),
        word_at(blocks, 4 * t + 320),
        word_at(blocks, 4 * t + 384),
        word_at(blocks, 4 * t + 448),
    ]);
    put(next, t, word);
}

// Word `t` of each schedule, from those 16, 15, 7 and 2 places before it.
#[inline(always)]
fn put_later(next: &mut Schedules, t: usize)
    requires low { 16 ≤ t }
    requires high { t < 64 }
    ensures { (p : List ℕ) → IsFilled next.old p t → IsFilled next.new p (t + 1) }
{
    let w0 = u32x8::from_array(next.words[t - 16]);
    let w1 = u32x8::from_array(next.words[t - 15]);
    let w9 = u32x8::from_array(next.words[t - 7]);
    let w14 = u32x8::from_array(next.words[t - 2]);
    put(next, t, later_word(w0, w1, w9, w14));
}

// A hash value and the working variables after all rounds.
#[inline(always)]
pub(crate) fn sums(s: Variables<u32>, v: Variables<u32>) -> Variables<u32>
    ensures { (b : List ℕ) → variables (λ x. x) v ≡ rounds_until (variables (λ x. x) s) b 64
        → variables (λ x. x) result ≡ compress (variables (λ x. x) s) b }
{
    Variables {
        a: s.a.wrapping_add(v.a),
        b: s.b.wrapping_add(v.b),
        c: s.c.wrapping_add(v.c),
        d: s.d.wrapping_add(v.d),
        e: s.e.wrapping_add(v.e),
        f: s.f.wrapping_add(v.f),
        g: s.g.wrapping_add(v.g),
        h: s.h.wrapping_add(v.h),
    }
}

// The hash value after block `j` of those whose schedules are there, one of the first two; of the
// next blocks eight words are put.
#[inline(always)]
fn first_turn(
    s: Variables<u32>,
    now: &Schedules,
    next: &mut Schedules,
    blocks: &[u8; BATCH_BYTES],
    j: usize,
) -> Variables<u32>
    requires { j < 2 }
    ensures value { (p : List ℕ) → IsFilled now.now p 64
        → variables (λ x. x) result ≡ compress (variables (λ x. x) s) (block_in p j) }
    ensures next { IsFilled next.old blocks.now (8 * j)
        → IsFilled next.new blocks.now (8 * j + 8) }
{
    let mut v = s;
    'groups: for k in 0..8 {
        put_first(next, blocks, 8 * j + k);
        v = eight_rounds(v, now, 8 * k, j);
    }
    sums(s, v)
}

// The same of one of the other six.
#[inline(always)]
fn later_turn(s: Variables<u32>, now: &Schedules, next: &mut Schedules, j: usize) -> Variables<u32>
    requires low { 2 ≤ j }
    requires high { j < 8 }
    ensures value { (p : List ℕ) → IsFilled now.now p 64
        → variables (λ x. x) result ≡ compress (variables (λ x. x) s) (block_in p j) }
    ensures next { (q : List ℕ) → IsFilled next.old q (8 * j)
        → IsFilled next.new q (8 * j + 8) }
{
    let mut v = s;
    'groups: for k in 0..8 {
        put_later(next, 8 * j + k);
        v = eight_rounds(v, now, 8 * k, j);
    }
    sums(s, v)
}

// The hash value after block `j` alone.
#[inline(always)]
fn lone_turn(s: Variables<u32>, now: &Schedules, j: usize) -> Variables<u32>
    requires { j < 8 }
    ensures { (p : List ℕ) → IsFilled now.now p 64
        → variables (λ x. x) result ≡ compress (variables (λ x. x) s) (block_in p j) }
{
    let mut v = s;
    'groups: for k in 0..8 {
        v = eight_rounds(v, now, 8 * k, j);
    }
    sums(s, v)
}

// The words of a hash value by their names.
#[inline(always)]
pub(crate) fn named(words: &[u32; 8]) -> Variables<u32>
    ensures { variables (λ x. x) result ≡ words.now }
{
    Variables {
        a: words[0],
        b: words[1],
        c: words[2],
        d: words[3],
        e: words[4],
        f: words[5],
        g: words[6],
        h: words[7],
    }
}

// Takes the eight blocks whose schedules are there into the state, and makes the schedules of the
// next eight blocks.
#[inline(never)]
fn turn(state: &mut [u32; 8], now: &Schedules, next: &mut Schedules, blocks: &[u8; BATCH_BYTES])
    ensures state { (p : List ℕ) → IsFilled now.now p 64
        → state.new ≡ fold_blocks state.old p 8 }
    ensures next { IsFilled next.new blocks.now 64 }
{
    let s = first_turn(named(state), now, next, blocks, 0);
    let mut s = first_turn(s, now, next, blocks, 1);
    'later_blocks: for j in 2..8 {
        s = later_turn(s, now, next, j);
    }
    *state = [s.a, s.b, s.c, s.d, s.e, s.f, s.g, s.h];
}

// Takes the eight blocks whose schedules are there into the state.
#[inline(never)]
fn last_turn(state: &mut [u32; 8], now: &Schedules)
    ensures { (p : List ℕ) → IsFilled now.now p 64 → state.new ≡ fold_blocks state.old p 8 }
{
    let mut s = named(state);
    'last_blocks: for j in 0..8 {
        s = lone_turn(s, now, j);
    }
    *state = [s.a, s.b, s.c, s.d, s.e, s.f, s.g, s.h];
}

// The words of the blocks themselves.
fn expand_first(next: &mut Schedules, blocks: &[u8; BATCH_BYTES])
    ensures { IsFilled next.new blocks.now 16 }
{
    'firsts: for t in 0..16 {
        put_first(next, blocks, t);
    }
}

// The words after them.
fn expand_later(next: &mut Schedules)
    ensures { (p : List ℕ) → IsFilled next.old p 16 → IsFilled next.new p 64 }
{
    'laters: for t in 16..64 {
        put_later(next, t);
    }
}

// The schedules of eight blocks.
fn expand(next: &mut Schedules, blocks: &[u8; BATCH_BYTES])
    ensures { IsFilled next.new blocks.now 64 }
{
    expand_first(next, blocks);
    expand_later(next);
}

// No words yet.
#[inline(always)]
fn empty() -> Schedules {
    Schedules {
        words: [[0; 8]; 64],
        keyed: [[0; 8]; 64],
    }
}

// Eight blocks, from block `8 * i` on.
fn batch_at(blocks: &[u8], i: usize) -> [u8; BATCH_BYTES]
    requires { 512 * i + 512 ≤ length blocks.now }
    ensures { result ≡ batch_at blocks.now i }
{
    let mut batch = [0u8; BATCH_BYTES];
    batch.copy_from_slice(&blocks[BATCH_BYTES * i..BATCH_BYTES * i + BATCH_BYTES]);
    batch
}

/// Takes so many times eight blocks into the state, one after the other.
pub(crate) fn absorb_batches(state: &mut [u32; 8], blocks: &[u8], count: usize)
    requires some { 1 ≤ count }
    requires inside { 512 * count ≤ length blocks.now }
    ensures { state.new ≡ fold_blocks state.old blocks.now (8 * count) }
{
    let mut even = empty();
    let mut odd = empty();
    expand(&mut even, &batch_at(blocks, 0));
    'batches: for i in 1..count {
        let following = batch_at(blocks, i);
        if i % 2 == 1 {
            turn(state, &even, &mut odd, &following);
        } else {
            turn(state, &odd, &mut even, &following);
        }
    }
    if count % 2 == 1 {
        last_turn(state, &even);
    } else {
        last_turn(state, &odd);
    }
}
