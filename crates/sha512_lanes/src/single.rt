//! A block alone: its schedule is made four words at a time, side by side, with the rounds'
//! constants added there, and the rounds go word by word.

ghost use Rattle.std.specs.Prelude.{◌≡◌, ℕ, ◌+◌, ◌*◌, ◌<◌, ◌≤◌, List, slice_index};
ghost use Rattle.sha2.specs.Sha512.{compress, rounds, schedule, word_at};
ghost use Rattle.sha512_lanes.specs.Batches.{word_in};
ghost use Rattle.sha512_lanes.specs.Lanes.{variables};
ghost use Rattle.sha512_lanes.specs.Single.{fours};
ghost use Rattle.sha512_lanes.specs.Steps.{IsBefore, block_words, words_from};

use crate::bulk::{keyed_round, named, sums};
use crate::compression::{CONSTANTS, Variables, lower_sigma0, lower_sigma1};
use crate::word::{Word, block_word};
use std::simd::u64x4;

/// Sixteen words of the schedule, one after the other, four in each vector.
#[derive(Clone, Copy, Drop)]
struct Fours {
    first: u64x4,
    second: u64x4,
    third: u64x4,
    fourth: u64x4,
}

// The words one place on: the first of the next four comes in.
#[inline(always)]
fn one_on(words: u64x4, next: u64x4) -> u64x4
    ensures { (word_in result 0 ≡ word_in words 1)
        × (word_in result 1 ≡ word_in words 2)
        × (word_in result 2 ≡ word_in words 3)
        × (word_in result 3 ≡ word_in next 0) }
{
    words.shuffle(next, [1, 2, 3, 4])
}

// The last two words, and zeros after them.
#[inline(always)]
fn last_two(words: u64x4) -> u64x4
    ensures { (word_in result 0 ≡ word_in words 2)
        × (word_in result 1 ≡ word_in words 3)
        × (word_in result 2 ≡ 0)
        × (word_in result 3 ≡ 0) }
{
    words.shuffle(u64x4::splat(0), [2, 3, 4, 5])
}

// The first two words, and zeros before them.
#[inline(always)]
fn first_two(words: u64x4) -> u64x4
    ensures { (word_in result 0 ≡ 0)
        × (word_in result 1 ≡ 0)
        × (word_in result 2 ≡ word_in words 0)
        × (word_in result 3 ≡ word_in words 1) }
{
    u64x4::splat(0).shuffle(words, [0, 1, 4, 5])
}

// The window four words on. Of the four, the last two follow from the first two.
#[inline(always)]
fn four_on(w: Fours) -> Fours
    ensures { (b : List ℕ) (t : ℕ) → fours w ≡ words_from b t → t + 4 ≤ 64
        → fours result ≡ words_from b (t + 4) }
{
    let shares = w.first.sum(lower_sigma0(one_on(w.first, w.second)));
    let begun = shares.sum(one_on(w.third, w.fourth));
    let half = begun.sum(lower_sigma1(last_two(w.fourth)));
    Fours {
        first: w.second,
        second: w.third,
        third: w.fourth,
        fourth: half.sum(lower_sigma1(first_two(half))),
    }
}

// Four rounds from round `t` on.
#[inline(always)]
fn four_rounds(v: Variables<u64>, words: u64x4, t: usize) -> Variables<u64>
    requires { t + 4 ≤ 80 }
    ensures { (h b : List ℕ) → variables (λ x. x) v ≡ rounds h (schedule b 64) t
        → (word_in words 0 ≡ slice_index (schedule b 64) t)
        × (word_in words 1 ≡ slice_index (schedule b 64) (t + 1))
        × (word_in words 2 ≡ slice_index (schedule b 64) (t + 2))
        × (word_in words 3 ≡ slice_index (schedule b 64) (t + 3))
        → variables (λ x. x) result ≡ rounds h (schedule b 64) (t + 4) }
{
    let constants = u64x4::from_array([
        CONSTANTS[t],
        CONSTANTS[t + 1],
        CONSTANTS[t + 2],
        CONSTANTS[t + 3],
    ]);
    let keyed = words.sum(constants).to_array();
    let v = keyed_round(v, keyed[0]);
    let v = keyed_round(v, keyed[1]);
    let v = keyed_round(v, keyed[2]);
    keyed_round(v, keyed[3])
}

// Four rounds from round `t` on, and the window four words on.
#[inline(always)]
fn four_steps(v: Variables<u64>, w: Fours, t: usize) -> (Variables<u64>, Fours)
    requires { t + 4 ≤ 64 }
    ensures { (h b : List ℕ) → IsBefore h b t (variables (λ x. x) v) (fours w)
        → IsBefore h b (t + 4) (variables (λ x. x) result.0) (fours result.1) }
{
    (four_rounds(v, w.first, t), four_on(w))
}

// Four words of a block, from place `i` on.
#[inline(always)]
fn words_of(block: &[u8; 128], i: usize) -> u64x4
    requires { i + 32 ≤ 128 }
    ensures { (word_in result 0 ≡ word_at block.now i)
        × (word_in result 1 ≡ word_at block.now (i + 8))
        × (word_in result 2 ≡ word_at block.now (i + 16))
        × (word_in result 3 ≡ word_at block.now (i + 24)) }
{
    u64x4::from_array([
        block_word(block, i),
        block_word(block, i + 8),
        block_word(block, i + 16),
        block_word(block, i + 24),
    ])
}

// The words of a block.
#[inline(always)]
fn window_of(block: &[u8; 128]) -> Fours
    ensures { fours result ≡ block_words block.now }
{
    Fours {
        first: words_of(block, 0),
        second: words_of(block, 32),
        third: words_of(block, 64),
        fourth: words_of(block, 96),
    }
}

// The working variables after all rounds.
#[inline(always)]
fn all_rounds(v: Variables<u64>, w: Fours) -> Variables<u64>
    ensures { (b : List ℕ) → fours w ≡ block_words b
        → variables (λ x. x) result ≡ rounds (variables (λ x. x) v) (schedule b 64) 80 }
{
    let mut u = v;
    let mut w = w;
    'turns: for turn in 0..4 {
        (u, w) = four_steps(u, w, 16 * turn);
        (u, w) = four_steps(u, w, 16 * turn + 4);
        (u, w) = four_steps(u, w, 16 * turn + 8);
        (u, w) = four_steps(u, w, 16 * turn + 12);
    }
    let u = four_rounds(u, w.first, 64);
    let u = four_rounds(u, w.second, 68);
    let u = four_rounds(u, w.third, 72);
    four_rounds(u, w.fourth, 76)
}

/// The eight words after a block.
#[inline(never)]
pub(crate) fn compress_one(state: &[u64; 8], block: &[u8; 128]) -> [u64; 8]
    ensures { result ≡ compress state.now block.now }
{
    let before = named(state);
    let after = sums(before, all_rounds(before, window_of(block)));
    [
        after.a, after.b, after.c, after.d, after.e, after.f, after.g, after.h,
    ]
}
