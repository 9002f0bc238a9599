//! Steps of eight chains of hashes side by side: from step to step only a number and the values
//! change, and what comes before them is taken once.

ghost use Rattle.std.specs.Prelude.{◌≡◌, ℕ, ◌^◌, ◌<◌, ◌≤◌, ◌⊎◌, List, ◌++◌, take};
ghost use Rattle.std.specs.Int.{to_be_bytes, w32};
ghost use Rattle.sha256_lanes.specs.Begun.{HasBegun};
ghost use Rattle.sha256_lanes.specs.Eight.{head_bytes, lane_bytes};
ghost use Rattle.sha256_lanes.specs.Midstate.{BeginsWith};
ghost use Rattle.sha256_lanes.specs.Sha256.{sha256};

use crate::compression::{compressed_from, eight_steps, four_steps, opened, spread};
use crate::eight::{Begun, last_window};
use crate::hashing::Midstate;
use crate::lanes::{Eight, Heads};
use std::simd::u32x8;

impl Midstate {
    /// Begins hashes of the first block and then of heads but for their last fields, of 4 bytes.
    /// Worth it where several hashes go on from there.
    pub fn begin(&self, heads: &Heads) -> Begun
        ensures { (m : List ℕ) (j : ℕ) → BeginsWith self.now m → j < 8
            → HasBegun result j m (take 18 (head_bytes heads.now j)) }
    {
        let heads = heads.ended(&[0; 8]);
        let words = (heads.w0, heads.w1, heads.w2, heads.w3, heads.w4);
        Begun {
            midstate: Midstate { words: self.words },
            heads,
            opening: opened(spread(&self.words), words),
        }
    }
}

// The digests of messages of one block, of what was begun, and of a number and N bytes of a value.
#[inline(never)]
fn step_digests<const N: usize>(begun: &Begun, number: u32, values: &Eight) -> Eight
    requires width { (N ≡ 16) ⊎ (N ≡ 24) ⊎ (N ≡ 32) }
    requires low { number < 2 ^ 16 }
    ensures { (m front : List ℕ) (j : ℕ) → HasBegun begun.now j m front → j < 8
        → lane_bytes result j ≡ sha256
        (m ++ ((front ++ to_be_bytes w32 number) ++ take N (lane_bytes values.now j))) }
{
    let opening = &begun.opening;
    let words = last_window::<N>(&begun.heads.stepped(number), values);
    let (v, w) = eight_steps(opening, words);
    let (v, w) = four_steps(v, w, 8);
    let (v, w) = four_steps(v, w, 12);
    Eight {
        words: compressed_from::<u32x8, N, true>(&opening.state, &v, &w, 1),
    }
}

impl Begun {
    /// The digests of what was begun, of a number as the last field of each head, and of the first
    /// `n` bytes of a value, lane by lane. Values of 16, 24 and 32 bytes stay words on the way.
    #[inline]
    pub fn finalize_words(&self, number: u32, values: &Eight, n: usize) -> Eight
        requires low { number < 2 ^ 16 }
        requires small { n ≤ 32 }
        ensures { (m front : List ℕ) (j : ℕ) → HasBegun self.now j m front → j < 8
            → lane_bytes result j ≡ sha256
            (m ++ ((front ++ to_be_bytes w32 number) ++ take n (lane_bytes values.now j))) }
    {
        match n {
            16 => step_digests::<16>(self, number, values),
            24 => step_digests::<24>(self, number, values),
            32 => step_digests::<32>(self, number, values),
            _ => self
                .midstate
                .finalize_words(&self.heads.stepped(number), values, n),
        }
    }
}
