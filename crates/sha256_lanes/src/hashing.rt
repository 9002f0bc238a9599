//! Hashes of messages that begin with the same block of 64 bytes.

ghost use Rattle.std.specs.Prelude.{◌≡◌, ℕ, ◌+◌, ◌<◌, ◌≤◌, List, [], ◌++◌};
ghost use Rattle.std.specs.Prelude.{length, map, slice_index_or, take};
ghost use Rattle.sha256_lanes.specs.Midstate.{BeginsWith};
ghost use Rattle.sha256_lanes.specs.Sha256.{padding, sha256, word_bytes};

use crate::blocks::{BLOCK_BYTES, INITIAL_WORDS, MAX_TAIL, last_block, word_bytes};
use crate::compression::compress_each;
use crate::single::compress_one;
use crate::word::Word;
use std::simd::{u32x4, u32x8};

// The last blocks of messages of one length, whose last bytes are the first `len` of these.
#[inline(always)]
fn last_blocks<const N: usize>(tails: &[[u8; BLOCK_BYTES]; N], len: usize) -> [[u8; BLOCK_BYTES]; N]
    requires { len ≤ MAX_TAIL }
    ensures last { (j : ℕ) → j < N → slice_index_or result j []
        ≡ take len (slice_index_or tails.now j []) ++ padding (64 + len) }
    ensures len { (j : ℕ) → j < N → length (take len (slice_index_or tails.now j [])) ≡ len }
{
    let mut blocks = [[0u8; BLOCK_BYTES]; N];
    'each_tail: for j in 0..N {
        blocks[j] = last_block(&tails[j][..len], (BLOCK_BYTES + len) as u64);
    }
    blocks
}

// The digests that end with these words.
#[inline(always)]
pub(crate) fn digests_of<const N: usize>(words: &[[u32; 8]; N]) -> [[u8; 32]; N]
    ensures { result ≡ map word_bytes words.now }
{
    let mut digests = [[0u8; 32]; N];
    'each_digest: for j in 0..N {
        digests[j] = word_bytes(&words[j]);
    }
    digests
}

/// SHA-256 as it stands after the first block of a message.
#[derive(Drop)]
pub struct Midstate {
    pub(crate) words: [u32; 8],
}

impl Midstate {
    /// SHA-256 after a message's first block.
    #[tactic(auto, unfolding(crate::specs::Midstate::BeginsWith))]
    pub fn new(block: &[u8; BLOCK_BYTES]) -> Midstate
        ensures { BeginsWith result block.now }
    {
        Midstate {
            words: compress_one(&INITIAL_WORDS, block),
        }
    }

    // As many messages as a word has lanes, side by side.
    #[inline(always)]
    fn finalize_each<W: Word, const N: usize>(
        &self,
        tails: &[[u8; BLOCK_BYTES]; N],
        len: usize,
    ) -> [[u8; 32]; N]
        requires count { N ≡ W.lanes }
        requires few { N ≤ 8 }
        requires short { len ≤ MAX_TAIL }
        ensures { (m : List ℕ) → BeginsWith self.now m
            → result ≡ map (λ tail. sha256 (m ++ take len tail)) tails.now }
    {
        let blocks = last_blocks(tails, len);
        digests_of(&compress_each::<W, N>(&self.words, &blocks))
    }

    /// The digest of the first block and then a tail, which is the first `len` bytes of this block.
    #[inline(always)]
    pub fn finalize_one(&self, tails: &[[u8; BLOCK_BYTES]; 1], len: usize) -> [[u8; 32]; 1]
        requires { len ≤ MAX_TAIL }
        ensures { (m : List ℕ) → BeginsWith self.now m
            → result ≡ map (λ tail. sha256 (m ++ take len tail)) tails.now }
    {
        let [block] = last_blocks(tails, len);
        [word_bytes(&compress_one(&self.words, &block))]
    }

    /// The digests of the first block and then each of four tails, which are the first `len` bytes
    /// of these blocks. The four are taken side by side, in less than half the time of single ones.
    #[inline(always)]
    pub fn finalize_four(&self, tails: &[[u8; BLOCK_BYTES]; 4], len: usize) -> [[u8; 32]; 4]
        requires { len ≤ MAX_TAIL }
        ensures { (m : List ℕ) → BeginsWith self.now m
            → result ≡ map (λ tail. sha256 (m ++ take len tail)) tails.now }
    {
        self.finalize_each::<u32x4, 4>(tails, len)
    }

    /// As `finalize_four`, of eight tails: worth it where the processor has vectors of eight words
    /// (x86-64-v3), and slower than two groups of four where it has not.
    #[inline(always)]
    pub fn finalize_eight(&self, tails: &[[u8; BLOCK_BYTES]; 8], len: usize) -> [[u8; 32]; 8]
        requires { len ≤ MAX_TAIL }
        ensures { (m : List ℕ) → BeginsWith self.now m
            → result ≡ map (λ tail. sha256 (m ++ take len tail)) tails.now }
    {
        self.finalize_each::<u32x8, 8>(tails, len)
    }
}
