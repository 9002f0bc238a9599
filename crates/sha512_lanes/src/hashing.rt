//! Hashes of messages that begin with the same block of 128 bytes.

ghost use Rattle.std.specs.Prelude.{◌≡◌, ℕ, ◌+◌, ◌-◌, ◌*◌, ◌%◌, ◌^◌, ◌<◌, ◌≤◌, List, [], ◌∷◌, ◌++◌};
ghost use Rattle.std.specs.Prelude.{length, map, replicate, slice_index_or, take};
ghost use Rattle.std.specs.Int.{to_be_bytes, w128};
ghost use Rattle.sha2.specs.Sha512.{digest_bytes, padding, sha512};
ghost use Rattle.sha512_lanes.specs.Midstate.{BeginsWith};

use crate::blocks::{BLOCK_BYTES, INITIAL_WORDS};
use crate::compression::compress_each;
use crate::single::compress_one;
use crate::word::Word;
use std::simd::u64x4;

/// The most bytes that end a message within one block: the padding takes a byte and the message's
/// length sixteen (FIPS 180-4, 5.1.2).
pub const MAX_TAIL: usize = 111;

// Begins a block of zeros with the last bytes of a message and the bit 1 after them.
#[inline(always)]
fn put_ended(block: &mut [u8; BLOCK_BYTES], rest: &[u8])
    requires { length rest.now < 128 }
    ensures { block.old ≡ replicate 128 0
        → block.new ≡ rest.now ++ 0x80 ∷ replicate (127 - length rest.now) 0 }
{
    block[..rest.len()].copy_from_slice(rest);
    block[rest.len()] = 0x80;
}

// Ends a block by the length of the message in bits.
#[inline(always)]
fn put_length(block: &mut [u8; BLOCK_BYTES], total: u64)
    ensures { block.new ≡ take 112 block.old ++ to_be_bytes w128 (total * 8) }
{
    block[112..].copy_from_slice(&(u128::from(total) * 8).to_be_bytes());
}

// The second and last block of a message, which the bytes begin.
#[inline(always)]
fn last_block(rest: &[u8]) -> [u8; BLOCK_BYTES]
    requires { length rest.now ≤ MAX_TAIL }
    ensures { result ≡ rest.now ++ padding (128 + length rest.now) }
{
    let mut block = [0u8; BLOCK_BYTES];
    put_ended(&mut block, rest);
    put_length(&mut block, (BLOCK_BYTES + rest.len()) as u64);
    block
}

// The last blocks of messages of one length, whose last bytes are the first `len` of these.
#[inline(always)]
fn last_blocks<const N: usize>(tails: &[[u8; BLOCK_BYTES]; N], len: usize) -> [[u8; BLOCK_BYTES]; N]
    requires { len ≤ MAX_TAIL }
    ensures last { (j : ℕ) → j < N → slice_index_or result j []
        ≡ take len (slice_index_or tails.now j []) ++ padding (128 + len) }
    ensures len { (j : ℕ) → j < N → length (take len (slice_index_or tails.now j [])) ≡ len }
{
    let mut blocks = [[0u8; BLOCK_BYTES]; N];
    'each_tail: for j in 0..N {
        blocks[j] = last_block(&tails[j][..len]);
    }
    blocks
}

#[inline(always)]
pub(crate) fn word_bytes(words: &[u64; 8]) -> [u8; 64]
    ensures { result ≡ digest_bytes words.now 8 }
{
    let mut bytes = [0u8; 64];
    'each_word: for i in 0..8 {
        bytes[8 * i..8 * i + 8].copy_from_slice(&words[i].to_be_bytes());
    }
    bytes
}

// The digests that end with these words.
#[inline(always)]
pub(crate) fn digests_of<const N: usize>(words: &[[u64; 8]; N]) -> [[u8; 64]; N]
    ensures { result ≡ map (λ w. digest_bytes w 8) words.now }
{
    let mut digests = [[0u8; 64]; N];
    'each_digest: for j in 0..N {
        digests[j] = word_bytes(&words[j]);
    }
    digests
}

/// SHA-512 as it stands after the first block of a message.
#[derive(Drop)]
pub struct Midstate {
    pub(crate) words: [u64; 8],
}

impl Midstate {
    /// SHA-512 after a message's first block.
    #[tactic(auto, unfolding(crate::specs::Midstate::BeginsWith))]
    pub fn new(block: &[u8; BLOCK_BYTES]) -> Midstate
        ensures { BeginsWith result block.now }
    {
        Midstate {
            words: compress_one(&INITIAL_WORDS, block),
        }
    }

    // As many messages as a word has lanes, side by side.
    #[inline(always)]
    fn finalize_each<W: Word, const N: usize>(
        &self,
        tails: &[[u8; BLOCK_BYTES]; N],
        len: usize,
    ) -> [[u8; 64]; N]
        requires count { N ≡ W.lanes }
        requires few { N ≤ 4 }
        requires short { len ≤ MAX_TAIL }
        ensures { (m : List ℕ) → BeginsWith self.now m
            → result ≡ map (λ tail. sha512 (m ++ take len tail)) tails.now }
    {
        let blocks = last_blocks(tails, len);
        digests_of(&compress_each::<W, N>(&self.words, &blocks))
    }

    /// The digest of the first block and then a tail, which is the first `len` bytes of this block.
    #[inline(always)]
    pub fn finalize_one(&self, tails: &[[u8; BLOCK_BYTES]; 1], len: usize) -> [[u8; 64]; 1]
        requires { len ≤ MAX_TAIL }
        ensures { (m : List ℕ) → BeginsWith self.now m
            → result ≡ map (λ tail. sha512 (m ++ take len tail)) tails.now }
    {
        let [block] = last_blocks(tails, len);
        [word_bytes(&compress_one(&self.words, &block))]
    }

    /// The digests of the first block and then each of four tails, which are the first `len` bytes
    /// of these blocks. The four are taken side by side, where the processor has vectors of four
    /// words (x86-64-v3) in half the time of single ones or less.
    #[inline(always)]
    pub fn finalize_four(&self, tails: &[[u8; BLOCK_BYTES]; 4], len: usize) -> [[u8; 64]; 4]
        requires { len ≤ MAX_TAIL }
        ensures { (m : List ℕ) → BeginsWith self.now m
            → result ≡ map (λ tail. sha512 (m ++ take len tail)) tails.now }
    {
        self.finalize_each::<u64x4, 4>(tails, len)
    }
}
