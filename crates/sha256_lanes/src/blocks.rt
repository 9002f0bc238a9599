//! The steps of one hash: the padding, block by block (FIPS 180-4, 5.1.1, 5.3.3 and 6.2.2), and the
//! digest's bytes.

ghost use Rattle.std.specs.Prelude.{◌≡◌, ◌-◌, ◌*◌, ◌/◌, ◌%◌, ◌^◌, ◌<◌, ◌≤◌, ◌∷◌, ◌++◌, length};
ghost use Rattle.std.specs.Prelude.{replicate, take};
ghost use Rattle.std.specs.Int.{to_be_bytes, w64};
ghost use Rattle.sha256_lanes.specs.Sha256.{compress, fold_blocks, padding, word_bytes};

use crate::bulk::{BATCH_BYTES, absorb_batches};
use crate::single::compress_one;

/// How many bytes a block has (FIPS 180-4, 5.2.1).
pub const BLOCK_BYTES: usize = 64;

/// The most bytes that end a message within one block: the padding takes a byte and the message's
/// length eight (FIPS 180-4, 5.1.1).
pub const MAX_TAIL: usize = 55;

/// The hash value before the first block (FIPS 180-4, 5.3.3).
pub const INITIAL_WORDS: [u32; 8] = [
    0x6a09e667, 0xbb67ae85, 0x3c6ef372, 0xa54ff53a, 0x510e527f, 0x9b05688c, 0x1f83d9ab, 0x5be0cd19,
];

/// Takes one block into the eight words.
pub fn compress(state: &mut [u32; 8], block: &[u8])
    requires { length block.now ≡ 64 }
    ensures { state.new ≡ compress state.old block.now }
{
    let mut only = [0u8; 64];
    only.copy_from_slice(block);
    *state = compress_one(state, &only);
}

/// Takes one block after the other into the eight words; bytes after the last whole block are left.
/// As `absorb_blocks`, for programs that are to be small.
pub fn absorb_each(state: &mut [u32; 8], blocks: &[u8])
    ensures { state.new ≡ fold_blocks state.old blocks.now (length blocks.now / 64) }
{
    'each_block: for i in 0..blocks.len() / BLOCK_BYTES {
        compress(
            state,
            &blocks[BLOCK_BYTES * i..BLOCK_BYTES * i + BLOCK_BYTES],
        );
    }
}

/// Takes one block after the other into the eight words; bytes after the last whole block are left.
/// From 16 blocks on they are taken eight at a time, which costs less of each.
pub fn absorb_blocks(state: &mut [u32; 8], blocks: &[u8])
    ensures { state.new ≡ fold_blocks state.old blocks.now (length blocks.now / 64) }
{
    let count = blocks.len() / BATCH_BYTES;
    if count < 2 {
        absorb_each(state, blocks);
        return;
    }
    absorb_batches(state, blocks, count);
    absorb_each(state, &blocks[BATCH_BYTES * count..]);
}

/// The bytes of a digest, each word with its highest byte first.
#[inline(always)]
pub fn word_bytes(words: &[u32; 8]) -> [u8; 32]
    ensures { result ≡ word_bytes words.now }
{
    let mut bytes = [0u8; 32];
    'each_word: for i in 0..8 {
        bytes[4 * i..4 * i + 4].copy_from_slice(&words[i].to_be_bytes());
    }
    bytes
}

/// A block that begins with the bytes and ends with zeros.
#[inline(always)]
pub fn zero_padded(bytes: &[u8]) -> [u8; BLOCK_BYTES]
    requires { length bytes.now ≤ 64 }
    ensures { result ≡ bytes.now ++ replicate (64 - length bytes.now) 0 }
{
    let mut block = [0u8; BLOCK_BYTES];
    block[..bytes.len()].copy_from_slice(bytes);
    block
}

/// Begins a block of zeros with the last bytes of a message and the bit 1 after them.
#[inline(always)]
pub fn put_ended(block: &mut [u8; BLOCK_BYTES], rest: &[u8])
    requires { length rest.now < 64 }
    ensures { block.old ≡ replicate 64 0
        → block.new ≡ rest.now ++ 0x80 ∷ replicate (63 - length rest.now) 0 }
{
    block[..rest.len()].copy_from_slice(rest);
    block[rest.len()] = 0x80;
}

/// Ends a block by the length of a message, which is given in bytes and written in bits.
#[inline(always)]
pub fn put_length(block: &mut [u8; BLOCK_BYTES], total: u64)
    ensures { block.new ≡ take 56 block.old ++ to_be_bytes w64 (8 * total % 2 ^ 64) }
{
    block[56..].copy_from_slice(&total.wrapping_mul(8).to_be_bytes());
}

/// The last block of a message of `total` bytes: those that are left, and the padding.
#[inline(always)]
pub fn last_block(rest: &[u8], total: u64) -> [u8; BLOCK_BYTES]
    requires short { length rest.now ≤ MAX_TAIL }
    requires left { total % 64 ≡ length rest.now }
    ensures { result ≡ rest.now ++ padding total }
{
    let mut block = [0u8; BLOCK_BYTES];
    put_ended(&mut block, rest);
    put_length(&mut block, total);
    block
}
