//! The steps of one hash, block by block (FIPS 180-4, 5.3.5 and 6.4.2).

ghost use Rattle.std.specs.Prelude.{◌≡◌, ◌*◌, ◌/◌, ◌≤◌, length};
ghost use Rattle.sha2.specs.Sha512.{compress, hash_after};

use crate::bulk::{BATCH_BYTES, absorb_batches};
use crate::single::compress_one;

/// How many bytes a block has (FIPS 180-4, 5.2.2).
pub const BLOCK_BYTES: usize = 128;

/// The hash value before the first block (FIPS 180-4, 5.3.5).
pub(crate) const INITIAL_WORDS: [u64; 8] = [
    0x6a09e667f3bcc908,
    0xbb67ae8584caa73b,
    0x3c6ef372fe94f82b,
    0xa54ff53a5f1d36f1,
    0x510e527fade682d1,
    0x9b05688c2b3e6c1f,
    0x1f83d9abfb41bd6b,
    0x5be0cd19137e2179,
];

// From so many batches on they cost less than block by block.
const FEWEST_BATCHES: usize = 4;

/// Takes one block into the eight words.
pub(crate) fn compress(state: &mut [u64; 8], block: &[u8])
    requires { length block.now ≡ 128 }
    ensures { state.new ≡ compress state.old block.now }
{
    let mut only = [0u8; 128];
    only.copy_from_slice(block);
    *state = compress_one(state, &only);
}

/// Takes one block after the other into the eight words.
pub(crate) fn absorb_each(state: &mut [u64; 8], blocks: &[u8])
    ensures { state.new ≡ hash_after state.old blocks.now (length blocks.now / 128) }
{
    'each_block: for i in 0..blocks.len() / BLOCK_BYTES {
        compress(
            state,
            &blocks[i * BLOCK_BYTES..i * BLOCK_BYTES + BLOCK_BYTES],
        );
    }
}

/// Takes one block after the other into the eight words; bytes after the last whole block are left.
/// From 16 blocks on they are taken four at a time, which costs less of each.
pub fn absorb_blocks(state: &mut [u64; 8], blocks: &[u8])
    ensures { state.new ≡ hash_after state.old blocks.now (length blocks.now / 128) }
{
    let count = blocks.len() / BATCH_BYTES;
    if count < FEWEST_BATCHES {
        absorb_each(state, blocks);
        return;
    }
    absorb_batches(state, blocks, count);
    absorb_each(state, &blocks[BATCH_BYTES * count..]);
}
