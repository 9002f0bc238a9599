//! Cipher block chaining (SP 800-38A, 6.2), and the padding of messages to whole blocks.
ghost use Rattle.std.specs.Prelude.{◌≡◌, ℕ, ◌+◌, ◌/◌, ◌^◌, ◌≤◌, ◌<◌, List, IfOk, IfSome, length};
ghost use Rattle.std.specs.Str.{bytes_eq};
ghost use Rattle.aes.specs.Cbc.{block_at, cbc, inverse_cbc, padded, unpadded_len};
ghost use Rattle.aes.specs.Cipher.{HasKey};

use crate::block::{BLOCK_BYTES, Block, added};
use crate::schedule::RoundKeys;
use std::alloc::{AllocError, Global};

// Block j of the bytes, counted from 0.
fn block_at(bytes: &[u8], j: usize) -> Block
    requires { j < length bytes.now / 16 }
    ensures { result ≡ block_at bytes.now j }
{
    let mut block = [0u8; BLOCK_BYTES];
    block.copy_from_slice(&bytes[BLOCK_BYTES * j..BLOCK_BYTES * j + BLOCK_BYTES]);
    block
}

impl RoundKeys {
    /// A message of whole blocks, encrypted. What stands behind the last one is left out.
    pub fn encrypt_blocks(
        &self,
        alloc: Global,
        iv: &Block,
        message: &[u8],
    ) -> Result<Vec<u8>, AllocError>
        ensures value { IfOk result (λ blocks. (key : List ℕ) → HasKey self.now key
            → blocks.items ≡ cbc key iv.now message.now) }
        ensures length { IfOk result (λ blocks. length blocks.items ≤ length message.now) }
    {
        let mut blocks = Vec::new(alloc);
        let mut chain = *iv;
        'blocks: for j in 0..message.len() / BLOCK_BYTES {
            chain = self.encrypt(&added(&block_at(message, j), &chain));
            blocks.extend_from_slice(&chain)?;
        }
        Ok(blocks)
    }

    /// The message of which these are the blocks. What stands behind the last one is left out.
    pub fn decrypt_blocks(
        &self,
        alloc: Global,
        iv: &Block,
        blocks: &[u8],
    ) -> Result<Vec<u8>, AllocError>
        ensures { IfOk result (λ message. (key : List ℕ) → HasKey self.now key
            → message.items ≡ inverse_cbc key iv.now blocks.now) }
    {
        let mut message = Vec::new(alloc);
        let mut chain = *iv;
        'blocks: for j in 0..blocks.len() / BLOCK_BYTES {
            let block = block_at(blocks, j);
            message.extend_from_slice(&added(&self.decrypt(&block), &chain))?;
            chain = block;
        }
        Ok(message)
    }
}

/// A message with its padding.
pub fn padded(alloc: Global, message: &[u8]) -> Result<Vec<u8>, AllocError>
    requires { length message.now < 2 ^ 60 }
    ensures value { IfOk result (λ whole. whole.items ≡ padded message.now) }
    ensures length { IfOk result (λ whole. length whole.items ≤ length message.now + 16) }
{
    let count = BLOCK_BYTES - message.len() % BLOCK_BYTES;
    let mut whole = Vec::from_slice(alloc, message)?;
    let padding = [count as u8; BLOCK_BYTES];
    whole.extend_from_slice(&padding[..count])?;
    Ok(whole)
}

// Whether the bytes are the same.
fn is_same(x: &[u8], y: &[u8]) -> bool
    ensures { result ≡ bytes_eq x.now y.now }
{
    x == y
}

/// How many bytes stand before the padding, if the bytes end with one.
pub fn unpadded_len(bytes: &[u8]) -> Option<usize>
    ensures value { result ≡ unpadded_len bytes.now }
    ensures within { IfSome result (λ n. n ≤ length bytes.now) }
{
    let n = bytes.len();
    if n == 0 {
        return None;
    }
    let last = bytes[n - 1];
    let count = last as usize;
    if count == 0 || count > BLOCK_BYTES || count > n {
        return None;
    }
    let padding = [last; BLOCK_BYTES];
    if is_same(&bytes[n - count..], &padding[..count]) {
        Some(n - count)
    } else {
        None
    }
}
