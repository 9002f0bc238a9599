//! HMAC-SHA-256 of digests under one key, of which the key's blocks are hashed once.
ghost use Rattle.std.specs.Prelude.{◌≡◌, ℕ, ◌^◌, ◌≤◌, List, ◌++◌, length};
ghost use Rattle.hmac_sha256.specs.Hmac.{hmac_sha256, key_block, masked};
ghost use Rattle.sha256_lanes.specs.Midstate.{BeginsWith};
ghost use Rattle.sha256_lanes.specs.Sha256.{sha256};

use hmac_sha256::Hash;
use sha256_lanes::blocks::zero_padded;
use sha256_lanes::{BLOCK_BYTES, Midstate};

const INNER_MASK: u8 = 0x36;

const OUTER_MASK: u8 = 0x5c;

/// How many bytes a code has.
pub(crate) const CODE_BYTES: usize = 32;

/// A code.
pub(crate) type Code = [u8; CODE_BYTES];

// The key as a block: itself or, of a long one, its digest.
fn key_block(key: &[u8]) -> [u8; BLOCK_BYTES]
    requires { length key.now ≤ 2 ^ 60 }
    ensures { result ≡ key_block key.now }
{
    if key.len() > BLOCK_BYTES {
        zero_padded(&Hash::hash(key))
    } else {
        zero_padded(key)
    }
}

// A block in an exclusive or with the mask.
fn masked(block: &[u8; BLOCK_BYTES], mask: u8) -> [u8; BLOCK_BYTES]
    ensures { result ≡ masked mask block.now }
{
    let mut bytes = [0u8; BLOCK_BYTES];
    'each_byte: for i in 0..BLOCK_BYTES {
        bytes[i] = block[i] ^ mask;
    }
    bytes
}

// The digest of what a hash began with and then of a digest.
#[inline(always)]
fn finished(begun: &Midstate, tail: &Code) -> Code
    ensures { (m : List ℕ) → BeginsWith begun.now m → result ≡ sha256 (m ++ tail.now) }
{
    let [digest] = begun.finalize_one(&[zero_padded(tail)], CODE_BYTES);
    digest
}

/// HMAC-SHA-256 under a key.
#[derive(Drop)]
pub(crate) struct Keyed {
    pub(crate) inner: Midstate,
    pub(crate) outer: Midstate,
}

impl Keyed {
    ghost use Rattle.pbkdf2.specs.Keyed.{IsKeyed};

    /// The function under a key.
    pub(crate) fn new(key: &[u8]) -> Keyed
        requires { length key.now ≤ 2 ^ 60 }
        ensures { IsKeyed result key.now }
    {
        let block = key_block(key);
        Keyed {
            inner: Midstate::new(&masked(&block, INNER_MASK)),
            outer: Midstate::new(&masked(&block, OUTER_MASK)),
        }
    }

    /// The code of a code.
    #[inline(always)]
    pub(crate) fn next(&self, code: &Code) -> Code
        ensures { (key : List ℕ) → IsKeyed self.now key → result ≡ hmac_sha256 key code.now }
    {
        finished(&self.outer, &finished(&self.inner, code))
    }
}
