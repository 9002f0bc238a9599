//! HMAC with SHA-256 (RFC 2104), on messages that come piece by piece.

ghost use Rattle.std.specs.Prelude.{◌≡◌, ⊤, ℕ, ◌+◌, ◌^◌, ◌≤◌, ◌↔◌, List, [], ◌++◌, IsTrue, length};
ghost use Rattle.hmac_sha256.specs.Hash.{StandsFor, absorbed_bytes};
ghost use Rattle.hmac_sha256.specs.Hmac.{hmac_sha256, inner_block, key_block, masked};

use crate::comparison::is_same;
use crate::hashing::{Hash, MAX_BYTES};
use sha256_lanes::BLOCK_BYTES;
use sha256_lanes::blocks::zero_padded;
use std::alloc::AllocError;

const INNER_MASK: u8 = 0x36;

const OUTER_MASK: u8 = 0x5c;

fn key_block(key: &[u8]) -> [u8; BLOCK_BYTES]
    requires { length key.now ≤ 2 ^ 60 }
    ensures { result ≡ key_block key.now }
{
    if key.len() > BLOCK_BYTES {
        zero_padded(&Hash::hash(key))
    } else {
        zero_padded(key)
    }
}

// A hash that has absorbed the key's block under a mask.
fn started(key_block: &[u8; BLOCK_BYTES], mask: u8) -> Hash
    ensures stands { StandsFor result (masked mask key_block.now) }
    ensures counts { absorbed_bytes result ≡ 64 }
{
    let mut block = [0u8; BLOCK_BYTES];
    'each_byte: for i in 0..BLOCK_BYTES {
        block[i] = key_block[i] ^ mask;
    }
    let mut hash = Hash::new();
    hash.update(&block);
    hash
}

/// The HMAC of a message, which `update` takes piece by piece, under a key.
#[derive(Drop)]
pub struct HMAC {
    inner: Hash,
    outer: Hash,

    ghost outer_is_started: { absorbed_bytes outer ≡ 64 },
}

impl HMAC {
    ghost use Rattle.hmac_sha256.specs.Mac.{Authenticates, mac_absorbed_bytes};

    /// The HMAC of the empty message under the key `k`, of at most 2^60 bytes, to go on from.
    #[tactic(auto, unfolding(crate::specs::Mac::mac_absorbed_bytes))]
    pub fn new(k: &[u8]) -> Self
        requires { length k.now ≤ 2 ^ 60 }
        ensures empty { Authenticates result k.now [] }
        ensures counts { mac_absorbed_bytes result ≡ 64 }
    {
        let block = key_block(k);
        HMAC {
            inner: started(&block, INNER_MASK),
            outer: started(&block, OUTER_MASK),
        }
    }

    /// The HMAC under the key `k`, of at most 2^60 bytes, that goes on from an inner hash, as
    /// `into_inner` gave it.
    #[tactic(auto, unfolding(crate::specs::Mac::mac_absorbed_bytes))]
    pub fn with_inner(k: &[u8], inner: Hash) -> Self
        requires { length k.now ≤ 2 ^ 60 }
        ensures stands { (m : List ℕ) → StandsFor inner (inner_block k.now ++ m)
            → Authenticates result k.now m }
        ensures counts { mac_absorbed_bytes result ≡ absorbed_bytes inner }
    {
        HMAC {
            inner,
            outer: started(&key_block(k), OUTER_MASK),
        }
    }

    /// The inner hash, which has absorbed the key's block and what came after it.
    #[tactic(auto, unfolding(crate::specs::Mac::mac_absorbed_bytes))]
    pub fn into_inner(self) -> Hash
        ensures stands { (key m : List ℕ) → Authenticates self key m
            → StandsFor result (inner_block key ++ m) }
        ensures counts { absorbed_bytes result ≡ mac_absorbed_bytes self }
    {
        let HMAC { inner, .. } = self;
        inner
    }

    /// Absorbs `input`, after what was absorbed before. The total counts the key's block too.
    #[tactic(auto, unfolding(crate::specs::Mac::mac_absorbed_bytes))]
    pub fn update(&mut self, input: &[u8])
        requires { mac_absorbed_bytes self.old + length input.now ≤ MAX_BYTES }
        ensures joins { (key m : List ℕ) → Authenticates self.old key m
            → Authenticates self.new key (m ++ input.now) }
        ensures counts { mac_absorbed_bytes self.new
            ≡ mac_absorbed_bytes self.old + length input.now }
    {
        self.inner.update(input);
    }

    /// How many bytes were absorbed, the 64 of the key's block among them.
    #[tactic(auto, unfolding(crate::specs::Mac::mac_absorbed_bytes))]
    pub fn absorbed(&self) -> u64
        ensures counts { result ≡ mac_absorbed_bytes self.now }
        ensures length { (key m : List ℕ) → Authenticates self.now key m
            → result ≡ 64 + length m }
    {
        self.inner.absorbed()
    }

    /// The HMAC of what was absorbed.
    pub fn finalize(self) -> [u8; 32]
        ensures { (key m : List ℕ) → Authenticates self key m → result ≡ hmac_sha256 key m }
    {
        self.outer.finalize_with(&self.inner.finalize())
    }

    /// Whether the HMAC of what was absorbed is `expected`. Each byte is looked at, wherever two
    /// differ.
    pub fn finalize_verify(self, expected: &[u8; 32]) -> bool
        ensures { (key m : List ℕ) → Authenticates self key m
            → (IsTrue result ↔ (hmac_sha256 key m ≡ expected.now)) }
    {
        is_same(&self.finalize(), expected)
    }

    /// The HMAC of `input` under the key `k`, each of at most 2^60 bytes.
    pub fn mac(input: &[u8], k: &[u8]) -> [u8; 32]
        requires input { length input.now ≤ 2 ^ 60 }
        requires k { length k.now ≤ 2 ^ 60 }
        ensures { result ≡ hmac_sha256 k.now input.now }
    {
        let mut mac = HMAC::new(k);
        mac.update(input);
        mac.finalize()
    }

    /// Whether the HMAC of `input` under the key `k`, each of at most 2^60 bytes, is `expected`.
    pub fn verify(input: &[u8], k: &[u8], expected: &[u8; 32]) -> bool
        requires input { length input.now ≤ 2 ^ 60 }
        requires k { length k.now ≤ 2 ^ 60 }
        ensures { IsTrue result ↔ (hmac_sha256 k.now input.now ≡ expected.now) }
    {
        is_same(&HMAC::mac(input, k), expected)
    }

    /// A second HMAC under the same key that has absorbed the same bytes.
    pub fn copy(&self) -> HMAC
        ensures { result ≡ self.now }
    {
        HMAC {
            inner: self.inner.copy(),
            outer: self.outer.copy(),
        }
    }
}

impl Clone for HMAC {
    ghost is_clone = { λ x y. y ≡ x };

    ghost is_infallible = { λ _. ⊤ };

    fn clone(&self) -> Result<HMAC, AllocError> {
        Ok(self.copy())
    }
}
