//! HMAC with SHA-512 (RFC 2104).
ghost use Rattle.std.specs.Prelude.{◌≡◌, ℕ, ◌-◌, ◌≤◌, List, [], ◌++◌, length, replicate};
ghost use Rattle.hmac_sha256.specs.Hmac.{masked as spec_masked};
ghost use Rattle.slh_hash.specs.HmacSha512.{hmac_sha512 as spec_hmac_sha512};
ghost use Rattle.slh_hash.specs.HmacSha512.{key_block as spec_key_block};
ghost use Rattle.slh_hash.specs.States.{Authenticates512};
ghost use Rattle.sha512_lanes.specs.Hash.{StandsFor as StandsFor512};

use sha512_lanes::Hash512;

const BLOCK_LEN: usize = 128;

const INNER_MASK: u8 = 0x36;

const OUTER_MASK: u8 = 0x5c;

// A block that begins with the bytes and ends with zeros.
fn zero_padded(bytes: &[u8]) -> [u8; BLOCK_LEN]
    requires { length bytes.now ≤ 128 }
    ensures { result ≡ bytes.now ++ replicate (128 - length bytes.now) 0 }
{
    let mut block = [0u8; BLOCK_LEN];
    block[..bytes.len()].copy_from_slice(bytes);
    block
}

fn key_block(key: &[u8]) -> [u8; BLOCK_LEN]
    ensures { result ≡ spec_key_block key.now }
{
    if key.len() > BLOCK_LEN {
        zero_padded(&Hash512::digest(key))
    } else {
        zero_padded(key)
    }
}

fn masked(block: &[u8; BLOCK_LEN], mask: u8) -> [u8; BLOCK_LEN]
    ensures { result ≡ spec_masked mask block.now }
{
    let mut out = [0u8; BLOCK_LEN];
    for i in 0..BLOCK_LEN {
        out[i] = block[i] ^ mask;
    }
    out
}

/// The HMAC-SHA-512 of a message, which `update` takes piece by piece, under a key.
#[derive(Drop)]
pub struct Hmac512 {
    inner: Hash512,
    outer: Hash512,
}

impl Hmac512 {
    /// The HMAC of the empty message, to go on from.
    pub fn new(key: &[u8]) -> Self
        ensures { Authenticates512 result.inner result.outer key.now [] }
    {
        let block = key_block(key);
        Hmac512 {
            inner: Hash512::new_with_prefix(&masked(&block, INNER_MASK)),
            outer: Hash512::new_with_prefix(&masked(&block, OUTER_MASK)),
        }
    }

    /// The HMAC under a key that goes on from an inner hash, as `into_inner` gave it.
    pub fn with_inner(key: &[u8], inner: Hash512) -> Self
        ensures { (m : List ℕ)
            → StandsFor512 inner (spec_masked 0x36 (spec_key_block key.now) ++ m)
            → Authenticates512 result.inner result.outer key.now m }
    {
        let block = key_block(key);
        Hmac512 {
            inner,
            outer: Hash512::new_with_prefix(&masked(&block, OUTER_MASK)),
        }
    }

    /// The inner hash, which has absorbed the key's block and what came after it.
    pub fn into_inner(self) -> Hash512
        ensures { (key m : List ℕ) → Authenticates512 self.inner self.outer key m
            → StandsFor512 result (spec_masked 0x36 (spec_key_block key) ++ m) }
    {
        let Hmac512 { inner, .. } = self;
        inner
    }

    /// Absorbs `input`, after what was absorbed before.
    pub fn update(&mut self, input: &[u8])
        ensures { (key m : List ℕ) → Authenticates512 self.old.inner self.old.outer key m
            → Authenticates512 self.new.inner self.new.outer key (m ++ input.now) }
    {
        self.inner.update(input);
    }

    /// The HMAC of what was absorbed.
    pub fn finalize(self) -> [u8; 64]
        ensures { (key m : List ℕ) → Authenticates512 self.inner self.outer key m
            → result ≡ spec_hmac_sha512 key m }
    {
        let Hmac512 { inner, outer } = self;
        let mut outer = outer;
        outer.update(&inner.finalize());
        outer.finalize()
    }
}

/// The HMAC-SHA-512 of four byte strings, joined, under a key.
pub fn hmac_sha512(key: &[u8], first: &[u8], head: &[u8], ctx: &[u8], msg: &[u8]) -> [u8; 64]
    ensures { let message = first.now ++ (head.now ++ ctx.now ++ msg.now) in
        result ≡ spec_hmac_sha512 key.now message }
{
    let mut mac = Hmac512::new(key);
    mac.update(first);
    mac.update(head);
    mac.update(ctx);
    mac.update(msg);
    mac.finalize()
}
