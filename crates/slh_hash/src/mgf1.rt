//! The mask generation function (FIPS 205, sections 11.2.1 and 11.2.2; RFC 8017, appendix B.2.1).
ghost use Rattle.std.specs.Prelude.{◌≡◌, ◌≤◌, ◌+◌, ◌/◌, length};
ghost use Rattle.hmac_sha256.specs.Wrapped.{StandsFor as WrappedStandsFor};
ghost use Rattle.hmac_sha256.specs.Hash.{StandsFor, absorbed_bytes};
ghost use Rattle.slh_hash.specs.Sha2.{mgf1_sha256, mgf1_sha512};

use hmac_sha256::digest_core::Update;
use hmac_sha256::digest_core::block_buffer::{BlockGen, ReadBuffer};
use hmac_sha256::{Hash, WrappedHash};
use sha2::{Digest, Sha512};
use slh_core::array::ArrayMut;
use slh_core::array::sizes::U32;
use slh_core::equal_parts::put_part;

const SHA256_LEN: usize = 32;

const SHA512_LEN: usize = 64;

const MAX_OUTPUT: usize = 256;

// The SHA-256 hashes of a seed and a counter of four bytes, block by block.
#[derive(Drop)]
struct CountedHashes {
    // The hash that has absorbed the seed.
    started: WrappedHash,
    counter: u32,
    ghost short: { absorbed_bytes started.core + length started.held ≤ 128 },
}

impl CountedHashes {
    fn new(seed: &[u8]) -> Self
        requires { length seed.now ≤ 128 }
        ensures stands { WrappedStandsFor (StandsFor result.started.core) result.started.held
            seed.now }
        ensures none { result.counter ≡ 0 }
    {
        let mut started = WrappedHash::from_core(Hash::new());
        started.update(seed);
        CountedHashes {
            started,
            counter: 0,
        }
    }
}

impl BlockGen<U32> for CountedHashes {
    ghost use Rattle.std.specs.Prelude.{◌-◌, ◌^◌, Some};
    ghost use Rattle.slh_hash.specs.Counted.{GaveHashes};

    ghost state = { λ g. record {
      stands = GaveHashes (WrappedStandsFor (StandsFor g.started.core) g.started.held) g.counter;
      room = Some (2 ^ 32 - 1 - g.counter);
    } };

    fn fill(&mut self, block: &mut ArrayMut<'_, u8, U32>) {
        let mut digest = [0u8; SHA256_LEN];
        self.started
            .finalize_with(&self.counter.to_be_bytes(), &mut digest);
        block.copy_from_slice(&digest);
        self.counter += 1;
    }
}

/// Fills `out` with the first bytes of the SHA-256 hashes of the seed and a counter of four bytes,
/// from 0 on.
pub fn mgf1_256(seed: &[u8], out: &mut [u8])
    requires seed { length seed.now ≤ 128 }
    requires room { length out.old ≤ 256 }
    ensures { out.new ≡ mgf1_sha256 seed.now (length out.old) }
{
    let mut hashes = CountedHashes::new(seed);
    ReadBuffer::<U32>::default().read(out, &mut hashes);
}

/// The same with SHA-512.
#[tactic(auto, unfolding(crate::specs::Sha2::mgf1_sha512, slh_core::specs::Bytes::joined))]
pub fn mgf1_512(seed: &[u8], out: &mut [u8])
    requires seed { length seed.now ≤ 128 }
    requires room { length out.old ≤ 256 }
    ensures { out.new ≡ mgf1_sha512 seed.now (length out.old) }
{
    let mut blocks = [0u8; MAX_OUTPUT];
    let count = out.len().div_ceil(SHA512_LEN);
    for i in 0..count {
        let mut hash = Sha512::new_with_prefix(seed);
        hash.update((i as u32).to_be_bytes());
        put_part(&mut blocks, SHA512_LEN, i, &hash.finalize());
    }
    out.copy_from_slice(&blocks[..out.len()]);
}
