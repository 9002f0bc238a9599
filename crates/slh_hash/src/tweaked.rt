//! The hashes of an address and an input.
ghost use Rattle.std.specs.Prelude.{◌≡◌, ℕ, ◌≤◌, List, length};
ghost use Rattle.slh_hash.specs.Sha2.{seed_block, tweaked_hash_256, tweaked_hash_512};

use crate::join::put_two;
use crate::keyed::{Sha2Keyed, Sha2Keyed512};
use hmac_sha256::digest_core::{FixedOutput, Update};
use hmac_sha256::{Hash, WrappedHash};
use sha2::{Digest, Sha512};
use sha256_lanes::Midstate;
use sha512_lanes::Midstate as Midstate512;
use slh_core::address::Address;
use slh_core::array::ArraySize;
use slh_core::nbytes::NBytes;
use slh_core::params::MAX_ENDS_LEN;

const SHA256_BLOCK_LEN: usize = 64;

const SHA512_BLOCK_LEN: usize = 128;

// A compressed address and two values of 32 bytes.
const SHORT_LEN: usize = 86;

/// The public seed, and zeros after it.
pub(crate) fn block_of<N: ArraySize, const B: usize>(pk_seed: &NBytes<N>) -> [u8; B]
    requires { 32 ≤ B }
    ensures { result ≡ seed_block B N.USIZE pk_seed.now }
{
    let seed = pk_seed.as_slice();
    let mut block = [0u8; B];
    block[..seed.len()].copy_from_slice(seed);
    block
}

/// The state for a public seed.
pub(crate) fn start<N: ArraySize>(pk_seed: &NBytes<N>) -> Sha2Keyed<N>
    ensures { result.pk_seed ≡ pk_seed.now }
{
    let block = block_of::<N, SHA256_BLOCK_LEN>(pk_seed);
    let mut started = WrappedHash::from_core(Hash::new());
    started.update(&block);
    let _core = started.core();
    Sha2Keyed {
        pk_seed: pk_seed.copy(),
        started,
        midstate: Midstate::new(&block),
    }
}

/// The state for a public seed in the categories 3 and 5.
pub(crate) fn start_512<N: ArraySize>(pk_seed: &NBytes<N>) -> Sha2Keyed512<N>
    ensures { result.keyed.pk_seed ≡ pk_seed.now }
{
    let block = block_of::<N, SHA512_BLOCK_LEN>(pk_seed);
    Sha2Keyed512 {
        keyed: start(pk_seed),
        started: Sha512::new_with_prefix(block),
        midstate: Midstate512::new(&block),
    }
}

/// The SHA-256 hash of an address and an input of at most 64 bytes.
#[inline]
pub(crate) fn short_hash<N: ArraySize, A: Address>(
    keyed: &Sha2Keyed<N>,
    adrs: &A,
    input: &[u8],
) -> NBytes<N>
    requires { length input.now ≤ 64 }
    ensures { result ≡ tweaked_hash_256 N.USIZE keyed.now.pk_seed (A.bytes adrs.now) input.now }
{
    let mut tail = [0u8; SHORT_LEN];
    let end = put_two(&adrs.compressed(), input, &mut tail);
    let mut digest = [0u8; 32];
    keyed.started().finalize_with(&tail[..end], &mut digest);
    NBytes::first_of(digest)
}

/// The SHA-256 hash of an address and an input of any length up to that of a key pair's ends.
pub(crate) fn long_hash<N: ArraySize, A: Address>(
    keyed: &Sha2Keyed<N>,
    adrs: &A,
    input: &[u8],
) -> NBytes<N>
    requires { length input.now ≤ MAX_ENDS_LEN }
    ensures { result ≡ tweaked_hash_256 N.USIZE keyed.now.pk_seed (A.bytes adrs.now) input.now }
{
    let mut hash = keyed.started().clone();
    hash.update(&adrs.compressed());
    hash.update(input);
    let mut digest = [0u8; 32];
    hash.finalize_into(&mut digest);
    NBytes::first_of(digest)
}

/// The SHA-512 hash of an address and an input.
pub(crate) fn long_hash_512<N: ArraySize, A: Address>(
    keyed: &Sha2Keyed512<N>,
    adrs: &A,
    input: &[u8],
) -> NBytes<N>
    ensures { let seed = keyed.now.keyed.pk_seed in
        result ≡ tweaked_hash_512 N.USIZE seed (A.bytes adrs.now) input.now }
{
    let mut hash = keyed.started.clone().unwrap();
    hash.update(adrs.compressed());
    hash.update(input);
    NBytes::exact(&hash.finalize()[..N::USIZE])
}
