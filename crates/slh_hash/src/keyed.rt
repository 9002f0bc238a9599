//! The hashes from which every hash of an address goes on.
ghost use Rattle.hmac_sha256.specs.Wrapped.{StandsFor as WrappedStandsFor};
ghost use Rattle.hmac_sha256.specs.Hash.{StandsFor, StandsFor-prop, absorbed_bytes};
ghost use Rattle.sha2.specs.Hashers.{Holds512};
ghost use Rattle.sha256_lanes.specs.Midstate.{BeginsWith, BeginsWith-prop};
ghost use Rattle.sha512_lanes.specs.Midstate.{BeginsWith as BeginsWith512};
ghost use Rattle.sha512_lanes.specs.Midstate.{BeginsWith-prop as BeginsWith512-prop};
ghost use Rattle.slh_core.specs.declared.params.TheConstants.{MAX_N};
ghost use Rattle.slh_hash.specs.Keyed.{Holds512-prop, nothing-prop};
ghost use Rattle.slh_hash.specs.Sha2.{seed_block};
ghost use Rattle.std.specs.Prelude.{◌≡◌, ◌+◌, ◌≤◌, [], length};

use hmac_sha256::WrappedHash;
use sha2::Sha512;
use sha256_lanes::Midstate;
use sha512_lanes::Midstate as Midstate512;
use slh_core::array::ArraySize;
use slh_core::nbytes::NBytes;

/// A public seed, and SHA-256 as it stands after the seed and the zeros that fill its block of 64
/// bytes (FIPS 205, section 11.2). Every hash of an address goes on from there: once for messages
/// of any length, and once to hash short ones side by side.
#[derive(Drop)]
pub struct Sha2Keyed<N: ArraySize> {
    pub(crate) pk_seed: NBytes<N>,
    pub(crate) started: WrappedHash,
    pub(crate) midstate: Midstate,
    ghost stands: { StandsFor started.core (seed_block 64 N.USIZE pk_seed) } by { StandsFor-prop started.core (seed_block 64 N.USIZE pk_seed) },
    ghost one_block: { absorbed_bytes started.core ≡ 64 },
    ghost nothing_held: { started.held ≡ [] } by { nothing-prop started.held },
    ghost begins: { BeginsWith midstate (seed_block 64 N.USIZE pk_seed) } by { BeginsWith-prop midstate (seed_block 64 N.USIZE pk_seed) },
    ghost small: { N.USIZE ≤ MAX_N },
}

impl<N: ArraySize> Sha2Keyed<N> {
    /// The hash that has absorbed the public seed and the zeros that fill its block.
    pub fn started(&self) -> &WrappedHash
        ensures stands { WrappedStandsFor (StandsFor result.now.core) result.now.held
            (seed_block 64 N.USIZE self.now.pk_seed) }
        ensures counts { absorbed_bytes result.now.core + length result.now.held ≡ 64 }
    {
        &self.started
    }
}

/// The same for the categories 3 and 5, where H and T go on from SHA-512 as it stands after the
/// seed and the zeros that fill its block of 128 bytes (FIPS 205, section 11.2.2).
#[derive(Drop)]
pub struct Sha2Keyed512<N: ArraySize> {
    pub(crate) keyed: Sha2Keyed<N>,
    pub(crate) started: Sha512,
    pub(crate) midstate: Midstate512,
    ghost holds: { Holds512 started (seed_block 128 N.USIZE keyed.pk_seed) } by { Holds512-prop started (seed_block 128 N.USIZE keyed.pk_seed) },
    ghost begins: { BeginsWith512 midstate (seed_block 128 N.USIZE keyed.pk_seed) } by { BeginsWith512-prop midstate (seed_block 128 N.USIZE keyed.pk_seed) },
}

impl<N: ArraySize> Sha2Keyed512<N> {
    /// SHA-256 that has absorbed the public seed and the zeros that fill its block.
    pub fn started(&self) -> &WrappedHash
        ensures stands { WrappedStandsFor (StandsFor result.now.core) result.now.held
            (seed_block 64 N.USIZE self.now.keyed.pk_seed) }
        ensures counts { absorbed_bytes result.now.core + length result.now.held ≡ 64 }
    {
        self.keyed.started()
    }
}
