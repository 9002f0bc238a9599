//! Keys that are made of random bytes, and their halves.
ghost use Rattle.std.specs.Prelude.{◌≡◌, ◌⊎◌, ◌↔◌, ◌≢◌, ◌≤◌, ◌*◌, ◌/◌, length, drop, Err};
ghost use Rattle.std.specs.Prelude.{IfOk, IfErr};
ghost use Rattle.std.specs.Str.{bytes_eq};
ghost use Rattle.slh_bytes.specs.Heads.{seed_len as spec_seed_len};
ghost use Rattle.slh_bytes.specs.Jobs.{made_by, made_of};
ghost use Rattle.slh_jobs.specs.declared.job.Error.TheVariants.{Length, Memory};

use crate::key::Key;
use slh_core::array::ArraySize;
use slh_core::params::chain_sizes;
use slh_dsa::{SigningKey, verifying_half};
use slh_jobs::{ByteString, Error};
use slh_sets::{OnSet, Set, SetSuite};
use std::alloc::{AllocError, Global};

// The signing key of the first 3n bytes of seeds. `Length`: there are fewer.
#[derive(Drop)]
struct Making<'a> {
    alloc: Global,
    seeds: &'a [u8],
}

impl<'a> OnSet for Making<'a> {
    type Out = Result<ByteString, Error>;

    ghost gives = { λ c Z _ result. IfOk result (λ key. key ≡ made_by Z c.seeds.now)
        × (3 * Z.n ≤ length c.seeds.now → IfErr result (λ e. e ≡ Memory)) };

    fn on<P: SetSuite>(self) -> Result<ByteString, Error> {
        chain_sizes::<P>();
        let (n, seeds) = (P::N::USIZE, self.seeds);
        if seeds.len() < 3 * n {
            return Err(Error::Length);
        }
        let (sk_seed, sk_prf, pk_seed) = (&seeds[..n], &seeds[n..2 * n], &seeds[2 * n..3 * n]);
        let key = SigningKey::<P>::slh_keygen_internal(sk_seed, sk_prf, pk_seed).unwrap();
        let mut bytes = ByteString::zeroed(self.alloc, 4 * n)?;
        key.write_to(bytes.as_mut_slice());
        Ok(bytes)
    }
}

/// The signing key of the first 3n of these bytes, which have to be random and secret.
pub fn made_key(alloc: Global, set: Set, random: &[u8; 96]) -> Result<Key, Error>
    ensures set { IfOk result (λ key. key.set ≡ set) }
    ensures value { IfOk result (λ key. key.bytes ≡ made_of set random.now) }
    ensures memory { IfErr result (λ e. e ≡ Memory) }
{
    key_of_seeds(alloc, set, random.as_slice())
}

// The signing key of the first 3n bytes.
fn key_of_seeds(alloc: Global, set: Set, seeds: &[u8]) -> Result<Key, Error>
    requires { 3 * spec_seed_len set ≤ length seeds.now }
    ensures set { IfOk result (λ key. key.set ≡ set) }
    ensures value { IfOk result (λ key. key.bytes ≡ made_of set seeds.now) }
    ensures memory { IfErr result (λ e. e ≡ Memory) }
{
    let bytes = set.run(Making { alloc, seeds })?;
    Ok(Key { set, bytes })
}

/// The verifying key of a signing key: its last half.
pub fn verifying_key(alloc: Global, key: &Key) -> Result<Key, AllocError>
    ensures set { IfOk result (λ half. half.set ≡ key.now.set) }
    ensures bytes { IfOk result (λ half. half.bytes
        ≡ drop (length key.now.bytes / 2) key.now.bytes) }
{
    let half = ByteString::from_slice(alloc, verifying_half(key.bytes.as_slice()))?;
    Ok(Key {
        set: key.set,
        bytes: half,
    })
}

/// Whether a signing key of 4n bytes is the one that its own three seeds make. `Length`.
pub fn has_own_root(alloc: Global, key: &Key) -> Result<bool, Error>
    ensures value { IfOk result
        (λ own. own ≡ bytes_eq key.now.bytes (made_of key.now.set key.now.bytes)) }
    ensures length { (result ≡ Err Length)
        ↔ (length key.now.bytes ≢ 4 * spec_seed_len key.now.set) }
    ensures other { IfErr result (λ e. (e ≡ Length) ⊎ (e ≡ Memory)) }
{
    let bytes = key.bytes.as_slice();
    if bytes.len() != key.set.signing_key_len() {
        return Err(Error::Length);
    }
    let made = key_of_seeds(alloc, key.set, bytes)?;
    Ok(bytes == made.bytes.as_slice())
}
