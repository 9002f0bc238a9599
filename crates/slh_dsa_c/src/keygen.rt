//! Making keys.
ghost use Rattle.std.specs.Prelude.{◌≡◌, ◌≢◌, ◌*◌, length, drop, IfSome};
ghost use Rattle.slh_sets.specs.Sets.{scheme_numbered};
ghost use Rattle.slh_dsa_c.specs.Status.{key_of_seeds, keygen_lengths, keygen_status};
ghost use Rattle.slh_dsa_c.specs.Status.{number_of_refusal};
ghost use Rattle.slh_trees.specs.Keys.{IsTrueKey};

use crate::set::write_in_set;
use crate::status::{LENGTH, OK, UNKNOWN_SET, number_of};
use slh_core::array::ArraySize;
use slh_core::params::chain_sizes;
use slh_dsa::{SigningKey, verifying_half};
use slh_sets::{SetSuite, WriteOnSet};

// The seeds of a signing key, whose verifying key is to have so many bytes.
#[derive(Drop)]
struct Keygen<'a> {
    seeds: &'a [u8],
    public_bytes: usize,
}

impl<'a> WriteOnSet for Keygen<'a> {
    type Out = u32;

    ghost gives = { λ c Z len status. status ≡ number_of_refusal
        (keygen_lengths Z (length c.seeds.now) len c.public_bytes) };

    ghost wrote = { λ status. status ≡ 0 };

    ghost writes = { λ c Z key. (key ≡ key_of_seeds Z c.seeds.now) × IsTrueKey Z key };

    fn write<P: SetSuite>(self, out: &mut [u8]) -> u32 {
        chain_sizes::<P>();
        let n = P::N::USIZE;
        let seeds = self.seeds;
        if seeds.len() != 3 * n || out.len() != 4 * n || self.public_bytes != 2 * n {
            return LENGTH;
        }
        let (sk_seed, rest) = seeds.split_at(n);
        let (sk_prf, pk_seed) = rest.split_at(n);
        match SigningKey::<P>::slh_keygen_internal(sk_seed, sk_prf, pk_seed) {
            Ok(made) => {
                made.write_to(out);
                OK
            }
            Err(error) => number_of(error),
        }
    }
}

/// Makes a key of three seeds of n bytes each, which stand one behind the other: the secret seed,
/// the PRF key and the public seed (FIPS 205, algorithm 18). Writes the signing key of 4n bytes and
/// the verifying key of 2n bytes.
#[unsafe(no_mangle)]
pub extern "C" fn slh_dsa_sha2_keygen(
    set: u32,
    seeds: &[u8],
    key: &mut [u8],
    public: &mut [u8],
) -> u32
    ensures status { result
        ≡ keygen_status set (length seeds.now) (length key.old) (length public.old) }
    ensures key { result ≡ 0 → IfSome (scheme_numbered set) (λ Z.
        key.new ≡ key_of_seeds Z seeds.now) }
    ensures true_key { result ≡ 0 → IfSome (scheme_numbered set) (λ Z. IsTrueKey Z key.new) }
    ensures public { result ≡ 0 → IfSome (scheme_numbered set) (λ Z.
        public.new ≡ drop (2 * Z.n) key.new) }
    ensures same { result ≢ 0 → (key.new ≡ key.old) × (public.new ≡ public.old) }
{
    let public_bytes = public.len();
    let call = Keygen {
        seeds,
        public_bytes,
    };
    let status = write_in_set(set, call, key, UNKNOWN_SET);
    if status == OK {
        public.copy_from_slice(verifying_half(key));
    }
    status
}
