//! What a signing key tells of itself: its verifying key, and whether its root is its own.
ghost use Rattle.std.specs.Prelude.{◌≡◌, ◌≢◌, ◌*◌, length, drop, IfSome};
ghost use Rattle.slh_dsa_c.specs.Status.{key_number, key_status, number_of_refusal, public_lengths};
ghost use Rattle.slh_dsa_c.specs.Status.{public_status};
ghost use Rattle.slh_sets.specs.Sets.{scheme_numbered};
ghost use Rattle.slh_trees.specs.Keys.{IsTrueKey};

use crate::set::{read_in_set, write_in_set};
use crate::status::{KEY_MISMATCH, LENGTH, OK, UNKNOWN_SET};
use slh_core::array::ArraySize;
use slh_core::equal_parts::part_of;
use slh_core::params::chain_sizes;
use slh_dsa::verifying_half;
use slh_sets::{OnSet, SetSuite, WriteOnSet};
use slh_trees::uncounted::top_root;

// A signing key whose verifying key is wanted.
#[derive(Drop)]
struct Public<'a> {
    key: &'a [u8],
}

impl<'a> WriteOnSet for Public<'a> {
    type Out = u32;

    ghost gives = { λ c Z len status. status ≡ number_of_refusal (public_lengths Z c.key.now len) };

    ghost wrote = { λ status. status ≡ 0 };

    ghost writes = { λ c Z public. public ≡ drop (2 * Z.n) c.key.now };

    fn write<P: SetSuite>(self, out: &mut [u8]) -> u32 {
        chain_sizes::<P>();
        let public_bytes = 2 * P::N::USIZE;
        if self.key.len() != 2 * public_bytes || out.len() != public_bytes {
            return LENGTH;
        }
        out.copy_from_slice(verifying_half(self.key));
        OK
    }
}

/// Writes the verifying key of a signing key, its last 2n bytes. It isn't looked at whether its root
/// is that of the seeds: see `slh_dsa_sha2_check_key`.
#[unsafe(no_mangle)]
pub extern "C" fn slh_dsa_sha2_public(set: u32, key: &[u8], public: &mut [u8]) -> u32
    ensures status { result ≡ public_status set key.now (length public.old) }
    ensures value { result ≡ 0 → IfSome (scheme_numbered set) (λ Z.
        public.new ≡ drop (2 * Z.n) key.now) }
    ensures same { result ≢ 0 → public.new ≡ public.old }
{
    write_in_set(set, Public { key }, public, UNKNOWN_SET)
}

// A signing key to check.
#[derive(Drop)]
struct CheckKey<'a> {
    key: &'a [u8],
}

impl<'a> OnSet for CheckKey<'a> {
    type Out = u32;

    ghost gives = { λ c Z _ result. result ≡ key_number Z c.key.now };

    fn on<P: SetSuite>(self) -> u32 {
        chain_sizes::<P>();
        let key = self.key;
        if key.len() != 4 * P::N::USIZE {
            return LENGTH;
        }
        let sk_seed = part_of::<P::N>(key, 0);
        let pk_seed = part_of::<P::N>(key, 2);
        let pk_root = part_of::<P::N>(key, 3);
        if pk_root.as_slice() != top_root::<P>(&sk_seed, &pk_seed).as_slice() {
            return KEY_MISMATCH;
        }
        OK
    }
}

/// Tells whether a signing key's root is that of its seeds, as that of each key that was made is.
/// It costs as much as making the key.
#[unsafe(no_mangle)]
pub extern "C" fn slh_dsa_sha2_check_key(set: u32, key: &[u8]) -> u32
    ensures status { result ≡ key_status set key.now }
    ensures true_key { result ≡ 0 → IfSome (scheme_numbered set) (λ Z. IsTrueKey Z key.now) }
{
    read_in_set(set, CheckKey { key }, UNKNOWN_SET)
}
