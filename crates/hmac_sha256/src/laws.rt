//! What holds of the hashes together, as contracts.

ghost use Rattle.std.specs.Prelude.{◌≡◌, ◌+◌, ◌≤◌, ◌++◌, length};
ghost use Rattle.sha256_lanes.specs.Sha256.{sha256};

use crate::hashing::{Hash, MAX_BYTES};
use crate::wrapped::WrappedHash;
use digest_core::{FixedOutput, Update};

/// The wrapped hash gives SHA-256 of the joined pieces, as `Hash` does.
pub fn wrapped_hash_of_pieces(first: &[u8], second: &[u8]) -> [u8; 32]
    requires { length first.now + length second.now ≤ MAX_BYTES }
    ensures { result ≡ sha256 (first.now ++ second.now) }
{
    let mut hash = WrappedHash::from_core(Hash::new());
    hash.update(first);
    hash.update(second);
    let mut digest = [0; 32];
    hash.finalize_into(&mut digest);
    digest
}
