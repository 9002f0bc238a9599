//! Ids of keys.
ghost use Rattle.std.specs.Prelude.{◌≡◌, IfOk};
ghost use Rattle.std.specs.String.{string_bytes};
ghost use Rattle.slh_envelope.specs.Sealing.{key_id as spec_key_id};

use hmac_sha256::Hash;
use slh_core::array::ArraySize;
use slh_core::params::{MAX_N, chain_sizes};
use slh_dsa::{SetSizes, VerifyingKey};
use std::alloc::{AllocError, Global};

/// The id of a key: the SHA-256 of its 2n bytes, in hexadecimal with small letters.
pub fn key_id<P: SetSizes>(alloc: Global, vk: &VerifyingKey<P>) -> Result<String, AllocError>
    ensures { IfOk result (λ id. string_bytes id ≡ spec_key_id vk.now) }
{
    chain_sizes::<P>();
    let mut room = [0u8; 2 * MAX_N];
    let bytes = &mut room[..2 * P::N::USIZE];
    vk.write_to(bytes);
    hex::encode(alloc, &Hash::hash(bytes))
}
