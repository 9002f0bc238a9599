//! Keys of SLH-DSA-SHA2-128f. Each operation on the set stands here once: a call that names a set is
//! dear to prove.
use slh_dsa::{Sha2_128f, SigningKey, VerifyingKey};

/// The key of three seeds, which repeat a number, 2 and another number.
pub(crate) fn key_of(sk_seed: u8, pk_seed: u8) -> SigningKey<Sha2_128f> {
    SigningKey::slh_keygen_internal(&[sk_seed; 16], &[2; 16], &[pk_seed; 16]).unwrap()
}

/// The key of three seeds, which repeat 1, 2 and a number.
pub(crate) fn key(number: u8) -> SigningKey<Sha2_128f> {
    key_of(1, number)
}

/// The verifying key of it.
pub(crate) fn public(number: u8) -> VerifyingKey<Sha2_128f> {
    key(number).verifying_key()
}
