// The example of the page of `slh_dsa`.
use crate::shown::shows;
use slh_dsa::{Error, Sha2_128f, Signature, SigningKey, VerifyingKey};
use std::alloc::Global;

fn signed(alloc: Global, seeds: &[u8; 48]) -> Result<(Vec<u8>, Vec<u8>), Error> {
    let (sk_seed, rest) = seeds.split_at(16);
    let (sk_prf, pk_seed) = rest.split_at(16);
    let key = SigningKey::<Sha2_128f>::slh_keygen_internal(sk_seed, sk_prf, pk_seed)?;
    let signature = key.try_sign_with_context(alloc, b"message", b"context", None)?;
    let public = key.verifying_key().to_vec(alloc)?;
    Ok((public, signature.to_vec(alloc)?))
}

fn verified(alloc: Global, public: &[u8], signature: &[u8]) -> Result<(), Error> {
    let key = VerifyingKey::<Sha2_128f>::try_from(public)?;
    let signature = Signature::try_from(alloc, signature)?;
    key.try_verify_with_context(b"message", b"context", &signature)
}

fn signed_and_verified(alloc: Global, seeds: &[u8; 48]) -> Result<(), Error> {
    let (public, signature) = signed(alloc, seeds)?;
    verified(alloc, &public, &signature)
}

#[test]
fn example_of_the_page(rt: HostRuntime) {
    shows(&rt, signed_and_verified(rt.alloc(), &[1; 48]) == Ok(()));
}
