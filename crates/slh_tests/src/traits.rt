//! Keys and signatures by the bounds of `signature_core`, with bytes of a generator that counts.
use crate::shown::shows;
use crate::worked::{KEY, signing_key};
use rand_core::Rng;
use signature_core::counter::Counter;
use signature_core::{KeypairRef, RandomizedSigner, Signer, Verifier};
use slh_dsa::{Signature, SigningKey};
use slh_merkle::toy::Toy;
use std::alloc::Global;

// Whether the verifying key of a key accepts a signature that was made of the message.
fn accepts<S: Drop, K: KeypairRef>(key: &K, made: Option<S>) -> bool
where
    K::VerifyingKey: Verifier<S> + Drop,
    <K::VerifyingKey as Verifier<S>>::Error: Drop,
{
    match made {
        Some(made) => key.verifying_key().verify(b"Hello", &made).is_ok(),
        None => false,
    }
}

// A signature by the bound, without random bytes.
fn signed<S: Drop, K: Signer<S>>(alloc: Global, key: &K) -> Option<S>
where
    K::Error: Drop,
{
    key.try_sign(alloc, b"Hello").ok()
}

// A signature by the bound, with bytes of a generator.
fn signed_with_rng<S: Drop, K: RandomizedSigner<S>>(
    alloc: Global,
    key: &K,
    rng: &mut Counter,
) -> Option<S>
where
    K::Error: Drop,
{
    key.try_sign_with_rng(alloc, rng, b"Hello").ok()
}

fn accepts_own(alloc: Global, key: &SigningKey<Toy>, rng: &mut Counter) -> bool {
    let plain: Option<Signature<Toy>> = signed(alloc, key);
    let randomized: Option<Signature<Toy>> = signed_with_rng(alloc, key, rng);
    accepts(key, plain) && accepts(key, randomized)
}

// The first byte of the generator is the randomizer.
fn is_own_accepted(alloc: Global) -> bool {
    let mut rng = Counter::new(8);
    match signing_key(&KEY) {
        Ok(key) => accepts_own(alloc, &key, &mut rng) && rng.next_u32() == 9,
        Err(_) => false,
    }
}

#[test]
fn signatures_by_the_bounds_are_accepted(rt: HostRuntime) {
    shows(&rt, is_own_accepted(rt.alloc()));
}
