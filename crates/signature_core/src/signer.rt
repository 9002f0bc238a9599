//! Keys that sign.
ghost use Rattle.std.specs.Prelude.{◌≡◌, ℕ, List, IfOk, IfErr, OnOk, OnErr};
ghost use Rattle.rand_core.specs.Stream.{Stream};

use rand_core::Rng;
use std::alloc::Global;

/// A key that signs a message by itself, without random bytes.
pub trait Signer<S> {
    /// Why there is no signature.
    type Error;

    // The messages that the key signs.
    ghost signs: { Self → List ℕ → Type 0 };

    // The signature that the key and a message determine.
    ghost signature: { Self → List ℕ → S };

    // The errors that the key may give for a message.
    ghost may_refuse: { Self → List ℕ → Self.Error → Type 0 };

    /// The signature of a message.
    fn try_sign(&self, alloc: Global, msg: &[u8]) -> Result<S, Self::Error>
        ensures signs { OnOk result (signs self.now msg.now) }
        ensures value { IfOk result (λ made. made ≡ signature self.now msg.now) }
        ensures refusal { IfErr result (λ e. may_refuse self.now msg.now e) };
}

/// A key that signs a message with random bytes, which it draws from a generator.
pub trait RandomizedSigner<S> {
    /// Why there is no signature.
    type Error;

    // The messages that the key signs.
    ghost signs: { Self → List ℕ → Type 0 };

    // The bytes that signing a message draws from a generator, and what the generator will answer
    // after that.
    ghost draws: { Self → List ℕ → Stream → List ℕ × Stream };

    // The signature that the key, a message and the drawn bytes determine.
    ghost signature: { Self → List ℕ → List ℕ → S };

    // The errors that the key may give for a message.
    ghost may_refuse: { Self → List ℕ → Self.Error → Type 0 };

    /// The signature of a message, by bytes of the generator. After a refusal none is drawn.
    fn try_sign_with_rng<R: Rng>(
        &self,
        alloc: Global,
        rng: &mut R,
        msg: &[u8],
    ) -> Result<S, Self::Error>
        ensures signs { OnOk result (signs self.now msg.now) }
        ensures value { let drawn = draws self.now msg.now (R.stream rng.old) in
            IfOk result (λ made. made ≡ signature self.now msg.now drawn.0) }
        ensures drawn { let drawn = draws self.now msg.now (R.stream rng.old) in
            OnOk result (R.stream rng.new ≡ drawn.1) }
        ensures refusal { IfErr result (λ e. may_refuse self.now msg.now e) }
        ensures unchanged { OnErr result (rng.new ≡ rng.old) };
}
