//! Keys of random bytes (FIPS 205, algorithm 21), and keys and signatures by the traits of
//! `signature_core`.
ghost use Rattle.std.specs.Prelude.{◌≡◌, ◌*◌, ◌≤◌, [], None, Some, length, drop, unwrap_or};
ghost use Rattle.rand_core.specs.Stream.{fill_bytes};
ghost use Rattle.slh_core.specs.Steps.{IsFresh};
ghost use Rattle.slh_frames.specs.Frames.{frame};
ghost use Rattle.slh_trees.specs.Keys.{IsTrueKey, signing_key_bytes};
ghost use Rattle.slh_trees.specs.Signing.{signature_of};
ghost use Rattle.slh_core.specs.Refusals.{message_refusal};
ghost use Rattle.slh_dsa.specs.Calls.{verify_error};
ghost use Rattle.slh_dsa.specs.declared.error.Error.TheVariants.{Memory, MessageTooLong};
ghost use Rattle.slh_frames.specs.declared.message.TheConstants.{MAX_MESSAGE};

use crate::checks::zeros;
use crate::error::Error;
use crate::parameter_set::{ParameterSet, SetSizes};
use crate::signature::Signature;
use crate::signing_key::SigningKey;
use crate::verifying_key::VerifyingKey;
use rand_core::Rng;
use signature_core::{KeypairRef, RandomizedSigner, SignatureEncoding, Signer, Verifier};
use slh_core::array::{Array, ArraySize};
use slh_core::nbytes::NBytes;
use slh_core::params::{MAX_N, chain_sizes};
use slh_core::steps::Steps;
use slh_frames::{MAX_MESSAGE, Message, Mode, check_message};
use std::alloc::{AllocError, Global};
use std::marker::Brand;
use std::sync::ledger::{Blank, Ledger};

// The next n bytes of a generator.
fn drawn<P: SetSizes, R: Rng>(rng: &mut R) -> NBytes<P::N>
    ensures value { result ≡ (fill_bytes P.N.USIZE (R.stream rng.old)).0 }
    ensures rest { R.stream rng.new ≡ (fill_bytes P.N.USIZE (R.stream rng.old)).1 }
    ensures len { length result ≡ P.N.USIZE }
{
    chain_sizes::<P>();
    let mut store = [0; MAX_N];
    let bytes = &mut store[..P::N::USIZE];
    rng.fill_bytes(bytes);
    NBytes::exact(bytes)
}

impl<P: SetSizes> SigningKey<P> {
    /// A key of random bytes: a generator fills n bytes for the secret seed, n for the PRF key and n
    /// for the public seed.
    pub fn new<R: Rng>(rng: &mut R) -> Self
        ensures key { let n = P.N.USIZE in
            let sk_seed = fill_bytes n (R.stream rng.old) in
            let sk_prf = fill_bytes n sk_seed.1 in
            let pk_seed = fill_bytes n sk_prf.1 in
            result ≡ signing_key_bytes P.scheme sk_seed.0 sk_prf.0 pk_seed.0 }
        ensures drawn { let n = P.N.USIZE in
            let sk_seed = fill_bytes n (R.stream rng.old) in
            let sk_prf = fill_bytes n sk_seed.1 in
            R.stream rng.new ≡ (fill_bytes n sk_prf.1).1 }
        ensures true_key { IsTrueKey P.scheme result }
        ensures len { length result ≡ 4 * P.N.USIZE }
    {
        let sk_seed = drawn::<P, R>(rng);
        let sk_prf = drawn::<P, R>(rng);
        let pk_seed = drawn::<P, R>(rng);
        SigningKey::slh_keygen_internal(
            sk_seed.as_slice(),
            sk_prf.as_slice(),
            pk_seed.as_slice(),
        ).unwrap()
    }
}

impl<P: ParameterSet> SigningKey<P> {
    // The signature of a message in these bytes, by n random ones, on a counter that is made here.
    fn sign_drawn<R: Rng, L: Ledger>(
        &self,
        rng: &mut R,
        msg: &[u8],
        mut bytes: Array<u8, P::SigLen>,
        blank: Blank,
    ) -> Signature<P>
        requires message { length msg.now ≤ MAX_MESSAGE }
        requires fresh { IsFresh blank L.name L.parts }
        ensures value { let drawn = fill_bytes P.N.USIZE (R.stream rng.old) in
            result ≡ signature_of P.scheme self.now (Some drawn.0) (frame [] msg.now) }
        ensures drawn { R.stream rng.new ≡ (fill_bytes P.N.USIZE (R.stream rng.old)).1 }
    {
        let opt_rand = drawn::<P, R>(rng);
        let mut steps = Steps::<L>::new(blank);
        let message = Message::fitting(Mode::Pure, msg, b"");
        let opt_rand = Some(opt_rand.as_slice());
        self.sign_checked_counted(&message, opt_rand, bytes.as_mut_slice(), &mut steps);
        Signature::from_array(bytes)
    }
}

/// Signs with an empty context, and without random bytes.
impl<P: ParameterSet> Signer<Signature<P>> for SigningKey<P> {
    type Error = Error;

    ghost signs = { λ _ msg. length msg ≤ MAX_MESSAGE };

    ghost signature = { λ key msg. signature_of P.scheme key None (frame [] msg) };

    ghost may_refuse = { λ _ msg e. e ≡ unwrap_or (message_refusal MessageTooLong msg) Memory };

    fn try_sign(&self, alloc: Global, msg: &[u8]) -> Result<Signature<P>, Error> {
        self.try_sign_with_context(alloc, msg, b"", None)
    }
}

/// Signs with an empty context, and with n random bytes.
impl<P: ParameterSet> RandomizedSigner<Signature<P>> for SigningKey<P> {
    type Error = Error;

    ghost signs = { λ _ msg. length msg ≤ MAX_MESSAGE };

    ghost draws = { λ _ _ stream. fill_bytes P.N.USIZE stream };

    ghost signature = { λ key msg drawn. signature_of P.scheme key (Some drawn) (frame [] msg) };

    ghost may_refuse = { λ _ msg e. e ≡ unwrap_or (message_refusal MessageTooLong msg) Memory };

    fn try_sign_with_rng<R: Rng>(
        &self,
        alloc: Global,
        rng: &mut R,
        msg: &[u8],
    ) -> Result<Signature<P>, Error> {
        check_message(msg, Error::MessageTooLong)?;
        let bytes = zeros::<P::SigLen>(alloc)?;
        Ok(self.sign_drawn::<R, Brand>(rng, msg, bytes, Blank::new(1)))
    }
}

impl<P: SetSizes> KeypairRef for SigningKey<P> {
    type VerifyingKey = VerifyingKey<P>;

    ghost verifying_key = { λ key. drop (2 * P.N.USIZE) key };

    fn verifying_key(&self) -> VerifyingKey<P> {
        SigningKey::verifying_key(self)
    }
}

/// Verifies with an empty context.
impl<P: ParameterSet> Verifier<Signature<P>> for VerifyingKey<P> {
    type Error = Error;

    ghost accepts = { λ key msg sig. verify_error P.scheme key [] msg sig ≡ None };

    ghost may_refuse = { λ key msg sig e. verify_error P.scheme key [] msg sig ≡ Some e };

    fn verify(&self, msg: &[u8], signature: &Signature<P>) -> Result<(), Error> {
        self.try_verify_with_context(msg, b"", signature)
    }
}

impl<P: ParameterSet> SignatureEncoding for Signature<P> {
    type Size = P::SigLen;

    ghost encoding = { λ sig. sig };

    fn to_bytes(&self, alloc: Global) -> Result<Array<u8, P::SigLen>, AllocError> {
        Signature::to_bytes(self, alloc)
    }

    fn to_vec(&self, alloc: Global) -> Result<Vec<u8>, AllocError> {
        Signature::to_vec(self, alloc)
    }

    fn encoded_len(&self) -> usize {
        self.as_slice().len()
    }
}
