//! Messages that are handed in piece by piece, over any set. Each operation stands here once.
ghost use Rattle.std.specs.Prelude.{◌≤◌};

use hybrid_array::ArraySize;
use slh_core::params::chain_sizes;
use slh_dsa::{Error, Mode, SetSizes, SigningKey, VerifyingKey};
use slh_sets::SetSuite;
use slh_stream::{
    DigestSigner, FirstPass, MessageVerifier, PassError, SecondPass, SuspendedVerifier,
};

/// What is signed, and how. A message that is signed as it is has no digest.
#[derive(Clone, Copy)]
pub(crate) struct Signing<'a> {
    pub(crate) mode: Mode,
    pub(crate) ctx: &'a [u8],
    pub(crate) opt_rand: Option<&'a [u8]>,
    pub(crate) message: &'a [u8],
    pub(crate) digest: &'a [u8],
}

/// The key of three seeds, which repeat 1, 2 and 3.
pub(crate) fn key<P: SetSizes>() -> Result<SigningKey<P>, Error> {
    chain_sizes::<P>();
    let n = P::N::USIZE;
    SigningKey::slh_keygen_internal(&[1; 32][..n], &[2; 32][..n], &[3; 32][..n])
}

fn first_pass<'a, P: SetSuite>(
    key: &'a SigningKey<P>,
    signing: &Signing<'_>,
) -> Result<FirstPass<'a, P>, Error> {
    let (first, second) = signing.message.split_at(signing.message.len() / 2);
    let mut pass = FirstPass::<P>::new(key, signing.ctx, signing.opt_rand)?;
    pass.update(first)?;
    pass.update(second)?;
    Ok(pass)
}

fn take<P: SetSuite>(pass: &mut SecondPass<'_, P>, message: &[u8]) -> Result<(), Error> {
    let (first, second) = message.split_at(message.len() / 3);
    pass.update(first)?;
    pass.update(second)
}

// Signs in two passes, each of which is given pieces of its own.
fn sign_in_passes<P: SetSuite>(
    key: &SigningKey<P>,
    signing: &Signing<'_>,
    out: &mut [u8],
) -> Result<Result<(), PassError>, Error> {
    let mut pass = first_pass(key, signing)?.again();
    take(&mut pass, signing.message)?;
    Ok(pass.finish_into(out))
}

fn sign_by_digest<P: SetSizes>(
    key: &SigningKey<P>,
    signing: &Signing<'_>,
    out: &mut [u8],
) -> Result<(), Error> {
    let (first, second) = signing.message.split_at(signing.message.len() / 2);
    let mut signer = DigestSigner::<P>::new(key, signing.mode, signing.ctx, signing.opt_rand)?;
    signer.update(first)?;
    signer.update(second)?;
    signer.finish_into(out)
}

/// Whether a message in pieces is signed, in any mode.
pub(crate) fn is_signed<P: SetSuite>(
    key: &SigningKey<P>,
    signing: &Signing<'_>,
    out: &mut [u8],
) -> bool {
    match signing.mode {
        Mode::Pure => sign_in_passes(key, signing, out) == Ok(Ok(())),
        _ => sign_by_digest(key, signing, out).is_ok(),
    }
}

// What verifying a message in two pieces answers.
fn verify<P: SetSuite>(
    key: &VerifyingKey<P>,
    signing: &Signing<'_>,
    sig: &[u8],
) -> Result<(), Error> {
    let (first, second) = signing.message.split_at(signing.message.len().min(2));
    let mut verifier = MessageVerifier::<P>::new(key, signing.mode, signing.ctx, sig)?;
    verifier.update(first)?;
    verifier.update(second)?;
    verifier.finish()
}

// Whether a call of a verifier that was put aside was made, and accepts.
fn is_good(answer: Option<Result<(), Error>>) -> bool {
    answer == Some(Ok(()))
}

// Whether a verifier accepts that is put aside before each of two pieces, and a copy of it.
fn is_accepted_aside<P: SetSuite>(
    key: &VerifyingKey<P>,
    signing: &Signing<'_>,
    sig: &[u8],
) -> bool {
    let mode = signing.mode;
    let Ok(verifier) = MessageVerifier::<P>::new(key, mode, signing.ctx, sig) else {
        return false;
    };
    let mut state = SuspendedVerifier::new(verifier);
    let (first, second) = signing.message.split_at(signing.message.len().min(2));
    is_good(state.update::<P>(mode, first))
        && is_good(state.update::<P>(mode, second))
        && is_good(state.copy().finish::<P>(mode, sig))
}

/// Whether a signature of a message in pieces is accepted.
pub(crate) fn is_accepted<P: SetSuite>(
    key: &VerifyingKey<P>,
    signing: &Signing<'_>,
    sig: &[u8],
) -> bool {
    verify(key, signing, sig).is_ok() && is_accepted_aside(key, signing, sig)
}
