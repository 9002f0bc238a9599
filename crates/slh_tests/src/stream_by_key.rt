//! Messages in pieces, begun by the key.
use crate::keys_128f::{key, public};
use crate::shown::shows;
use slh_dsa::{Error, Mode, Sha2_128f, SigningKey, VerifyingKey};
use slh_stream::{PassError, PieceSigning, PieceVerifying};

const MESSAGE: &[u8] = b"a message";

// Each operation on the set stands here once: a call that names a set is dear to prove.
fn verify(key: &VerifyingKey<Sha2_128f>, mode: Mode, sig: &[u8]) -> Result<(), Error> {
    let mut verifier = key.verifier(mode, b"context", sig)?;
    verifier.update(MESSAGE)?;
    verifier.finish()
}

fn sign(key: &SigningKey<Sha2_128f>, out: &mut [u8]) -> Result<Result<(), PassError>, Error> {
    let mut pass = key.message_signer(b"context", None)?;
    pass.update(MESSAGE)?;
    let mut pass = pass.again();
    pass.update(MESSAGE)?;
    Ok(pass.finish_into(out))
}

fn sign_digest(key: &SigningKey<Sha2_128f>, out: &mut [u8]) -> Result<(), Error> {
    let mut signer = key.digest_signer(Mode::Sha256, b"context", None)?;
    signer.update(MESSAGE)?;
    signer.finish_into(out)
}

#[test]
fn a_key_begins_what_is_signed_and_verified(rt: HostRuntime) {
    let mut sig = [0; 17088];
    let whole = sign(&key(3), &mut sig) == Ok(Ok(()));
    shows(&rt, whole && verify(&public(3), Mode::Pure, &sig) == Ok(()));
}

#[test]
fn a_key_begins_what_is_signed_and_verified_by_a_digest(rt: HostRuntime) {
    let mut sig = [0; 17088];
    let digest = sign_digest(&key(3), &mut sig) == Ok(());
    shows(
        &rt,
        digest && verify(&public(3), Mode::Sha256, &sig) == Ok(()),
    );
}
