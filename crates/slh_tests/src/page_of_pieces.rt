// The example of the page of `slh_stream`.
use crate::keys_128f::{key, public};
use crate::shown::shows;
use slh_dsa::{Error, Mode, Sha2_128f, SigningKey, VerifyingKey};
use slh_stream::{FirstPass, MessageVerifier, PassError};

fn signed(
    key: &SigningKey<Sha2_128f>,
    first: &[u8],
    second: &[u8],
    out: &mut [u8],
) -> Result<Result<(), PassError>, Error> {
    let mut pass = FirstPass::new(key, b"context", None)?;
    pass.update(first)?;
    pass.update(second)?;
    let mut pass = pass.again();
    pass.update(first)?;
    pass.update(second)?;
    Ok(pass.finish_into(out))
}

fn verified(
    key: &VerifyingKey<Sha2_128f>,
    sig: &[u8],
    first: &[u8],
    second: &[u8],
) -> Result<(), Error> {
    let mut verifier = MessageVerifier::new(key, Mode::Pure, b"context", sig)?;
    verifier.update(first)?;
    verifier.update(second)?;
    verifier.finish()
}

fn is_signed_and_verified() -> Result<bool, Error> {
    let mut sig = [0; 17_088];
    let answer = signed(&key(3), b"a first piece, ", b"and a second", &mut sig)?;
    verified(&public(3), &sig, b"a first", b" piece, and a second")?;
    Ok(answer == Ok(()))
}

#[test]
fn example_of_the_page(rt: HostRuntime) {
    shows(&rt, is_signed_and_verified() == Ok(true));
}
