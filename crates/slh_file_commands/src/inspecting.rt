//! `slh inspect`.
use crate::error::FileError;
use clap::ArgMatches;
use slh_arguments::bytes::{ByteString, KeyFileError, Outcome, inspected, inspected_under};
use slh_arguments::host::{Failure, files, outputs};
use slh_arguments::{check_inputs, names, passphrase, required};

/// Tells what a key or a signature is. Of a signing key nothing secret is told.
pub fn inspect<'a>(rt: &HostRuntime, words: &ArgMatches<'a>) -> Result<Outcome, Failure<'a>> {
    check_inputs(words, &[])?;
    let path = required(words, names::FILE)?;
    let file = files::read_limited(rt, path)?;
    let told = match inspected(rt.alloc(), file.as_slice()) {
        Err(KeyFileError::Encrypted) => told_of_encrypted(rt, words, file.as_slice())?,
        told => told,
    };
    match told {
        Ok(Some(text)) => outputs::put(rt, files::STANDARD, text.as_slice())?,
        Ok(None) => return Err(Failure::told(path, FileError::NoKeyOrSignature)),
        Err(error) => return Err(Failure::told(path, error)),
    }
    Ok(Outcome::Done)
}

// What is told of a file with an encrypted key.
fn told_of_encrypted<'a>(
    rt: &HostRuntime,
    words: &ArgMatches<'a>,
    file: &[u8],
) -> Result<Result<Option<ByteString>, KeyFileError>, Failure<'a>> {
    match passphrase(rt, words, names::PASSPHRASE_FILE)? {
        Some(passphrase) => Ok(inspected_under(rt.alloc(), &passphrase, file)),
        None => Ok(Err(KeyFileError::Encrypted)),
    }
}
