//! The files of a pair of keys.
use crate::error::WordError;
use crate::names;
use crate::passphrases::{Encryption, secret_file};
use crate::values::required;
use clap::ArgMatches;
use slh_host::bytes::{ByteString, Key, Outcome, Set, verifying_key, verifying_key_file};
use slh_host::{Failure, outputs};

/// The NAME that the words give a new pair. That of a set is none, since it was meant to be a set,
/// nor one whose last part is no file's.
pub fn pair_name<'a>(words: &ArgMatches<'a>) -> Result<&'a str, Failure<'a>> {
    let name = required(words, names::NAME)?;
    if Set::from_name(name.as_bytes()).is_some() {
        return Err(Failure::told(name, WordError::SetAsName));
    }
    let last = match name.rsplit_once('/') {
        Some((_, last)) => last,
        None => name,
    };
    if last.is_empty() || last == "." || last == ".." {
        return Err(Failure::told(name, WordError::NotName));
    }
    Ok(name)
}

/// The file of a verifying key. A key that gives none is told of under a name.
pub fn verifying_file<'a>(
    rt: &HostRuntime,
    key: &Key,
    name: &'a str,
) -> Result<ByteString, Failure<'a>> {
    match verifying_key_file(rt.alloc(), key) {
        Ok(text) => Ok(text),
        Err(error) => Err(Failure::told(name, error)),
    }
}

/// The file of a signing key's verifying key.
pub fn public_file<'a>(
    rt: &HostRuntime,
    key: &Key,
    name: &'a str,
) -> Result<ByteString, Failure<'a>> {
    verifying_file(rt, &verifying_key(rt.alloc(), key)?, name)
}

/// Writes the files of a pair, NAME.key and NAME.pub, neither of which may be there.
pub fn write_pair<'a>(
    rt: &HostRuntime,
    name: &'a str,
    key: &Key,
    encryption: Option<&Encryption>,
) -> Result<Outcome, Failure<'a>> {
    let secret = secret_file(rt, key, encryption, name)?;
    let public = public_file(rt, key, name)?;
    outputs::put_pair(rt, name, &secret, public.as_slice())?;
    Ok(Outcome::Done)
}
