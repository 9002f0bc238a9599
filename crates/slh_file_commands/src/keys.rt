//! `slh keygen`, `slh key` and `slh public`.
use crate::error::FileError;
use clap::ArgMatches;
use slh_arguments::bytes::{Outcome, ReadError, Set, made_key};
use slh_arguments::host::{Failure, files, outputs, random};
use slh_arguments::{
    Encryption, check_inputs, check_output, names, pair_name, public_file, required, secret_file,
    set_of, signing_key, write_pair,
};

// The set of a new key where no other one is named.
const DEFAULT_SET: Set = Set::Sha2_128s;

/// Makes a key of random bytes: NAME.key and NAME.pub. Where one can't be made neither is left.
pub fn keygen<'a>(rt: &HostRuntime, words: &ArgMatches<'a>) -> Result<Outcome, Failure<'a>> {
    let name = pair_name(words)?;
    let is_named = words.get_str(names::SET).is_some();
    let set = if is_named {
        set_of(words)?
    } else {
        DEFAULT_SET
    };
    let encryption = Encryption::new(rt, words, names::PASSPHRASE_FILE)?;
    let key = match made_key(rt.alloc(), set, &random::<96>(rt)?) {
        Ok(key) => key,
        Err(error) => return Err(Failure::told(name, ReadError::Refused(error))),
    };
    let outcome = write_pair(rt, name, &key, encryption.as_ref())?;
    if !is_named {
        let set = set.name();
        let _ = eprintln!(rt; "slh: a key of {set}; --set takes another");
    }
    Ok(outcome)
}

/// Writes a signing key anew, encrypted where `--new-passphrase-file` says by what, and else in the
/// open.
pub fn key<'a>(rt: &HostRuntime, words: &ArgMatches<'a>) -> Result<Outcome, Failure<'a>> {
    check_inputs(words, &[])?;
    let path = required(words, names::KEY)?;
    let output = required(words, names::OUTPUT)?;
    if output == files::STANDARD {
        return Err(Failure::told(output, FileError::KeyNeedsFile));
    }
    let key = signing_key(rt, words)?;
    let encryption = Encryption::new(rt, words, names::NEW_PASSPHRASE_FILE)?;
    let secret = secret_file(rt, &key, encryption.as_ref(), path)?;
    outputs::put_secret(rt, output, &secret)?;
    Ok(Outcome::Done)
}

/// Writes the verifying key of a signing key.
pub fn public<'a>(rt: &HostRuntime, words: &ArgMatches<'a>) -> Result<Outcome, Failure<'a>> {
    check_inputs(words, &[])?;
    let path = required(words, names::KEY)?;
    let output = words.get_str(names::OUTPUT).unwrap_or(files::STANDARD);
    check_output(rt, words, &[names::KEY, names::PASSPHRASE_FILE], output)?;
    let key = signing_key(rt, words)?;
    let public = public_file(rt, &key, path)?;
    outputs::put_verifying_key(rt, output, public.as_slice())?;
    Ok(Outcome::Done)
}
