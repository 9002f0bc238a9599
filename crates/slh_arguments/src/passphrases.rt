//! Passphrases in files, and what the file of a signing key is encrypted by.
use crate::error::WordError;
use crate::names;
use clap::ArgMatches;
use slh_host::bytes::passphrase::{Iterations, Passphrase};
use slh_host::bytes::{Key, SecretText, encrypted_key_file, signing_key_file};
use slh_host::{Failure, files, random};

// How many first bytes of a file tell its passphrase: the longest one, and the end of its line.
const MOST: u64 = Passphrase::MAX_LEN as u64 + 2;

/// The passphrase of the file that an option names, where it is given.
pub fn passphrase<'a>(
    rt: &HostRuntime,
    words: &ArgMatches<'a>,
    option: &'static str,
) -> Result<Option<Passphrase>, Failure<'a>> {
    let Some(path) = words.get_str(option) else {
        return Ok(None);
    };
    let text = files::read_first_line(rt, path, MOST)?;
    match Passphrase::of_text(rt.alloc(), text.as_slice()) {
        Ok(passphrase) => Ok(Some(passphrase)),
        Err(error) => Err(Failure::told(path, error)),
    }
}

/// What the file of a signing key is encrypted by.
#[derive(Drop)]
pub struct Encryption {
    passphrase: Passphrase,
    iterations: Iterations,
}

impl Encryption {
    /// By the passphrase of the file that an option names, where it is given, and `--iterations`,
    /// which goes with that option alone.
    pub fn new<'a>(
        rt: &HostRuntime,
        words: &ArgMatches<'a>,
        option: &'static str,
    ) -> Result<Option<Self>, Failure<'a>> {
        let iterations = iterations(words, option)?;
        match passphrase(rt, words, option)? {
            Some(passphrase) => Ok(Some(Encryption {
                passphrase,
                iterations,
            })),
            None => Ok(None),
        }
    }
}

// The number of `--iterations`, or else the usual one.
fn iterations(
    words: &ArgMatches<'_>,
    option: &'static str,
) -> Result<Iterations, Failure<'static>> {
    let Some(text) = words.get_str(names::ITERATIONS) else {
        return Ok(Iterations::standard());
    };
    if words.get_str(option).is_none() {
        return Err(Failure::option(names::ITERATIONS, WordError::NoPassphrase));
    }
    match counted(text) {
        Some(iterations) => Ok(iterations),
        None => Err(Failure::option(names::ITERATIONS, WordError::Iterations)),
    }
}

fn counted(text: &str) -> Option<Iterations> {
    match text.parse::<u32>() {
        Ok(count) => Iterations::new(count),
        Err(_) => None,
    }
}

/// The file of a signing key, which is encrypted where that is asked for. A key that gives none is
/// told of under a name.
pub fn secret_file<'a>(
    rt: &HostRuntime,
    key: &Key,
    encryption: Option<&Encryption>,
    name: &'a str,
) -> Result<SecretText, Failure<'a>> {
    let made = match encryption {
        Some(by) => {
            let (salt, iv) = (random::<16>(rt)?, random::<16>(rt)?);
            encrypted_key_file(rt.alloc(), key, &by.passphrase, &salt, &iv, &by.iterations)
        }
        None => signing_key_file(rt.alloc(), key),
    };
    match made {
        Ok(secret) => Ok(secret),
        Err(error) => Err(Failure::told(name, error)),
    }
}
