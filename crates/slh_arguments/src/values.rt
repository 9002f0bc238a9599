//! What the words of a command stand for.
use crate::error::WordError;
use crate::names;
use crate::passphrases::passphrase;
use clap::ArgMatches;
use slh_host::bytes::{
    ByteString, Key, KeyFileError, Kind, MAX_CONTEXT, Mode, Set, batch, chain, digits_of, log,
    manifest, read_key, read_signature, read_signing_key, read_signing_key_under,
};
use slh_host::{Failure, files};

/// What is put behind the name of a file for the name of its signature.
pub const SIGNATURE_END: &str = ".sig";

/// What is put behind the name of a file for the name of its receipt.
pub const RECEIPT_END: &str = ".receipt";

/// The contexts that batches, chains, logs and manifests are signed under: each crate that signs
/// under one of its own has it in this list.
const RESERVED_CONTEXTS: [&[u8]; 4] = [
    batch::CONTEXT,
    chain::CONTEXT,
    log::CONTEXT,
    manifest::CONTEXT,
];

/// What names an input, in any command.
const INPUTS: [&str; 15] = [
    names::KEY,
    names::PASSPHRASE_FILE,
    names::NEW_PASSPHRASE_FILE,
    names::SIGNATURE,
    names::HEAD,
    names::RECEIPT,
    names::CHAIN,
    names::SUBJECT,
    names::MANIFEST,
    names::MASTER,
    names::CHECKPOINT,
    names::OLD,
    names::NEW,
    names::PROOF,
    names::FILE,
];

/// A value that the command requires.
pub fn required<'a>(
    words: &ArgMatches<'a>,
    name: &'static str,
) -> Result<&'a str, Failure<'static>> {
    match words.get_str(name) {
        Some(value) => Ok(value),
        None => Err(Failure::told(name, WordError::Missing)),
    }
}

/// The values that the command requires, one or more.
pub fn required_all<'s, 'a>(
    words: &'s ArgMatches<'a>,
    name: &'static str,
) -> Result<&'s [&'a str], Failure<'static>> {
    match words.get_strs(name) {
        Some(values) => Ok(values),
        None => Err(Failure::told(name, WordError::Missing)),
    }
}

/// The set of `--set`.
pub fn set_of(words: &ArgMatches<'_>) -> Result<Set, Failure<'static>> {
    match Set::from_name(required(words, names::SET)?.as_bytes()) {
        Some(set) => Ok(set),
        None => Err(Failure::option(names::SET, WordError::NoSet)),
    }
}

/// Refuses words by which more than one file is standard input, and files among them.
pub fn check_inputs(words: &ArgMatches<'_>, paths: &[&str]) -> Result<(), Failure<'static>> {
    let mut inputs = paths
        .iter()
        .filter(|path| **path == files::STANDARD)
        .count();
    for name in INPUTS {
        if words.get_str(name) == Some(files::STANDARD) {
            inputs = inputs.saturating_add(1);
        }
    }
    if inputs > 1 {
        return Err(Failure::alone(WordError::TwoInputs));
    }
    Ok(())
}

/// Refuses an output at the place of an input of these names.
pub fn check_output<'a>(
    rt: &HostRuntime,
    words: &ArgMatches<'a>,
    names: &[&str],
    output: &str,
) -> Result<(), Failure<'a>> {
    for name in names {
        if let Some(input) = words.get_str(name)
            && files::are_one(rt, input, output)
        {
            return Err(Failure::told(input, WordError::OverInput));
        }
    }
    Ok(())
}

/// Whether the file or its digest is signed.
pub fn mode(words: &ArgMatches<'_>) -> Result<Mode, Failure<'static>> {
    match words.get_str(names::PREHASH) {
        Some("sha256") => Ok(Mode::Sha256),
        Some("sha512") => Ok(Mode::Sha512),
        Some(_) => Err(Failure::option(names::PREHASH, WordError::NoHash)),
        None => Ok(Mode::Pure),
    }
}

/// The context of `--context` or `--context-hex`, or none. Those of batches, chains, logs and
/// manifests are refused: what they sign is nothing else's.
pub fn context(rt: &HostRuntime, words: &ArgMatches<'_>) -> Result<ByteString, Failure<'static>> {
    let context = match words.get_str(names::CONTEXT_HEX) {
        Some(digits) => match digits_of(rt.alloc(), digits.as_bytes())? {
            Some(bytes) => bytes,
            None => {
                return Err(Failure::option(names::CONTEXT_HEX, WordError::NotHexadecimal));
            }
        },
        None => {
            let context = words.get_str(names::CONTEXT).unwrap_or("");
            ByteString::from_slice(rt.alloc(), context.as_bytes())?
        }
    };
    if context.len() > MAX_CONTEXT {
        return Err(Failure::alone(WordError::ContextTooLong));
    }
    if RESERVED_CONTEXTS.contains(&context.as_slice()) {
        return Err(Failure::alone(WordError::ReservedContext));
    }
    Ok(context)
}

/// The key of a file.
pub fn key_of_kind<'a>(rt: &HostRuntime, kind: Kind, path: &'a str) -> Result<Key, Failure<'a>> {
    let file = files::read_limited(rt, path)?;
    match read_key(rt.alloc(), kind, file.as_slice()) {
        Ok(key) => Ok(key),
        Err(error) => Err(Failure::told(path, error)),
    }
}

/// The verifying key of `--key` or `--key-text`.
pub fn verifying_key<'a>(rt: &HostRuntime, words: &ArgMatches<'a>) -> Result<Key, Failure<'a>> {
    let Some(text) = words.get_str(names::KEY_TEXT) else {
        return match words.get_str(names::KEY) {
            Some(path) => key_of_kind(rt, Kind::Verifying, path),
            None => Err(Failure::option(names::KEY, WordError::KeyMissing)),
        };
    };
    match read_key(rt.alloc(), Kind::Verifying, text.as_bytes()) {
        Ok(key) => Ok(key),
        Err(error) => Err(Failure::option(names::KEY_TEXT, error)),
    }
}

/// The signing key of `--key`, whose root is that of its own seeds. Where it is encrypted it is
/// decrypted with the passphrase of `--passphrase-file`.
pub fn signing_key<'a>(rt: &HostRuntime, words: &ArgMatches<'a>) -> Result<Key, Failure<'a>> {
    let path = required(words, names::KEY)?;
    let file = files::read_limited(rt, path)?;
    let key = match read_signing_key(rt.alloc(), file.as_slice()) {
        Err(KeyFileError::Encrypted) => decrypted(rt, words, file.as_slice())?,
        key => key,
    };
    match key {
        Ok(key) => Ok(key),
        Err(error) => Err(Failure::told(path, error)),
    }
}

// The signing key of a file with an encrypted one.
fn decrypted<'a>(
    rt: &HostRuntime,
    words: &ArgMatches<'a>,
    file: &[u8],
) -> Result<Result<Key, KeyFileError>, Failure<'a>> {
    match passphrase(rt, words, names::PASSPHRASE_FILE)? {
        Some(passphrase) => Ok(read_signing_key_under(rt.alloc(), &passphrase, file)),
        None => Ok(Err(KeyFileError::Encrypted)),
    }
}

// The file of an option, or where it is left out what stands beside a file, as a path and an ending.
fn named_or_beside<'a>(
    words: &ArgMatches<'a>,
    name: &'static str,
    file: &'a str,
    end: &'static str,
) -> Result<(&'a str, &'static str), Failure<'a>> {
    if let Some(path) = words.get_str(name) {
        return Ok((path, ""));
    }
    if file == files::STANDARD {
        return Err(Failure::option(name, WordError::NothingBeside));
    }
    Ok((file, end))
}

/// The file of `--receipt`, or FILE.receipt, as a path and an ending.
pub fn receipt_name<'a>(words: &ArgMatches<'a>) -> Result<(&'a str, &'static str), Failure<'a>> {
    named_or_beside(
        words,
        names::RECEIPT,
        required(words, names::FILE)?,
        RECEIPT_END,
    )
}

/// The signature of a file: that of `--signature`, or of FILE.sig, of the length that the set's have.
pub fn signature<'a>(
    rt: &HostRuntime,
    words: &ArgMatches<'a>,
    set: Set,
    file: &'a str,
) -> Result<ByteString, Failure<'a>> {
    let (path, end) = named_or_beside(words, names::SIGNATURE, file, SIGNATURE_END)?;
    let file = files::read_beside(rt, path, end)?;
    let signature = read_signature(rt.alloc(), set, file)?;
    if signature.len() == set.signature_len() {
        Ok(signature)
    } else {
        let error = WordError::NotSignature(set.name(), set.signature_len());
        Err(Failure::beside(path, end, error))
    }
}
