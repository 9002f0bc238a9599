//! `slh sign` and `slh verify`.
use crate::envelopes::{check_payload_output, sign_envelope, told_of_envelope};
use crate::error::FileError;
use clap::ArgMatches;
use slh_arguments::bytes::{
    ByteString, Detail, Doubt, Fallible, Input, Key, Mode, Outcome, ReadError, SigningTerms,
    audited, sign_inputs,
};
use slh_arguments::host::files::{self, FromStart, Reader};
use slh_arguments::host::{Failure, outputs};
use slh_arguments::{
    Randomness, SIGNATURE_END, WordError, check_inputs, check_output, context, mode, names, report,
    required, required_all, signing_key, told_of_file, verifying_key,
};
use std::alloc::Global;
use std::fs::File;

// What names an input of `sign`, which its output isn't written over.
const SIGN_INPUTS: [&str; 3] = [names::KEY, names::PASSPHRASE_FILE, names::FILE];

/// Signs a file. The signature goes to `--output`, else to FILE.sig, or from standard input to
/// standard output; with `--dsse` an envelope.
pub fn sign<'a>(rt: &HostRuntime, words: &ArgMatches<'a>) -> Result<Outcome, Failure<'a>> {
    check_inputs(words, &[])?;
    let path = required(words, names::FILE)?;
    if let Some(payload_type) = words.get_str(names::DSSE) {
        return sign_envelope(rt, words, path, payload_type);
    }
    check_output_of(rt, words, path, SIGNATURE_END)?;
    let context = context(rt, words)?;
    let key = signing_key(rt, words)?;
    let signature = made(rt, words, path, key, context)?;
    put(rt, words, path, SIGNATURE_END, signature.as_slice())
}

/// Refuses an output at the place of an input, and one beside what is no regular file, which has the
/// file's name and this ending.
pub(crate) fn check_output_of<'a>(
    rt: &HostRuntime,
    words: &ArgMatches<'a>,
    path: &'a str,
    end: &'static str,
) -> Result<(), Failure<'a>> {
    if let Some(output) = words.get_str(names::OUTPUT) {
        return check_output(rt, words, &SIGN_INPUTS, output);
    }
    if path == files::STANDARD {
        return Ok(());
    }
    if files::is_stream(rt, path) {
        return Err(Failure::told(path, FileError::NowhereBeside));
    }
    let output = format!(in rt.alloc(); "{path}{end}")?;
    check_output(rt, words, &SIGN_INPUTS, output.as_str())
}

// The signature of a file, in the way that the words ask for.
fn made<'a>(
    rt: &HostRuntime,
    words: &ArgMatches<'a>,
    path: &'a str,
    key: Key,
    context: ByteString,
) -> Result<ByteString, Failure<'a>> {
    let reader = Reader::open(rt, path)?;
    let mode = mode(words)?;
    let randomness = Randomness::new(rt, words)?;
    let terms = SigningTerms {
        key: &key,
        mode,
        context: context.as_slice(),
        opt_rand: randomness.of_set(key.set),
    };
    match reader.into_regular() {
        Ok(file) => of_file(rt, words, path, &terms, &file),
        Err(reader) => of_stream(rt, words, path, &terms, reader),
    }
}

// What isn't read again.
const NOTHING: &[u8] = b"";

// A regular file, from its start.
fn from_start<'f>(rt: &HostRuntime, file: &'f File) -> Fallible<FromStart<'f>> {
    Fallible(FromStart::new(rt, file))
}

// The signature of a regular file. For an audit the file is read once more.
fn of_file<'a>(
    rt: &HostRuntime,
    words: &ArgMatches<'a>,
    path: &'a str,
    terms: &SigningTerms<'_, '_>,
    file: &File,
) -> Result<ByteString, Failure<'a>> {
    let (first, second) = (from_start(rt, file), from_start(rt, file));
    let signature = signed(rt.alloc(), path, terms, first, second)?;
    if !words.get_flag(names::AUDIT) {
        return Ok(signature);
    }
    match audited(terms, from_start(rt, file), signature) {
        Ok(signature) => Ok(signature),
        Err(Doubt::Foreign) => Err(Failure::told(path, FileError::Fault)),
        Err(Doubt::Invalid(made)) => Err(why_invalid(rt, path, terms, file, made.as_slice())),
        Err(Doubt::Unread(error)) => Err(Failure::told(path, error)),
    }
}

// The signature of what two inputs give, which has to be the same.
fn signed<'a, R: Input + Drop, S: Input + Drop>(
    alloc: Global,
    path: &'a str,
    terms: &SigningTerms<'_, '_>,
    first: R,
    second: S,
) -> Result<ByteString, Failure<'a>> {
    match sign_inputs(alloc, terms, first, second) {
        Ok(signature) => Ok(signature),
        Err(error) => Err(Failure::told(path, error)),
    }
}

// Why a signature that was just made is not accepted. R, its first n bytes, comes from the whole
// file: where it is another one now, the file changed.
fn why_invalid<'a>(
    rt: &HostRuntime,
    path: &'a str,
    terms: &SigningTerms<'_, '_>,
    file: &File,
    signature: &[u8],
) -> Failure<'a> {
    let (first, second) = (from_start(rt, file), from_start(rt, file));
    match signed(rt.alloc(), path, terms, first, second) {
        Ok(again) if is_same_front(signature, again.as_slice(), terms.key.set.n()) => {
            Failure::told(path, FileError::Fault)
        }
        Ok(_) => Failure::told(path, ReadError::Changed),
        Err(failure) => failure,
    }
}

fn is_same_front(one: &[u8], other: &[u8], n: usize) -> bool {
    one.iter().zip(other).take(n).all(|(a, b)| a == b)
}

// The signature of what can be read only once: by its digest it is read in pieces, else it is kept
// whole in memory.
fn of_stream<'a>(
    rt: &HostRuntime,
    words: &ArgMatches<'a>,
    path: &'a str,
    terms: &SigningTerms<'_, '_>,
    reader: Reader,
) -> Result<ByteString, Failure<'a>> {
    if terms.mode != Mode::Pure && !words.get_flag(names::AUDIT) {
        return signed(rt.alloc(), path, terms, Fallible(reader), NOTHING);
    }
    let message = reader.whole(rt, path)?;
    signed_bytes(rt, words, path, terms, message.as_slice())
}

/// The signature of bytes in memory, which passed an audit where the words ask for one.
pub(crate) fn signed_bytes<'a>(
    rt: &HostRuntime,
    words: &ArgMatches<'a>,
    path: &'a str,
    terms: &SigningTerms<'_, '_>,
    message: &[u8],
) -> Result<ByteString, Failure<'a>> {
    let signature = signed(rt.alloc(), path, terms, message, message)?;
    if !words.get_flag(names::AUDIT) {
        return Ok(signature);
    }
    match audited(terms, message, signature) {
        Ok(signature) => Ok(signature),
        Err(Doubt::Foreign | Doubt::Invalid(_)) => Err(Failure::told(path, FileError::Fault)),
        Err(Doubt::Unread(error)) => Err(Failure::told(path, error)),
    }
}

/// Writes bytes where the words say, or else where the file's name and this ending do.
pub(crate) fn put<'a>(
    rt: &HostRuntime,
    words: &ArgMatches<'a>,
    path: &'a str,
    end: &'static str,
    bytes: &[u8],
) -> Result<Outcome, Failure<'a>> {
    if let Some(output) = words.get_str(names::OUTPUT) {
        outputs::put(rt, output, bytes)?;
    } else if path == files::STANDARD {
        outputs::put(rt, path, bytes)?;
    } else {
        outputs::put_beside(rt, path, end, bytes)?;
    }
    Ok(Outcome::Done)
}

// What the files are of which verdicts are told.
#[derive(Clone, Copy)]
enum Claims<'c> {
    // Each has its signature, under this context.
    Signatures(&'c [u8]),
    // Each is an envelope, of this type.
    Envelopes(&'c str),
}

// What is told of one of them.
fn told_of<'a>(
    rt: &HostRuntime,
    words: &ArgMatches<'a>,
    key: &Key,
    claims: Claims<'_>,
    path: &'a str,
) -> Result<Outcome, Failure<'a>> {
    match claims {
        Claims::Signatures(context) => told_of_file(rt, words, key, context, path),
        Claims::Envelopes(payload_type) => told_of_envelope(rt, words, key, payload_type, path),
    }
}

/// Tells whether a signature is one of a file, or of each file whether its own is; with `--dsse`
/// whether files are envelopes that the key signed.
pub fn verify<'a>(rt: &HostRuntime, words: &ArgMatches<'a>) -> Result<Outcome, Failure<'a>> {
    let paths = required_all(words, names::FILES)?;
    check_inputs(words, paths)?;
    let context = context(rt, words)?;
    let key = verifying_key(rt, words)?;
    let claims = match words.get_str(names::DSSE) {
        Some(payload_type) => Claims::Envelopes(payload_type),
        None => Claims::Signatures(context.as_slice()),
    };
    if let [path] = paths {
        return verify_one(rt, words, &key, claims, *path);
    }
    for option in [names::SIGNATURE, names::PAYLOAD] {
        if words.get_str(option).is_some() {
            return Err(Failure::option(option, WordError::OneFile));
        }
    }
    verify_each(rt, words, &key, claims, paths)
}

// Tells the verdict of a file. Where its payload goes to standard output, that is all that does.
fn verify_one<'a>(
    rt: &HostRuntime,
    words: &ArgMatches<'a>,
    key: &Key,
    claims: Claims<'_>,
    path: &'a str,
) -> Result<Outcome, Failure<'a>> {
    check_payload_output(rt, words, path)?;
    let outcome = told_of(rt, words, key, claims, path)?;
    if outcome == Outcome::Accepted && words.get_str(names::PAYLOAD) == Some(files::STANDARD) {
        return Ok(outcome);
    }
    report(rt, words, outcome, Detail::Nothing)
}

// Tells a verdict of each file, or why there is none.
fn verify_each<'a>(
    rt: &HostRuntime,
    words: &ArgMatches<'a>,
    key: &Key,
    claims: Claims<'_>,
    paths: &[&'a str],
) -> Result<Outcome, Failure<'a>> {
    let (mut all, mut is_refused) = (Outcome::Accepted, false);
    for path in paths {
        match told_of(rt, words, key, claims, *path) {
            Ok(outcome) => {
                report(rt, words, outcome, Detail::Name(*path))?;
                if outcome != Outcome::Accepted {
                    all = outcome;
                }
            }
            Err(failure) => {
                let _ = eprintln!(rt; "slh: {failure}");
                is_refused = true;
            }
        }
    }
    if is_refused {
        return Err(Failure::alone(WordError::Unverified));
    }
    Ok(all)
}
