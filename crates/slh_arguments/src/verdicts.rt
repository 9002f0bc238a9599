//! Verdicts: that of a signature of a file, and how they are told.
ghost use Rattle.std.specs.Prelude.{◌≡◌, IfOk};

use crate::names;
use crate::values::{mode, signature};
use clap::ArgMatches;
use slh_host::Failure;
use slh_host::bytes::{self, Detail, Fallible, Form, Key, Outcome, tell};
use slh_host::files::Reader;
use std::io;

/// Tells a verdict on standard output, in the form that the words ask for.
pub fn report(
    rt: &HostRuntime,
    words: &ArgMatches<'_>,
    outcome: Outcome,
    detail: Detail<'_>,
) -> Result<Outcome, Failure<'static>>
    ensures { IfOk result (λ told. told ≡ outcome) }
{
    let form = if words.get_flag(names::JSON) {
        Form::Json
    } else {
        Form::Text
    };
    match tell(&mut io::writer(rt), rt.alloc(), form, outcome, detail) {
        Ok(told) => Ok(told),
        Err(error) => Err(Failure::told("standard output", error)),
    }
}

/// What is told of a file and its signature under a verifying key. The file is opened first, so that
/// a wrong name isn't told as that of a signature.
pub fn told_of_file<'a>(
    rt: &HostRuntime,
    words: &ArgMatches<'a>,
    key: &Key,
    context: &[u8],
    path: &'a str,
) -> Result<Outcome, Failure<'a>> {
    let reader = Reader::open(rt, path)?;
    let signature = signature(rt, words, key.set, path)?;
    let mode = mode(words)?;
    match bytes::verify(key, mode, context, signature.as_slice(), Fallible(reader)) {
        Ok(is_accepted) => Ok(Outcome::of_signature(is_accepted)),
        Err(error) => Err(Failure::told(path, error)),
    }
}

/// Tells whether a signature is one of the file under a verifying key.
pub fn tell_verdict<'a>(
    rt: &HostRuntime,
    words: &ArgMatches<'a>,
    key: &Key,
    context: &[u8],
    path: &'a str,
) -> Result<Outcome, Failure<'a>> {
    let outcome = told_of_file(rt, words, key, context, path)?;
    report(rt, words, outcome, Detail::Nothing)
}
