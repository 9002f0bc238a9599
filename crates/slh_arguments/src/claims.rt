//! Signatures of files, under the signing key of `--key`.
use crate::names;
use crate::values::{context, mode, required, signature, signing_key};
use clap::ArgMatches;
use slh_host::Failure;
use slh_host::bytes::{ByteString, Key, Mode};
use slh_host::files::Reader;

/// A signature of a file, and the key that it is to be under.
#[derive(Drop)]
pub struct Claim {
    pub key: Key,
    pub mode: Mode,
    pub context: ByteString,
    pub signature: ByteString,
    pub reader: Reader,
}

/// What `--signature` says of the file under the signing key of `--key`.
pub fn own_claim<'a>(rt: &HostRuntime, words: &ArgMatches<'a>) -> Result<Claim, Failure<'a>> {
    let context = context(rt, words)?;
    let key = signing_key(rt, words)?;
    let file = required(words, names::FILE)?;
    let reader = Reader::open(rt, file)?;
    let signature = signature(rt, words, key.set, file)?;
    Ok(Claim {
        key,
        mode: mode(words)?,
        context,
        signature,
        reader,
    })
}
