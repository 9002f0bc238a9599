//! `slh ring`: the keys that one master secret gives.
ghost use Rattle.std.specs.Prelude.{length};
ghost use Rattle.slh_arguments.specs.Rings.{NamesText};

use clap::ArgMatches;
use slh_arguments::bytes::ring::{MAX_MASTER, Path, RestoreError, RingError};
use slh_arguments::bytes::{
    ByteString, Key, Outcome, RecordError, SecretText, Set, digits_of, key_at, push_hex_line,
    record_of, restored_paths,
};
use slh_arguments::host::{Failure, files, outputs, random};
use slh_arguments::{
    Encryption, check_inputs, check_output, names, pair_name, required, required_all, set_of,
    write_pair,
};
use std::alloc::{AllocError, Global};

// What is wrong with a master, a path, or a record.
#[derive(Clone, Copy, Debug, thiserror::Error)]
enum Refusal {
    #[error("not a master secret in hexadecimal")]
    NotMaster,
    #[error("a master goes to a file of mode 600")]
    MasterNeedsFile,
    #[error("not up to 8 numbers with slashes, or .")]
    NotPath,
    #[error("it stands twice")]
    Twice,
    #[error("a ring has 64 paths")]
    Full,
    #[error("not a line SET RECORD")]
    NotRecord,
    #[error("not a record of its set")]
    NotOfItsSet,
    /// The path of this number, from 0, has another key under this master.
    #[error("not of this master, or changed: path {0}")]
    OtherMaster(u32),
}

// The master of a file, which has it in hexadecimal.
fn master<'a>(rt: &HostRuntime, words: &ArgMatches<'a>) -> Result<ByteString, Failure<'a>> {
    let path = required(words, names::MASTER)?;
    let file = files::read_limited(rt, path)?;
    match digits_of(rt.alloc(), file.as_slice())? {
        Some(bytes) if !bytes.is_empty() && bytes.len() <= MAX_MASTER => Ok(bytes),
        _ => Err(Failure::told(path, Refusal::NotMaster)),
    }
}

/// Makes a master secret of 32 random bytes.
pub fn make_master<'a>(rt: &HostRuntime, words: &ArgMatches<'a>) -> Result<Outcome, Failure<'a>> {
    let path = required(words, names::FILE)?;
    if path == files::STANDARD {
        return Err(Failure::told(path, Refusal::MasterNeedsFile));
    }
    let mut line = ByteString::new(rt.alloc());
    push_hex_line(&mut line, b"", &random::<32>(rt)?)?;
    outputs::put_secret(rt, path, &SecretText::new(line))?;
    Ok(Outcome::Done)
}

/// Makes the key at a path again, and writes it as `keygen` does.
pub fn key<'a>(rt: &HostRuntime, words: &ArgMatches<'a>) -> Result<Outcome, Failure<'a>> {
    check_inputs(words, &[])?;
    let text = required(words, names::PATH)?;
    let Some(path) = Path::from_text(text.as_bytes()) else {
        return Err(Failure::told(text, Refusal::NotPath));
    };
    let name = pair_name(words)?;
    let encryption = Encryption::new(rt, words, names::PASSPHRASE_FILE)?;
    let key = derived(rt, words, &path)?;
    write_pair(rt, name, &key, encryption.as_ref())
}

fn derived<'a>(rt: &HostRuntime, words: &ArgMatches<'a>, path: &Path) -> Result<Key, Failure<'a>> {
    let set = set_of(words)?;
    let master = master(rt, words)?;
    let bytes = key_at(rt.alloc(), set, master.as_slice(), path)?;
    Ok(Key { set, bytes })
}

// Why no record is made of the paths of these words.
fn record_failure<'a>(texts: &[&'a str], error: RecordError) -> Failure<'a>
    requires { NamesText (length texts.now) error }
{
    match error {
        RecordError::Text(i) => Failure::told(texts[i], Refusal::NotPath),
        RecordError::Ring(i, error) => ring_failure(texts[i], error),
        RecordError::Memory => Failure::Memory,
    }
}

fn ring_failure<'a>(text: &'a str, error: RingError) -> Failure<'a> {
    match error {
        RingError::Present => Failure::told(text, Refusal::Twice),
        RingError::Full => Failure::told(text, Refusal::Full),
        RingError::Memory => Failure::Memory,
    }
}

/// Writes the line `SET RECORD` of the ring of some paths.
pub fn record<'a>(rt: &HostRuntime, words: &ArgMatches<'a>) -> Result<Outcome, Failure<'a>> {
    let paths = required_all(words, names::PATHS)?;
    let output = words.get_str(names::OUTPUT).unwrap_or(files::STANDARD);
    check_output(rt, words, &[names::MASTER], output)?;
    let set = set_of(words)?;
    let master = master(rt, words)?;
    match record_of(rt.alloc(), set, master.as_slice(), paths) {
        Ok(record) => put_record(rt, output, set, &record),
        Err(error) => Err(record_failure(paths, error)),
    }
}

fn put_record<'a>(
    rt: &HostRuntime,
    output: &'a str,
    set: Set,
    record: &[u8],
) -> Result<Outcome, Failure<'a>> {
    let mut line = ByteString::from_slice(rt.alloc(), set.name().as_bytes())?;
    push_hex_line(&mut line, b" ", record)?;
    outputs::put(rt, output, line.as_slice())?;
    Ok(Outcome::Done)
}

// The set and the record of a line `SET RECORD`.
fn record_in(alloc: Global, file: &[u8]) -> Result<Option<(Set, ByteString)>, AllocError> {
    let Some(at) = file.iter().position(|b| *b == b' ') else {
        return Ok(None);
    };
    let Some(set) = Set::from_name(&file[..at]) else {
        return Ok(None);
    };
    match digits_of(alloc, &file[at..])? {
        Some(bytes) => Ok(Some((set, bytes))),
        None => Ok(None),
    }
}

/// Writes the paths of a record, where their keys under the master are those that were recorded.
pub fn restore<'a>(rt: &HostRuntime, words: &ArgMatches<'a>) -> Result<Outcome, Failure<'a>> {
    check_inputs(words, &[])?;
    let path = required(words, names::FILE)?;
    let master = master(rt, words)?;
    let (set, record) = record_at(rt, path)?;
    match restored_paths(rt.alloc(), set, master.as_slice(), record.as_slice()) {
        Ok(text) => outputs::put(rt, files::STANDARD, text.as_slice())?,
        Err(error) => return Err(restore_failure(path, error)),
    }
    Ok(Outcome::Done)
}

// The set and the record of a file.
fn record_at<'a>(rt: &HostRuntime, path: &'a str) -> Result<(Set, ByteString), Failure<'a>> {
    let file = files::read_limited(rt, path)?;
    match record_in(rt.alloc(), file.as_slice())? {
        Some(found) => Ok(found),
        None => Err(Failure::told(path, Refusal::NotRecord)),
    }
}

fn restore_failure<'a>(path: &'a str, error: RestoreError) -> Failure<'a> {
    match error {
        RestoreError::Form => Failure::told(path, Refusal::NotOfItsSet),
        RestoreError::Mismatch(i) => Failure::told(path, Refusal::OtherMaster(i)),
        RestoreError::Memory => Failure::Memory,
    }
}
