//! `slh log init` and `slh log append`.
ghost use Rattle.std.specs.Prelude.{IfOk, OnOk, string_bytes};
ghost use Rattle.log_files.specs.Names.{HaveFullNames};
ghost use Rattle.slh_log_commands.specs.Writing.{IsBeside};

use crate::error::Refusal;
use crate::growth::growth_proof;
use crate::last::{Last, check_last, last_head, path_of};
use crate::leftovers::{Leftovers, remove_left};
use crate::lock;
use crate::log_folder::{CHECKPOINT, LogFolder};
use crate::proving::unproved;
use crate::resuming::{push_signed, resume};
use crate::signing::{own_checkpoint, sign_after, signed};
use crate::writing::{make_checkpoint, need_folder, write_files};
use clap::ArgMatches;
use log_files::{AppendError, Appending};
use merkle_tree::{Sha256, TreeHash};
use slh_arguments::bytes::log::Checkpoint;
use slh_arguments::bytes::{Key, Outcome};
use slh_arguments::host::{Failure, files};
use slh_arguments::{
    Randomness, WordError, check_inputs, names, required, required_all, signing_key,
};

// The checkpoint of no entries.
fn first_checkpoint<'a>(
    folder: LogFolder<'_, 'a>,
    words: &ArgMatches<'a>,
    key: &Key,
) -> Result<Vec<u8>, Failure<'a>> {
    let origin = required(words, names::ORIGIN)?;
    let randomness = Randomness::new(folder.rt, words)?;
    let head = Checkpoint {
        size: 0,
        root: Sha256::empty(),
    };
    signed(folder, key, origin, head, &randomness)
}

// Remembers the checkpoint of a log without entries, and makes it, where the key signed no other
// head of that log.
fn begin<'a>(
    folder: LogFolder<'_, 'a>,
    words: &ArgMatches<'a>,
    key: &Key,
    checkpoint: &[u8],
) -> Result<(), Failure<'a>> {
    if folder.has_name(CHECKPOINT)? {
        return Err(Failure::told(folder.path, Refusal::Exists));
    }
    let origin = required(words, names::ORIGIN)?;
    let path = path_of(folder.rt, words, origin)?;
    let last = last_head(folder, key, origin, path, checkpoint)?;
    if last.head.size > 0 {
        return Err(last.told(folder.rt.alloc(), Refusal::Begun));
    }
    make_checkpoint(folder, checkpoint)
}

/// Begins a log in a folder.
pub fn init<'s, 'a>(
    rt: &'s HostRuntime,
    words: &'s ArgMatches<'a>,
) -> Result<Outcome, Failure<'a>> {
    check_inputs(words, &[])?;
    let folder = LogFolder::of(rt, words)?;
    let key = signing_key(rt, words)?;
    path_of(rt, words, required(words, names::ORIGIN)?)?;
    let checkpoint = first_checkpoint(folder, words, &key)?;
    need_folder(folder, "")?;
    let lock = lock::take(folder, false)?;
    let made = begin(folder, words, &key, checkpoint.as_slice());
    lock::free_after(folder, lock, made)
}

// Adds an entry.
fn push<'a>(log: &mut Appending<Sha256>, path: &'a str, entry: &[u8]) -> Result<(), Failure<'a>>
    requires names { HaveFullNames log.old.tiles.count log.old.bundles.items
        log.old.full_tiles.items }
    ensures names { OnOk result (HaveFullNames log.new.tiles.count log.new.bundles.items
        log.new.full_tiles.items) }
{
    match log.push(entry) {
        Ok(()) => Ok(()),
        Err(AppendError::TooLong) => Err(Failure::told(path, Refusal::EntryTooLong)),
        Err(AppendError::Full) => Err(Failure::told(path, Refusal::Full)),
        Err(AppendError::Memory) => Err(Failure::Memory),
    }
}

// Adds each line of some bytes, without its line feed.
fn push_lines<'a>(
    log: &mut Appending<Sha256>,
    path: &'a str,
    bytes: &[u8],
) -> Result<(), Failure<'a>>
    requires names { HaveFullNames log.old.tiles.count log.old.bundles.items
        log.old.full_tiles.items }
    ensures names { OnOk result (HaveFullNames log.new.tiles.count log.new.bundles.items
        log.new.full_tiles.items) }
{
    let bytes = bytes.strip_suffix(b"\n").unwrap_or(bytes);
    for line in bytes.split(|byte| *byte == b'\n') {
        push(log, path, line)?;
    }
    Ok(())
}

// Adds what a file has: one entry, or one of each line.
fn push_file<'a>(
    folder: LogFolder<'_, 'a>,
    log: &mut Appending<Sha256>,
    path: &'a str,
    is_lines: bool,
) -> Result<(), Failure<'a>>
    requires names { HaveFullNames log.old.tiles.count log.old.bundles.items
        log.old.full_tiles.items }
    ensures names { OnOk result (HaveFullNames log.new.tiles.count log.new.bundles.items
        log.new.full_tiles.items) }
{
    if is_lines {
        let bytes = files::read(folder.rt, path)?;
        if bytes.is_empty() {
            return Ok(());
        }
        return push_lines(log, path, bytes.as_slice());
    }
    let bytes = files::read_limited(folder.rt, path)?;
    push(log, path, bytes.as_slice())
}

// The log of a checkpoint, with what was signed last and with the files added.
fn grown<'a>(
    folder: LogFolder<'_, 'a>,
    words: &ArgMatches<'a>,
    checkpoint: &Checkpoint,
    last: &Last,
    paths: &[&'a str],
) -> Result<Appending<Sha256>, Failure<'a>>
    ensures names { IfOk result (λ log.
        HaveFullNames log.tiles.count log.bundles.items log.full_tiles.items) }
{
    let mut log = resume(folder, checkpoint)?;
    push_signed(folder, &mut log, last)?;
    let is_lines = words.get_flag(names::LINES);
    for path in paths {
        push_file(folder, &mut log, *path, is_lines)?;
    }
    Ok(log)
}

// Signs the head of a log that grew, and writes its files.
fn publish<'a>(
    folder: LogFolder<'_, 'a>,
    key: &Key,
    origin: &str,
    randomness: &Randomness,
    last: &Last,
    log: Appending<Sha256>,
) -> Result<(), Failure<'a>>
    requires names { HaveFullNames log.tiles.count log.bundles.items log.full_tiles.items }
    requires beside { IsBeside folder.path.now (string_bytes last.now.path) }
{
    let head = Checkpoint {
        size: log.len(),
        root: log.root(),
    };
    let Ok(log_files) = log.finish() else {
        return Err(Failure::Memory);
    };
    let proof = match growth_proof(folder, log_files.as_slice(), &last.head, &head) {
        Ok(proof) => proof,
        Err(error) => return Err(unproved(folder, error)),
    };
    let (old, proof) = (last.bytes.as_slice(), proof.as_slice());
    let checkpoint = sign_after(folder, key, origin, old, proof, head, randomness)?;
    write_files(
        folder,
        log_files.as_slice(),
        last.path.as_str(),
        checkpoint.as_slice(),
    )
}

// Refuses an entry that would be written over.
fn check_entries<'a>(rt: &HostRuntime, last: &Last, paths: &[&'a str]) -> Result<(), Failure<'a>> {
    for path in paths {
        if files::are_one(rt, path, last.path.as_str()) {
            return Err(Failure::told(path, WordError::OverInput));
        }
    }
    Ok(())
}

// Adds the files to the log of a folder, whose lock is held.
fn append_to<'a>(
    folder: LogFolder<'_, 'a>,
    words: &ArgMatches<'a>,
    key: &Key,
    randomness: &Randomness,
    paths: &[&'a str],
) -> Result<(), Failure<'a>> {
    let head = folder.head()?;
    let checkpoint = own_checkpoint(folder, key, &head)?;
    let origin = head.origin.as_str();
    let path = path_of(folder.rt, words, origin)?;
    let last = last_head(folder, key, origin, path, head.bytes.as_slice())?;
    check_entries(folder.rt, &last, paths)?;
    check_last(folder, &last, &checkpoint)?;
    let log = grown(folder, words, &checkpoint, &last, paths)?;
    let (before, size) = (checkpoint.size, log.len());
    if size == before {
        return Ok(());
    }
    publish(folder, key, origin, randomness, &last, log)?;
    let left = Leftovers {
        signed: size,
        published: size,
    };
    remove_left(folder, left, before)
}

/// Adds entries to a log, and signs its head.
pub fn append<'s, 'a>(
    rt: &'s HostRuntime,
    words: &'s ArgMatches<'a>,
) -> Result<Outcome, Failure<'a>> {
    let folder = LogFolder::of(rt, words)?;
    let paths = required_all(words, names::FILES)?;
    check_inputs(words, paths)?;
    let key = signing_key(rt, words)?;
    let randomness = Randomness::new(rt, words)?;
    folder.head()?;
    let lock = lock::take(folder, words.get_flag(names::BREAK_LOCK))?;
    let done = append_to(folder, words, &key, &randomness, paths);
    lock::free_after(folder, lock, done)
}
