//! The head that a key signed last of a log, remembered beside the key, and no other head is signed
//! but a growth of it.
ghost use Rattle.std.specs.Prelude.{◌≡◌, IfOk, IsTrue, string_bytes};
ghost use Rattle.slh_log_commands.specs.Writing.{IsBeside};

use crate::error::Refusal;
use crate::file_names::names_at;
use crate::growth::growth_proof;
use crate::holding::{Hold, hold_file};
use crate::log_folder::{LogFolder, MAX_CHECKPOINT};
use crate::proving::unproved;
use crate::resuming::last_tiles;
use crate::watching::head_refusal;
use clap::ArgMatches;
use log_tiles::TileError;
use slh_arguments::bytes::log::Checkpoint;
use slh_arguments::bytes::{ByteString, Key, gather, open_head, verifying_half};
use slh_arguments::host::outputs::{known, unwritten};
use slh_arguments::host::{Failure, HostError, files};
use slh_arguments::{WordError, names, required};
use std::alloc::{AllocError, Global};
use std::fs::File;
use std::io::Read;
use whole_files::{HostFiles, Mode, Written, make_new};

/// The head that was signed last, in its file, which no other run signs after meanwhile.
#[derive(Drop)]
pub struct Last {
    pub path: String,
    /// All bytes of the file: a checkpoint that the key signed.
    pub bytes: ByteString,
    /// What it says.
    pub head: Checkpoint,
    // kept open, and held so
    _file: File,
}

impl Last {
    /// What is wrong with the file.
    pub fn told<'a>(&self, alloc: Global, refusal: Refusal) -> Failure<'a> {
        named(alloc, self.path.as_str(), refusal)
    }
}

// What is wrong with the file at a path.
fn named<'a, E: std::error::Error>(alloc: Global, path: &str, error: E) -> Failure<'a> {
    match String::from_str(alloc, path) {
        Ok(name) => Failure::named(name, error),
        Err(_) => Failure::Memory,
    }
}

// The name beside a key's: that and the origin, in which `_` stands for a slash.
fn name_beside(alloc: Global, key: &str, origin: &str) -> Result<String, AllocError> {
    let mut name = format!(in alloc; "{key}.")?;
    for symbol in origin.chars() {
        name.push(if symbol == '/' { '_' } else { symbol })?;
    }
    name.push_str(".last")?;
    Ok(name)
}

/// Where the head of a log is remembered: the file of `--last`, or one beside the key.
pub fn path_of<'a>(
    rt: &HostRuntime,
    words: &ArgMatches<'a>,
    origin: &str,
) -> Result<String, Failure<'a>> {
    if let Some(path) = words.get_str(names::LAST) {
        return Ok(String::from_str(rt.alloc(), path)?);
    }
    let key = required(words, names::KEY)?;
    if key == files::STANDARD {
        return Err(Failure::option(names::LAST, WordError::NothingBeside));
    }
    Ok(name_beside(rt.alloc(), key, origin)?)
}

// Whether a path, by its text, is neither below a folder nor that of a file that is begun.
fn is_beside(folder: &str, path: &str) -> bool
    ensures { IsTrue result → IsBeside folder.now path.now }
{
    let path = path.as_bytes();
    if path.ends_with(b".part") || path.ends_with(b".part_") {
        return false;
    }
    match path.strip_prefix(folder.as_bytes()) {
        Some(rest) => !rest.starts_with(b"/"),
        None => true,
    }
}

// Whether a file stands below a folder, whatever paths lead there.
fn is_within(rt: &HostRuntime, folder: &str, path: &str) -> Result<bool, AllocError> {
    let (Some(place), Ok(folder)) = (files::place_of(rt, path)?, files::folder_place(rt, folder))
    else {
        return Ok(false);
    };
    match place.as_str().strip_prefix(folder.as_str()) {
        Some(rest) => Ok(rest.starts_with('/')),
        None => Ok(false),
    }
}

// Refuses a file that would be restored with the log, or that is no file of its own.
fn check_place<'a>(folder: LogFolder<'_, 'a>, path: &str) -> Result<(), Failure<'a>>
    ensures { IfOk result (λ _. IsBeside folder.entry.path.now path.now) }
{
    let alloc = folder.rt.alloc();
    if path == files::STANDARD {
        return Err(named(alloc, path, HostError::NotRegular));
    }
    if is_within(folder.rt, folder.path, path)? {
        return Err(named(alloc, path, Refusal::InFolder));
    }
    if !is_beside(folder.path, path) {
        return Err(named(alloc, path, Refusal::NoPlace));
    }
    Ok(())
}

// The file at a path, which no other run has. `None` where nothing stands there.
fn held_file<'a>(rt: &HostRuntime, path: &str) -> Result<Option<File>, Failure<'a>> {
    match hold_file(rt, path) {
        Ok(None) => Ok(None),
        Ok(Some(Hold::Own(file) | Hold::Unknown(file))) => Ok(Some(file)),
        Ok(Some(Hold::Other)) => Err(named(rt.alloc(), path, Refusal::InUse)),
        Err(error) => Err(named(rt.alloc(), path, error)),
    }
}

// Makes the file of a checkpoint where nothing stands, and tells of it.
fn begin<'a>(rt: &HostRuntime, path: &str, checkpoint: &[u8]) -> Result<(), Failure<'a>> {
    let names = names_at(rt, path)?;
    let mut files = HostFiles::new(rt);
    let (place, part) = (names.path.as_str(), names.part.as_str());
    let made = make_new(&mut files, place, part, Mode::Masked, checkpoint);
    let fault = known(files.fault.take());
    match made {
        Ok(Written::Settled) => (),
        Ok(Written::Unsettled) => {
            return Err(named(rt.alloc(), path, HostError::Unsettled(fault)));
        }
        Err(error) => return Err(named(rt.alloc(), path, unwritten(error, fault))),
    }
    let _ = eprintln!(rt; "slh: {path}: it is new, and has the head that was signed last");
    Ok(())
}

// What the file has, where the key signed it under this origin.
fn read<'a>(
    rt: &HostRuntime,
    key: &Key,
    origin: &str,
    path: String,
    file: File,
) -> Result<Last, Failure<'a>>
    ensures { IfOk result (λ last. last.path ≡ path) }
{
    let mut reader = (&file).take(MAX_CHECKPOINT + 1);
    let bytes = match gather(rt.alloc(), &mut reader) {
        Ok(bytes) => bytes,
        Err(error) => return Err(Failure::named(path, error)),
    };
    let half = verifying_half(key.bytes.as_slice());
    match open_head(key.set, half, origin, bytes.as_slice()) {
        Ok(head) => Ok(Last {
            path,
            bytes,
            head,
            _file: file,
        }),
        Err(error) => Err(Failure::named(path, head_refusal(error))),
    }
}

/// The head that was signed last. Where its file isn't there it is begun with a checkpoint, and its
/// name is told.
pub fn last_head<'a>(
    folder: LogFolder<'_, 'a>,
    key: &Key,
    origin: &str,
    path: String,
    checkpoint: &[u8],
) -> Result<Last, Failure<'a>>
    ensures { IfOk result (λ last. IsBeside folder.entry.path.now (string_bytes last.path)) }
{
    let rt = folder.rt;
    check_place(folder, path.as_str())?;
    if let Some(file) = held_file(rt, path.as_str())? {
        return read(rt, key, origin, path, file);
    }
    begin(rt, path.as_str(), checkpoint)?;
    match held_file(rt, path.as_str())? {
        Some(file) => read(rt, key, origin, path, file),
        None => Err(Failure::named(path, Refusal::InUse)),
    }
}

// Why a log with more entries doesn't show that it grew from what was signed last: what it had at
// that size is another head, and it is a fork, or its tiles don't lead there.
fn not_grown<'a>(
    folder: LogFolder<'_, 'a>,
    last: &Last,
    checkpoint: &Checkpoint,
) -> Result<Failure<'a>, Failure<'a>> {
    let size = last.head.size;
    let root = last_tiles(folder, size, checkpoint.size)?.root();
    match growth_proof(folder, &[], &Checkpoint { size, root }, checkpoint) {
        Ok(_) => Ok(last.told(folder.rt.alloc(), Refusal::Fork)),
        Err(error) => Ok(unproved(folder, error)),
    }
}

/// Refuses a log whose checkpoint isn't what was signed last, nor a growth of it, where it has as
/// many entries or more. One that has fewer may go on: [`crate::resuming::push_signed`].
pub fn check_last<'a>(
    folder: LogFolder<'_, 'a>,
    last: &Last,
    checkpoint: &Checkpoint,
) -> Result<(), Failure<'a>> {
    let head = last.head;
    if head.size > checkpoint.size || head == *checkpoint {
        return Ok(());
    }
    if head.size == checkpoint.size {
        return Err(last.told(folder.rt.alloc(), Refusal::Fork));
    }
    match growth_proof(folder, &[], &head, checkpoint) {
        Ok(_) => Ok(()),
        Err(TileError::Differs) => Err(not_grown(folder, last, checkpoint)?),
        Err(error) => Err(unproved(folder, error)),
    }
}
