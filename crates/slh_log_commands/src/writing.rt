//! Files of a log that are written, and the checkpoint last.
ghost use Rattle.std.specs.Prelude.{◌≡◌, IfOk, IsTrue, length, map, string_bytes};
ghost use Rattle.log_files.specs.Appending.{named};
ghost use Rattle.log_files.specs.Names.{AreSuch, IsName};
ghost use Rattle.whole_files.specs.Parts.{HasPartEnd};
ghost use Rattle.slh_log_commands.specs.Writing.{AreNamesOf, ArePiecesOf, AreWritten, IsBeside};
ghost use Rattle.slh_log_commands.specs.Writing.{IsHeadNew, StandAll};
ghost use Rattle.whole_files.specs.Files.{Files};

use crate::error::Refusal;
use crate::file_names::{Names, names_at, names_of};
use crate::log_folder::{CHECKPOINT, LogFolder};
use log_files::{FolderError, LogFile, Piece, PublishError, make_folder, publish};
use slh_arguments::host::outputs::{known, unwritten};
use slh_arguments::host::{Failure, HostError};
use std::alloc::{AllocError, Global};
use whole_files::{FileSystem, HostFiles, Mode, WriteError, Written, make_new};

/// Makes a folder below the folder of a log, or this one where the name is empty.
pub fn need_folder<'a>(folder: LogFolder<'_, 'a>, name: &str) -> Result<(), Failure<'a>> {
    let path = if name.is_empty() {
        String::from_str(folder.rt.alloc(), folder.path)?
    } else {
        folder.path_of(name)?
    };
    let mut files = HostFiles::new(folder.rt);
    match make_folder(&mut files, path.as_str()) {
        Ok(()) => Ok(()),
        Err(FolderError::NoFolder) => Err(folder.told(name, Refusal::NoFolder)),
        Err(_) => Err(folder.told(name, known(files.fault.take()))),
    }
}

// Makes the folders that a file stands in, but for those that were made already.
fn need_parents<'n, 'a>(
    folder: LogFolder<'_, 'a>,
    name: &'n str,
    made: &mut Vec<&'n str>,
) -> Result<(), Failure<'a>> {
    for (at, _) in name.match_indices('/') {
        let Some(parent) = name.get(..at) else {
            continue;
        };
        if !made.contains(&parent) {
            need_folder(folder, parent)?;
            made.push(parent).map_err(AllocError::from)?;
        }
    }
    Ok(())
}

// Makes the folders that files stand in.
fn need_folders<'a>(folder: LogFolder<'_, 'a>, log_files: &[LogFile]) -> Result<(), Failure<'a>> {
    let mut made: Vec<&str> = Vec::new(folder.rt.alloc());
    for file in log_files {
        need_parents(folder, file.name.as_str(), &mut made)?;
    }
    Ok(())
}

// Makes the checkpoint of a new log, where nothing stands.
fn put_checkpoint<'a, F: FileSystem>(
    files: &mut F,
    folder: LogFolder<'_, 'a>,
    bytes: &[u8],
) -> Result<Result<Written, WriteError>, Failure<'a>>
    // Wherever everything stops, the checkpoint has what it had, or it stands whole where nothing
    // stood.
    requires permitted { IsTrue F.tells → (n : Files)
        → IsHeadNew (F.files files.old) folder.path.now bytes.now n → F.permits n }
    ensures head_is_new { IsTrue F.tells
        → IsHeadNew (F.files files.old) folder.entry.path.now bytes.now (F.files files.new) }
{
    let names = names_of(folder, CHECKPOINT)?;
    let (path, part) = (names.path.as_str(), names.part.as_str());
    Ok(make_new(files, path, part, Mode::Masked, bytes))
}

/// Makes the checkpoint of a new log, where nothing stands.
pub fn make_checkpoint<'a>(folder: LogFolder<'_, 'a>, bytes: &[u8]) -> Result<(), Failure<'a>> {
    let mut files = HostFiles::new(folder.rt);
    match put_checkpoint(&mut files, folder, bytes)? {
        Ok(Written::Settled) => Ok(()),
        Ok(Written::Unsettled) => {
            let fault = known(files.fault.take());
            Err(Failure::beside(folder.path, "/checkpoint", HostError::Unsettled(fault)))
        }
        Err(WriteError::Taken) => Err(Failure::told(folder.path, Refusal::Exists)),
        Err(error) => {
            let fault = known(files.fault.take());
            Err(folder.told(CHECKPOINT, unwritten(error, fault)))
        }
    }
}

// What is wrong with the file of a log that has this place, or with the one beside it.
fn piece_failure<'a>(
    folder: LogFolder<'_, 'a>,
    log_files: &[LogFile],
    last: Names,
    i: usize,
    error: HostError,
) -> Failure<'a> {
    match log_files.get(i) {
        Some(file) => folder.told(file.name.as_str(), error),
        None => Failure::named(last.path, error),
    }
}

// The names of files.
fn all_names<'a>(
    folder: LogFolder<'_, 'a>,
    log_files: &[LogFile],
) -> Result<Vec<Names>, Failure<'a>>
    ensures { IfOk result (λ names. AreNamesOf folder.entry.path.now log_files.now names.items) }
{
    let mut names = Vec::new(folder.rt.alloc());
    for file in log_files {
        names
            .push(names_of(folder, file.name.as_str())?)
            .map_err(AllocError::from)?;
    }
    Ok(names)
}

// The pieces that files with these names are.
fn pieces_of<'f>(
    alloc: Global,
    log_files: &'f [LogFile],
    names: &'f [Names],
) -> Result<Vec<Piece<'f>>, AllocError>
    requires { length names.now ≡ length log_files.now }
    ensures { IfOk result (λ pieces. ArePiecesOf log_files.now names.now pieces.items) }
{
    let mut pieces = Vec::new(alloc);
    for i in 0..log_files.len() {
        let (file, names) = (&log_files[i], &names[i]);
        let piece = Piece {
            path: names.path.as_str(),
            part: names.part.as_str(),
            bytes: file.bytes.as_slice(),
        };
        pieces.push(piece).map_err(AllocError::from)?;
    }
    Ok(pieces)
}

// Writes files whole below a folder, in their order, then the checkpoint to the file beside the log,
// and then the checkpoint itself.
fn put_files<'a, F: FileSystem>(
    files: &mut F,
    folder: LogFolder<'_, 'a>,
    log_files: &[LogFile],
    last: &Names,
    checkpoint: &[u8],
) -> Result<Result<Written, PublishError>, Failure<'a>>
    requires names { AreSuch IsName (map named log_files.now) }
    requires beside { IsBeside folder.path.now (string_bytes last.now.path) }
    requires part { HasPartEnd (string_bytes last.now.part) }

    // Wherever everything stops, the checkpoint has what it had, or it, the file beside and all
    // files of the log stand whole; and the file beside has what it had, or it and all files do.
    requires permitted { IsTrue F.tells → (n : Files) → AreWritten (F.files files.old)
        folder.path.now (map named log_files.now) (string_bytes last.now.path) checkpoint.now n
        → F.permits n }
    ensures head_is_last { IsTrue F.tells → AreWritten (F.files files.old)
        folder.entry.path.now (map named log_files.now) (string_bytes last.now.path)
        checkpoint.now (F.files files.new) }
    ensures done { IsTrue F.tells → IfOk result (λ published. IfOk published (λ _.
        StandAll folder.entry.path.now (map named log_files.now) (string_bytes last.now.path)
        checkpoint.now (F.files files.new))) }
{
    let names = all_names(folder, log_files)?;
    let mut pieces = pieces_of(folder.rt.alloc(), log_files, names.as_slice())?;
    let last = Piece {
        path: last.path.as_str(),
        part: last.part.as_str(),
        bytes: checkpoint,
    };
    pieces.push(last).map_err(AllocError::from)?;
    let head = names_of(folder, CHECKPOINT)?;
    let head = Piece {
        path: head.path.as_str(),
        part: head.part.as_str(),
        bytes: checkpoint,
    };
    Ok(publish(files, pieces.as_slice(), &head))
}

/// Writes files whole, in their order, then the checkpoint to the file beside the log, where the
/// head is remembered, and then the checkpoint itself.
pub fn write_files<'a>(
    folder: LogFolder<'_, 'a>,
    log_files: &[LogFile],
    last: &str,
    checkpoint: &[u8],
) -> Result<(), Failure<'a>>
    requires names { AreSuch IsName (map named log_files.now) }
    requires beside { IsBeside folder.path.now last.now }
{
    need_folders(folder, log_files)?;
    let last = names_at(folder.rt, last)?;
    let mut files = HostFiles::new(folder.rt);
    let published = put_files(&mut files, folder, log_files, &last, checkpoint)?;
    let fault = known(files.fault.take());
    match published {
        Ok(Written::Settled) => Ok(()),
        Ok(Written::Unsettled) => Err(Failure::beside(
            folder.path,
            "/checkpoint",
            HostError::Unsettled(fault),
        )),
        Err(PublishError::AtPiece(i, error)) => {
            Err(piece_failure(folder, log_files, last, i, unwritten(error, fault)))
        }
        Err(PublishError::Unsettled(i)) => {
            Err(piece_failure(folder, log_files, last, i, HostError::System(fault)))
        }
        Err(PublishError::AtHead(error)) => Err(folder.told(CHECKPOINT, unwritten(error, fault))),
    }
}
