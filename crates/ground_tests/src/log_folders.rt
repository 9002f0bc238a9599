//! The folders of a log, and its lock.
use crate::shown::{shows, shows_at};
use crate::whole_memory::{COUNT, NEVER, are_put, has, is_free};
use log_files::{FolderError, Piece, free_lock, make_folder, take_lock};
use std::alloc::Global;
use whole_files::{FileSystem, Kind, MemFiles, WriteError};

// The text of a lock.
const HOLDER: &[u8] = b"process 7";

// What is shown of files, where a call fails, or everything stops at one.
#[derive(Clone, Copy)]
enum Fact {
    Made,
    NewFails,
    OldFails,
    OneWriter,
    LockStops,
}

// Of the calls the one with this number fails, and all from `stop` on. One function owns the files,
// of which each that does has to drop all.
fn holds(alloc: Global, fact: Fact, call: u64, stop: u64) -> bool {
    let Ok(fails) = vec![in alloc; call] else {
        return false;
    };
    let mut files = MemFiles::new(alloc, fails, stop);
    are_put(&mut files) && holds_of(&mut files, fact, call, stop)
}

fn holds_of(files: &mut MemFiles, fact: Fact, call: u64, stop: u64) -> bool {
    match fact {
        Fact::Made => folders_are_made(files),
        Fact::NewFails => folder_fails(files, call),
        Fact::OldFails => old_folder_fails(files, call),
        Fact::OneWriter => one_writer(files),
        Fact::LockStops => lock_stops(files, stop),
    }
}

fn is_folder(files: &mut MemFiles, path: &str) -> bool {
    match files.stat(path) {
        Ok(Some(stat)) => stat.kind == Kind::Folder,
        _ => false,
    }
}

// A folder is made and stays, and nothing else is taken for one.
fn folders_are_made(files: &mut MemFiles) -> bool {
    make_folder(files, "new").is_ok()
        && is_folder(files, "new")
        && files.is_settled()
        && files.count() == COUNT + 1
        && make_folder(files, "new").is_ok()
        && make_folder(files, "folder").is_ok()
        && make_folder(files, "at") == Err(FolderError::NoFolder)
        && make_folder(files, "link") == Err(FolderError::NoFolder)
        && files.count() == COUNT + 1
}

// What comes of a folder whose call with this number fails: it is made, and its name brought to the
// disk.
fn folder_fails(files: &mut MemFiles, call: u64) -> bool {
    let made = make_folder(files, "new");
    match call {
        0 => made == Err(FolderError::Failed) && files.count() == COUNT,
        1 => made == Err(FolderError::Unsettled) && files.count() == COUNT + 1,
        _ => made == Ok(()) && files.calls() == 2,
    }
}

// What comes of a folder that may stand there, whose call with this number fails: it is to be made,
// is looked at, and its name brought to the disk.
fn old_folder_fails(files: &mut MemFiles, call: u64) -> bool {
    let made = make_folder(files, "folder");
    let is_told = match call {
        0 | 1 => made == Err(FolderError::Failed),
        2 => made == Err(FolderError::Unsettled),
        _ => made == Ok(()) && files.calls() == 3,
    };
    is_told && files.count() == COUNT
}

fn lock(files: &mut MemFiles, bytes: &[u8]) -> Result<(), WriteError> {
    let lock = Piece {
        path: "lock",
        part: "lock-part",
        bytes,
    };
    take_lock(files, &lock)
}

// A second writer is refused, and finds the text of the first one.
fn one_writer(files: &mut MemFiles) -> bool {
    lock(files, HOLDER).is_ok()
        && lock(files, b"process 8") == Err(WriteError::Taken)
        && has(files, "lock", HOLDER)
        && free_lock(files, "lock").is_ok()
        && is_free(files, "lock")
        && lock(files, b"process 8").is_ok()
}

// Wherever everything stops, there is no lock, or the whole of it.
fn lock_stops(files: &mut MemFiles, stop: u64) -> bool {
    let taken = lock(files, HOLDER);
    (has(files, "lock", HOLDER) || is_free(files, "lock")) && taken.is_ok() == (stop >= 5)
}

#[test]
fn folders_are_made_where_nothing_stands(rt: HostRuntime) {
    let alloc = rt.alloc();
    shows(&rt, holds(alloc, Fact::Made, NEVER, NEVER));
    for call in 0..4u64 {
        shows_at(&rt, call, holds(alloc, Fact::NewFails, call, NEVER));
        shows_at(&rt, call, holds(alloc, Fact::OldFails, call, NEVER));
    }
}

#[test]
fn a_lock_has_one_holder(rt: HostRuntime) {
    let alloc = rt.alloc();
    shows(&rt, holds(alloc, Fact::OneWriter, NEVER, NEVER));
    for stop in 0..8u64 {
        shows_at(&rt, stop, holds(alloc, Fact::LockStops, NEVER, stop));
    }
}
