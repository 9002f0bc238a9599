//! Files that one process has at a time: the system frees them when it ends, however that comes.
use slh_arguments::host::HostError;
use std::fs::{self, File, Metadata, OpenFile, TryLockError};
use std::io::{self, ErrorKind};
use std::os::unix::fs::MetadataExt;

/// Who has a file.
#[derive(Drop)]
pub enum Hold {
    /// This process, until it closes the file.
    Own(File),
    /// Another one, or the file isn't at its place any more.
    Other,
    /// Nobody can tell: the file system keeps no locks.
    Unknown(File),
}

fn are_one(found: &Metadata, other: &Metadata) -> bool {
    found.dev() == other.dev() && found.ino() == other.ino()
}

// Whether a file stands at a path, and no other one took its place.
fn stands_at(rt: &HostRuntime, file: &File, path: &str) -> io::Result<bool> {
    match fs::symlink_metadata(rt, path) {
        Ok(found) => Ok(are_one(&found, &file.metadata()?)),
        Err(error) if error.kind() == ErrorKind::NotFound => Ok(false),
        Err(error) => Err(error),
    }
}

/// Takes hold of a regular file. `None` where nothing stands at the path; a link is no such file.
pub fn hold_file(rt: &HostRuntime, path: &str) -> Result<Option<Hold>, HostError> {
    match fs::symlink_metadata(rt, path) {
        Ok(found) if found.is_file() => (),
        Ok(_) => return Err(HostError::NotRegular),
        Err(error) if error.kind() == ErrorKind::NotFound => return Ok(None),
        Err(error) => return Err(HostError::System(error)),
    }
    match taken(rt, path) {
        Ok(hold) => Ok(Some(hold)),
        Err(error) => Err(HostError::System(error)),
    }
}

fn taken(rt: &HostRuntime, path: &str) -> io::Result<Hold> {
    let file = match fs::open(rt, path) {
        Ok(file) => file,
        Err(error) if error.kind() == ErrorKind::NotFound => return Ok(Hold::Other),
        Err(error) => return Err(error),
    };
    let locked = file.try_lock();
    if !stands_at(rt, &file, path)? {
        return Ok(Hold::Other);
    }
    match locked {
        Ok(()) => Ok(Hold::Own(file)),
        Err(TryLockError::WouldBlock) => Ok(Hold::Other),
        Err(TryLockError::Error(_)) => Ok(Hold::Unknown(file)),
    }
}
