//! One writer at a time.
use crate::error::Refusal;
use crate::file_names::names_of;
use crate::holding::{Hold, hold_file};
use crate::log_folder::{LOCK, LogFolder};
use jiff::Timestamp;
use log_files::{Piece, free_lock, take_lock};
use slh_arguments::bytes::{Outcome, shown};
use slh_arguments::host::Failure;
use slh_arguments::host::files::read_front;
use slh_arguments::host::outputs::known;
use std::alloc::AllocError;
use std::fs::{self, File};
use std::time::{SystemTime, UNIX_EPOCH};
use whole_files::{HostFiles, WriteError};

// The most bytes of a lock that are shown.
const MAX_TEXT: u64 = 256;

// The file in which the system tells the name of the host.
const HOST_NAME: &str = "/proc/sys/kernel/hostname";

/// The lock of a folder, which no other process has meanwhile.
#[derive(Drop)]
pub struct Lock {
    // none where the file system keeps no locks
    _file: Option<File>,
}

// The front of a file as a text.
fn text_of(rt: &HostRuntime, path: &str) -> Result<Option<String>, AllocError> {
    match read_front(rt, path, MAX_TEXT) {
        Ok(bytes) => Ok(Some(shown(rt.alloc(), bytes.as_slice().trim_ascii_end())?)),
        Err(_) => Ok(None),
    }
}

// The number of this process, where the system tells it.
fn own_process(rt: &HostRuntime) -> Result<String, AllocError> {
    match fs::read_link(rt, "/proc/self") {
        Ok(number) => {
            let number = number.as_str();
            format!(in rt.alloc(); "process {number}")
        }
        Err(_) => String::from_str(rt.alloc(), "a process"),
    }
}

// The time, to the second.
fn time(rt: &HostRuntime) -> Option<Timestamp> {
    let Ok(now) = SystemTime::now(rt) else {
        return None;
    };
    let Ok(elapsed) = now.duration_since(UNIX_EPOCH) else {
        return None;
    };
    Timestamp::from_second(i64::try_from(elapsed.as_secs()).ok()?).ok()
}

// Who writes: the process, the host and since when, as far as the system tells them.
fn own_text(rt: &HostRuntime) -> Result<String, AllocError> {
    let mut text = own_process(rt)?;
    if let Some(host) = text_of(rt, HOST_NAME)? {
        text.push_str(" of ")?;
        text.push_str(host.as_str())?;
    }
    if let Some(time) = time(rt) {
        let since = format!(in rt.alloc(); " since {time}")?;
        text.push_str(since.as_str())?;
    }
    text.push('\n')?;
    Ok(text)
}

// The host that the text of a lock names.
fn host_of(text: &str) -> Option<&str> {
    let (_, rest) = text.split_once(" of ")?;
    let (host, _) = rest.rsplit_once(" since ")?;
    Some(host)
}

// Tells who has the lock, and why that is in the way.
fn held<'a>(folder: LogFolder<'_, 'a>, path: &str, refusal: Refusal) -> Failure<'a> {
    let alloc = folder.rt.alloc();
    let text = match read_front(folder.rt, path, MAX_TEXT) {
        Ok(bytes) => match shown(alloc, bytes.as_slice().trim_ascii_end()) {
            Ok(text) => text,
            Err(_) => return Failure::Memory,
        },
        Err(error) => return folder.told(LOCK, error),
    };
    match format!(in alloc; "{LOCK}: {text}") {
        Ok(name) => Failure::entry(folder.path, name, refusal),
        Err(_) => Failure::Memory,
    }
}

// Makes the lock, where nothing stands. `None` where another process has it.
fn make<'a>(folder: LogFolder<'_, 'a>) -> Result<Option<Lock>, Failure<'a>> {
    let names = names_of(folder, LOCK)?;
    let text = own_text(folder.rt)?;
    let lock = Piece {
        path: names.path.as_str(),
        part: names.part.as_str(),
        bytes: text.as_bytes(),
    };
    let mut files = HostFiles::new(folder.rt);
    match take_lock(&mut files, &lock) {
        Ok(()) => (),
        Err(WriteError::Taken) => return Ok(None),
        Err(_) => return Err(folder.told(LOCK, known(files.fault.take()))),
    }
    match hold_file(folder.rt, names.path.as_str()) {
        Ok(Some(Hold::Own(file))) => Ok(Some(Lock { _file: Some(file) })),
        Ok(Some(Hold::Unknown(_))) => Ok(Some(Lock { _file: None })),
        Ok(_) => Ok(None),
        Err(error) => Err(folder.told(LOCK, error)),
    }
}

// Whether the text of a lock names this host.
fn is_of_this_host(rt: &HostRuntime, path: &str) -> Result<bool, AllocError> {
    let (Some(text), Some(host)) = (text_of(rt, path)?, text_of(rt, HOST_NAME)?) else {
        return Ok(false);
    };
    Ok(host_of(text.as_str()) == Some(host.as_str()))
}

// Takes away the lock of a process of this host that is gone.
fn break_stale<'a>(folder: LogFolder<'_, 'a>) -> Result<(), Failure<'a>> {
    let path = folder.path_of(LOCK)?;
    if !is_of_this_host(folder.rt, path.as_str())? {
        return Err(held(folder, path.as_str(), Refusal::OtherHost));
    }
    match hold_file(folder.rt, path.as_str()) {
        Ok(None) => Ok(()),
        Ok(Some(Hold::Own(_file))) => match fs::remove_file(folder.rt, path.as_str()) {
            Ok(()) => Ok(()),
            Err(error) => Err(folder.told(LOCK, error)),
        },
        Ok(_) => Err(held(folder, path.as_str(), Refusal::Runs)),
        Err(error) => Err(folder.told(LOCK, error)),
    }
}

/// Takes the lock of a folder, also in place of a process of this host that is gone, where it
/// `breaks` such a one.
pub fn take<'a>(folder: LogFolder<'_, 'a>, breaks: bool) -> Result<Lock, Failure<'a>> {
    if let Some(lock) = make(folder)? {
        return Ok(lock);
    }
    if breaks {
        break_stale(folder)?;
        if let Some(lock) = make(folder)? {
            return Ok(lock);
        }
    }
    let path = folder.path_of(LOCK)?;
    Err(held(folder, path.as_str(), Refusal::Held))
}

// Frees the lock of a folder.
fn free<'a>(folder: LogFolder<'_, 'a>) -> Result<(), Failure<'a>> {
    let path = folder.path_of(LOCK)?;
    let mut files = HostFiles::new(folder.rt);
    match free_lock(&mut files, path.as_str()) {
        Ok(()) => Ok(()),
        Err(_) => Err(folder.told(LOCK, known(files.fault.take()))),
    }
}

/// Frees the lock of a folder, and tells what came of what was done under it.
pub fn free_after<'a>(
    folder: LogFolder<'_, 'a>,
    _lock: Lock,
    done: Result<(), Failure<'a>>,
) -> Result<Outcome, Failure<'a>> {
    let freed = free(folder);
    done?;
    freed?;
    Ok(Outcome::Done)
}
