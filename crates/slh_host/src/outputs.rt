//! Outputs on the system: each file is written whole or not at all, and no secret is replaced.
ghost use Rattle.std.specs.Prelude.{◌≡◌, ◌≢◌, ◌↔◌, ◌≤◌, IfOk, IsOk, Ok, string_bytes};
ghost use Rattle.whole_files.specs.Causes.{RoseBy};
ghost use Rattle.whole_files.specs.declared.error.Written.TheVariants.{Settled};

use crate::error::HostError;
use crate::failure::Failure;
use crate::files::{STANDARD, read_front};
use crate::randomness::random;
use crate::secrets::{FRONT, Kept};
use crate::whole_outputs::{Fronts, PutError, put_whole};
use slh_bytes::{ByteString, SecretText};
use std::fs::{self, OpenFile, OpenOptions};
use std::io::{self, ErrorKind, Write};
use whole_files::{
    Failed, HostFiles, WriteError, Written, are_apart, make_pair, make_secret, part_name,
};

// Another name of standard output. A whole write would take the place of the file behind it.
const STANDARD_OUTPUT: &str = "/dev/stdout";

/// Writes to standard output.
pub fn print(rt: &HostRuntime, bytes: &[u8]) -> io::Result<()> {
    io::writer(rt).write_all(bytes)
}

/// Writes to a file that the words name, or to standard output where the path is `-`. A link is
/// followed to what it leads to. A device or a pipe is written in place. No key is replaced.
pub fn put<'a>(rt: &HostRuntime, path: &'a str, bytes: &[u8]) -> Result<(), Failure<'a>> {
    put_over(rt, Kept::Keys, path, bytes)
}

/// The same of the text of a verifying key, which may replace another one.
pub fn put_verifying_key<'a>(
    rt: &HostRuntime,
    path: &'a str,
    text: &[u8],
) -> Result<(), Failure<'a>> {
    put_over(rt, Kept::Secrets, path, text)
}

fn put_over<'a>(
    rt: &HostRuntime,
    kept: Kept,
    path: &'a str,
    bytes: &[u8],
) -> Result<(), Failure<'a>> {
    if path == STANDARD || path == STANDARD_OUTPUT {
        return match print(rt, bytes) {
            Ok(()) => Ok(()),
            Err(error) => Err(Failure::told("standard output", error)),
        };
    }
    match target_of(rt, path) {
        Ok(Target::Whole(target)) => put_at(rt, kept, (path, ""), target.as_str(), bytes),
        Ok(Target::InPlace) => match write_in_place(rt, path, bytes) {
            Ok(()) => Ok(()),
            Err(error) => Err(Failure::told(path, error)),
        },
        Err(error) => Err(Failure::told(path, error)),
    }
}

/// Writes the file of a path and an ending, which the words don't name. Only a regular file is
/// replaced, which is no key, and no link is followed.
pub fn put_beside<'a>(
    rt: &HostRuntime,
    path: &'a str,
    end: &'static str,
    bytes: &[u8],
) -> Result<(), Failure<'a>> {
    let output = format!(in rt.alloc(); "{path}{end}")?;
    put_at(rt, Kept::Keys, (path, end), output.as_str(), bytes)
}

// What an output's path leads to.
#[derive(Drop)]
enum Target {
    // A regular file, or nothing, at this path.
    Whole(String),
    // A device or a pipe.
    InPlace,
}

fn target_of(rt: &HostRuntime, path: &str) -> io::Result<Target> {
    match fs::metadata(rt, path) {
        Ok(found) if found.is_file() => Ok(Target::Whole(end_of_links(rt, path)?)),
        Ok(found) if found.is_dir() => Err(io::Error::from(ErrorKind::IsADirectory)),
        Ok(_) => Ok(Target::InPlace),
        Err(error) if error.kind() == ErrorKind::NotFound && is_free(rt, path) => {
            Ok(Target::Whole(String::from_str(rt.alloc(), path)?))
        }
        Err(error) => Err(error),
    }
}

// Whether nothing stands at a path, not even a link that leads nowhere.
fn is_free(rt: &HostRuntime, path: &str) -> bool {
    match fs::symlink_metadata(rt, path) {
        Ok(_) => false,
        Err(error) => error.kind() == ErrorKind::NotFound,
    }
}

// The path of the file that a path leads to: itself, where it is no link.
fn end_of_links(rt: &HostRuntime, path: &str) -> io::Result<String> {
    if fs::symlink_metadata(rt, path)?.is_symlink() {
        let end = fs::canonicalize(rt, path)?;
        return Ok(String::from_str(rt.alloc(), end.as_str())?);
    }
    Ok(String::from_str(rt.alloc(), path)?)
}

// Writes to what is no regular file, whatever stood there before.
fn write_in_place(rt: &HostRuntime, path: &str, bytes: &[u8]) -> io::Result<()> {
    let mut options = OpenOptions::new();
    options.write(true);
    let mut file = options.open(rt, path)?;
    if file.metadata()?.is_file() {
        return Err(io::Error::from(ErrorKind::AlreadyExists));
    }
    file.write_all(bytes)
}

// The first bytes of the system's files.
#[derive(Drop)]
struct HostFronts<'r> {
    // why some couldn't be read: the last ones that couldn't
    fault: Option<io::Error>,
    faults: u64,
    rt: &'r HostRuntime,
}

impl<'r> HostFronts<'r> {
    // Counts a look that failed.
    fn fail(&mut self, error: io::Error) -> Failed
        ensures rose { RoseBy 1 self.old.faults self.new.faults }
        ensures later { self.old.faults ≤ self.new.faults }
    {
        self.fault = Some(error);
        self.faults = self.faults.saturating_add(1);
        Failed
    }
}

impl<'r> Fronts<HostFiles<'r>> for HostFronts<'r> {
    ghost faults = { λ s. s.faults };

    fn front(&mut self, _files: &HostFiles<'r>, path: &str) -> Result<ByteString, Failed> {
        match read_front(self.rt, path, FRONT) {
            Ok(front) => Ok(front),
            Err(error) => Err(self.fail(error)),
        }
    }
}

// Writes a file, which is told of under a path and an ending, at the path where it stands.
fn put_at<'a>(
    rt: &HostRuntime,
    kept: Kept,
    name: (&'a str, &'static str),
    path: &str,
    bytes: &[u8],
) -> Result<(), Failure<'a>> {
    let part = part_of(rt, path)?;
    let mut files = HostFiles::new(rt);
    let mut fronts = HostFronts {
        fault: None,
        faults: 0,
        rt,
    };
    let (alloc, part) = (rt.alloc(), part.as_str());
    match put_whole(alloc, kept, &mut files, &mut fronts, path, part, bytes) {
        Ok(written) => told(name, Ok(written), files.fault.take()),
        Err(PutError::Write(error)) => told(name, Err(error), files.fault.take()),
        Err(PutError::Secret) => Err(Failure::beside(name.0, name.1, HostError::Secret)),
        Err(PutError::Key) => Err(Failure::beside(name.0, name.1, HostError::Key)),
        Err(PutError::Unread) => {
            let fault = known(fronts.fault.take());
            Err(Failure::beside(name.0, name.1, fault))
        }
        Err(PutError::Memory) => Err(Failure::Memory),
    }
}

/// The error of a call that failed, where it is known.
pub fn known(fault: Option<io::Error>) -> io::Error {
    match fault {
        Some(fault) => fault,
        None => io::Error::from(ErrorKind::Other),
    }
}

// A name beside a path.
fn part_of(rt: &HostRuntime, path: &str) -> Result<String, Failure<'static>>
    ensures { IfOk result (λ part. string_bytes part ≢ path.now) }
{
    let number = u64::from_be_bytes(random::<8>(rt)?);
    Ok(part_name(rt.alloc(), path, number)?)
}

/// Makes a secret of mode 600 where nothing stands.
pub fn put_secret<'a>(
    rt: &HostRuntime,
    path: &'a str,
    secret: &SecretText,
) -> Result<(), Failure<'a>> {
    let part = part_of(rt, path)?;
    let mut files = HostFiles::new(rt);
    let made = make_secret(&mut files, path, part.as_str(), secret.expose());
    told((path, ""), made, files.fault.take())
}

/// Makes NAME.key, of mode 600, and NAME.pub, both or neither, where nothing stands.
pub fn put_pair<'a>(
    rt: &HostRuntime,
    name: &'a str,
    secret: &SecretText,
    public: &[u8],
) -> Result<(), Failure<'a>> {
    let key_path = format!(in rt.alloc(); "{name}.key")?;
    let public_path = format!(in rt.alloc(); "{name}.pub")?;
    let key_part = part_of(rt, key_path.as_str())?;
    let public_part = part_of(rt, public_path.as_str())?;
    let (kp, ks) = (key_path.as_str(), key_part.as_str());
    let (pp, ps) = (public_path.as_str(), public_part.as_str());
    if !are_apart(kp, ks, pp, ps) {
        return Err(Failure::told(name, HostError::BeingWritten));
    }
    let mut files = HostFiles::new(rt);
    let made = make_pair(&mut files, kp, ks, secret.expose(), pp, ps, public);
    let end = end_in_the_way(rt, key_path.as_str());
    told((name, end), made, files.fault.take())
}

// Which file of a pair stands in the way of a new one, where one does.
fn end_in_the_way(rt: &HostRuntime, key_path: &str) -> &'static str {
    if is_free(rt, key_path) {
        ".pub"
    } else {
        ".key"
    }
}

// What came of a write, as it is told under a path and an ending.
fn told<'a>(
    name: (&'a str, &'static str),
    written: Result<Written, WriteError>,
    fault: Option<io::Error>,
) -> Result<(), Failure<'a>>
    ensures { IsOk result ↔ (written ≡ Ok Settled) }
{
    let (path, end) = name;
    let fault = known(fault);
    match written {
        Ok(Written::Settled) => Ok(()),
        Ok(Written::Unsettled) => Err(Failure::beside(path, end, HostError::Unsettled(fault))),
        Err(error) => Err(Failure::beside(path, end, unwritten(error, fault))),
    }
}

/// Why a file isn't written.
pub fn unwritten(error: WriteError, fault: io::Error) -> HostError {
    match error {
        WriteError::NotRegular => HostError::NotRegular,
        WriteError::Taken => HostError::Exists,
        WriteError::Failed => HostError::System(fault),
        WriteError::Left => HostError::Left(fault),
    }
}
