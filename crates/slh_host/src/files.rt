//! Inputs: the file that is signed is read in pieces or whole, and each other one whole, up to a
//! limit.
use crate::error::HostError;
use crate::failure::Failure;
use crate::progress::Progress;
use slh_bytes::{ByteString, gather};
use std::alloc::AllocError;
use std::fs::{self, File, OpenFile};
use std::io::{self, ErrorKind, Read, Seek, SeekFrom, StdinLock};
use std::os::unix::fs::MetadataExt;

/// The name of standard input and output.
pub const STANDARD: &str = "-";

/// The most bytes of a key, a signature, a receipt, a chain, a manifest, a master or a record.
const MOST: u64 = 1 << 24;

// Where the bytes of an input come from.
#[derive(Drop)]
enum Source {
    Standard(StdinLock<'static>),
    File(File),
}

impl Source {
    // A file, or standard input where the path is `-`.
    fn open(rt: &HostRuntime, path: &str) -> io::Result<Source> {
        if path == STANDARD {
            return Ok(Source::Standard(rt.reader()));
        }
        Ok(Source::File(fs::open(rt, path)?))
    }
}

impl Read for Source {
    fn read(&mut self, buf: &mut [u8]) -> io::Result<usize> {
        match self {
            Source::Standard(input) => input.read(buf),
            Source::File(file) => file.read(buf),
        }
    }
}

/// The bytes of an input. How many were read is told on a terminal.
#[derive(Drop)]
pub struct Reader {
    source: Source,
    progress: Progress,
}

impl Read for Reader {
    fn read(&mut self, buf: &mut [u8]) -> io::Result<usize> {
        let read = self.source.read(buf);
        self.progress.count(&read);
        read
    }
}

impl Reader {
    /// A file, or standard input where the path is `-`.
    pub fn open<'a>(rt: &HostRuntime, path: &'a str) -> Result<Reader, Failure<'a>> {
        match Source::open(rt, path) {
            Ok(source) => Ok(Reader {
                source,
                progress: Progress::new(rt),
            }),
            Err(error) => Err(Failure::told(path, error)),
        }
    }

    /// The regular file that it is, which can be read twice, or the reader again.
    pub fn into_regular(self) -> Result<File, Reader> {
        let Reader { source, progress } = self;
        match source {
            Source::File(file) if is_regular(&file) => Ok(file),
            source => Err(Reader { source, progress }),
        }
    }

    /// All bytes of the input of a path.
    pub fn whole<'a>(self, rt: &HostRuntime, path: &'a str) -> Result<ByteString, Failure<'a>> {
        let mut reader = self;
        match gather(rt.alloc(), &mut reader) {
            Ok(bytes) => Ok(bytes),
            Err(error) => Err(Failure::told(path, error)),
        }
    }
}

fn is_regular(file: &File) -> bool {
    match file.metadata() {
        Ok(found) => found.is_file(),
        Err(_) => false,
    }
}

/// A file from its start on, whatever was read of it before. How much was read is told on a
/// terminal.
#[derive(Drop)]
pub struct FromStart<'f> {
    file: &'f File,
    begun: bool,
    progress: Progress,
}

impl<'f> FromStart<'f> {
    pub fn new(rt: &HostRuntime, file: &'f File) -> Self {
        FromStart {
            file,
            begun: false,
            progress: Progress::new(rt),
        }
    }
}

impl<'f> Read for FromStart<'f> {
    fn read(&mut self, buf: &mut [u8]) -> io::Result<usize> {
        let mut file = self.file;
        if !self.begun {
            file.seek(SeekFrom::Start(0))?;
            self.begun = true;
        }
        let read = file.read(buf);
        self.progress.count(&read);
        read
    }
}

/// The bytes of a file, or of standard input where the path is `-`.
pub fn read<'a>(rt: &HostRuntime, path: &'a str) -> Result<ByteString, Failure<'a>> {
    Reader::open(rt, path)?.whole(rt, path)
}

/// As [`read`], of an input that has at most `MOST` bytes.
pub fn read_limited<'a>(rt: &HostRuntime, path: &'a str) -> Result<ByteString, Failure<'a>> {
    read_beside(rt, path, "")
}

/// As [`read_limited`], the file of a path and an ending. Standard input has no ending.
pub fn read_beside<'a>(
    rt: &HostRuntime,
    path: &'a str,
    end: &'static str,
) -> Result<ByteString, Failure<'a>> {
    let read = if path == STANDARD && end.is_empty() {
        gather(rt.alloc(), &mut rt.reader().take(MOST + 1))
    } else {
        let name = format!(in rt.alloc(); "{path}{end}")?;
        read_front(rt, name.as_str(), MOST + 1)
    };
    match read {
        Ok(bytes) if bytes.len() as u64 > MOST => Err(Failure::beside(
            path,
            end,
            HostError::TooLong,
        )),
        Ok(bytes) => Ok(bytes),
        Err(error) => Err(Failure::beside(path, end, error)),
    }
}

// An input up to its first line feed, and what was read at once with that. So whoever types a line
// need not end the input.
#[derive(Drop)]
struct FirstLine {
    source: Source,
    is_over: bool,
}

impl Read for FirstLine {
    fn read(&mut self, buf: &mut [u8]) -> io::Result<usize> {
        if self.is_over {
            return Ok(0);
        }
        let count = self.source.read(buf)?;
        self.is_over = buf[..count].contains(&b'\n');
        Ok(count)
    }
}

/// The first bytes of a file, or of standard input where the path is `-`: its first line with what
/// stands behind it, or a part of that line, up to so many bytes.
pub fn read_first_line<'a>(
    rt: &HostRuntime,
    path: &'a str,
    most: u64,
) -> Result<ByteString, Failure<'a>> {
    match first_line(rt, path, most) {
        Ok(bytes) => Ok(bytes),
        Err(error) => Err(Failure::told(path, error)),
    }
}

fn first_line(rt: &HostRuntime, path: &str, most: u64) -> io::Result<ByteString> {
    let line = FirstLine {
        source: Source::open(rt, path)?,
        is_over: false,
    };
    gather(rt.alloc(), &mut line.take(most))
}

/// The first bytes of a file, up to so many.
pub fn read_front(rt: &HostRuntime, path: &str, most: u64) -> io::Result<ByteString> {
    let file = fs::open(rt, path)?;
    gather(rt.alloc(), &mut file.take(most))
}

/// Whether a path leads to a device, a pipe or a socket.
pub fn is_stream(rt: &HostRuntime, path: &str) -> bool {
    match fs::metadata(rt, path) {
        Ok(found) => !found.is_file() && !found.is_dir(),
        Err(_) => false,
    }
}

/// Which file it is, whatever its path.
#[derive(Clone, Copy, PartialEq, Eq, PartialOrd, Ord)]
pub struct FileId {
    device: u64,
    number: u64,
}

impl FileId {
    /// The regular file that a path leads to, by links or not. There is none for `-`.
    pub fn of(rt: &HostRuntime, path: &str) -> Option<FileId> {
        if path == STANDARD {
            return None;
        }
        match fs::metadata(rt, path) {
            Ok(found) if found.is_file() => Some(FileId {
                device: found.dev(),
                number: found.ino(),
            }),
            _ => None,
        }
    }
}

/// Whether two paths lead to one regular file.
pub fn are_one(rt: &HostRuntime, path: &str, other: &str) -> bool {
    match (FileId::of(rt, path), FileId::of(rt, other)) {
        (Some(one), Some(two)) => one == two,
        _ => false,
    }
}

/// Where a folder stands, whatever path leads to it. A slash and a name behind it are the place of
/// what has that name there.
pub fn folder_place(rt: &HostRuntime, path: &str) -> io::Result<String> {
    let end = fs::canonicalize(rt, path)?;
    let place = end.as_str();
    let place = place.strip_suffix('/').unwrap_or(place);
    Ok(String::from_str(rt.alloc(), place)?)
}

/// Where a file stands itself: the last part of its path is not followed, so two names of one file
/// are two places. There is none for `-`, or where the folder can't be found.
pub fn place_of(rt: &HostRuntime, path: &str) -> Result<Option<String>, AllocError> {
    if path == STANDARD {
        return Ok(None);
    }
    let (folder, name) = match path.rsplit_once('/') {
        Some(("", name)) => ("/", name),
        Some(parts) => parts,
        None => (".", path),
    };
    match folder_place(rt, folder) {
        Ok(folder) => Ok(Some(format!(in rt.alloc(); "{folder}/{name}")?)),
        Err(error) if error.kind() == ErrorKind::OutOfMemory => Err(AllocError),
        Err(_) => Ok(None),
    }
}
