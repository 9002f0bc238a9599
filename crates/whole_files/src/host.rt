//! The files of the system.
ghost use Rattle.std.specs.Prelude.{◌≡◌, ◌≤◌};
ghost use Rattle.whole_files.specs.Causes.{HasCause, RoseBy};

use crate::file::{Failed, FileId, Kind, Mode, Stat};
use crate::file_system::FileSystem;
use std::fs::{self, File, Metadata, OpenFile, OpenOptions, Permissions};
use std::io::{self, ErrorKind, Write};
use std::os::unix::fs::{MetadataExt, OpenOptionsExt, PermissionsExt};

/// The files of the system, of which nothing is told. A file that is made has what the user's mask
/// leaves of its mode, or its mode exactly, as [`Mode`] says. A folder that can't be opened to be
/// read, or whose file system doesn't bring folders to the disk, is left to the system.
#[derive(Drop)]
pub struct HostFiles<'r> {
    /// Why a call failed: the last one that did.
    pub fault: Option<io::Error>,
    rt: &'r HostRuntime,
    // The file that was made last, with its path.
    made: Option<(String, File)>,
    faults: u64,
}

impl<'r> HostFiles<'r> {
    /// The files of the system.
    pub fn new(rt: &'r HostRuntime) -> Self {
        HostFiles {
            fault: None,
            rt,
            made: None,
            faults: 0,
        }
    }

    // Counts a call that failed.
    fn fail(&mut self, error: io::Error) -> Failed
        ensures rose { RoseBy 1 self.old.faults self.new.faults }
        ensures later { self.old.faults ≤ self.new.faults }
    {
        self.fault = Some(error);
        self.faults = self.faults.saturating_add(1);
        Failed
    }

    fn answer(&mut self, done: io::Result<()>) -> Result<(), Failed>
        ensures { HasCause self.old.faults self.new.faults result }
    {
        match done {
            Ok(()) => Ok(()),
            Err(error) => Err(self.fail(error)),
        }
    }

    // Whether something was made, where `AlreadyExists` says that it wasn't.
    fn answer_new(&mut self, done: io::Result<()>) -> Result<bool, Failed>
        ensures { HasCause self.old.faults self.new.faults result }
    {
        match done {
            Ok(()) => Ok(true),
            Err(error) if error.kind() == ErrorKind::AlreadyExists => Ok(false),
            Err(error) => Err(self.fail(error)),
        }
    }

    fn make(&mut self, path: &str, mode: Mode) -> io::Result<()>
        ensures { self.new.faults ≡ self.old.faults }
    {
        let name = String::from_str(self.rt.alloc(), path)?;
        let mut options = OpenOptions::new();
        options.write(true).create_new(true).mode(mode.bits());
        let file = options.open(self.rt, path)?;
        if let Mode::Exact(bits) = mode
            && let Err(error) = file.set_permissions(Permissions::from_mode(bits))
        {
            let _ = fs::remove_file(self.rt, path);
            return Err(error);
        }
        self.made = Some((name, file));
        Ok(())
    }

    fn write_made(&mut self, path: &str, piece: &[u8]) -> io::Result<()>
        ensures { self.new.faults ≡ self.old.faults }
    {
        match &mut self.made {
            Some((name, file)) if name.as_str() == path => file.write_all(piece),
            _ => Err(io::Error::from(ErrorKind::NotFound)),
        }
    }

    fn sync_made(&mut self, path: &str) -> io::Result<()>
        ensures { self.new.faults ≡ self.old.faults }
    {
        match &self.made {
            Some((name, file)) if name.as_str() == path => file.sync_all(),
            _ => Err(io::Error::from(ErrorKind::NotFound)),
        }
    }
}

// The folder in which a path is a name.
fn folder_of(path: &str) -> &str {
    match path.rsplit_once('/') {
        None => ".",
        Some(("", _)) => "/",
        Some((folder, _)) => folder,
    }
}

fn sync_folder(rt: &HostRuntime, path: &str) -> io::Result<()> {
    match fs::open(rt, folder_of(path)) {
        Ok(folder) => folder.sync_all(),
        Err(error) => Err(error),
    }
}

// Whether an error says that this folder can't be brought to the disk by its user.
fn is_beyond(error: &io::Error) -> bool {
    matches!(
        error.kind(),
        ErrorKind::PermissionDenied | ErrorKind::InvalidInput | ErrorKind::Unsupported
    )
}

fn stat_of(found: &Metadata) -> Stat {
    let kind = if found.is_file() {
        Kind::Regular
    } else if found.is_symlink() {
        Kind::Link
    } else if found.is_dir() {
        Kind::Folder
    } else {
        Kind::Other
    };
    Stat {
        kind,
        mode: found.permissions().mode() & 0o7777,
        id: FileId {
            device: found.dev(),
            number: found.ino(),
        },
    }
}

impl FileSystem for HostFiles<'_> {
    ghost use Rattle.std.specs.Prelude.{false, None};

    ghost tells = { false };

    ghost files = { λ _ _. None };

    ghost is_kept = { λ _ _. false };

    ghost permits = { λ _. Unit {0} };

    ghost faults = { λ s. s.faults };

    fn stat(&mut self, path: &str) -> Result<Option<Stat>, Failed> {
        match fs::symlink_metadata(self.rt, path) {
            Ok(found) => Ok(Some(stat_of(&found))),
            Err(error) if error.kind() == ErrorKind::NotFound => Ok(None),
            Err(error) => Err(self.fail(error)),
        }
    }

    fn create_new(&mut self, path: &str, mode: Mode) -> Result<bool, Failed> {
        let made = self.make(path, mode);
        self.answer_new(made)
    }

    fn append(&mut self, path: &str, piece: &[u8]) -> Result<(), Failed> {
        let written = self.write_made(path, piece);
        self.answer(written)
    }

    fn sync(&mut self, path: &str) -> Result<(), Failed> {
        let synced = self.sync_made(path);
        self.answer(synced)
    }

    fn rename(&mut self, from: &str, to: &str) -> Result<(), Failed> {
        let renamed = fs::rename(self.rt, from, to);
        self.answer(renamed)
    }

    fn link(&mut self, from: &str, to: &str) -> Result<bool, Failed> {
        let linked = fs::hard_link(self.rt, from, to);
        self.answer_new(linked)
    }

    fn remove(&mut self, path: &str) -> Result<(), Failed> {
        let removed = fs::remove_file(self.rt, path);
        self.answer(removed)
    }

    fn make_folder(&mut self, path: &str) -> Result<bool, Failed> {
        let made = fs::create_dir(self.rt, path);
        self.answer_new(made)
    }

    fn sync_name(&mut self, path: &str) -> Result<(), Failed> {
        match sync_folder(self.rt, path) {
            Ok(()) => Ok(()),
            Err(error) if is_beyond(&error) => Ok(()),
            Err(error) => Err(self.fail(error)),
        }
    }
}
