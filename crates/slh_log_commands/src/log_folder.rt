//! The files of a log below a folder.
ghost use Rattle.std.specs.Prelude.{◌≡◌, IfOk, string_bytes};
ghost use Rattle.log_files.specs.Names.{below};

use crate::error::Refusal;
use clap::ArgMatches;
use log_tiles::{Bundle, MAX_ENTRY_LEN, NameError, Tile, TileSource};
use merkle_tree::{DIGEST_LEN, Sha256};
use slh_arguments::bytes::ByteString;
use slh_arguments::bytes::log::{Checkpoint, read_unverified};
use slh_arguments::host::Failure;
use slh_arguments::host::files::read_front;
use slh_arguments::{names, required};
use std::alloc::AllocError;
use std::error::Error;
use std::fs;
use std::io::{self, ErrorKind};

/// The name of the checkpoint.
pub const CHECKPOINT: &str = "checkpoint";

/// The name of the lock.
pub const LOCK: &str = "lock";

/// The most bytes of a checkpoint, with the signatures of others.
pub const MAX_CHECKPOINT: u64 = 1 << 20;

/// The most bytes of a bundle.
const MAX_BUNDLE: u64 = 256 * (MAX_ENTRY_LEN as u64 + 2);

/// A folder with a log. What its files hold isn't believed.
#[derive(Clone, Copy)]
pub struct LogFolder<'s, 'a> {
    pub rt: &'s HostRuntime,
    /// The folder, as the words name it.
    pub path: &'a str,
}

/// A checkpoint as it stands in a folder, whoever signed it.
#[derive(Drop)]
pub struct Head {
    pub bytes: ByteString,
    pub origin: String,
    pub checkpoint: Checkpoint,
}

impl<'s, 'a> LogFolder<'s, 'a> {
    /// The folder that the words name.
    pub fn of(rt: &'s HostRuntime, words: &ArgMatches<'a>) -> Result<Self, Failure<'a>> {
        Ok(LogFolder {
            rt,
            path: required(words, names::FOLDER)?,
        })
    }

    /// The path of a file below the folder.
    pub fn path_of(&self, name: &str) -> Result<String, AllocError>
        ensures { IfOk result (λ path. string_bytes path ≡ below self.now.path.now name.now) }
    {
        let folder = self.path;
        format!(in self.rt.alloc(); "{folder}/{name}")
    }

    /// What is wrong with a file below the folder.
    pub fn told<E: Error>(&self, name: &str, error: E) -> Failure<'a> {
        match String::from_str(self.rt.alloc(), name) {
            Ok(name) => Failure::entry(self.path, name, error),
            Err(_) => Failure::Memory,
        }
    }

    // The first bytes of a file, up to one more than it may have.
    fn front(&self, name: &str, most: u64) -> io::Result<ByteString> {
        let path = self.path_of(name)?;
        read_front(self.rt, path.as_str(), most.saturating_add(1))
    }

    /// The checkpoint.
    pub fn head(&self) -> Result<Head, Failure<'a>> {
        let bytes = match self.front(CHECKPOINT, MAX_CHECKPOINT) {
            Ok(bytes) => bytes,
            Err(error) if error.kind() == ErrorKind::NotFound => {
                return Err(Failure::told(self.path, Refusal::NoLog));
            }
            Err(error) => return Err(self.told(CHECKPOINT, error)),
        };
        let Some((origin, checkpoint)) = read_unverified(bytes.as_slice()) else {
            return Err(self.told(CHECKPOINT, Refusal::NotCheckpoint));
        };
        let Ok(origin) = str::from_utf8(origin) else {
            return Err(self.told(CHECKPOINT, Refusal::OriginText));
        };
        let origin = String::from_str(self.rt.alloc(), origin)?;
        Ok(Head {
            bytes,
            origin,
            checkpoint,
        })
    }

    /// Whether something stands under a name below the folder.
    pub fn has_name(&self, name: &str) -> Result<bool, Failure<'a>> {
        let path = self.path_of(name)?;
        match fs::symlink_metadata(self.rt, path.as_str()) {
            Ok(_) => Ok(true),
            Err(error) if error.kind() == ErrorKind::NotFound => Ok(false),
            Err(error) => Err(self.told(name, error)),
        }
    }

    /// The bytes of a bundle.
    pub fn bundle(&self, bundle: Bundle) -> Result<ByteString, Failure<'a>> {
        let name = self.name_of(bundle.path(self.rt.alloc()))?;
        match self.front(name.as_str(), MAX_BUNDLE) {
            Ok(bytes) => Ok(bytes),
            Err(error) => Err(self.told(name.as_str(), error)),
        }
    }

    /// Whether there is a file of a bundle.
    pub fn has(&self, bundle: Bundle) -> Result<bool, Failure<'a>> {
        let name = self.name_of(bundle.path(self.rt.alloc()))?;
        self.has_name(name.as_str())
    }

    /// The bytes of a tile.
    pub fn tile(&self, tile: Tile) -> Result<ByteString, Failure<'a>> {
        let name = self.tile_name(tile)?;
        match self.front(name.as_str(), 32 * tile.width as u64) {
            Ok(bytes) => Ok(bytes),
            Err(error) => Err(self.told(name.as_str(), error)),
        }
    }

    // The same, where the file can be read.
    fn bytes_of(&self, tile: Tile) -> Option<ByteString> {
        match self.tile(tile) {
            Ok(bytes) => Some(bytes),
            Err(_) => None,
        }
    }

    /// The name of a tile.
    pub fn tile_name(&self, tile: Tile) -> Result<String, Failure<'a>> {
        self.name_of(tile.path(self.rt.alloc()))
    }

    /// What is wrong with a bundle.
    pub fn bad_bundle(&self, bundle: Bundle, refusal: Refusal) -> Failure<'a> {
        match bundle.path(self.rt.alloc()) {
            Ok(name) => self.told(name.as_str(), refusal),
            Err(_) => Failure::Memory,
        }
    }

    /// What is wrong with a tile.
    pub fn bad_tile(&self, tile: Tile, refusal: Refusal) -> Failure<'a> {
        match tile.path(self.rt.alloc()) {
            Ok(name) => self.told(name.as_str(), refusal),
            Err(_) => Failure::Memory,
        }
    }

    /// A name, where there was memory for it. The widths and levels of names are those that there are.
    pub fn name_of(&self, name: Result<String, NameError>) -> Result<String, Failure<'a>> {
        match name {
            Ok(name) => Ok(name),
            Err(_) => Err(Failure::Memory),
        }
    }
}

impl<'s, 'a> TileSource<Sha256> for LogFolder<'s, 'a> {
    ghost use Rattle.std.specs.Prelude.{[], false};

    ghost tells = { false };

    ghost has = { λ _ _. false };

    ghost digest = { λ _ _. [] };

    fn read(&self, tile: Tile, out: &mut [[u8; DIGEST_LEN]]) -> bool {
        let Some(bytes) = self.bytes_of(tile) else {
            return false;
        };
        let out = out.as_flattened_mut();
        if bytes.len() != out.len() {
            return false;
        }
        out.copy_from_slice(bytes.as_slice());
        true
    }
}
