//! `slh log check`: everything again, from the entries.
ghost use Rattle.std.specs.Prelude.{◌<◌};

use crate::entries::leaves_of;
use crate::error::Refusal;
use crate::log_folder::{Head, LogFolder};
use crate::watching::{outcome_of_check, refused_head, signer_of};
use clap::ArgMatches;
use log_tiles::{Bundle, FULL, GrowingTiles, LEVELS, last_tile};
use merkle_tree::{DIGEST_LEN, Sha256};
use slh_arguments::bytes::log::OpenError;
use slh_arguments::bytes::{Detail, Key, Outcome, Signer, check_head, open_for};
use slh_arguments::host::{Failure, Progress};
use slh_arguments::{names, report, verifying_key};

// Compares the last tile of a level with its file.
fn check_tile<'a>(
    folder: LogFolder<'_, 'a>,
    tiles: &GrowingTiles<Sha256>,
    level: u32,
) -> Result<(), Failure<'a>>
    requires { level < 8 }
{
    let Some(tile) = last_tile(level, tiles.len()) else {
        return Ok(());
    };
    let bytes = folder.tile(tile)?;
    if bytes.as_slice() != tiles.last_bytes(level) {
        return Err(folder.bad_tile(tile, Refusal::OtherTile));
    }
    Ok(())
}

// Adds the digest of an entry, and compares the tiles that it makes full.
fn check_leaf<'a>(
    folder: LogFolder<'_, 'a>,
    tiles: &mut GrowingTiles<Sha256>,
    leaf: &[u8; DIGEST_LEN],
) -> Result<(), Failure<'a>> {
    if tiles.len() == u64::MAX {
        return Ok(());
    }
    let full = tiles.push(leaf);
    for level in 0..LEVELS {
        if level < full {
            check_tile(folder, tiles, level as u32)?;
        }
    }
    Ok(())
}

// Reads a bundle, and compares the tiles that its entries make full.
fn check_bundle<'a>(
    folder: LogFolder<'_, 'a>,
    tiles: &mut GrowingTiles<Sha256>,
    progress: &mut Progress,
    bundle: Bundle,
) -> Result<(), Failure<'a>> {
    let bytes = folder.bundle(bundle)?;
    progress.add(bytes.len() as u64);
    let leaves = leaves_of(folder, bundle, bytes.as_slice())?;
    for leaf in leaves.as_slice() {
        check_leaf(folder, tiles, leaf)?;
    }
    Ok(())
}

// Reads the entries of a log, and compares the tiles that they make full.
fn check_bundles<'a>(
    folder: LogFolder<'_, 'a>,
    tiles: &mut GrowingTiles<Sha256>,
    progress: &mut Progress,
    size: u64,
) -> Result<(), Failure<'a>> {
    for index in 0..size / 256 {
        let bundle = Bundle { index, width: FULL };
        check_bundle(folder, tiles, progress, bundle)?;
    }
    if size % 256 != 0 {
        let bundle = Bundle {
            index: size / 256,
            width: (size % 256) as u32,
        };
        check_bundle(folder, tiles, progress, bundle)?;
    }
    Ok(())
}

// The tiles over the entries of a log, where its files have them.
fn tiles_of<'a>(folder: LogFolder<'_, 'a>, size: u64) -> Result<GrowingTiles<Sha256>, Failure<'a>> {
    let mut tiles = GrowingTiles::<Sha256>::new();
    let mut progress = Progress::new(folder.rt);
    let checked = check_bundles(folder, &mut tiles, &mut progress, size);
    progress.clear();
    checked?;
    for level in 0..LEVELS as u32 {
        check_tile(folder, &tiles, level)?;
    }
    Ok(tiles)
}

// The key whose checkpoint it has to be, where the words have one.
fn own_key<'a>(
    folder: LogFolder<'_, 'a>,
    words: &ArgMatches<'a>,
) -> Result<Option<Key>, Failure<'a>> {
    if words.get_str(names::KEY).is_none() && words.get_str(names::KEY_TEXT).is_none() {
        return Ok(None);
    }
    Ok(Some(verifying_key(folder.rt, words)?))
}

// Refuses a checkpoint of which no verdict is told, before the entries are read.
fn refuse<'a>(
    folder: LogFolder<'_, 'a>,
    signer: Option<Signer<'_>>,
    checkpoint: &[u8],
) -> Result<(), Failure<'a>> {
    match open_for(signer, checkpoint) {
        Ok(_) | Err(OpenError::Invalid) => Ok(()),
        Err(error) => Err(refused_head(folder.path, error)),
    }
}

// Tells of files of entries that the checkpoint doesn't speak of yet.
fn tell_ahead<'a>(folder: LogFolder<'_, 'a>, size: u64) -> Result<(), Failure<'a>> {
    let first = (size % 256) as u32;
    for width in first + 1..=FULL {
        let bundle = Bundle {
            index: size / 256,
            width,
        };
        if folder.has(bundle)? {
            let path = folder.path;
            let _ = eprintln!(folder.rt;
                "slh: {path}: it is ahead of its checkpoint, which the next append or log prune mends"
            );
            return Ok(());
        }
    }
    Ok(())
}

// Reads a log's entries, and tells what its checkpoint is under a key and an origin.
fn check_under<'a, 'k>(
    folder: LogFolder<'_, 'a>,
    head: &Head,
    key: Option<&'k Key>,
    origin: &'k str,
) -> Result<Outcome, Failure<'a>> {
    let signer = match key {
        Some(key) => Some(signer_of(key, origin)),
        None => None,
    };
    let (bytes, size) = (head.bytes.as_slice(), head.checkpoint.size);
    refuse(folder, signer, bytes)?;
    let tiles = tiles_of(folder, size)?;
    tell_ahead(folder, size)?;
    outcome_of_check(folder.path, check_head(signer, bytes, &tiles.root()))
}

/// Tells whether the files of a log are those of its entries, and its checkpoint that of them.
pub fn check<'a>(rt: &HostRuntime, words: &ArgMatches<'a>) -> Result<Outcome, Failure<'a>> {
    let folder = LogFolder::of(rt, words)?;
    let head = folder.head()?;
    let key = own_key(folder, words)?;
    let origin = words.get_str(names::ORIGIN).unwrap_or(head.origin.as_str());
    let outcome = check_under(folder, &head, key.as_ref(), origin)?;
    report(rt, words, outcome, Detail::Nothing)
}
