//! A log's last tiles and its last bundle, as they stand below its folder.
ghost use Rattle.std.specs.Prelude.{◌<◌, IfOk, OnOk};
ghost use Rattle.log_files.specs.Names.{HaveFullNames};

use crate::entries::{bundle_at, checked_bundle};
use crate::error::Refusal;
use crate::last::Last;
use crate::log_folder::LogFolder;
use log_files::{AppendError, Appending};
use log_tiles::{
    Bundle, Entries, FULL, GrowingTiles, LEVELS, Tile, hash_count, last_bundle, last_tile,
};
use merkle_tree::{DIGEST_LEN, Sha256};
use slh_arguments::bytes::log::Checkpoint;
use slh_arguments::host::Failure;

// The tile of a log of `size` entries with an index of a level.
fn file_of(level: u32, index: u64, size: u64) -> Tile
    requires { level < 8 }
{
    let count = hash_count(level, size);
    let width = if index < count / 256 {
        FULL
    } else {
        (count % 256) as u32
    };
    Tile {
        level,
        index,
        width,
    }
}

// Puts the last tile of a level in its place, from a file that may have more hashes.
fn put_tile<'a>(
    folder: LogFolder<'_, 'a>,
    tiles: &mut GrowingTiles<Sha256>,
    level: u32,
    size: u64,
) -> Result<(), Failure<'a>>
    requires { level < 8 }
{
    let Some(tile) = last_tile(level, tiles.len()) else {
        return Ok(());
    };
    let file = file_of(level, tile.index, size);
    let bytes = folder.tile(file)?;
    let mut hashes = [[0; DIGEST_LEN]; FULL as usize];
    let (width, whole) = (tile.width as usize, file.width as usize);
    if whole > hashes.len() || width > whole {
        return Err(folder.bad_tile(file, Refusal::CutTile));
    }
    if bytes.len() != DIGEST_LEN * whole {
        return Err(folder.bad_tile(file, Refusal::CutTile));
    }
    hashes[..whole]
        .as_flattened_mut()
        .copy_from_slice(bytes.as_slice());
    if tiles.put_tile(level, &hashes[..width]) {
        Ok(())
    } else {
        Err(folder.bad_tile(file, Refusal::CutTile))
    }
}

/// The last tiles of the log of the first `count` entries, as the files of the log of `size` have
/// them.
pub fn last_tiles<'a>(
    folder: LogFolder<'_, 'a>,
    count: u64,
    size: u64,
) -> Result<GrowingTiles<Sha256>, Failure<'a>> {
    let mut tiles = GrowingTiles::<Sha256>::resume(count);
    for level in 0..LEVELS as u32 {
        put_tile(folder, &mut tiles, level, size)?;
    }
    Ok(tiles)
}

/// A log of which more entries are to come. Its tiles have the root of its checkpoint, and its last
/// bundle the entries of the last tile.
pub fn resume<'a>(
    folder: LogFolder<'_, 'a>,
    checkpoint: &Checkpoint,
) -> Result<Appending<Sha256>, Failure<'a>>
    ensures names { IfOk result (λ log.
        HaveFullNames log.tiles.count log.bundles.items log.full_tiles.items) }
{
    let alloc = folder.rt.alloc();
    let tiles = last_tiles(folder, checkpoint.size, checkpoint.size)?;
    if tiles.root() != checkpoint.root {
        return Err(Failure::told(folder.path, Refusal::BentTiles));
    }
    let bundle = match last_bundle(checkpoint.size) {
        Some(bundle) if bundle.width < FULL => {
            checked_bundle(folder, bundle, tiles.last_bytes(0))?
        }
        _ => Vec::new(alloc),
    };
    Ok(Appending::new(alloc, tiles, bundle))
}

// Adds the entries of a bundle that a log hasn't yet, as far as they are there.
fn push_bundle(log: &mut Appending<Sha256>, bundle: Bundle, bytes: &[u8]) -> Result<(), AppendError>
    requires names { HaveFullNames log.old.tiles.count log.old.bundles.items
        log.old.full_tiles.items }
    ensures names { OnOk result (HaveFullNames log.new.tiles.count log.new.bundles.items
        log.new.full_tiles.items) }
{
    let mut entries = Entries::of(bytes, bundle.width);
    for place in 0..bundle.width as u64 {
        let Ok(Some(entry)) = entries.next_entry() else {
            break;
        };
        if log.len() / 256 == bundle.index && log.len() % 256 == place {
            log.push(entry)?;
        }
    }
    Ok(())
}

// Adds the entries that a log of `size` has and this one hasn't yet, as far as they are there.
fn push_bundles<'a>(
    folder: LogFolder<'_, 'a>,
    log: &mut Appending<Sha256>,
    size: u64,
) -> Result<(), Failure<'a>>
    requires names { HaveFullNames log.old.tiles.count log.old.bundles.items
        log.old.full_tiles.items }
    ensures names { OnOk result (HaveFullNames log.new.tiles.count log.new.bundles.items
        log.new.full_tiles.items) }
{
    for index in log.len() / 256..=size / 256 {
        let bundle = bundle_at(index, size);
        if bundle.width == 0 || !folder.has(bundle)? {
            break;
        }
        let bytes = folder.bundle(bundle)?;
        match push_bundle(log, bundle, bytes.as_slice()) {
            Ok(()) => (),
            Err(AppendError::Memory) => return Err(Failure::Memory),
            Err(_) => return Err(folder.bad_bundle(bundle, Refusal::OtherEntries)),
        }
    }
    Ok(())
}

/// Adds the entries that the head has which was signed last, and that the checkpoint hasn't yet: an
/// append wrote them that was cut off before its checkpoint. Without them the folder is an old copy.
pub fn push_signed<'a>(
    folder: LogFolder<'_, 'a>,
    log: &mut Appending<Sha256>,
    last: &Last,
) -> Result<(), Failure<'a>>
    requires names { HaveFullNames log.old.tiles.count log.old.bundles.items
        log.old.full_tiles.items }
    ensures names { OnOk result (HaveFullNames log.new.tiles.count log.new.bundles.items
        log.new.full_tiles.items) }
{
    if last.head.size <= log.len() {
        return Ok(());
    }
    push_bundles(folder, log, last.head.size)?;
    if log.len() != last.head.size || log.root() != last.head.root {
        return Err(last.told(folder.rt.alloc(), Refusal::OldCopy));
    }
    Ok(())
}
