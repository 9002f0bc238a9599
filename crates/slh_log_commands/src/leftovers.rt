//! `slh log prune`, and what an append removes: files that no checkpoint needs, by their names.
ghost use Rattle.std.specs.Prelude.{◌<◌, ◌≤◌};

use crate::last::{check_last, last_head, path_of};
use crate::lock;
use crate::log_folder::LogFolder;
use crate::signing::own_checkpoint;
use clap::ArgMatches;
use log_files::{is_ahead, is_superseded};
use log_tiles::{Bundle, FULL, LEVELS, Tile, hash_count};
use slh_arguments::bytes::{Key, Outcome};
use slh_arguments::host::Failure;
use slh_arguments::{names, signing_key};
use std::alloc::AllocError;
use std::fs;
use std::io::ErrorKind;

/// Which files of a log are left over.
#[derive(Clone, Copy)]
pub struct Leftovers {
    /// How many entries were signed: what is ahead of them nobody signed.
    pub signed: u64,
    /// How many entries the checkpoint has: of what is full by it no partial files are needed.
    pub published: u64,
}

// What stands in files by 256: the entries, or the hashes of a level.
#[derive(Clone, Copy)]
enum Row {
    Entries,
    Level(u32),
}

// How many things a row has in a log of so many entries.
fn count_of(row: Row, size: u64) -> u64 {
    match row {
        Row::Level(level) if level < LEVELS as u32 => hash_count(level, size),
        _ => size,
    }
}

// The name of a file of a row.
fn name_of<'a>(
    folder: LogFolder<'_, 'a>,
    row: Row,
    index: u64,
    width: u32,
) -> Result<String, Failure<'a>> {
    let alloc = folder.rt.alloc();
    folder.name_of(match row {
        Row::Entries => Bundle { index, width }.path(alloc),
        Row::Level(level) => Tile {
            level,
            index,
            width,
        }
        .path(alloc),
    })
}

// The name of the folder with the partial files of an index.
fn partial_name<'a>(
    folder: LogFolder<'_, 'a>,
    row: Row,
    index: u64,
) -> Result<String, Failure<'a>> {
    let mut name = name_of(folder, row, index, FULL)?;
    name.push_str(".p")?;
    Ok(name)
}

// Removes a file, if it is left over and there is one.
fn remove<'a>(
    folder: LogFolder<'_, 'a>,
    left: Leftovers,
    row: Row,
    index: u64,
    width: u32,
) -> Result<(), Failure<'a>>
    requires { width ≤ 256 }
{
    let (signed, published) = (count_of(row, left.signed), count_of(row, left.published));
    if !is_ahead(signed, index, width) && !is_superseded(published, index, width) {
        return Ok(());
    }
    let name = name_of(folder, row, index, width)?;
    if !folder.has_name(name.as_str())? {
        return Ok(());
    }
    let path = folder.path_of(name.as_str())?;
    match fs::remove_file(folder.rt, path.as_str()) {
        Ok(()) => Ok(()),
        Err(error) => Err(folder.told(name.as_str(), error)),
    }
}

// Removes the partial files of an index that are left over, and their folder where it is empty then.
fn remove_partial<'a>(
    folder: LogFolder<'_, 'a>,
    left: Leftovers,
    row: Row,
    index: u64,
) -> Result<(), Failure<'a>> {
    let name = partial_name(folder, row, index)?;
    if !folder.has_name(name.as_str())? {
        return Ok(());
    }
    for width in 1..FULL {
        remove(folder, left, row, index, width)?;
    }
    let path = folder.path_of(name.as_str())?;
    let _ = fs::remove_dir(folder.rt, path.as_str());
    Ok(())
}

// Whether a file of an index may be there, full or partial.
fn stands<'a>(folder: LogFolder<'_, 'a>, row: Row, index: u64) -> Result<bool, Failure<'a>> {
    let full = name_of(folder, row, index, FULL)?;
    let partial = partial_name(folder, row, index)?;
    Ok(folder.has_name(full.as_str())? || folder.has_name(partial.as_str())?)
}

// The first index from this one on of which no file is there: an append writes them in their order.
fn end_of<'a>(folder: LogFolder<'_, 'a>, row: Row, first: u64) -> Result<u64, Failure<'a>> {
    for index in first..u64::MAX {
        if !stands(folder, row, index)? {
            return Ok(index);
        }
    }
    Ok(u64::MAX)
}

// Removes what is left over of some indexes, the last first.
fn remove_between<'a>(
    folder: LogFolder<'_, 'a>,
    left: Leftovers,
    row: Row,
    first: u64,
    end: u64,
) -> Result<(), Failure<'a>> {
    for index in (first..end).rev() {
        remove_partial(folder, left, row, index)?;
        remove(folder, left, row, index, FULL)?;
    }
    Ok(())
}

// Removes what is left over of a row, from the first entries that a log of `from` hasn't on.
fn remove_row<'a>(
    folder: LogFolder<'_, 'a>,
    left: Leftovers,
    row: Row,
    from: u64,
) -> Result<(), Failure<'a>> {
    let first = count_of(row, from) / 256;
    let last = count_of(row, left.signed) / 256;
    remove_between(folder, left, row, first, end_of(folder, row, last + 1)?)
}

/// Removes what is left over in the folder of a log: all that is ahead, and the partial files of what
/// became full since it had `from` entries.
pub fn remove_left<'a>(
    folder: LogFolder<'_, 'a>,
    left: Leftovers,
    from: u64,
) -> Result<(), Failure<'a>> {
    remove_row(folder, left, Row::Entries, from)?;
    for level in 0..LEVELS as u32 {
        remove_row(folder, left, Row::Level(level), from)?;
    }
    Ok(())
}

// Removes what is left over in the folder of a log, whose lock is held.
fn prune_folder<'a>(
    folder: LogFolder<'_, 'a>,
    words: &ArgMatches<'a>,
    key: &Key,
) -> Result<(), Failure<'a>> {
    let head = folder.head()?;
    let checkpoint = own_checkpoint(folder, key, &head)?;
    let origin = head.origin.as_str();
    let path = path_of(folder.rt, words, origin)?;
    let last = last_head(folder, key, origin, path, head.bytes.as_slice())?;
    check_last(folder, &last, &checkpoint)?;
    let published = checkpoint.size;
    let left = Leftovers {
        signed: published.max(last.head.size),
        published,
    };
    remove_left(folder, left, 0)
}

/// Removes from the folder of a log what no checkpoint needs.
pub fn prune<'a>(rt: &HostRuntime, words: &ArgMatches<'a>) -> Result<Outcome, Failure<'a>> {
    let folder = LogFolder::of(rt, words)?;
    let key = signing_key(rt, words)?;
    folder.head()?;
    let lock = lock::take(folder, words.get_flag(names::BREAK_LOCK))?;
    let done = prune_folder(folder, words, &key);
    lock::free_after(folder, lock, done)
}
