//! `slh log prove`.
use crate::entries::{bundle_of, entry_at};
use crate::error::Refusal;
use crate::log_folder::{Head, LogFolder};
use crate::resuming::last_tiles;
use clap::ArgMatches;
use log_tiles::{TileError, prove_growth, prove_presence};
use merkle_tree::{Sha256, TreeHash};
use slh_arguments::bytes::log::decimal_size;
use slh_arguments::bytes::{Outcome, Purpose, proof_text};
use slh_arguments::host::{Failure, files, outputs};
use slh_arguments::names;

// The number of these words.
fn number_of<'a>(name: &'static str, word: &'a str) -> Result<u64, Failure<'a>> {
    match decimal_size(word.as_bytes()) {
        Some(number) => Ok(number),
        None => Err(Failure::told(name, Refusal::NotDecimal)),
    }
}

/// Why there is no proof.
pub fn unproved<'a>(folder: LogFolder<'_, 'a>, error: TileError) -> Failure<'a> {
    match error {
        TileError::Range => Failure::told(folder.path, Refusal::NoEntryOrSize),
        TileError::Tile(tile) => folder.bad_tile(tile, Refusal::NoTile),
        TileError::Differs => Failure::told(folder.path, Refusal::BentLog),
        TileError::Memory => Failure::Memory,
    }
}

// The proof that the entry with an index is in the log.
fn presence<'a>(
    folder: LogFolder<'_, 'a>,
    head: &Head,
    index: u64,
) -> Result<Vec<u8>, Failure<'a>> {
    let alloc = folder.rt.alloc();
    let (size, root) = (head.checkpoint.size, head.checkpoint.root);
    if index >= size {
        return Err(Failure::told("INDEX", Refusal::NoEntry));
    }
    let bundle = bundle_of(index, size);
    let bytes = folder.bundle(bundle)?;
    let entry = entry_at(folder, bundle, bytes.as_slice(), index % 256)?;
    let leaf = Sha256::leaf(entry);
    let proved = prove_presence::<Sha256, LogFolder<'_, '_>>(
        &folder, index, size, &leaf, &root, alloc,
    );
    match proved {
        Ok(path) => Ok(proof_text(
            alloc,
            Purpose::Presence,
            index,
            path.as_slice(),
            head.bytes.as_slice(),
        )?),
        Err(error) => Err(unproved(folder, error)),
    }
}

// The proof that the log grew from one of `old_size` entries.
fn growth<'a>(
    folder: LogFolder<'_, 'a>,
    head: &Head,
    old_size: u64,
) -> Result<Vec<u8>, Failure<'a>> {
    let alloc = folder.rt.alloc();
    let (size, root) = (head.checkpoint.size, head.checkpoint.root);
    if old_size == 0 || old_size > size {
        return Err(Failure::option(names::FROM, Refusal::NoSize));
    }
    let old_root = last_tiles(folder, old_size, size)?.root();
    let proved = prove_growth::<Sha256, LogFolder<'_, '_>>(
        &folder, old_size, size, &old_root, &root, alloc,
    );
    match proved {
        Ok(proof) => Ok(proof_text(
            alloc,
            Purpose::Growth,
            old_size,
            proof.as_slice(),
            head.bytes.as_slice(),
        )?),
        Err(error) => Err(unproved(folder, error)),
    }
}

/// Writes the proof that an entry is in a log, or that the log grew from some size.
pub fn prove<'a>(rt: &HostRuntime, words: &ArgMatches<'a>) -> Result<Outcome, Failure<'a>> {
    let folder = LogFolder::of(rt, words)?;
    let head = folder.head()?;
    let proof = match (words.get_str(names::INDEX), words.get_str(names::FROM)) {
        (Some(index), None) => presence(folder, &head, number_of("INDEX", index)?)?,
        (None, Some(size)) => growth(folder, &head, number_of("--from", size)?)?,
        _ => return Err(Failure::told("INDEX", Refusal::IndexOrSize)),
    };
    let output = words.get_str(names::OUTPUT).unwrap_or(files::STANDARD);
    outputs::put(rt, output, proof.as_slice())?;
    Ok(Outcome::Done)
}
