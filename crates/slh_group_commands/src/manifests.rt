//! `slh manifest`: one signature for the files of a folder.
use crate::chains::acting_key;
use clap::ArgMatches;
use slh_arguments::bytes::manifest::{BuildError, Builder, CheckError, MAX_ENTRIES};
use slh_arguments::bytes::{
    Checked, Detail, Outcome, Printable, check_manifest, entry_name, first_unnamed, seal_manifest,
    shown,
};
use slh_arguments::host::folder::{Below, Folder, names_below};
use slh_arguments::host::whole_files::is_part;
use slh_arguments::host::{Failure, files, outputs};
use slh_arguments::{Randomness, check_inputs, check_output, names, report, required, signing_key};
use std::alloc::{AllocError, Global};
use std::io::{self, ErrorKind};
use std::{fs, str};

// What is wrong with a folder, a file below it, or a manifest.
#[derive(Clone, Copy, Debug, thiserror::Error)]
enum Refusal {
    #[error("not a folder")]
    NotFolder,
    #[error("its name has more than 255 bytes")]
    NameTooLong,
    #[error("more than 4096 files")]
    Full,
    #[error("it can't be read")]
    Unreadable,
    #[error("changed while it was read")]
    Changed,
    #[error("it is gone")]
    Gone,
    #[error("it has more than 2^32 bytes")]
    TooLarge,
    #[error("no files")]
    Empty,
    #[error("a wrong randomizer")]
    Randomizer,
    #[error("out of memory")]
    Memory,
    #[error("it is one of the files below the folder")]
    BelowFolder,
    #[error("a file that slh began to write: remove it")]
    Part,
    #[error("not a manifest of the key's set")]
    NotManifest,
    #[error("a name in it is not UTF-8")]
    NotText,
}

fn refusal_of(error: BuildError) -> Refusal {
    match error {
        BuildError::Name => Refusal::NameTooLong,
        BuildError::Full => Refusal::Full,
        BuildError::Fault => Refusal::Unreadable,
        BuildError::Missing => Refusal::Gone,
        BuildError::TooLarge => Refusal::TooLarge,
        BuildError::Empty => Refusal::Empty,
        BuildError::Randomizer => Refusal::Randomizer,
        BuildError::Memory => Refusal::Memory,
    }
}

// The folder that the words name.
fn folder_path<'a>(rt: &HostRuntime, words: &ArgMatches<'a>) -> Result<&'a str, Failure<'a>> {
    let path = required(words, names::FOLDER)?;
    match fs::metadata(rt, path) {
        Ok(found) if found.is_dir() => Ok(path),
        Ok(_) => Err(Failure::told(path, Refusal::NotFolder)),
        Err(error) => Err(Failure::told(path, error)),
    }
}

// What stands below a folder.
fn found_below<'a>(rt: &HostRuntime, path: &'a str) -> Result<Below, Failure<'a>> {
    match names_below(rt, path) {
        Ok(below) => Ok(below),
        Err(walk) => {
            let (below, error) = (walk.below, walk.error);
            if error.kind() == ErrorKind::InvalidFilename {
                return Err(Failure::entry(path, below, Refusal::NotText));
            }
            if below.is_empty() {
                return Err(Failure::told(path, error));
            }
            Err(Failure::entry(path, below, error))
        }
    }
}

// Tells what isn't sealed, since it is no regular file.
fn tell_left_out(rt: &HostRuntime, path: &str, others: &[String]) {
    for name in others {
        let (path, name) = (Printable(path), Printable(name.as_str()));
        let _ = eprintln!(rt; "slh: {path}/{name}: no regular file, and not sealed");
    }
}

// Refuses an output that is to stand below the folder.
fn check_below<'a>(rt: &HostRuntime, path: &str, output: &'a str) -> Result<(), Failure<'a>> {
    let (Ok(folder), Some(place)) = (files::folder_place(rt, path), files::place_of(rt, output)?)
    else {
        return Ok(());
    };
    if let Some(rest) = place.strip_prefix(folder.as_str())
        && rest.starts_with('/')
    {
        return Err(Failure::told(output, Refusal::BelowFolder));
    }
    Ok(())
}

// The names of the files below a folder, none of which is the output or was begun by another run.
fn names_for<'a>(
    rt: &HostRuntime,
    path: &'a str,
    output: &'a str,
) -> Result<Vec<String>, Failure<'a>> {
    check_below(rt, path, output)?;
    let Below { regular, others } = found_below(rt, path)?;
    let names = regular;
    if names.len() > MAX_ENTRIES {
        return Err(Failure::told(path, refusal_of(BuildError::Full)));
    }
    for name in &names {
        check_name(rt, path, name.as_str())?;
        let below = format!(in rt.alloc(); "{path}/{name}")?;
        if files::are_one(rt, below.as_str(), output) {
            return Err(Failure::told(output, Refusal::BelowFolder));
        }
    }
    tell_left_out(rt, path, &others);
    Ok(names)
}

// Refuses the name of a file that a run of `slh` began to write, and left.
fn check_name<'a>(rt: &HostRuntime, path: &'a str, name: &str) -> Result<(), Failure<'a>> {
    let last = match name.rsplit_once('/') {
        Some((_, last)) => last,
        None => name,
    };
    if is_part(last) {
        let name = String::from_str(rt.alloc(), name)?;
        return Err(Failure::entry(path, name, Refusal::Part));
    }
    Ok(())
}

// The entries of the files of these names.
fn entries_of<'a>(
    rt: &HostRuntime,
    path: &'a str,
    names: &[String],
) -> Result<Builder, Failure<'a>> {
    let mut folder = Folder::new(rt, path);
    let mut entries = Builder::new(rt.alloc());
    for name in names {
        add_entry(rt, path, name.as_str(), &mut folder, &mut entries)?;
    }
    folder.clear_progress();
    Ok(entries)
}

// Adds the entry of the file of a name.
fn add_entry<'a>(
    rt: &HostRuntime,
    path: &'a str,
    name: &str,
    folder: &mut Folder<'_>,
    entries: &mut Builder,
) -> Result<(), Failure<'a>> {
    match entries.add(name.as_bytes(), folder) {
        Ok(()) => Ok(()),
        Err(error) => {
            folder.clear_progress();
            let name = String::from_str(rt.alloc(), name)?;
            Err(entry_failure(path, name, error, folder.fault.take()))
        }
    }
}

// Why the file of this name is no entry.
fn entry_failure<'a>(
    path: &'a str,
    name: String,
    error: BuildError,
    fault: Option<io::Error>,
) -> Failure<'a> {
    match (error, fault) {
        (BuildError::Full, _) => Failure::told(path, refusal_of(error)),
        (BuildError::Fault, Some(fault)) => unread(path, name, fault),
        _ => Failure::entry(path, name, refusal_of(error)),
    }
}

/// Signs the regular files below a folder.
pub fn seal<'a>(rt: &HostRuntime, words: &ArgMatches<'a>) -> Result<Outcome, Failure<'a>> {
    check_inputs(words, &[])?;
    let path = folder_path(rt, words)?;
    let output = required(words, names::OUTPUT)?;
    check_output(rt, words, &[names::KEY, names::PASSPHRASE_FILE], output)?;
    let manifest = sealed(rt, words, path, output)?;
    outputs::put(rt, output, &manifest)?;
    Ok(Outcome::Done)
}

// The manifest of the files below a folder.
fn sealed<'a>(
    rt: &HostRuntime,
    words: &ArgMatches<'a>,
    path: &'a str,
    output: &'a str,
) -> Result<Vec<u8>, Failure<'a>> {
    let key = signing_key(rt, words)?;
    let entries = entries_below(rt, path, output)?;
    let randomness = Randomness::new(rt, words)?;
    let random = randomness.of_set(key.set);
    match seal_manifest(rt.alloc(), key.set, key.bytes.as_slice(), entries, random) {
        Ok(manifest) => Ok(manifest),
        Err(error) => Err(Failure::told(path, refusal_of(error))),
    }
}

fn entries_below<'a>(
    rt: &HostRuntime,
    path: &'a str,
    output: &'a str,
) -> Result<Builder, Failure<'a>> {
    let names = names_for(rt, path, output)?;
    entries_of(rt, path, &names)
}

// What stands below a folder and isn't named as an input, where the words ask for that.
fn others_below<'a>(
    rt: &HostRuntime,
    words: &ArgMatches<'a>,
    path: &'a str,
) -> Result<Vec<String>, Failure<'a>> {
    let mut others = Vec::new(rt.alloc());
    if !words.get_flag(names::STRICT) {
        return Ok(others);
    }
    let folder = match files::folder_place(rt, path) {
        Ok(folder) => folder,
        Err(error) => return Err(Failure::told(path, error)),
    };
    let named = named_places(rt, words)?;
    let Below {
        regular,
        others: rest,
    } = found_below(rt, path)?;
    for name in regular.into_iter().chain(rest) {
        let place = format!(in rt.alloc(); "{folder}/{name}")?;
        if !named.contains(&place) {
            others.push(name).map_err(AllocError::from)?;
        }
    }
    others.sort().map_err(AllocError::from)?;
    Ok(others)
}

// Where the files stand that the words name as the manifest, the chain and the key.
fn named_places(rt: &HostRuntime, words: &ArgMatches<'_>) -> Result<Vec<String>, AllocError> {
    let mut places = Vec::new(rt.alloc());
    for name in [names::MANIFEST, names::CHAIN, names::KEY] {
        if let Some(input) = words.get_str(name)
            && let Some(place) = files::place_of(rt, input)?
        {
            places.push(place)?;
        }
    }
    Ok(places)
}

/// Tells whether a folder has the files of a manifest.
pub fn check<'a>(rt: &HostRuntime, words: &ArgMatches<'a>) -> Result<Outcome, Failure<'a>> {
    check_inputs(words, &[])?;
    let below = folder_path(rt, words)?;
    let Some(key) = acting_key(rt, words)? else {
        return report(rt, words, Outcome::Invalid, Detail::Nothing);
    };
    let path = required(words, names::MANIFEST)?;
    let manifest = files::read_limited(rt, path)?;
    let others = others_below(rt, words, below)?;
    let (key_bytes, folder) = (key.bytes.as_slice(), Folder::new(rt, below));
    let mut checked = check_manifest(key.set, key_bytes, manifest.as_slice(), folder);
    checked.store.clear_progress();
    let unnamed = first_unnamed(manifest.as_slice(), &others);
    let Some(outcome) = Outcome::of_manifest(checked.answer, unnamed.is_some()) else {
        return Err(unchecked(rt.alloc(), path, below, checked)?);
    };
    let name = match checked.answer {
        Ok(()) => unnamed.unwrap_or(b""),
        Err(error) => entry_name(manifest.as_slice(), error),
    };
    report(rt, words, outcome, name_detail(name))
}

// Why there is no verdict on a folder.
fn unchecked<'a>(
    alloc: Global,
    path: &'a str,
    below: &'a str,
    checked: Checked<Folder<'_>>,
) -> Result<Failure<'a>, AllocError> {
    match checked.answer {
        Err(CheckError::Fault) => fault_failure(alloc, below, checked.store),
        _ => Ok(Failure::told(path, Refusal::NotManifest)),
    }
}

// What a verdict tells of a file below the folder: its name, or nothing.
fn name_detail(name: &[u8]) -> Detail<'_> {
    if name.is_empty() {
        return Detail::Nothing;
    }
    match str::from_utf8(name) {
        Ok(text) => Detail::Name(text),
        Err(_) => Detail::OtherName(name),
    }
}

// Why a file couldn't be read: also since another one took its place meanwhile.
fn unread<'a>(path: &'a str, name: String, fault: io::Error) -> Failure<'a> {
    if fault.kind() == ErrorKind::ResourceBusy {
        Failure::entry(path, name, Refusal::Changed)
    } else {
        Failure::entry(path, name, fault)
    }
}

// Why a file that a manifest names couldn't be read.
fn fault_failure<'a>(
    alloc: Global,
    path: &'a str,
    folder: Folder<'_>,
) -> Result<Failure<'a>, AllocError> {
    let name = shown(alloc, folder.name())?;
    match folder.fault {
        Some(fault) => Ok(unread(path, name, fault)),
        None => Ok(Failure::entry(path, name, Refusal::Unreadable)),
    }
}
