//! Files that are written whole: each call failing in turn, and everything stopping at each.
use crate::shown::{shows, shows_at};
use crate::texts::is_text;
use crate::whole_memory::{COUNT, NEVER, are_put, has, is_free};
use std::alloc::Global;
use whole_files::{
    FileId, FileSystem, Kind, MemFiles, Mode, WriteError, Written, is_input, make_pair,
    make_secret, part_name, write_whole,
};

// What a write makes: it asks what stands there, makes the part, fills it, brings it to the disk,
// gives it the name, and brings the folder to the disk.
const CALLS_OF_A_WRITE: u64 = 6;

// A part is made, filled, brought to the disk, linked and taken away, and the folder is brought to
// the disk.
const CALLS_OF_A_SECRET: u64 = 6;

// The mode of what nobody but its owner reads.
const OWN: Mode = Mode::Exact(0o600);

// What is shown of files, where a call fails, or everything stops at one.
#[derive(Clone, Copy)]
enum Fact {
    Replaced,
    New,
    OthersRefused,
    WriteFails,
    WriteStops,
    SecretMade,
    SecretFails,
    SecretBegun,
    PairFails,
    PairStops,
    KeyAlone,
    PublicAlone,
    AnyName,
}

// Of the calls the one with this number fails, and all from `stop` on. One function owns the files,
// of which each that does has to drop all.
fn holds(alloc: Global, fact: Fact, call: u64, stop: u64) -> bool {
    let Ok(fails) = vec![in alloc; call] else {
        return false;
    };
    let mut files = MemFiles::new(alloc, fails, stop);
    are_put(&mut files) && holds_of(&mut files, fact, call, stop)
}

fn holds_of(files: &mut MemFiles, fact: Fact, call: u64, stop: u64) -> bool {
    match fact {
        Fact::Replaced => is_replaced(files),
        Fact::New => is_written(files),
        Fact::OthersRefused => are_others_refused(files),
        Fact::WriteFails => write_fails(files, call),
        Fact::WriteStops => write_stops(files, stop),
        Fact::SecretMade => is_made_once(files),
        Fact::SecretFails => secret_fails(files, call),
        Fact::SecretBegun => is_begun_secretly(files),
        Fact::PairFails => pair_fails(files, call),
        Fact::PairStops => pair_stops(files, stop),
        Fact::KeyAlone => is_alone(files, "key"),
        Fact::PublicAlone => is_alone(files, "pub"),
        Fact::AnyName => has_any_name(files),
    }
}

type Answer = Result<Written, WriteError>;

// Whether a write is answered so.
fn writes(files: &mut MemFiles, path: &str, part: &str, answer: Answer) -> bool {
    part != path && write_whole(files, path, part, b"newer") == answer
}

// What is answered where a call with this number of six fails. Those before `left` leave nothing
// behind.
fn answer_at(call: u64, left: u64) -> Answer {
    if call < left {
        Err(WriteError::Failed)
    } else if call < 5 {
        Err(WriteError::Left)
    } else if call == 5 {
        Ok(Written::Unsettled)
    } else {
        Ok(Written::Settled)
    }
}

// Nothing, or all of it.
fn is_whole(files: &MemFiles, path: &str, bytes: &[u8]) -> bool {
    is_free(files, path) || has(files, path, bytes)
}

// A file takes the place and the mode of the one that is there.
fn is_replaced(files: &mut MemFiles) -> bool {
    writes(files, "at", "part", Ok(Written::Settled))
        && files.calls() == CALLS_OF_A_WRITE
        && has(files, "at", b"newer")
        && is_free(files, "part")
        && files.is_settled()
        && files.mode("at") == Some(Mode::Exact(0o640))
        && files.count() == COUNT
}

// A file is new, and its mode is left to the mask.
fn is_written(files: &mut MemFiles) -> bool {
    writes(files, "new", "part", Ok(Written::Settled))
        && has(files, "new", b"newer")
        && files.mode("new") == Some(Mode::Masked)
        && files.count() == COUNT + 1
}

#[test]
fn a_file_is_written(rt: HostRuntime) {
    let alloc = rt.alloc();
    shows(&rt, holds(alloc, Fact::Replaced, NEVER, NEVER));
    shows(&rt, holds(alloc, Fact::New, NEVER, NEVER));
}

// What is no regular file isn't written over, nor is what stands at the name of a part.
fn are_others_refused(files: &mut MemFiles) -> bool {
    let irregular = Err(WriteError::NotRegular);
    writes(files, "link", "part", irregular)
        && writes(files, "folder", "part", irregular)
        && writes(files, "pipe", "part", irregular)
        && writes(files, "at", "pipe", Err(WriteError::Taken))
        && has(files, "link", b"at")
        && has(files, "at", b"old")
        && has(files, "pipe", b"")
        && files.count() == COUNT
}

#[test]
fn a_link_and_a_folder_are_refused(rt: HostRuntime) {
    shows(&rt, holds(rt.alloc(), Fact::OthersRefused, NEVER, NEVER));
}

// What comes of a write whose call with this number fails.
fn write_fails(files: &mut MemFiles, call: u64) -> bool {
    writes(files, "at", "part", answer_at(call, 5))
        && has(files, "at", if call < 5 { b"old" } else { b"newer" })
        && files.count() == COUNT
}

#[test]
fn each_call_of_a_write_fails_in_turn(rt: HostRuntime) {
    for call in 0..=CALLS_OF_A_WRITE {
        shows_at(&rt, call, holds(rt.alloc(), Fact::WriteFails, call, NEVER));
    }
}

// What comes of a write where everything stops at a call. Once the part is made, it can't be taken
// away.
fn write_stops(files: &mut MemFiles, stop: u64) -> bool {
    let is_left = stop > 1 && stop < 5;
    writes(files, "at", "part", answer_at(stop, 2))
        && is_free(files, "part") != is_left
        && has(files, "at", if stop < 5 { b"old" } else { b"newer" })
        && has(files, "link", b"at")
}

#[test]
fn everything_stops_at_each_call_of_a_write(rt: HostRuntime) {
    for stop in 0..=CALLS_OF_A_WRITE {
        shows_at(&rt, stop, holds(rt.alloc(), Fact::WriteStops, NEVER, stop));
    }
}

// Whether a secret is answered so.
fn makes(files: &mut MemFiles, path: &str, answer: Answer) -> bool {
    "part" != path && make_secret(files, path, "part", b"secret") == answer
}

// Nothing that stands there is replaced, be it a secret.
fn is_made_once(files: &mut MemFiles) -> bool {
    let taken = Err(WriteError::Taken);
    makes(files, "key", Ok(Written::Settled))
        && files.calls() == CALLS_OF_A_SECRET
        && has(files, "key", b"secret")
        && files.mode("key") == Some(OWN)
        && makes(files, "key", taken)
        && makes(files, "link", taken)
        && makes(files, "at", taken)
        && has(files, "link", b"at")
        && has(files, "at", b"old")
        && files.count() == COUNT + 1
}

#[test]
fn a_secret_is_made_once(rt: HostRuntime) {
    shows(&rt, holds(rt.alloc(), Fact::SecretMade, NEVER, NEVER));
}

// What comes of a secret whose call with this number fails.
fn secret_fails(files: &mut MemFiles, call: u64) -> bool {
    let new = match call {
        0..=3 => 0,
        4 => 2,
        _ => 1,
    };
    makes(files, "key", answer_at(call, 4))
        && files.count() == COUNT + new
        && is_whole(files, "key", b"secret")
}

#[test]
fn each_call_of_a_secret_fails_in_turn(rt: HostRuntime) {
    for call in 0..=CALLS_OF_A_SECRET {
        shows_at(&rt, call, holds(rt.alloc(), Fact::SecretFails, call, NEVER));
    }
}

// Whether a secret is left that nobody else reads, where everything stops at a call.
fn is_begun_secretly(files: &mut MemFiles) -> bool {
    makes(files, "key", Err(WriteError::Left))
        && files.mode("part") == Some(OWN)
        && is_whole(files, "key", b"secret")
}

#[test]
fn a_secret_that_is_begun_is_secret(rt: HostRuntime) {
    for stop in 1..5u64 {
        shows_at(&rt, stop, holds(rt.alloc(), Fact::SecretBegun, NEVER, stop));
    }
}

fn pair(files: &mut MemFiles) -> Answer {
    make_pair(
        files, "key", "key-part", b"secret", "pub", "pub-part", b"shown",
    )
}

fn is_pair(files: &MemFiles) -> bool {
    files.mode("key") == Some(OWN)
        && files.mode("pub") == Some(Mode::Masked)
        && files.count() == COUNT + 2
}

// What comes of a pair whose call with this number fails.
fn pair_fails(files: &mut MemFiles, call: u64) -> bool {
    let made = pair(files);
    let answer = match call {
        4 | 9 => Err(WriteError::Left),
        0..=8 => Err(WriteError::Failed),
        10 | 11 => Ok(Written::Unsettled),
        _ => Ok(Written::Settled),
    };
    made == answer
        && (answer != Err(WriteError::Failed) || files.count() == COUNT)
        && (answer.is_err() || is_pair(files))
        && is_whole(files, "key", b"secret")
        && is_whole(files, "pub", b"shown")
}

#[test]
fn a_pair_is_made_or_nothing(rt: HostRuntime) {
    for call in 0..13u64 {
        shows_at(&rt, call, holds(rt.alloc(), Fact::PairFails, call, NEVER));
    }
}

// What comes of a pair where everything stops at a call.
fn pair_stops(files: &mut MemFiles, stop: u64) -> bool {
    let made = pair(files);
    made.is_ok() == (stop >= 10)
        && is_whole(files, "key", b"secret")
        && is_whole(files, "pub", b"shown")
        && has(files, "at", b"old")
}

#[test]
fn everything_stops_at_each_call_of_a_pair(rt: HostRuntime) {
    for stop in 0..13u64 {
        shows_at(&rt, stop, holds(rt.alloc(), Fact::PairStops, NEVER, stop));
    }
}

// Half of a pair that is there stays alone.
fn is_alone(files: &mut MemFiles, path: &str) -> bool {
    files.put(path, Kind::Regular, 0o644, b"mine").is_ok()
        && pair(files) == Err(WriteError::Taken)
        && has(files, path, b"mine")
        && files.count() == COUNT + 1
}

#[test]
fn half_a_pair_that_is_there_stays_alone(rt: HostRuntime) {
    let alloc = rt.alloc();
    shows(&rt, holds(alloc, Fact::KeyAlone, NEVER, NEVER));
    shows(&rt, holds(alloc, Fact::PublicAlone, NEVER, NEVER));
}

// Whether a path is one of the inputs, or isn't.
fn is_found(files: &mut MemFiles, path: &str, inputs: &[FileId], found: bool) -> bool {
    is_input(files, path, inputs) == Ok(found)
}

fn are_found(files: &mut MemFiles, inputs: &[FileId]) -> bool {
    is_found(files, "at", inputs, true)
        && is_found(files, "again", inputs, true)
        && is_found(files, "pipe", inputs, false)
        && is_found(files, "nothing", inputs, false)
}

fn has_any_name(files: &mut MemFiles) -> bool {
    match files.stat("at") {
        Ok(Some(stat)) => files.link("at", "again") == Ok(true) && are_found(files, &[stat.id]),
        _ => false,
    }
}

#[test]
fn an_input_has_any_name(rt: HostRuntime) {
    shows(&rt, holds(rt.alloc(), Fact::AnyName, NEVER, NEVER));
}

// Paths, and the names of their parts with the number 255.
const PARTS: &str = "\
notes.txt.sig 00000000000000ff.part
/tmp/notes /tmp/00000000000000ff.part
/notes /00000000000000ff.part
a/b/../c a/b/../00000000000000ff.part
00000000000000ff.part 00000000000000ff.part_";

fn has_part(alloc: Global, row: &str) -> bool {
    match row.split_once(' ') {
        Some((path, wanted)) => is_text(part_name(alloc, path, 255), wanted),
        None => false,
    }
}

#[test]
fn parts_have_short_names_in_the_same_folder(rt: HostRuntime) {
    for row in PARTS.lines() {
        shows_at(&rt, row, has_part(rt.alloc(), row));
    }
}
