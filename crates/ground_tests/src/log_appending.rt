//! A log of 255 entries that grows to 257, over files in memory: each call failing in turn, and
//! everything stopping at each.
use crate::hexadecimal::is_hex;
use crate::shown::{shows, shows_at};
use crate::whole_memory::{NEVER, has};
use log_files::{AppendError, Appending, LogFile, Piece, PublishError, are_separate, publish};
use log_tiles::GrowingTiles;
use merkle_tree::{Sha256, TreeHash};
use std::alloc::{AllocError, Global};
use whole_files::{Kind, MemFiles, WriteError, Written};

// The files of the log of the entries `entry 0` to `entry 254`, of which the last has its size and
// its root, and of each the SHA-256 of a zero and its bytes. They are another program's (Python's
// hashlib), as the rules for tiles have them.
const OLD: &str = "\
tile/entries/000.p/255 3acd37c4d39aff849b1b1e62f94eccdf0bd21a600d73a3d544b4033184798d04
tile/0/000.p/255 511d57b5edf272fb77e55df2e98cce358ceef74cdaabc933e3edb421aa5d7f76
checkpoint 9f35b55edba488314852b3f707949174f7fc6be91b014f71aba550cffc8923cf";

// Those of the log of two entries more. The files of the old one stay.
const NEW: &str = "\
tile/entries/000 41ed034a2dbc32e5ef3fb416fdd43150c9929d9395de0cd6116d86854d0a2fcd
tile/entries/001.p/1 6673fad0fd9e0d2a6c510e9e22021e3e0b6710e87f9905b70235aae409018bb6
tile/0/000 f819f6d99f39486aa9f8db16f9046786d6f9824a55a5a6bea16bd321c8022020
tile/0/001.p/1 c039a4a27a1af659efebdb732e8fddc744bd5cfdfb14e5a3da597a8e7e394f9b
tile/1/000.p/1 bc967b4e3abc103937c77fc2f636e195b84abbc014861d0c89f4ac27f40938d0
checkpoint 5f789479e57beff0bc897eb5048733c0fa74ce138d2b4448d04bc74da73e84ab";

// Each of these takes six calls, of which the last brings its name to the disk.
const CALLS: u64 = 36;

const LAST_CALL: u64 = 35;

// How many paths there are in the end.
const COUNT: usize = 8;

// The files of a log but the head, and the head of 40 bytes with the size and the root.
#[derive(Drop)]
struct Log {
    files: Vec<LogFile>,
    head: [u8; 40],
}

fn add_entry(alloc: Global, log: &mut Appending<Sha256>, i: u64) -> Result<(), AppendError> {
    let entry = format!(in alloc; "entry {i}")?;
    log.push(entry.as_bytes())
}

fn add_entries(alloc: Global, log: &mut Appending<Sha256>, count: u64) -> Result<(), AppendError> {
    for i in 0..count {
        add_entry(alloc, log, i)?;
    }
    Ok(())
}

fn head_of(log: &Appending<Sha256>) -> [u8; 40] {
    let mut head = [0; 40];
    head[..8].copy_from_slice(&log.len().to_be_bytes());
    head[8..].copy_from_slice(&log.root());
    head
}

fn log_of(alloc: Global, count: u64) -> Result<Log, AppendError> {
    let mut log = Appending::new(alloc, GrowingTiles::new(), Vec::new(alloc));
    add_entries(alloc, &mut log, count)?;
    let head = head_of(&log);
    let files = log.finish()?;
    Ok(Log { files, head })
}

// The files of a log as they are to be written, the head last.
fn pieces<'a>(alloc: Global, log: &'a Log) -> Result<Vec<Piece<'a>>, AllocError> {
    let part = "part";
    let mut pieces = Vec::new(alloc);
    for file in &log.files {
        let (path, bytes) = (file.name.as_str(), file.bytes.as_slice());
        pieces.push(Piece { path, part, bytes })?;
    }
    let (path, bytes) = ("checkpoint", log.head.as_slice());
    pieces.push(Piece { path, part, bytes })?;
    Ok(pieces)
}

// Puts there a log, if there is memory.
fn is_put(files: &mut MemFiles, log: &[Piece<'_>]) -> bool {
    let mut all = true;
    for piece in log {
        all = all
            && files
                .put(piece.path, Kind::Regular, 0o644, piece.bytes)
                .is_ok();
    }
    all
}

fn write(files: &mut MemFiles, log: &[Piece<'_>]) -> Result<Written, PublishError> {
    let inseparable = Err(PublishError::AtPiece(0, WriteError::Taken));
    let Some((head, pieces)) = log.split_last() else {
        return inseparable;
    };
    if !are_separate(pieces) || head.part == head.path {
        return inseparable;
    }
    publish(files, pieces, head)
}

fn is_settled(written: Result<Written, PublishError>) -> bool {
    written == Ok(Written::Settled)
}

fn has_all(files: &MemFiles, log: &[Piece<'_>]) -> bool {
    let mut all = true;
    for piece in log {
        all = all && has(files, piece.path, piece.bytes);
    }
    all
}

fn is_known(piece: &Piece<'_>, row: &str) -> bool {
    match row.split_once(' ') {
        Some((path, digits)) => {
            piece.path == path
                && piece.bytes.len() < 65_536
                && is_hex(digits, &Sha256::leaf(piece.bytes))
        }
        None => false,
    }
}

fn are_known(log: &[Piece<'_>], rows: &str) -> bool {
    let mut rows = rows.lines();
    let mut all = true;
    for piece in log {
        all = all
            && match rows.next() {
                Some(row) => is_known(piece, row),
                None => false,
            };
    }
    all && rows.next().is_none()
}

fn is_appended(files: &mut MemFiles, old: &[Piece<'_>], new: &[Piece<'_>]) -> bool {
    are_known(old, OLD)
        && are_known(new, NEW)
        && is_settled(write(files, new))
        && files.calls() == CALLS
        && files.count() == COUNT
        && has_all(files, new)
}

// What is answered where the call with this number fails. The six calls of a write: it asks what
// stands there, then begins a part, and at last brings the name to the disk.
fn refusal(call: u64) -> Result<Written, PublishError> {
    let i = (call / 6) as usize;
    let settles = call % 6 == 5;
    match (i, settles) {
        (5, true) => Ok(Written::Unsettled),
        (5, false) => Err(PublishError::AtHead(WriteError::Failed)),
        (_, true) => Err(PublishError::Unsettled(i)),
        (_, false) => Err(PublishError::AtPiece(i, WriteError::Failed)),
    }
}

// A call that fails leaves the old head and what it speaks of, or all of the new log; and the next
// append mends it.
fn is_mended(files: &mut MemFiles, old: &[Piece<'_>], new: &[Piece<'_>], call: u64) -> bool {
    let is_refused = write(files, new) == refusal(call);
    let is_whole = if call < LAST_CALL {
        has_all(files, old)
    } else {
        has_all(files, new)
    };
    is_refused && is_whole && is_settled(write(files, new)) && has_all(files, new)
}

// Where everything stops, the old log is there, or the new one.
fn is_whole(files: &mut MemFiles, old: &[Piece<'_>], new: &[Piece<'_>], stop: u64) -> bool {
    let written = write(files, new);
    written.is_ok() == (stop >= LAST_CALL)
        && is_settled(written) == (stop == CALLS)
        && if stop < LAST_CALL {
            has_all(files, old)
        } else {
            has_all(files, new)
        }
}

// Where a link stands at the path of the second piece, the first one alone is written.
fn is_no_piece(files: &mut MemFiles, old: &[Piece<'_>], new: &[Piece<'_>]) -> bool {
    let wanted = Err(PublishError::AtPiece(1, WriteError::NotRegular));
    files
        .put("tile/entries/001.p/1", Kind::Link, 0o777, b"checkpoint")
        .is_ok()
        && write(files, new) == wanted
        && has_all(files, old)
        && has_all(files, new.get(..1).unwrap_or(&[]))
}

// What is shown of an append.
#[derive(Clone, Copy)]
enum Shown {
    Appended,
    Mended(u64),
    Whole(u64),
    NoPiece,
}

// Of the calls the one with this number fails, and all from `stop` on.
fn is_shown_of(alloc: Global, old: &[Piece<'_>], new: &[Piece<'_>], shown: Shown) -> bool {
    let (call, stop) = match shown {
        Shown::Mended(call) => (call, NEVER),
        Shown::Whole(stop) => (NEVER, stop),
        _ => (NEVER, NEVER),
    };
    let Ok(fails) = vec![in alloc; call] else {
        return false;
    };
    let mut files = MemFiles::new(alloc, fails, stop);
    is_put(&mut files, old) && is_shown_by(&mut files, old, new, shown)
}

fn is_shown_by(files: &mut MemFiles, old: &[Piece<'_>], new: &[Piece<'_>], shown: Shown) -> bool {
    match shown {
        Shown::Appended => is_appended(files, old, new),
        Shown::Mended(call) => is_mended(files, old, new, call),
        Shown::Whole(stop) => is_whole(files, old, new, stop),
        Shown::NoPiece => is_no_piece(files, old, new),
    }
}

fn is_shown_of_logs(alloc: Global, old: &Log, new: &Log, shown: Shown) -> bool {
    match (pieces(alloc, old), pieces(alloc, new)) {
        (Ok(old), Ok(new)) => is_shown_of(alloc, &old, &new, shown),
        _ => false,
    }
}

fn is_shown(alloc: Global, shown: Shown) -> bool {
    match (log_of(alloc, 255), log_of(alloc, 257)) {
        (Ok(old), Ok(new)) => is_shown_of_logs(alloc, &old, &new, shown),
        _ => false,
    }
}

#[test]
fn two_entries_are_appended(rt: HostRuntime) {
    shows(&rt, is_shown(rt.alloc(), Shown::Appended));
}

#[test]
fn an_append_that_fails_at_any_call_is_mended_by_the_next(rt: HostRuntime) {
    for call in 0..CALLS {
        shows_at(&rt, call, is_shown(rt.alloc(), Shown::Mended(call)));
    }
}

#[test]
fn a_log_is_whole_wherever_an_append_stops(rt: HostRuntime) {
    for stop in 0..=CALLS {
        shows_at(&rt, stop, is_shown(rt.alloc(), Shown::Whole(stop)));
    }
}

#[test]
fn a_link_is_no_piece(rt: HostRuntime) {
    shows(&rt, is_shown(rt.alloc(), Shown::NoPiece));
}
