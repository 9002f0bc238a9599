//! How a store is read for a manifest: in pieces, at most one byte further than an entry says, and
//! not again after a read that failed.
use crate::keys_128f::{key, public};
use crate::page_of_manifests::{checked, manifest_of};
use crate::shown::{shows, shows_at};
use slh_manifest::{
    BuildError, Builder, CheckError, EntryError, Failed, Manifest, MemStore, Store,
};
use std::alloc::Global;

// How many bytes a piece has that is made up at once.
const PIECE: u64 = 4096;

// A number that no read has.
const NEVER: u64 = u64::MAX;

// Makes up bytes, so many: those of a piece are all the number of the piece, modulo 251. It gives no
// more than `most` of them at a time, and keeps how many reads there were, the highest place that it
// was asked for, how many bytes it was asked for, at once at most and in all, and how many it gave.
// A store without names has the numbers of the reads that fail.
#[derive(Drop)]
struct Watched {
    fails: MemStore,
    len: u64,
    most: u64,
    reads: u64,
    highest: u64,
    room: u64,
    asked: u64,
    given: u64,
}

impl Store for Watched {
    ghost use Rattle.std.specs.Prelude.{None};
    ghost use Rattle.slh_manifest.specs.Memory.{store_faults};

    ghost files = { λ _. None };

    ghost faults = { λ w. store_faults w.fails };

    fn read(&mut self, name: &[u8], at: u64, buf: &mut [u8]) -> Result<Option<usize>, Failed> {
        let room = buf.len() as u64;
        self.reads = self.reads.saturating_add(1);
        self.highest = self.highest.max(at.saturating_add(room));
        self.room = self.room.max(room);
        self.asked = self.asked.saturating_add(room);
        self.fails.read(name, at, &mut [])?;
        if at >= self.len {
            return Ok(Some(0));
        }
        let left = (self.len - at).min(PIECE - at % PIECE).min(self.most);
        let count = left.min(room) as usize;
        buf[..count].fill((at / PIECE % 251) as u8);
        self.given = self.given.saturating_add(count as u64);
        Ok(Some(count))
    }
}

// A store of so many bytes, of which it gives at most so many, and of which this read fails.
fn store_of(alloc: Global, len: u64, most: u64, fail: u64) -> Option<Watched> {
    Some(Watched {
        fails: MemStore::new(alloc, vec![in alloc; fail].ok()?),
        len,
        most,
        reads: 0,
        highest: 0,
        room: 0,
        asked: 0,
        given: 0,
    })
}

// Numbers of bytes, and SHA-256 of them by Python's hashlib: sha256(bytes(p // 4096 % 251 for p in
// range(len))).
const DIGESTS: &str = "\
0 e3b0c44298fc1c149afbf4c8996fb92427ae41e4649b934ca495991b7852b855
1 6e340b9cffb37a989ca544e6bb780a2c78901d3fb33738768511a30617afa01d
4095 2cae68411db14d6b340e650cd7e512a0d604379425f48e5a8ba846336777ff5c
4096 ad7facb2586fc6e966c004d7d1d16b024f5805ff7cb47c7a85dabd8b48892ca7
4097 d68e9b6ca6ef568622005e43007475e22f47e488041fb1afb2c0cfaa7fec673b
2000000 10a0b3fad17972b3b1b9171c811c2a461674993cb410def99c5ae2522d811da4";

// The body of a manifest of names with so many bytes each, of which a read gives at most so many.
fn body_of(alloc: Global, names: &[&[u8]], len: u64, most: u64) -> Option<Vec<u8>> {
    let mut builder = Builder::new(alloc);
    let mut store = store_of(alloc, len, most, NEVER)?;
    for name in names {
        builder.add(*name, &mut store).ok()?;
    }
    builder.body(alloc).ok()
}

// Whether its entry has that length and this digest.
fn has_entry(body: &[u8], len: u64, digits: &str) -> bool {
    let mut digest = [0u8; 32];
    hex::decode_to_slice(digits, &mut digest).is_ok()
        && body.get(6..14) == Some(len.to_be_bytes().as_slice())
        && body.get(14..) == Some(digest.as_slice())
}

fn is_entry(alloc: Global, len: u64, most: u64, digits: &str) -> bool {
    match body_of(alloc, &[b"a"], len, most) {
        Some(body) => has_entry(&body, len, digits),
        None => false,
    }
}

fn is_hashed(alloc: Global, row: &str) -> Option<bool> {
    let (len, digits) = row.split_once(' ')?;
    let len = len.parse::<u64>().ok()?;
    Some(is_entry(alloc, len, PIECE, digits) && is_entry(alloc, len, 1000, digits))
}

#[test]
fn bytes_are_hashed_in_their_order_whatever_a_read_gives(rt: HostRuntime) {
    for row in DIGESTS.lines() {
        shows_at(&rt, row, is_hashed(rt.alloc(), row) == Some(true));
    }
}

// How many bytes an entry is of, how many the store has, and which read fails; how many reads a check
// makes then, the highest place, how many bytes it asks for at once at most and in all, and how many
// came.
const ASKED: [[u64; 8]; 12] = [
    [3, 3, NEVER, 2, 4, 4, 5, 3],
    [3, 2, NEVER, 2, 4, 4, 6, 2],
    [3, NEVER, NEVER, 1, 4, 4, 4, 4],
    [0, NEVER, NEVER, 1, 1, 1, 1, 1],
    [4095, 4095, NEVER, 2, 4096, 4096, 4097, 4095],
    [4096, 4097, NEVER, 2, 4097, 4096, 4097, 4097],
    [100_000, NEVER, NEVER, 25, 100_001, 4096, 100_001, 100_001],
    [3, 3, 0, 1, 4, 4, 4, 0],
    [3, 3, 1, 2, 4, 4, 5, 3],
    [5000, 5000, 0, 1, 4096, 4096, 4096, 0],
    [5000, 5000, 1, 2, 5001, 4096, 5001, 4096],
    [5000, 5000, 2, 3, 5001, 4096, 5002, 5000],
];

fn has_seen(store: &Watched, row: &[u64; 8]) -> bool {
    let [_, _, _, reads, highest, room, asked, given] = *row;
    store.reads == reads
        && store.highest == highest
        && store.room == room
        && store.asked == asked
        && store.given == given
}

// What is answered: the entry's own bytes alone are accepted, and a read that fails is told.
fn wanted(row: &[u64; 8]) -> Result<(), EntryError> {
    if row[2] != NEVER {
        Err(EntryError::Fault)
    } else if row[0] == row[1] {
        Ok(())
    } else {
        Err(EntryError::Differs)
    }
}

fn is_wanted(answer: Result<(), CheckError>, row: &[u64; 8]) -> bool {
    match answer {
        Ok(()) => wanted(row) == Ok(()),
        Err(CheckError::Differs(0)) => wanted(row) == Err(EntryError::Differs),
        Err(CheckError::Fault) => wanted(row) == Err(EntryError::Fault),
        Err(_) => false,
    }
}

// A check of an opened manifest, and of its entry.
fn opened_asks(manifest: &Manifest<'_>, store: &mut Watched, row: &[u64; 8]) -> bool {
    is_wanted(manifest.check(store), row) && has_seen(store, row)
}

fn entry_asks(manifest: &Manifest<'_>, store: &mut Watched, row: &[u64; 8]) -> bool {
    match manifest.entry(0) {
        Some(entry) => entry.check(store) == wanted(row) && has_seen(store, row),
        None => false,
    }
}

fn store_for(alloc: Global, row: &[u64; 8]) -> Option<Watched> {
    store_of(alloc, row[1], PIECE, row[2])
}

fn all_ask(alloc: Global, body: &[u8], row: &[u64; 8]) -> Option<bool> {
    let manifest = Manifest::reopen(body)?;
    Some(
        opened_asks(&manifest, &mut store_for(alloc, row)?, row)
            && entry_asks(&manifest, &mut store_for(alloc, row)?, row),
    )
}

fn both_ask(alloc: Global, row: &[u64; 8]) -> Option<bool> {
    let body = body_of(alloc, &[b"a"], row[0], PIECE)?;
    all_ask(alloc, &body, row)
}

#[test]
fn checks_ask_for_one_byte_past_an_entry_at_most_and_end_with_a_fault(rt: HostRuntime) {
    for row in &ASKED {
        assert!(rt; both_ask(rt.alloc(), row) == Some(true), "{row:?}");
    }
}

// Whether a check of a signed manifest of 3 bytes does what the rows of so many say.
fn signed_asks(alloc: Global, manifest: &[u8], row: &[u64; 8]) -> bool {
    let Some(mut store) = store_for(alloc, row) else {
        return false;
    };
    let answer = checked(&public(3), manifest, &mut store);
    is_wanted(answer, row) && has_seen(&store, row)
}

fn all_ask_alike(alloc: Global, manifest: &[u8], rows: &[[u64; 8]]) -> bool {
    for row in rows {
        if row[0] == 3 && !signed_asks(alloc, manifest, row) {
            return false;
        }
    }
    true
}

fn asks_alike(alloc: Global, names: &[&[u8]], rows: &[[u64; 8]]) -> Option<bool> {
    let mut own = store_of(alloc, 3, PIECE, NEVER)?;
    let manifest = manifest_of(alloc, &key(3), names, &mut own).ok()?;
    Some(all_ask_alike(alloc, &manifest, rows))
}

#[test]
fn a_check_of_a_signed_manifest_asks_alike(rt: HostRuntime) {
    shows(&rt, asks_alike(rt.alloc(), &[b"a"], &ASKED) == Some(true));
}

// The same of two entries: nothing is asked for behind the first that isn't right.
const ASKED_OF_TWO: [[u64; 8]; 7] = [
    [3, 3, NEVER, 4, 4, 4, 10, 6],
    [3, 2, NEVER, 2, 4, 4, 6, 2],
    [3, NEVER, NEVER, 1, 4, 4, 4, 4],
    [3, 3, 0, 1, 4, 4, 4, 0],
    [3, 3, 1, 2, 4, 4, 5, 3],
    [3, 3, 2, 3, 4, 4, 9, 3],
    [3, 3, 3, 4, 4, 4, 10, 6],
];

fn opened_ask(alloc: Global) -> Option<bool> {
    let body = body_of(alloc, &[b"a", b"b"], 3, PIECE)?;
    let manifest = Manifest::reopen(&body)?;
    let mut all = true;
    for row in &ASKED_OF_TWO {
        all = opened_asks(&manifest, &mut store_for(alloc, row)?, row) && all;
    }
    Some(all)
}

#[test]
fn a_check_ends_with_the_first_entry_that_is_not_right(rt: HostRuntime) {
    shows(&rt, opened_ask(rt.alloc()) == Some(true));
    shows(
        &rt,
        asks_alike(rt.alloc(), &[b"a", b"b"], &ASKED_OF_TWO) == Some(true),
    );
}

// Whether an `add` that takes three reads ends with this one, if it fails.
fn add_ends(alloc: Global, read: u64) -> bool {
    let Some(mut store) = store_of(alloc, 5000, PIECE, read) else {
        return false;
    };
    let answer = Builder::new(alloc).add(b"a", &mut store);
    if read < 3 {
        answer == Err(BuildError::Fault) && store.reads == read + 1
    } else {
        answer == Ok(()) && store.reads == 3
    }
}

#[test]
fn an_add_ends_with_a_fault(rt: HostRuntime) {
    for read in 0..4u64 {
        shows_at(&rt, read, add_ends(rt.alloc(), read));
    }
}
