//! Records of rings.
ghost use Rattle.std.specs.Prelude.{◌≡◌, ◌↔◌, ◌+◌, ◌*◌, ◌≤◌, ◌++◌, length, None, true};
ghost use Rattle.std.specs.Prelude.{IfOk, IfSome, IsSome, IsTrue, OnOk};
ghost use Rattle.std.specs.Str.{bytes_eq};
ghost use Rattle.slh_core.specs.Bytes.{big_endian};
ghost use Rattle.slh_core.specs.Costs.{slh_keygen_cost};
ghost use Rattle.slh_core.specs.Steps.{IsFresh};
ghost use Rattle.slh_ring.specs.Keys.{key_tag as spec_key_tag, ring_bytes, tagged};
ghost use Rattle.slh_ring.specs.Records.{are_entries as spec_are_entries, body_in, count_in};
ghost use Rattle.slh_ring.specs.Records.{entries_in, entry_bytes, has_form, paths_of};
ghost use Rattle.slh_ring.specs.Records.{record_head, rises as spec_rises};
ghost use Rattle.slh_ring.specs.Restores.{AnswersOrNoMemory, restore_answer, restored_keys};
ghost use Rattle.slh_ring.specs.Restores.{first_mismatch as spec_first_mismatch, keys_made};

use crate::derived::{MAX_MASTER, MAX_PATH_LEN, Master, key_tag, write_path};
use crate::entry::{Entry, entry_of, read_entry};
use crate::error::RestoreError;
use crate::path::Path;
use crate::ring::{MAX_PATHS, Ring};
use slh_core::steps::Steps;
use slh_dsa::SetSizes;
use std::alloc::{AllocError, Global};
use std::cmp::Ordering;
use std::marker::Brand;
use std::sync::ledger::{Blank, Ledger};

/// What a record begins with: four letters and the version.
pub(crate) const MARK: &[u8; 5] = b"SLHR\x01";

/// The most bytes of a record before the number of its paths.
const MAX_HEAD_LEN: usize = 6 + 255;

// Writes what a record begins with.
fn write_head(name: &[u8], out: &mut [u8])
    requires name { length name.now ≤ 255 }
    requires room { length out.old ≡ 6 + length name.now }
    ensures { out.new ≡ record_head name.now }
{
    let (head, back) = out.split_at_mut(6);
    head[..5].copy_from_slice(MARK);
    head[5] = name.len() as u8;
    back.copy_from_slice(name);
}

// Puts the bytes at the end.
fn push_slice(out: &mut Vec<u8>, bytes: &[u8]) -> Result<(), AllocError>
    ensures { OnOk result (out.new.items ≡ out.old.items ++ bytes.now) }
{
    out.extend_from_slice(bytes)
}

// The bytes before the entries of so many paths.
fn head_bytes(alloc: Global, name: &[u8], count: u16) -> Result<Vec<u8>, AllocError>
    requires { length name.now ≤ 255 }
    ensures { IfOk result (λ bytes. bytes.items
        ≡ record_head name.now ++ big_endian count 2) }
{
    let mut store = [0u8; MAX_HEAD_LEN];
    let head = &mut store[..6 + name.len()];
    write_head(name, head);
    let mut bytes = Vec::new(alloc);
    push_slice(&mut bytes, head)?;
    push_slice(&mut bytes, &count.to_be_bytes())?;
    Ok(bytes)
}

// Puts the entry of a path at the end.
fn push_entry<P: SetSizes, L: Ledger>(
    out: &mut Vec<u8>,
    master: &Master<'_>,
    path: &Path,
    steps: &mut Steps<L>,
) -> Result<(), AllocError>
    ensures entry { OnOk result (out.new.items ≡ out.old.items
        ++ entry_bytes (tagged P.scheme P.set_name master.now path.now)) }
    ensures cost { OnOk result (steps.new ≡ steps.old + slh_keygen_cost P.scheme) }
{
    let mut store = [0u8; MAX_PATH_LEN];
    let front = &mut store[..1 + 4 * path.as_slice().len()];
    write_path(path, front);
    push_slice(out, front)?;
    push_slice(out, &key_tag::<P, L>(master, path, steps))
}

// Whether the bytes are what a record begins with.
fn is_head(name: &[u8], bytes: &[u8]) -> bool
    requires name { length name.now ≤ 255 }
    requires len { length bytes.now ≡ 6 + length name.now }
    ensures { result ≡ bytes_eq bytes.now (record_head name.now) }
{
    let mut store = [0u8; MAX_HEAD_LEN];
    let head = &mut store[..6 + name.len()];
    write_head(name, head);
    *bytes == *head
}

// Whether a path stands above the one before it, if there is one.
fn rises(before: &Option<Path>, path: &Path) -> bool
    ensures { result ≡ spec_rises before.now path.now }
{
    match before {
        None => true,
        Some(before) => before.cmp(path) == Ordering::Less,
    }
}

// Whether the bytes are so many entries whose paths rise, and nothing else.
fn are_entries(count: usize, bytes: &[u8]) -> bool
    ensures { result ≡ spec_are_entries count None bytes.now }
{
    let mut before = None;
    let mut rest = bytes;
    for i in 0..count {
        let entry = match read_entry(rest) {
            Some(entry) => entry,
            None => return false,
        };
        if !rises(&before, &entry.path) {
            return false;
        }
        before = Some(entry.path);
        rest = entry.rest;
    }
    rest.is_empty()
}

/// How many entries a record has, and their bytes.
#[derive(Drop)]
pub(crate) struct Body<'a> {
    pub(crate) count: usize,
    pub(crate) entries: &'a [u8],
}

/// Finds the entries of a record. `None`: the bytes haven't the form of one.
pub(crate) fn read_record<'a>(name: &[u8], bytes: &'a [u8]) -> Option<Body<'a>>
    requires { length name.now ≤ 255 }
    ensures form { IsSome result ↔ IsTrue (has_form name.now bytes.now) }
    ensures count { IfSome result (λ body. body.count ≡ count_in name.now bytes.now) }
    ensures body { IfSome result (λ body. body.entries.now ≡ body_in name.now bytes.now) }
    ensures few { IfSome result (λ body. body.count ≤ 64) }
    ensures entries { IfSome result
        (λ body. spec_are_entries body.count None body.entries.now ≡ true) }
{
    let size = 6 + name.len();
    if bytes.len() < size + 2 {
        return None;
    }
    let (head, rest) = bytes.split_at(size);
    let (count, entries) = rest.split_at(2);
    let count = u16::from_be_bytes([count[0], count[1]]) as usize;
    if !is_head(name, head) || count > MAX_PATHS || !are_entries(count, entries) {
        return None;
    }
    Some(Body { count, entries })
}

// Whether the 8 bytes of an entry are those of its key.
fn is_tagged<P: SetSizes, L: Ledger>(
    master: &Master<'_>,
    entry: &Entry<'_>,
    steps: &mut Steps<L>,
) -> bool
    ensures same { result ≡ bytes_eq entry.now.tag.now
        (spec_key_tag P.scheme P.set_name master.now entry.now.path) }
    ensures cost { steps.new ≡ steps.old + slh_keygen_cost P.scheme }
{
    entry.tag == key_tag::<P, L>(master, &entry.path, steps).as_slice()
}

// The number of the first entry whose 8 bytes aren't those of its key.
fn first_mismatch<P: SetSizes, L: Ledger>(
    master: &Master<'_>,
    count: usize,
    bytes: &[u8],
    steps: &mut Steps<L>,
) -> Option<u32>
    requires few { count ≤ 64 }
    requires form { spec_are_entries count None bytes.now ≡ true }
    ensures first { result ≡ spec_first_mismatch P.scheme P.set_name master.now 0
        (entries_in count bytes.now) }
    ensures cost { steps.new ≡ steps.old + keys_made result count * slh_keygen_cost P.scheme }
{
    let mut rest = bytes;
    for i in 0..count {
        let entry = entry_of(rest);
        if !is_tagged::<P, L>(master, &entry, steps) {
            return Some(i as u32);
        }
        rest = entry.rest;
    }
    None
}

impl<P: SetSizes> Ring<P> {
    // The ring of the paths of so many entries. Their order makes all of them new.
    fn of_entries(alloc: Global, count: usize, bytes: &[u8]) -> Result<Self, AllocError>
        requires few { count ≤ 64 }
        requires form { spec_are_entries count None bytes.now ≡ true }
        ensures { IfOk result (λ ring. ring ≡ paths_of (entries_in count bytes.now)) }
    {
        let mut ring = Ring::new(alloc);
        let mut rest = bytes;
        for i in 0..count {
            let entry = entry_of(rest);
            ring.put(entry.path)?;
            rest = entry.rest;
        }
        Ok(ring)
    }

    /// The ring's record: the paths in order, each with 8 bytes that tell its key under a master of
    /// at most [`MAX_MASTER`] bytes. Makes each key once.
    pub fn to_record(&self, alloc: Global, master: &[u8]) -> Result<Vec<u8>, AllocError>
        requires { length master.now ≤ MAX_MASTER }
        ensures { IfOk result (λ bytes. bytes.items
            ≡ ring_bytes P.scheme P.set_name master.now self.now) }
    {
        self.record_on::<Brand>(alloc, master, Blank::new(1))
    }

    // The same, on a counter that is made here.
    fn record_on<L: Ledger>(
        &self,
        alloc: Global,
        master: &[u8],
        blank: Blank,
    ) -> Result<Vec<u8>, AllocError>
        requires master { length master.now ≤ MAX_MASTER }
        requires fresh { IsFresh blank L.name L.parts }
        ensures { IfOk result (λ bytes. bytes.items
            ≡ ring_bytes P.scheme P.set_name master.now self.now) }
    {
        let mut steps = Steps::<L>::new(blank);
        self.to_record_counted(alloc, master, &mut steps)
    }

    /// As [`Ring::to_record`], with its steps counted: those of one key a path.
    pub fn to_record_counted<L: Ledger>(
        &self,
        alloc: Global,
        master: &[u8],
        steps: &mut Steps<L>,
    ) -> Result<Vec<u8>, AllocError>
        requires { length master.now ≤ MAX_MASTER }
        ensures record { IfOk result (λ bytes. bytes.items
            ≡ ring_bytes P.scheme P.set_name master.now self.now) }
        ensures cost { OnOk result
            (steps.new ≡ steps.old + length self.now * slh_keygen_cost P.scheme) }
    {
        let master = Master::new(master);
        let name = P::set_name().as_bytes();
        let mut bytes = head_bytes(alloc, name, self.len() as u16)?;
        for path in self.paths() {
            push_entry::<P, L>(&mut bytes, &master, path, steps)?;
        }
        Ok(bytes)
    }

    /// The ring whose record under a master of at most [`MAX_MASTER`] bytes this is. Makes each key once, and
    /// none after the first that isn't the recorded one. `Form`: the bytes aren't the record of any
    /// paths of this set; `Mismatch`: the first path whose key isn't the recorded one; `Memory`.
    pub fn restore(alloc: Global, master: &[u8], bytes: &[u8]) -> Result<Self, RestoreError>
        requires { length master.now ≤ MAX_MASTER }
        ensures { AnswersOrNoMemory result
            (restore_answer P.scheme P.set_name master.now bytes.now) }
    {
        Self::restore_on::<Brand>(alloc, master, bytes, Blank::new(1))
    }

    // The same, on a counter that is made here.
    fn restore_on<L: Ledger>(
        alloc: Global,
        master: &[u8],
        bytes: &[u8],
        blank: Blank,
    ) -> Result<Self, RestoreError>
        requires master { length master.now ≤ MAX_MASTER }
        requires fresh { IsFresh blank L.name L.parts }
        ensures { AnswersOrNoMemory result
            (restore_answer P.scheme P.set_name master.now bytes.now) }
    {
        let mut steps = Steps::<L>::new(blank);
        Self::restore_counted(alloc, master, bytes, &mut steps)
    }

    /// As [`Ring::restore`], with its steps counted: none without the form of a record, else those
    /// of one key a path, up to the first that isn't the recorded one.
    pub fn restore_counted<L: Ledger>(
        alloc: Global,
        master: &[u8],
        bytes: &[u8],
        steps: &mut Steps<L>,
    ) -> Result<Self, RestoreError>
        requires { length master.now ≤ MAX_MASTER }
        ensures answer { AnswersOrNoMemory result
            (restore_answer P.scheme P.set_name master.now bytes.now) }
        ensures cost { let keys = restored_keys P.scheme P.set_name master.now bytes.now in
            steps.new ≡ steps.old + keys * slh_keygen_cost P.scheme }
    {
        let name = P::set_name().as_bytes();
        let body = match read_record(name, bytes) {
            Some(body) => body,
            None => return Err(RestoreError::Form),
        };
        let master = Master::new(master);
        let mismatch = first_mismatch::<P, L>(&master, body.count, body.entries, steps);
        if let Some(i) = mismatch {
            return Err(RestoreError::Mismatch(i));
        }
        Ok(Self::of_entries(alloc, body.count, body.entries)?)
    }
}
