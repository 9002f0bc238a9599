//! Records that are read without a master.
ghost use Rattle.std.specs.Prelude.{◌≡◌, ◌<◌, ◌≤◌, ◌*◌, None, Some, true, IsTrue, IfSome};
ghost use Rattle.std.specs.Prelude.{is_some, length, slice_get};
ghost use Rattle.std.specs.Option.{option_copied};
ghost use Rattle.std.specs.Str.{bytes_eq};
ghost use Rattle.slh_trees.specs.Keys.{IsTrueKey};
ghost use Rattle.slh_ring.specs.Keys.{key_tag, ring_key};
ghost use Rattle.slh_ring.specs.Records.{are_entries, entries_in, entry_in, has_entry, has_form};
ghost use Rattle.slh_ring.specs.Records.{recorded, set_in};

use crate::derived::{MAX_MASTER, derive, tag_of};
use crate::entry::entry_of;
use crate::path::Path;
use crate::records::{MARK, read_record};
use slh_dsa::{SetSizes, SigningKey};
use std::marker::{Model, PhantomData};

/// The name of the parameter set that a record says it is of. `None`: the bytes don't begin as a
/// record does. What follows the name isn't looked at.
pub fn recorded_set(bytes: &[u8]) -> Option<&[u8]>
    ensures { option_copied result ≡ set_in bytes.now }
{
    if bytes.len() < 6 {
        return None;
    }
    let end = 6 + bytes[5] as usize;
    if bytes.len() < end || &bytes[..5] != MARK.as_slice() {
        return None;
    }
    Some(&bytes[6..end])
}

/// A record of a parameter set that was read without a master: the paths and the 8 bytes that stand
/// there, by whomever. Clauses see it as the list of its entries.
#[derive(Drop)]
pub struct Record<'a, P: SetSizes> {
    count: usize,
    entries: &'a [u8],
    set: PhantomData<P>,
}

impl<'a, P: SetSizes> Model for Record<'a, P> {
    ghost use Rattle.std.specs.Prelude.{◌≡◌, ◌≤◌, List, None, true};
    ghost use Rattle.slh_ring.specs.Records.{Entry, are_entries, entries_in};

    ghost Value = { List Entry };

    ghost view = { λ r. entries_in r.count r.entries.now };

    ghost invariant = { λ r. (r.count ≤ 64) × (are_entries r.count None r.entries.now ≡ true) };
}

// The bytes from an entry on, of so many.
fn entries_from(count: usize, bytes: &[u8], i: usize) -> &[u8]
    requires form { are_entries count None bytes.now ≡ true }
    requires inside { i < count }
    ensures entry { slice_get (entries_in count bytes.now) i ≡ Some (entry_in result.now) }
    ensures form { IsTrue (has_entry result.now) }
{
    let mut rest = bytes;
    for k in 0..i {
        rest = entry_of(rest).rest;
    }
    rest
}

impl<'a, P: SetSizes> Record<'a, P> {
    /// Reads the record of paths of the set. `None`: the bytes haven't the form of one. Takes no
    /// memory and makes no key.
    pub fn read(bytes: &'a [u8]) -> Option<Self>
        ensures form { is_some result ≡ has_form P.set_name bytes.now }
        ensures entries { IfSome result (λ read. read ≡ recorded P.set_name bytes.now) }
    {
        let body = read_record(P::set_name().as_bytes(), bytes)?;
        Some(Record {
            count: body.count,
            entries: body.entries,
            set: PhantomData,
        })
    }

    /// How many entries there are, at most 64.
    pub fn len(&self) -> usize
        ensures value { result ≡ length self.now }
        ensures few { result ≤ 64 }
    {
        self.count
    }

    /// The entry at an index from 0, in the order of the paths. `None`: there are not so many.
    pub fn entry(&self, i: usize) -> Option<RecordEntry<'a, P>>
        ensures { result ≡ slice_get self.now i }
    {
        if i >= self.count {
            return None;
        }
        let entry = entry_of(entries_from(self.count, self.entries, i));
        Some(RecordEntry {
            path: entry.path,
            tag: entry.tag,
            set: PhantomData,
        })
    }
}

/// An entry of a record of a parameter set: a path, and the 8 bytes that stand there for its key.
/// Clauses see it as these two.
#[derive(Drop)]
pub struct RecordEntry<'a, P: SetSizes> {
    path: Path,
    tag: &'a [u8],
    set: PhantomData<P>,
}

impl<'a, P: SetSizes> Model for RecordEntry<'a, P> {
    ghost use Rattle.slh_ring.specs.Records.{Entry};

    ghost Value = { Entry };

    ghost view = { λ e. record { path = e.path; tag = e.tag.now } };
}

impl<P: SetSizes> RecordEntry<'_, P> {
    /// The path.
    pub fn path(&self) -> &Path
        ensures { result.now ≡ self.now.path }
    {
        &self.path
    }

    /// The 8 bytes that stand there. In a record that [`Ring::to_record`](crate::Ring::to_record)
    /// made they are the first of the SHA-256 of the verifying key at the path; of any other record
    /// [`key`](Self::key) shows under a master whether they are.
    pub fn tag(&self) -> &[u8]
        ensures { result.now ≡ self.now.tag }
    {
        self.tag
    }

    /// The key at the path under a master of at most [`MAX_MASTER`] bytes, which is made once. `None`: it
    /// isn't the recorded one. Takes no memory. One after another these are the keys that
    /// [`Ring::restore`](crate::Ring::restore) makes and doesn't hand out.
    #[tactic(auto, unfolding(crate::specs::Keys::key_tag))]
    pub fn key(&self, master: &[u8]) -> Option<SigningKey<P>>
        requires { length master.now ≤ MAX_MASTER }
        ensures own { is_some result ≡ bytes_eq self.now.tag
            (key_tag P.scheme P.set_name master.now self.now.path) }
        ensures key { IfSome result
            (λ key. key ≡ ring_key P.scheme P.set_name master.now self.now.path) }
        ensures true_key { IfSome result (IsTrueKey P.scheme) }
    {
        let key = derive::<P>(master, &self.path);
        if self.tag == tag_of(&key).as_slice() {
            Some(key)
        } else {
            None
        }
    }
}
