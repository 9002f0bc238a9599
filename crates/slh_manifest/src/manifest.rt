//! Manifests that were read.
ghost use Rattle.std.specs.Prelude.{◌≡◌, ◌≤◌, IfOk, IfSome, find, is_some, length, slice_get};
ghost use Rattle.std.specs.Option.{option_map};
ghost use Rattle.std.specs.Str.{bytes_eq};
ghost use Rattle.slh_core.specs.Refusals.{RefusedExactly};
ghost use Rattle.slh_manifest.specs.Checking.{entries_of, has_entries, manifest_refusal};
ghost use Rattle.slh_manifest.specs.Entries.{entry_copied};

use crate::builder::CONTEXT;
use crate::entry::front_entry;
use crate::entry_ref::EntryRef;
use crate::error::CheckError;
use crate::parts::{Parts, any_parts_of, parts_of};
use slh_dsa::{Message, Mode, SetSizes, VerifyingKey};
use std::marker::Model;

/// A manifest that was read: by `open`, which verifies its signature, or again by `reopen`, which
/// doesn't. Clauses see it as the list of its entries.
#[derive(Drop)]
pub struct Manifest<'a> {
    count: u32,
    // The entries, and what follows them.
    entries: &'a [u8],
}

impl<'a> Model for Manifest<'a> {
    ghost use Rattle.std.specs.Prelude.{List};
    ghost use Rattle.slh_manifest.specs.declared.entry.Entry.{Entry};
    ghost use Rattle.slh_manifest.specs.Reading.{entries_in};
    ghost use Rattle.slh_manifest.specs.Entries.{AreRead};

    ghost Value = { List Entry };

    ghost view = { λ m. entries_in m.count m.entries.now };

    ghost invariant = { λ m. AreRead m.count m.entries.now };
}

impl<'a> Manifest<'a> {
    /// Reads a manifest and verifies its signature, once. `Form`; `Invalid`. Takes no memory.
    pub fn open<P: SetSizes>(vk: &VerifyingKey<P>, bytes: &'a [u8]) -> Result<Self, CheckError>
        ensures refusal { RefusedExactly result (manifest_refusal P.scheme vk.now bytes.now) }
        ensures entries { IfOk result (λ manifest. manifest ≡ entries_of bytes.now) }
    {
        let Some(parts) = parts_of::<P>(bytes) else {
            return Err(CheckError::Form);
        };
        let body = Message::fitting(Mode::Pure, parts.body, CONTEXT);
        if !vk.is_valid(&body, parts.signature) {
            return Err(CheckError::Invalid);
        }
        Ok(Manifest {
            count: parts.count,
            entries: parts.entries,
        })
    }

    /// Reads a manifest again that `open` accepted, for a caller that keeps the bytes and no borrow
    /// of them. It verifies nothing: of other bytes it tells what stands there, by whomever.
    /// `None`: no entries stand there.
    pub fn reopen(bytes: &'a [u8]) -> Option<Self>
        ensures form { is_some result ≡ has_entries bytes.now }
        ensures entries { IfSome result (λ manifest. manifest ≡ entries_of bytes.now) }
    {
        let Parts { count, entries, .. } = any_parts_of(bytes)?;
        Some(Manifest { count, entries })
    }

    /// How many entries there are, 1 to 4096.
    pub fn len(&self) -> usize
        ensures value { result ≡ length self.now }
        ensures some { 1 ≤ result }
        ensures few { result ≤ 4096 }
    {
        self.count as usize
    }

    /// The entries, in the order of their names.
    pub fn iter(&self) -> Entries<'a>
        ensures { result ≡ self.now }
    {
        Entries {
            count: self.count,
            left: self.entries,
        }
    }

    /// The entry of a number, from 0 on, as `Missing` and `Differs` tell it. Goes over those before
    /// it.
    pub fn entry(&self, number: usize) -> Option<EntryRef<'a>>
        ensures { option_map entry_copied result ≡ slice_get self.now number }
    {
        self.iter().nth(number)
    }

    /// The entry of a name.
    pub fn find(&self, name: &[u8]) -> Option<EntryRef<'a>>
        ensures { option_map entry_copied result
            ≡ find (λ entry. bytes_eq entry.name name.now) self.now }
    {
        self.iter().find(|entry| entry.name == name)
    }
}

/// The entries of a manifest, in the order of their names. Clauses see it as the list of those that
/// are left.
#[derive(Drop)]
pub struct Entries<'a> {
    count: u32,
    // The entries that are left, and what follows them.
    left: &'a [u8],
}

impl<'a> Model for Entries<'a> {
    ghost use Rattle.std.specs.Prelude.{List};
    ghost use Rattle.slh_manifest.specs.declared.entry.Entry.{Entry};
    ghost use Rattle.slh_manifest.specs.Reading.{entries_in};
    ghost use Rattle.slh_manifest.specs.Entries.{Stand};

    ghost Value = { List Entry };

    ghost view = { λ e. entries_in e.count e.left.now };

    ghost invariant = { λ e. Stand e.count e.left.now };
}

impl<'a> Iterator for Entries<'a> {
    ghost use Rattle.std.specs.Iterator.{YieldsFirstBy, item_count};
    ghost use Rattle.slh_manifest.specs.Entries.{entry_copied};

    type Item = EntryRef<'a>;

    ghost next_gives = { YieldsFirstBy entry_copied (λ entries. entries) };

    ghost remaining = { item_count (λ entries. entries) };

    fn next(&mut self) -> Option<EntryRef<'a>> {
        if self.count == 0 {
            return None;
        }
        let Some(entry) = front_entry(self.left) else {
            unreachable!()
        };
        self.count -= 1;
        self.left = entry.rest;
        Some(EntryRef {
            name: entry.name,
            len: entry.len,
            digest: entry.digest,
        })
    }

    fn size_hint(&self) -> (usize, Option<usize>) {
        (self.count as usize, Some(self.count as usize))
    }
}
