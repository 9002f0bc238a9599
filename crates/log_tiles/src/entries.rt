//! The entries of a bundle, as bytes.
ghost use Rattle.std.specs.Prelude.{◌≡◌, ◌↔◌, ◌<◌, ◌++◌, length};
ghost use Rattle.std.specs.Prelude.{IfErr, IfOk, MatchOption, OnErr, OnOk};
ghost use Rattle.log_tiles.specs.Entries.{IsAtEnd, IsBehind, IsRefusedAs, entry_bytes};
ghost use Rattle.log_tiles.specs.Entries.{split_entry as spec_split_entry};

use std::marker::Model;

/// How many bytes an entry has at most.
pub const MAX_ENTRY_LEN: usize = 65_535;

/// Why an entry wasn't put into a bundle.
#[derive(Clone, Copy, Debug, PartialEq, Eq)]
pub enum EntryError {
    /// It has more bytes than [`MAX_ENTRY_LEN`].
    TooLong,
    /// Memory ran out.
    Memory,
}

/// Why bytes aren't a bundle of so many entries.
#[derive(Clone, Copy, Debug, PartialEq, Eq)]
pub enum BundleError {
    /// There are bytes behind the last entry.
    More,
    /// The bytes end where an entry should begin.
    Fewer,
    /// The bytes end within an entry.
    Cut,
}

/// Puts an entry at the end of a bundle's bytes: its length in two bytes, the high one first, and
/// itself. A bundle has 256 entries or fewer.
pub fn push_entry(bytes: &mut Vec<u8>, entry: &[u8]) -> Result<(), EntryError>
    ensures put { OnOk result (bytes.new.items ≡ bytes.old.items ++ entry_bytes entry.now) }
    ensures long { (result ≡ Err EntryError.TooLong) ↔ (65535 < length entry.now) }
    ensures same { OnErr result (bytes.new.items ≡ bytes.old.items) }
{
    let len = entry.len();
    if len > MAX_ENTRY_LEN {
        return Err(EntryError::TooLong);
    }
    let before = bytes.len();
    let head = [(len / 256) as u8, (len % 256) as u8];
    if bytes.extend_from_slice(&head).is_err() {
        return Err(EntryError::Memory);
    }
    if bytes.extend_from_slice(entry).is_err() {
        bytes.truncate(before);
        return Err(EntryError::Memory);
    }
    Ok(())
}

// The first entry of a bundle's bytes and those behind it. `None` where they end within it.
fn split_entry(bytes: &[u8]) -> Option<(&[u8], &[u8])>
    ensures { MatchOption result (spec_split_entry bytes.now ≡ None) (λ parts.
        spec_split_entry bytes.now ≡ Some (record { entry = parts.0.now; rest = parts.1.now })) }
{
    if bytes.len() < 2 {
        return None;
    }
    let len = bytes[0] as usize * 256 + bytes[1] as usize;
    let rest = &bytes[2..];
    if rest.len() < len {
        return None;
    }
    Some((&rest[..len], &rest[len..]))
}

/// The entries of a bundle, read one after the other without memory. Clauses see it as how many
/// entries are left, and their bytes.
#[derive(Drop)]
pub struct Entries<'a> {
    rest: &'a [u8],
    left: u32,
}

impl<'a> Model for Entries<'a> {
    ghost use Rattle.log_tiles.specs.Entries.{Unread};

    ghost Value = { Unread };

    ghost view = { λ s. record { left = s.left; rest = s.rest.now } };
}

impl<'a> Entries<'a> {
    /// The entries of a bundle of `width` of them, from its bytes.
    pub fn of(bytes: &'a [u8], width: u32) -> Self
        ensures left { result.left ≡ width }
        ensures rest { result.rest ≡ bytes.now }
    {
        Entries {
            rest: bytes,
            left: width,
        }
    }

    /// The next entry. `None` where there were as many as there should be and no byte is behind
    /// them.
    pub fn next_entry(&mut self) -> Result<Option<&'a [u8]>, BundleError>
        ensures read { IfOk result (λ next. MatchOption next (IsAtEnd self.old self.new)
            (λ entry. IsBehind self.old entry.now self.new)) }
        ensures refused { IfErr result (IsRefusedAs self.old) }
        ensures same { OnErr result (self.new ≡ self.old) }
    {
        if self.left == 0 {
            return if self.rest.is_empty() {
                Ok(None)
            } else {
                Err(BundleError::More)
            };
        }
        if self.rest.is_empty() {
            return Err(BundleError::Fewer);
        }
        let Some((entry, rest)) = split_entry(self.rest) else {
            return Err(BundleError::Cut);
        };
        self.rest = rest;
        self.left -= 1;
        Ok(Some(entry))
    }
}
