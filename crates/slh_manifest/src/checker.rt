//! Entries whose bytes come in pieces.
ghost use Rattle.std.specs.Prelude.{◌≤◌};
ghost use Rattle.hmac_sha256.specs.Hash.{absorbed_bytes};

use crate::entry_ref::EntryRef;
use crate::error::EntryError;
use hmac_sha256::Hash;

/// Compares bytes that come in pieces with an entry. Keeps none of them and takes no memory.
#[derive(Drop)]
pub struct EntryChecker<'a> {
    entry: EntryRef<'a>,
    // Of all that came, while it isn't more than the entry says.
    hash: Hash,
    is_longer: bool,
    ghost within: { absorbed_bytes hash ≤ entry.len },
}

impl<'a> EntryRef<'a> {
    ghost use Rattle.std.specs.Prelude.{◌≡◌, []};
    ghost use Rattle.slh_manifest.specs.Entries.{entry_copied};
    ghost use Rattle.slh_manifest.specs.Pieces.{HasTaken, checked_entry};

    /// A check of bytes that come in pieces, so that they are stored as they come, read once, and
    /// used only where `finish` answers Ok.
    pub fn checker(&self) -> EntryChecker<'a>
        ensures entry { checked_entry result ≡ entry_copied self.now }
        ensures begun { HasTaken result [] }
    {
        EntryChecker {
            entry: *self,
            hash: Hash::new(),
            is_longer: false,
        }
    }
}

impl EntryChecker<'_> {
    ghost use Rattle.std.specs.Prelude.{◌≡◌, ℕ, List, Some, ◌++◌};
    ghost use Rattle.slh_core.specs.Refusals.{RefusedExactly};
    ghost use Rattle.slh_manifest.specs.Entries.{entry_refusal};
    ghost use Rattle.slh_manifest.specs.Pieces.{HasTaken, checked_entry};

    /// Takes the next piece.
    pub fn update(&mut self, piece: &[u8])
        ensures joins { (m : List ℕ) → HasTaken self.old m → HasTaken self.new (m ++ piece.now) }
        ensures entry { checked_entry self.new ≡ checked_entry self.old }
    {
        if self.is_longer || piece.len() as u64 > self.entry.len - self.hash.absorbed() {
            self.is_longer = true;
        } else {
            self.hash.update(piece);
        }
    }

    /// Whether the pieces together are the entry's bytes. `Differs`.
    pub fn finish(self) -> Result<(), EntryError>
        ensures { (m : List ℕ) → HasTaken self.entry m
            → RefusedExactly result (entry_refusal (checked_entry self.entry) (Some m)) }
    {
        if self.is_longer || self.hash.absorbed() != self.entry.len {
            return Err(EntryError::Differs);
        }
        if self.hash.finalize_verify(self.entry.digest) {
            Ok(())
        } else {
            Err(EntryError::Differs)
        }
    }
}
