//! Manifests checked against what a store has.
ghost use Rattle.std.specs.Prelude.{◌≡◌, ◌↔◌, ◌≤◌, Some, IsErrOf, IfErr, IfSome};
ghost use Rattle.std.specs.Prelude.{IsSome};
ghost use Rattle.line_serve.specs.Causes.{Rose};
ghost use Rattle.slh_core.specs.Refusals.{RefusedExactly};
ghost use Rattle.slh_manifest.specs.Checking.{NamesEntry, RefusedOrFault, SpeaksOf};
ghost use Rattle.slh_manifest.specs.Checking.{SpeaksOfEntries, check_error, entries_error};
ghost use Rattle.slh_manifest.specs.Checking.{entries_of, manifest_refusal};
ghost use Rattle.slh_manifest.specs.Entries.{RefusedOr, entry_copied, entry_refusal};
ghost use Rattle.slh_manifest.specs.Entries.{numbered as spec_numbered};
ghost use Rattle.slh_manifest.specs.Files.{bytes_of};
ghost use Rattle.slh_manifest.specs.declared.error.CheckError.TheVariants.{Form, Invalid, Fault};
ghost use Rattle.slh_manifest.specs.declared.error.EntryError.TheVariants.{Fault as ReadFailed};

use crate::entry_ref::EntryRef;
use crate::error::{CheckError, EntryError};
use crate::manifest::Manifest;
use crate::measure::{Found, measure};
use crate::store::Store;
use slh_dsa::{SetSizes, VerifyingKey};

/// Checks a manifest, and then each of its entries in turn against what the store has. `Form`;
/// `Invalid`; `Missing` and `Differs`: the number of the first entry that isn't right; `Fault`: a
/// read failed, and nothing more is said of the entries. Takes no memory, and reads at most one
/// byte more under a name than its entry says. [`EntryRef::check`] of each entry of an opened
/// manifest tells all that aren't right.
pub fn check<P: SetSizes, T: Store>(
    vk: &VerifyingKey<P>,
    manifest: &[u8],
    store: &mut T,
) -> Result<(), CheckError>
    ensures form { IsErrOf result Form
        ↔ (manifest_refusal P.scheme vk.now manifest.now ≡ Some Form) }
    ensures invalid { IsErrOf result Invalid
        ↔ (manifest_refusal P.scheme vk.now manifest.now ≡ Some Invalid) }
    ensures named { IfErr result (NamesEntry (entries_of manifest.now)) }
    ensures fault { IsErrOf result Fault → Rose (T.faults store.old) (T.faults store.new) }
    ensures told { IfSome (T.files store.old)
        (λ files. RefusedOrFault result (check_error P.scheme vk.now manifest.now files)) }
    ensures exact { IfSome (T.files store.old) (λ files.
        ¬ Rose (T.faults store.old) (T.faults store.new)
        → RefusedExactly result (check_error P.scheme vk.now manifest.now files)) }
    ensures entry { IfSome (T.files store.old)
        (λ files. IfErr result (SpeaksOf files (entries_of manifest.now))) }
    ensures unread { IsSome (manifest_refusal P.scheme vk.now manifest.now)
        → store.new ≡ store.old }
    ensures kept { T.files store.new ≡ T.files store.old }
    ensures later { T.faults store.old ≤ T.faults store.new }
{
    match Manifest::open(vk, manifest) {
        Ok(manifest) => manifest.check(store),
        Err(error) => Err(error),
    }
}

impl Manifest<'_> {
    /// Checks each entry in turn against what the store has, up to one that isn't right. `Missing`;
    /// `Differs`; `Fault`. Takes no memory.
    pub fn check<T: Store>(&self, store: &mut T) -> Result<(), CheckError>
        ensures only { SpeaksOfEntries result }
        ensures named { IfErr result (NamesEntry self.now) }
        ensures fault { IsErrOf result Fault → Rose (T.faults store.old) (T.faults store.new) }
        ensures told { IfSome (T.files store.old)
            (λ files. RefusedOrFault result (entries_error files 0 self.now)) }
        ensures exact { IfSome (T.files store.old) (λ files.
            ¬ Rose (T.faults store.old) (T.faults store.new)
            → RefusedExactly result (entries_error files 0 self.now)) }
        ensures entry { IfSome (T.files store.old) (λ files. IfErr result (SpeaksOf files self.now)) }
        ensures kept { T.files store.new ≡ T.files store.old }
        ensures later { T.faults store.old ≤ T.faults store.new }
    {
        let mut entries = self.iter();
        'each_entry: for i in 0..self.len() {
            let Some(entry) = entries.next() else {
                unreachable!()
            };
            if let Err(error) = entry.check(store) {
                return Err(numbered(i as u32, error));
            }
        }
        Ok(())
    }
}

// The error of a check for an entry of this number.
fn numbered(i: u32, error: EntryError) -> CheckError
    ensures { result ≡ spec_numbered i error }
{
    match error {
        EntryError::Missing => CheckError::Missing(i),
        EntryError::Differs => CheckError::Differs(i),
        EntryError::Fault => CheckError::Fault,
    }
}

impl EntryRef<'_> {
    /// Checks what a store has under the entry's name. `Missing`; `Differs`; `Fault`. Takes no
    /// memory, and reads at most one byte more than the entry says.
    pub fn check<T: Store>(&self, store: &mut T) -> Result<(), EntryError>
        ensures told { IfSome (T.files store.old) (λ files. RefusedOr ReadFailed result
            (entry_refusal (entry_copied self.now) (bytes_of files self.now.name.now))) }
        ensures exact { IfSome (T.files store.old) (λ files.
            ¬ Rose (T.faults store.old) (T.faults store.new) → RefusedExactly result
            (entry_refusal (entry_copied self.now) (bytes_of files self.now.name.now))) }
        ensures fault { IsErrOf result ReadFailed → Rose (T.faults store.old) (T.faults store.new) }
        ensures kept { T.files store.new ≡ T.files store.old }
        ensures later { T.faults store.old ≤ T.faults store.new }
    {
        match measure(store, self.name, self.len) {
            Err(_) => Err(EntryError::Fault),
            Ok(Found::Missing) => Err(EntryError::Missing),
            Ok(Found::Longer) => Err(EntryError::Differs),
            Ok(Found::Whole { len, digest }) => {
                if len == self.len && digest.as_slice() == self.digest.as_slice() {
                    Ok(())
                } else {
                    Err(EntryError::Differs)
                }
            }
        }
    }
}
