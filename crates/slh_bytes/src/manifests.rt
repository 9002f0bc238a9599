//! Manifests of the files of a store.
ghost use Rattle.std.specs.Prelude.{◌≡◌, IfOk, map, string_bytes};
ghost use Rattle.std.specs.Option.{option_copied, option_map};
ghost use Rattle.slh_bytes.specs.Manifests.{IsChecked, entry_at as spec_entry_at, unnamed_in};
ghost use Rattle.slh_bytes.specs.Manifests.{first_unnamed as spec_first_unnamed};
ghost use Rattle.slh_bytes.specs.Manifests.{is_named as spec_is_named, name_or_none};
ghost use Rattle.slh_bytes.specs.Manifests.{sealing_refusal, spoken_name};
ghost use Rattle.slh_manifest.specs.Building.{manifest_of};
ghost use Rattle.slh_manifest.specs.Entries.{entry_copied};
ghost use Rattle.slh_manifest.specs.declared.error.BuildError.TheVariants.{Memory};
ghost use Rattle.slh_sets.specs.Sets.{scheme_for};
ghost use Rattle.slh_core.specs.Refusals.{RefusedOrNoMemory};

use slh_dsa::{SigningKey, VerifyingKey};
use slh_manifest::{BuildError, Builder, CheckError, EntryRef, Manifest, Store, check};
use slh_sets::{OnSet, Set, SetSuite};
use std::alloc::Global;

// The entries that are to be signed.
#[derive(Drop)]
struct Sealing<'a> {
    alloc: Global,
    key: &'a [u8],
    entries: Builder,
    opt_rand: Option<&'a [u8]>,
}

impl<'a> OnSet for Sealing<'a> {
    type Out = Result<Vec<u8>, BuildError>;

    ghost gives = { λ c Z _ result. let opt_rand = option_copied c.opt_rand in
        RefusedOrNoMemory Memory result (sealing_refusal Z c.key.now c.entries opt_rand)
        × IfOk result (λ manifest. manifest.items
        ≡ manifest_of Z c.key.now opt_rand c.entries) };

    fn on<P: SetSuite>(self) -> Result<Vec<u8>, BuildError> {
        let Ok(key) = SigningKey::<P>::try_from(self.key) else {
            return Err(BuildError::Memory);
        };
        self.entries.seal(self.alloc, &key, self.opt_rand)
    }
}

/// The manifest of entries under a signing key of a set, as [`Builder::seal`] makes it. `Empty`;
/// `Randomizer`; `Memory`, which bytes that are no key of the set are too.
pub fn seal_manifest(
    alloc: Global,
    set: Set,
    key: &[u8],
    entries: Builder,
    opt_rand: Option<&[u8]>,
) -> Result<Vec<u8>, BuildError>
    ensures refusal { let opt_rand = option_copied opt_rand.entry in
        RefusedOrNoMemory Memory result
        (sealing_refusal (scheme_for set) key.now entries opt_rand) }
    ensures value { let opt_rand = option_copied opt_rand.entry in
        IfOk result (λ manifest. manifest.items
        ≡ manifest_of (scheme_for set) key.now opt_rand entries) }
{
    set.run(Sealing {
        alloc,
        key,
        entries,
        opt_rand,
    })
}

/// What came of a check of a manifest over a store, and the store.
#[derive(Drop)]
pub struct Checked<T> {
    pub answer: Result<(), CheckError>,
    pub store: T,
}

// A manifest over a store.
#[derive(Drop)]
struct Checking<'a, T> {
    key: &'a [u8],
    manifest: &'a [u8],
    store: T,
}

impl<'a, T: Store + Drop> OnSet for Checking<'a, T> {
    type Out = Checked<T>;

    ghost gives = { λ c Z _ result. IsChecked Z c.key.now c.manifest.now (T.files c.store)
        (T.faults c.store) (T.faults result.store) result.answer };

    fn on<P: SetSuite>(self) -> Checked<T> {
        let Checking {
            key,
            manifest,
            mut store,
        } = self;
        let Ok(key) = VerifyingKey::<P>::try_from(key) else {
            return Checked {
                answer: Err(CheckError::Form),
                store,
            };
        };
        let answer = check(&key, manifest, &mut store);
        Checked { answer, store }
    }
}

/// Checks a manifest under a verifying key of a set and each of its entries over a store, as
/// [`slh_manifest::check`] does. `Form`; `Invalid`; `Missing`; `Differs`; `Fault`. Bytes that are no
/// key of the set are `Form`.
pub fn check_manifest<T: Store + Drop>(
    set: Set,
    key: &[u8],
    manifest: &[u8],
    store: T,
) -> Checked<T>
    ensures { IsChecked (scheme_for set) key.now manifest.now (T.files store) (T.faults store)
        (T.faults result.store) result.answer }
{
    set.run(Checking {
        key,
        manifest,
        store,
    })
}

// The entry of a number, if a manifest has one.
fn entry_at(manifest: &[u8], i: u32) -> Option<EntryRef<'_>>
    ensures { option_map entry_copied result ≡ spec_entry_at manifest.now i }
{
    let manifest = Manifest::reopen(manifest)?;
    manifest.entry(i as usize)
}

// The name of an entry, if there is one.
fn name_of(manifest: &[u8], i: u32) -> &[u8]
    ensures { result.now ≡ name_or_none (spec_entry_at manifest.now i) }
{
    match entry_at(manifest, i) {
        Some(entry) => entry.name,
        None => b"",
    }
}

/// The name of the entry that a refusal of a manifest speaks of, or nothing.
pub fn entry_name(manifest: &[u8], error: CheckError) -> &[u8]
    ensures { result.now ≡ spoken_name manifest.now error }
{
    match error {
        CheckError::Missing(i) | CheckError::Differs(i) => name_of(manifest, i),
        CheckError::Form | CheckError::Invalid | CheckError::Fault => b"",
    }
}

// Whether a manifest has an entry of a name.
fn is_named(manifest: &Manifest<'_>, name: &[u8]) -> bool
    ensures { result ≡ spec_is_named manifest.now name.now }
{
    manifest.find(name).is_some()
}

// The first of some names that an opened manifest hasn't.
fn first_other<'a>(manifest: &Manifest<'_>, names: &'a [String]) -> Option<&'a [u8]>
    ensures { option_copied result
        ≡ spec_first_unnamed manifest.now (map string_bytes names.now) }
{
    for name in names {
        if !is_named(manifest, name.as_bytes()) {
            return Some(name.as_bytes());
        }
    }
    None
}

/// The first of some names that a manifest hasn't. Its signature isn't looked at: it is one that was
/// checked. `None`: it has each, or these bytes are no manifest's.
pub fn first_unnamed<'a>(manifest: &[u8], names: &'a [String]) -> Option<&'a [u8]>
    ensures { option_copied result ≡ unnamed_in manifest.now (map string_bytes names.now) }
{
    let manifest = Manifest::reopen(manifest)?;
    first_other(&manifest, names)
}
