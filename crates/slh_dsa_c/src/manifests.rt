//! Opening a manifest, and finding its entries.
ghost use Rattle.std.specs.Prelude.{◌≡◌, ◌≢◌, ◌+◌, ◌<◌, length, IfOk, IfSome, slice_get, true};
ghost use Rattle.slh_dsa_c.specs.Manifests.{NameStands, entry_answer, entry_place, find_answer};
ghost use Rattle.slh_dsa_c.specs.Manifests.{manifest_number, number_from, open_answer, open_status};
ghost use Rattle.slh_dsa_c.specs.Status.{status_of};
ghost use Rattle.slh_manifest.specs.Checking.{count_of, entries_of, has_entries};

use crate::set::read_in_set;
use crate::status::{FORM, INVALID, LENGTH, NO_ENTRY, OK, UNKNOWN_SET, tell};
use slh_dsa::VerifyingKey;
use slh_manifest::{CheckError, Manifest};
use slh_sets::{OnSet, SetSuite};

/// An entry of a manifest. The name stands in the manifest's bytes.
#[repr(C)]
#[derive(Drop)]
pub struct CEntry {
    /// Where the name begins, from the manifest's first byte on.
    pub name_at: u64,
    pub name_bytes: u64,
    /// How many bytes stand under the name, at most 2^32.
    pub file_bytes: u64,
    /// Their SHA-256.
    pub digest: [u8; 32],
}

// The number of a refusal. Files are no business of an export's.
fn number_of_manifest(error: CheckError) -> u32
    ensures { result ≡ manifest_number error }
{
    match error {
        CheckError::Form => FORM,
        CheckError::Invalid | CheckError::Differs(_) | CheckError::Fault => INVALID,
        CheckError::Missing(_) => NO_ENTRY,
    }
}

// A manifest under a verifying key.
#[derive(Drop)]
struct Open<'a> {
    public: &'a [u8],
    manifest: &'a [u8],
}

impl<'a> OnSet for Open<'a> {
    type Out = Result<u32, u32>;

    ghost gives = { λ c Z _ result. result ≡ open_answer Z c.public.now c.manifest.now };

    fn on<P: SetSuite>(self) -> Result<u32, u32> {
        let Ok(key) = VerifyingKey::<P>::try_from(self.public) else {
            return Err(LENGTH);
        };
        match Manifest::open(&key, self.manifest) {
            Ok(opened) => Ok(opened.len() as u32),
            Err(error) => Err(number_of_manifest(error)),
        }
    }
}

/// Reads a manifest and verifies its signature, once. Writes how many entries it has, 1 to 4096.
#[unsafe(no_mangle)]
pub extern "C" fn slh_manifest_open(
    set: u32,
    public: &[u8],
    manifest: &[u8],
    entries: &mut u32,
) -> u32
    ensures status { result ≡ open_status set public.now manifest.now }
    ensures entries { result ≡ 0 → entries.new ≡ length (entries_of manifest.now) }
    ensures stand { result ≡ 0 → has_entries manifest.now ≡ true }
    ensures same { result ≢ 0 → entries.new ≡ entries.old }
{
    match read_in_set(set, Open { public, manifest }, Err(UNKNOWN_SET)) {
        Ok(count) => {
            *entries = count;
            OK
        }
        Err(number) => number,
    }
}

// Where an entry begins.
fn place_of(manifest: &[u8], number: usize) -> usize
    requires stand { has_entries manifest.now ≡ true }
    requires inside { number < count_of manifest.now }
    ensures value { result ≡ entry_place manifest.now number }
    ensures within { result < length manifest.now }
{
    let mut at = 4;
    'each_entry: for _ in 0..number {
        at += manifest[at] as usize + 41;
    }
    at
}

// An entry of a number, and where its name stands.
fn entry_at(manifest: &[u8], number: usize) -> Result<CEntry, u32>
    ensures { result ≡ entry_answer manifest.now number }
{
    let Some(opened) = Manifest::reopen(manifest) else {
        return Err(FORM);
    };
    let Some(entry) = opened.entry(number) else {
        return Err(NO_ENTRY);
    };
    Ok(CEntry {
        name_at: place_of(manifest, number) as u64 + 1,
        name_bytes: entry.name.len() as u64,
        file_bytes: entry.len,
        digest: *entry.digest,
    })
}

// The number of the first entry with a name.
fn number_of_name(manifest: &Manifest<'_>, name: &[u8]) -> Option<usize>
    ensures { result ≡ number_from name.now 0 manifest.now }
{
    let mut entries = manifest.iter();
    'each_entry: for number in 0..manifest.len() {
        let Some(entry) = entries.next() else {
            unreachable!()
        };
        if entry.name == name {
            return Some(number);
        }
    }
    None
}

// The first entry with a name.
fn entry_named(manifest: &[u8], name: &[u8]) -> Result<CEntry, u32>
    ensures { result ≡ find_answer manifest.now name.now }
{
    let Some(opened) = Manifest::reopen(manifest) else {
        return Err(FORM);
    };
    match number_of_name(&opened, name) {
        Some(number) => entry_at(manifest, number),
        None => Err(NO_ENTRY),
    }
}

/// Finds the entry of a number, from 0 on, in a manifest that `slh_manifest_open` accepted. It
/// verifies nothing: of other bytes with the form of one it tells what stands there.
#[unsafe(no_mangle)]
pub extern "C" fn slh_manifest_entry(manifest: &[u8], number: u32, entry: &mut CEntry) -> u32
    ensures status { result ≡ status_of (entry_answer manifest.now number) }
    ensures entry { IfOk (entry_answer manifest.now number) (λ found. entry.new ≡ found) }
    ensures name { result ≡ 0 → IfSome (slice_get (entries_of manifest.now) number) (λ found.
        NameStands manifest.now entry.new found.name) }
    ensures same { result ≢ 0 → entry.new ≡ entry.old }
{
    tell(entry_at(manifest, number as usize), entry)
}

/// Finds the entry of a name in a manifest that `slh_manifest_open` accepted. As
/// `slh_manifest_entry` it verifies nothing.
#[unsafe(no_mangle)]
pub extern "C" fn slh_manifest_find(manifest: &[u8], name: &[u8], entry: &mut CEntry) -> u32
    ensures status { result ≡ status_of (find_answer manifest.now name.now) }
    ensures entry { IfOk (find_answer manifest.now name.now) (λ found. entry.new ≡ found) }
    ensures name { result ≡ 0 → NameStands manifest.now entry.new name.now }
    ensures same { result ≢ 0 → entry.new ≡ entry.old }
{
    tell(entry_named(manifest, name), entry)
}
