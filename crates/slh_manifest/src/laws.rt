//! What manifests have to do with their entries, as the contracts of functions that do nothing.
ghost use Rattle.std.specs.Prelude.{◌⊎◌, Some};
ghost use Rattle.std.specs.Prelude.{◌≡◌, ℕ, ◌*◌, ◌<◌, ◌++◌, List, length, drop, Option, None, true};
ghost use Rattle.std.specs.Prelude.{[], false, map, slice_index};
ghost use Rattle.std.specs.List.{AllByRecursion};
ghost use Rattle.slh_core.specs.Parameters.{Scheme};
ghost use Rattle.slh_trees.specs.Checking.{signature_size};
ghost use Rattle.slh_trees.specs.Keys.{IsTrueKey};
ghost use Rattle.slh_dsa.specs.Calls.{is_valid};
ghost use Rattle.slh_frames.specs.declared.frame.Mode.TheVariants.{Pure};
ghost use Rattle.slh_manifest.specs.Building.{AreCalls, Call, manifest_of, ok_names};
ghost use Rattle.slh_manifest.specs.Checking.{HasEntry, check_error, entries_of, is_manifest};
ghost use Rattle.slh_manifest.specs.Checking.{IsFirst, HasOther, LacksEntry, entries_error};
ghost use Rattle.slh_manifest.specs.Checking.{manifest_refusal, signature_part};
ghost use Rattle.slh_manifest.specs.Files.{Files};
ghost use Rattle.slh_manifest.specs.Manifest.{HasForm, body_bytes, manifest_context};
ghost use Rattle.slh_manifest.specs.declared.entry.Entry.{Entry as ManifestEntry};
ghost use Rattle.slh_manifest.specs.declared.error.CheckError.{CheckError};
ghost use Rattle.slh_manifest.specs.declared.error.CheckError.TheVariants.{Missing, Differs, Invalid};

use crate::error::CheckError;
use slh_dsa::SetSizes;
use slh_dsa::laws::signed_is_accepted;

/// Entries of right form and a signature are read back from the manifest that they make: so a
/// manifest is cut in one way only.
pub fn manifests_are_read_back()
    ensures form { (Z : Scheme) (entries : List ManifestEntry) (sig : List ℕ)
        → HasForm entries → length sig ≡ signature_size Z
        → is_manifest Z (body_bytes entries ++ sig) ≡ true }
    ensures entries { (entries : List ManifestEntry) (sig : List ℕ) → HasForm entries
        → entries_of (body_bytes entries ++ sig) ≡ entries }
    ensures signature { (entries : List ManifestEntry) (sig : List ℕ) → HasForm entries
        → signature_part (body_bytes entries ++ sig) ≡ sig }
{}

/// What has the form of a manifest is the one of the entries and the signature that are read in it,
/// and they have the form that such parts have.
pub fn manifests_are_their_parts()
    ensures form { (Z : Scheme) (manifest : List ℕ)
        → ((i : ℕ) → slice_index manifest i < 256) → is_manifest Z manifest ≡ true
        → HasForm (entries_of manifest) }
    ensures size { (Z : Scheme) (manifest : List ℕ)
        → ((i : ℕ) → slice_index manifest i < 256) → is_manifest Z manifest ≡ true
        → length (signature_part manifest) ≡ signature_size Z }
    ensures bytes { (Z : Scheme) (manifest : List ℕ)
        → ((i : ℕ) → slice_index manifest i < 256) → is_manifest Z manifest ≡ true
        → manifest ≡ body_bytes (entries_of manifest) ++ signature_part manifest }
{}

/// Of the entries none is refused exactly where the store has each, and else the first that it
/// hasn't: `Missing` where there is no such name, and `Differs` where the bytes under it are others
/// by their number or their digest.
pub fn checks_name_the_first()
    ensures each { (files : Files) (entries : List ManifestEntry)
        → entries_error files 0 entries ≡ None
        → AllByRecursion (HasEntry files) entries }
    ensures right { (files : Files) (entries : List ManifestEntry)
        → AllByRecursion (HasEntry files) entries
        → entries_error files 0 entries ≡ None }
    ensures missing { (files : Files) (entries : List ManifestEntry) (i : ℕ)
        → entries_error files 0 entries ≡ Some (Missing i)
        → IsFirst files LacksEntry i entries }
    ensures differs { (files : Files) (entries : List ManifestEntry) (i : ℕ)
        → entries_error files 0 entries ≡ Some (Differs i)
        → IsFirst files HasOther i entries }
    ensures others { (files : Files) (entries : List ManifestEntry) (refusal : CheckError)
        → entries_error files 0 entries ≡ Some refusal
        → (i : ℕ) × ((refusal ≡ Missing i) ⊎ (refusal ≡ Differs i)) }
{}

/// What a key with the root of its own seeds seals is accepted over every store that has each of
/// the names with these bytes.
pub fn sealed_is_accepted<P: SetSizes>()
    ensures { (key : List ℕ) (opt_rand : Option (List ℕ)) (entries : List ManifestEntry)
        (files : Files)
        → IsTrueKey P.scheme key
        → length key ≡ 4 * P.N.USIZE
        → HasForm entries
        → AllByRecursion (HasEntry files) entries
        → check_error P.scheme (drop (2 * P.N.USIZE) key)
        (manifest_of P.scheme key opt_rand entries) files ≡ None }
{
    signed_is_accepted::<P>();
}

/// A manifest with a signature that was made elsewhere is judged by that signature: it is accepted
/// over every store that has each of the names with these bytes where the signature is one of the
/// body under the context `slh-manifest`, and refused as `Invalid` where it isn't.
pub fn bodies_are_signed_elsewhere()
    ensures accepted { (Z : Scheme) (key sig : List ℕ) (entries : List ManifestEntry)
        (files : Files)
        → HasForm entries
        → length sig ≡ signature_size Z
        → is_valid Z Pure key manifest_context (body_bytes entries) sig ≡ true
        → AllByRecursion (HasEntry files) entries
        → check_error Z key (body_bytes entries ++ sig) files ≡ None }
    ensures invalid { (Z : Scheme) (key sig : List ℕ) (entries : List ManifestEntry)
        → HasForm entries
        → length sig ≡ signature_size Z
        → is_valid Z Pure key manifest_context (body_bytes entries) sig ≡ false
        → manifest_refusal Z key (body_bytes entries ++ sig) ≡ Some Invalid }
{}

/// After any calls of `add` to a new builder over a store with these files, whatever they answered,
/// the entries have the names of the calls that answered Ok, in the order of the calls, and each is
/// of the bytes that the store has under its name.
pub fn calls_list_the_names()
    ensures names { (files : Files) (calls : List Call) (new : List ManifestEntry)
        → AreCalls files [] calls new
        → map (λ entry. entry.name) new ≡ ok_names calls }
    ensures entries { (files : Files) (calls : List Call) (new : List ManifestEntry)
        → AreCalls files [] calls new
        → AllByRecursion (HasEntry files) new }
{}
