//! Laws of rings and records, as the contracts of functions that do nothing but make the calls that
//! they speak of.
ghost use Rattle.std.specs.Prelude.{◌≡◌, ◌↔◌, ◌||◌, ◌&&◌, ℕ, List, [], true, not, IsTrue};
ghost use Rattle.std.specs.Prelude.{Ok, Err, Some};
ghost use Rattle.std.specs.List.{All};
ghost use Rattle.slh_core.specs.Parameters.{Scheme};
ghost use Rattle.slh_ring.specs.Keys.{key_info, ring_bytes};
ghost use Rattle.slh_ring.specs.Paths.{IsPath};
ghost use Rattle.slh_ring.specs.Records.{AreBytes, Entry, IsRecordOf, has_form, recorded, set_in};
ghost use Rattle.slh_ring.specs.PathTexts.{path_text, path_value};
ghost use Rattle.slh_ring.specs.Restores.{IsFirstOther, restore_answer};
ghost use Rattle.slh_ring.specs.Rings.{AreCalls, Call, IsRing, accepted, after_adds};
ghost use Rattle.slh_ring.specs.Rings.{has_path, ok_paths, same_path, with_path, without_path};
ghost use Rattle.slh_ring.specs.declared.error.RestoreError.TheVariants.{Form, Mismatch};

/// Bytes have the form of a record exactly where they are the layout of some paths, with any 8
/// bytes for each; and the paths and bytes that are read from them are these.
pub fn records_have_form()
    ensures form { (name bytes : List ℕ) (entries : List Entry)
        → IsRecordOf name entries bytes
        → has_form name bytes ≡ true }
    ensures read { (name bytes : List ℕ) (entries : List Entry)
        → IsRecordOf name entries bytes
        → recorded name bytes ≡ entries }
    ensures written { (name bytes : List ℕ)
        → has_form name bytes ≡ true
        → AreBytes bytes
        → IsRecordOf name (recorded name bytes) bytes }
{}

/// Restoring answers the paths exactly where the bytes are their record under the master, and
/// `Form` exactly where no paths, with any 8 bytes for each, have the bytes as their layout.
pub fn records_are_restored()
    ensures undone { (Z : Scheme) (name master : List ℕ) (paths : List (List ℕ))
        → IsRing paths
        → restore_answer Z name master (ring_bytes Z name master paths) ≡ Ok paths }
    ensures ring { (Z : Scheme) (name master bytes : List ℕ) (paths : List (List ℕ))
        → restore_answer Z name master bytes ≡ Ok paths
        → AreBytes bytes
        → IsRing paths }
    ensures layout { (Z : Scheme) (name master bytes : List ℕ) (paths : List (List ℕ))
        → restore_answer Z name master bytes ≡ Ok paths
        → AreBytes bytes
        → bytes ≡ ring_bytes Z name master paths }
    ensures formed { (Z : Scheme) (name master bytes : List ℕ) (entries : List Entry)
        → IsRecordOf name entries bytes
        → restore_answer Z name master bytes ≡ Err Form
        → ⊥ }
    ensures unformed { (Z : Scheme) (name master bytes : List ℕ)
        → ((entries : List Entry) → IsRecordOf name entries bytes → ⊥)
        → AreBytes bytes
        → restore_answer Z name master bytes ≡ Err Form }
{}

/// After any adds to an empty ring, where memory never is wanting, the ring is the set of the
/// accepted paths in order; and one more add puts one more path among those that are there. Two
/// paths are one exactly where they are the same list.
pub fn adds_make_the_set()
    ensures ring { (adds : List (List ℕ)) → All IsPath adds → IsRing (after_adds [] adds) }
    ensures members { (adds : List (List ℕ)) (q : List ℕ)
        → All IsPath adds
        → has_path (after_adds [] adds) q ≡ has_path (accepted [] adds) q }
    ensures one { (q path : List ℕ) (paths : List (List ℕ))
        → has_path (with_path paths path) q ≡ (same_path q path || has_path paths q) }
    ensures same { (p q : List ℕ) → IsTrue (same_path p q) ↔ (p ≡ q) }
{}

/// The same by what the calls of `add` answered, whether or not memory was wanting: after any calls
/// on an empty ring it is the set of the paths of those that answered Ok, in order.
pub fn calls_make_the_set()
    ensures ring { (calls : List Call) (new : List (List ℕ))
        → All (λ call. IsPath call.path) calls
        → AreCalls [] calls new
        → IsRing new }
    ensures members { (calls : List Call) (new : List (List ℕ)) (q : List ℕ)
        → All (λ call. IsPath call.path) calls
        → AreCalls [] calls new
        → has_path new q ≡ has_path (ok_paths calls) q }
{}

/// Taking a path out of a ring leaves a ring, of every other path.
pub fn removes_leave_the_others()
    ensures ring { (paths : List (List ℕ)) (path : List ℕ)
        → IsRing paths
        → IsRing (without_path paths path) }
    ensures members { (paths : List (List ℕ)) (path q : List ℕ)
        → IsRing paths
        → has_path (without_path paths path) q ≡ (not (same_path path q) && has_path paths q) }
{}

/// The text of a path is read back, what is read is a path, and two paths have two texts.
pub fn texts_are_read_back()
    ensures back { (path : List ℕ) → IsPath path → path_value (path_text path) ≡ Some path }
    ensures path { (text path : List ℕ) → path_value text ≡ Some path → IsPath path }
    ensures differ { (p q : List ℕ)
        → IsPath p
        → IsPath q
        → path_text p ≡ path_text q
        → p ≡ q }
{}

/// Keys that are expanded with the same bytes are of one set and one path.
pub fn keys_have_their_own_info()
    ensures names { (name other p q : List ℕ)
        → IsPath p
        → IsPath q
        → key_info name p ≡ key_info other q
        → name ≡ other }
    ensures paths { (name other p q : List ℕ)
        → IsPath p
        → IsPath q
        → key_info name p ≡ key_info other q
        → p ≡ q }
{}

/// `Mismatch` tells the number of an entry whose 8 bytes aren't those of its key under the master,
/// where those of each before it are; and of a record with such an entry nothing else is answered.
pub fn mismatches_name_the_first()
    ensures first { (Z : Scheme) (name master bytes : List ℕ) (i : ℕ)
        → restore_answer Z name master bytes ≡ Err (Mismatch i)
        → IsFirstOther Z name master i (recorded name bytes) }
    ensures named { (Z : Scheme) (name master bytes : List ℕ) (i : ℕ)
        → has_form name bytes ≡ true
        → IsFirstOther Z name master i (recorded name bytes)
        → restore_answer Z name master bytes ≡ Err (Mismatch i) }
{}

/// The record of a set names that set, and no other.
pub fn records_name_their_set()
    ensures { (name bytes : List ℕ) → has_form name bytes ≡ true → set_in bytes ≡ Some name }
{}
