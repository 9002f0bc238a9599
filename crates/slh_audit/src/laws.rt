//! Laws of evidence, each the contract of a function that does nothing but make the calls that it
//! speaks of.
ghost use Rattle.std.specs.Prelude.{◌≡◌, ◌⊎◌, ℕ, List, length, take, Some, Ok, true, false};
ghost use Rattle.std.specs.List.{Contains};
ghost use Rattle.slh_audit.specs.Evidence.{Dispute, dispute_of, shows};
ghost use Rattle.slh_audit.specs.Places.{IsFirst, first_evidence, places};
ghost use Rattle.slh_audit.specs.Verdicts.{IsGenuineExactly, message_audit};
ghost use Rattle.slh_audit.specs.declared.evidence.Evidence.{Evidence};
ghost use Rattle.slh_audit.specs.declared.evidence.Verdict.{Verdict};
ghost use Rattle.slh_core.specs.Bytes.{part};
ghost use Rattle.slh_trees.specs.Checking.{checked_root, signature_size};
ghost use Rattle.slh_trees.specs.Keys.{top_root};
ghost use Rattle.slh_trees.specs.Signing.{signature_with};

use crate::evidence::{Evidence, Verdict};
use slh_core::params::ForsSizes;

/// Bytes that lead to the root of a key's seeds are those that the key makes with their own
/// randomizer, or the search finds evidence against them.
pub fn accepted_is_made_or_found<P: ForsSizes>()
    ensures { (key message sig : List ℕ)
        → length sig ≡ signature_size P.scheme
        → let Z = P.scheme in
        let s = part Z.n key 2 in
        checked_root Z s (part Z.n key 3) message sig ≡ top_root Z s (part Z.n key 0)
        → ((e : Evidence) × (first_evidence (dispute_of Z key message sig) ≡ Some e))
        ⊎ (sig ≡ signature_with Z key (take Z.n sig) message) }
{}

/// Where the audit of a message has a verdict, it is `Genuine` exactly for the bytes that the key
/// makes with their own randomizer.
pub fn genuine_is_made<P: ForsSizes>()
    ensures { (key message sig : List ℕ) (verdict : Verdict)
        → length sig ≡ signature_size P.scheme
        → message_audit P.scheme key message sig ≡ Ok verdict
        → IsGenuineExactly P.scheme key message sig verdict }
{}

/// Nothing shows against the bytes that a key makes, whatever root it has.
pub fn nothing_shows_against_made<P: ForsSizes>()
    ensures { (key message sig : List ℕ) (e : Evidence)
        → length sig ≡ signature_size P.scheme
        → let Z = P.scheme in
        sig ≡ signature_with Z key (take Z.n sig) message
        → shows (dispute_of Z key message sig) e ≡ false }
{}

/// What the search finds shows, and nothing that stands before it in the order does.
pub fn first_evidence_is_first()
    ensures { (D : Dispute) (e : Evidence) → first_evidence D ≡ Some e → IsFirst D e }
{}

/// Whatever shows stands in the order.
pub fn shown_has_a_place()
    ensures { (D : Dispute) (e : Evidence) → shows D e ≡ true → Contains (places D) e }
{}
