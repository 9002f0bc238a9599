//! What is written is read, and nothing else; what is made is read; what is signed is genuine; what
//! is printed of it is read; and what two readings of one file can't answer: as contracts.
ghost use Rattle.std.specs.Prelude.{◌≡◌, ◌≤◌, ℕ, List, Bool, Option, Ok, Err, Some, IsTrue, length};
ghost use Rattle.base64.specs.Engines.{standard};
ghost use Rattle.base64.specs.GeneralPurpose.{IsBytes, encode_of};
ghost use Rattle.slh_bytes.specs.Blocks.{block_in};
ghost use Rattle.slh_bytes.specs.Encrypted.{encrypted_key_file, key_under};
ghost use Rattle.slh_bytes.specs.Heads.{der_of, key_len};
ghost use Rattle.slh_bytes.specs.Jobs.{MadeIsGenuine};
ghost use Rattle.encrypted_key.specs.Reading.{max_iterations};
ghost use Rattle.slh_audit.specs.declared.evidence.Evidence.{Evidence};
ghost use Rattle.slh_bytes.specs.Lines.{squeezed, words_of};
ghost use Rattle.slh_bytes.specs.Made.{MadeIsOwn, MadeIsRead};
ghost use Rattle.slh_bytes.specs.Reading.{key_in, key_with, pem_key};
ghost use Rattle.slh_bytes.specs.Writing.{key_file};
ghost use Rattle.slh_bytes.specs.declared.key.Key.{Key as AnyKey};
ghost use Rattle.slh_bytes.specs.declared.key.Kind.{Kind as KeyKind};
ghost use Rattle.slh_bytes.specs.declared.key.Kind.TheVariants.{Signing};
ghost use Rattle.slh_core.specs.Parameters.{Scheme};
ghost use Rattle.slh_bytes.specs.Answers.{IsSignedTwice};
ghost use Rattle.slh_bytes.specs.declared.read_error.ReadError.TheVariants.{Changed};
ghost use Rattle.slh_jobs.specs.EvidenceNumbers.{HasNumbers};
ghost use Rattle.slh_jobs.specs.EvidenceWords.{evidence_in, evidence_text};
ghost use Rattle.slh_sets.specs.Sets.{scheme_for};
ghost use Rattle.slh_sets.specs.declared.set.Set.{Set as KeySet};

use slh_dsa::SetSizes;
use slh_sets::{OnSet, Set, SetSuite};

/// The text of each key's file is read as this key and no other, for each kind and set.
pub fn written_is_read()
    ensures { (kind : KeyKind) (set : KeySet) (key : List ℕ) → IsBytes key
        → length key ≡ key_len kind set
        → key_in kind (key_file kind set key) ≡ Ok (key_with set key) }
{}

/// A block that is read as a key has the symbols that are written for this key, and no others: but
/// for blanks and ends of lines, each key has one form.
pub fn read_is_written()
    ensures { (kind : KeyKind) (text found body : List ℕ) (key : AnyKey) → IsBytes text
        → block_in text ≡ Ok (found, body) → pem_key kind text ≡ Ok key
        → squeezed body ≡ encode_of standard (der_of kind key.set key.bytes) }
{}

fn made_is_genuine_in<P: SetSizes>()
    ensures { MadeIsGenuine P.scheme }
{}

#[derive(Drop)]
struct MadeGenuine;

impl OnSet for MadeGenuine {
    type Out = ();

    ghost gives = { λ _ Z _ _. MadeIsGenuine Z };

    fn on<P: SetSuite>(self) {
        made_is_genuine_in::<P>();
    }
}

/// The audit of what a job of a signature gave, with the same key, mode, context and message, says
/// `Genuine`, or `KeyMismatch` where the key's root isn't that of its seeds: for each of them.
pub fn made_is_genuine(set: Set)
    ensures { MadeIsGenuine (scheme_for set) }
{
    set.run(MadeGenuine);
}

fn made_is_own_in<P: SetSizes>()
    ensures { MadeIsOwn P.scheme }
{}

#[derive(Drop)]
struct MadeOwn;

impl OnSet for MadeOwn {
    type Out = ();

    ghost gives = { λ _ Z _ _. MadeIsOwn Z };

    fn on<P: SetSuite>(self) {
        made_is_own_in::<P>();
    }
}

/// What [`made_key`] makes, [`read_signing_key`] takes: the file of a key that was made, of
/// whatever random bytes, is read as this key, whose root is the one that its seeds make.
///
/// [`made_key`]: crate::made_key
/// [`read_signing_key`]: crate::read_signing_key
pub fn made_is_read(set: Set)
    ensures { MadeIsRead set }
{
    set.run(MadeOwn);
}

/// Evidence that is printed is read back from the words of its text, whose numbers are those of the
/// code: who has what an audit printed can hand it to a check.
pub fn printed_evidence_is_read()
    ensures { (evidence : Evidence) → HasNumbers evidence
        → evidence_in (words_of (evidence_text evidence)) ≡ Some evidence }
{}

/// The text of the file of a signing key under a passphrase is read as this key with the same
/// passphrase, for each set, whatever the salt, the initial vector and the count of iterations.
pub fn encrypted_is_read()
    ensures { (passphrase salt iv key : List ℕ) (count : ℕ) (set : KeySet)
        → length salt ≡ 16 → IsBytes salt → length iv ≡ 16 → IsBytes iv
        → 1 ≤ count → count ≤ max_iterations → IsBytes key → length key ≡ key_len Signing set
        → key_under passphrase (encrypted_key_file passphrase salt count iv set key)
        ≡ Ok (key_with set key) }
{}

/// Inputs that have the same bytes are never told to have different ones.
pub fn same_is_unchanged()
    ensures { (Z : Scheme) (key context all : List ℕ) (opt_rand : Option (List ℕ)) (may_fail : Bool)
        → IsSignedTwice Z key context opt_rand (IsTrue may_fail) (Some all) (Some all) (Err Changed) → ⊥ }
{}
