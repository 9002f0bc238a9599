//! Laws of checkpoints, and of heads that are taken one after the other, as the contracts of
//! functions that do nothing but make the calls that they speak of.
ghost use Rattle.std.specs.Prelude.{◌≡◌, ◌≢◌, ◌*◌, ◌^◌, ◌<◌, ◌++◌, ℕ, List, [], length, take, drop};
ghost use Rattle.std.specs.Prelude.{slice_index_or, All, Option, None, Some, true};
ghost use Rattle.base64.specs.GeneralPurpose.{IsBytes};
ghost use Rattle.merkle_tree.specs.Binding.{entry_clash};
ghost use Rattle.sha256_lanes.specs.Sha256.{sha256};
ghost use Rattle.slh_trees.specs.Keys.{IsTrueKey};
ghost use Rattle.slh_log.specs.Calls.{presence_refusal};
ghost use Rattle.slh_log.specs.Heads.{AreTaken, IsFound, IsHead, IsOpened, IsSigned, Step};
ghost use Rattle.slh_log.specs.Heads.{last_entries, steps_clash};
ghost use Rattle.slh_log.specs.Reading.{is_origin, read_root, read_size};
ghost use Rattle.slh_log.specs.Texts.{checkpoint_text, key_id, signed_checkpoint, text_signature};

use crate::opening::signature_bound;
use slh_core::params::chain_sizes;
use slh_dsa::SetSizes;
use slh_dsa::laws::signed_is_accepted;

/// What a true key makes, with any `opt_rand` or none, opens under its verifying key and its
/// origin, to the size and the root that it was made of.
pub fn made_is_opened<P: SetSizes>()
    ensures { (key origin root : List ℕ) (opt_rand : Option (List ℕ)) (size : ℕ)
        → IsTrueKey P.scheme key
        → length key ≡ 4 * P.N.USIZE
        → is_origin origin ≡ true
        → size < 2 ^ 64
        → length root ≡ 32
        → IsBytes root
        → let public = drop (2 * P.N.USIZE) key in
        IsBytes (key_id origin P.set_name public
        ++ text_signature P.scheme key opt_rand (checkpoint_text origin size root))
        → IsOpened P.scheme P.set_name public origin
        (signed_checkpoint P.scheme P.set_name key opt_rand origin size root) size root }
{
    chain_sizes::<P>();
    signature_bound::<P>();
    signed_is_accepted::<P>();
}

/// What opens to a size and a root was signed: there is a signature of the key, of a text that
/// begins with that of this size and this root under this origin. And such a text begins with no
/// other.
pub fn opened_is_signed<P: SetSizes>()
    ensures signed { (key origin bytes root : List ℕ) (size : ℕ)
        → IsBytes bytes
        → IsOpened P.scheme P.set_name key origin bytes size root
        → IsSigned P.scheme P.set_name key origin bytes size root }
    ensures once { (a b r s x y : List ℕ) (m n : ℕ)
        → is_origin a ≡ true
        → is_origin b ≡ true
        → m < 2 ^ 64
        → n < 2 ^ 64
        → IsBytes r
        → IsBytes s
        → length r ≡ 32
        → length s ≡ 32
        → checkpoint_text a m r ++ x ≡ checkpoint_text b n s ++ y
        → (a ≡ b) × (m ≡ n) × (r ≡ s) }
{}

/// Of heads that open under one key and origin, taken one after the other with growth checked at
/// each step, the entries of the first are the front of those of the last, or two different inputs
/// with one SHA-256 digest are found. And an entry whose path is checked against a head is the one
/// at that place of its list, or such inputs are found.
pub fn heads_bind<P: SetSizes>()
    ensures grown { (key origin bytes : List ℕ) (entries : List (List ℕ)) (steps : List Step)
        → IsHead P.scheme P.set_name key origin bytes entries
        → AreTaken P.scheme P.set_name key origin entries steps
        → entries ≢ take (length entries) (last_entries entries steps)
        → IsFound (steps_clash entries steps) }
    ensures present { (key origin bytes root entry : List ℕ) (entries path : List (List ℕ))
        (size i : ℕ)
        → IsHead P.scheme P.set_name key origin bytes entries
        → IsOpened P.scheme P.set_name key origin bytes size root
        → All (λ d. length d ≡ 32) path
        → presence_refusal size root i entry path ≡ None
        → entry ≢ slice_index_or entries i []
        → IsFound (entry_clash sha256 entries i entry path) }
{}
