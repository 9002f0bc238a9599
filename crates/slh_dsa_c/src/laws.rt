//! What signing and verifying have to do with one another, as the contract of a function that does
//! nothing but make the calls that it speaks of.
ghost use Rattle.std.specs.Prelude.{◌≡◌, ℕ, ◌*◌, ◌≤◌, List, length, drop, Option, None};
ghost use Rattle.std.specs.Prelude.{IfSome};
ghost use Rattle.slh_dsa.specs.Calls.{hash_verify_error};
ghost use Rattle.slh_frames.specs.Frames.{mode_frame};
ghost use Rattle.slh_frames.specs.declared.frame.Mode.{Mode as SigningMode};
ghost use Rattle.slh_frames.specs.declared.message.TheConstants.{MAX_CONTEXT, MAX_MESSAGE};
ghost use Rattle.slh_dsa_c.specs.Numbers.{mode_numbered};
ghost use Rattle.slh_dsa_c.specs.Status.{sign_status, verify_status};
ghost use Rattle.slh_sets.specs.Sets.{scheme_numbered};
ghost use Rattle.slh_trees.specs.Keys.{IsTrueKey};
ghost use Rattle.slh_trees.specs.Signing.{signature_of};

use crate::set::read_in_set;
use slh_dsa::laws::signed_is_accepted;
use slh_sets::{OnSet, SetSuite};

// The law that a set accepts what its true keys sign.
#[derive(Drop)]
struct Accepts;

impl OnSet for Accepts {
    type Out = ();

    ghost gives = { λ _ Z _ _.
        (mode : SigningMode) (key context message : List ℕ) (opt_rand : Option (List ℕ))
        → IsTrueKey Z key → length key ≡ 4 * Z.n
        → length context ≤ MAX_CONTEXT → length message ≤ MAX_MESSAGE
        → hash_verify_error Z mode (drop (2 * Z.n) key) context message
        (signature_of Z key opt_rand (mode_frame mode context message)) ≡ None };

    fn on<P: SetSuite>(self) {
        signed_is_accepted::<P>();
    }
}

/// Where signing answers 0 under a key with the root of its own seeds, as `slh_dsa_sha2_keygen`
/// makes them, verifying what it wrote answers 0: for each set and mode, hedged and deterministic.
pub fn signed_is_verified(set: u32, mode: u32)
    ensures { (key context message : List ℕ) (opt_rand : Option (List ℕ)) (len : ℕ)
        → IfSome (scheme_numbered set) (λ Z. IfSome (mode_numbered mode) (λ m.
        let sig = signature_of Z key opt_rand (mode_frame m context message) in
        IsTrueKey Z key
        → sign_status set mode key context opt_rand message len ≡ 0
        → verify_status set mode (drop (2 * Z.n) key) context message sig ≡ 0)) }
{
    read_in_set(set, Accepts, ())
}
