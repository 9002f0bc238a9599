//! What keys, signing and verifying have to do with one another, as the contract of a function that
//! does nothing but make the calls that it speaks of.
ghost use Rattle.std.specs.Prelude.{◌≡◌, ℕ, ◌*◌, ◌≤◌, List, length, drop, Option, None};
ghost use Rattle.slh_dsa.specs.Calls.{hash_verify_error};
ghost use Rattle.slh_frames.specs.Frames.{mode_frame};
ghost use Rattle.slh_frames.specs.declared.frame.Mode.{Mode as SigningMode};
ghost use Rattle.slh_trees.specs.Keys.{IsTrueKey};
ghost use Rattle.slh_trees.specs.Signing.{signature_of};

use crate::parameter_set::SetSizes;
use slh_frames::{MAX_CONTEXT, MAX_MESSAGE};

/// What a key with the root of its own seeds signs, in any mode, with any `opt_rand` or none, is
/// accepted under its verifying key in the same mode with the same context and message.
pub fn signed_is_accepted<P: SetSizes>()
    ensures { (mode : SigningMode) (key context message : List ℕ) (opt_rand : Option (List ℕ))
        → IsTrueKey P.scheme key
        → length key ≡ 4 * P.N.USIZE
        → length context ≤ MAX_CONTEXT
        → length message ≤ MAX_MESSAGE
        → let sig = signature_of P.scheme key opt_rand (mode_frame mode context message) in
        hash_verify_error P.scheme mode (drop (2 * P.N.USIZE) key) context message sig ≡ None }
{}
