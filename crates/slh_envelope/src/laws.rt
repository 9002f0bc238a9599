//! What is sealed is opened, and by what an envelope is accepted, as the contracts of functions that
//! do nothing.
ghost use Rattle.std.specs.Prelude.{◌≡◌, ◌≤◌, ◌*◌, ◌^◌, ℕ, List, None, Option, drop, length};
ghost use Rattle.dsse.specs.Encoding.{pae};
ghost use Rattle.dsse.specs.Said.{Said};
ghost use Rattle.slh_core.specs.Parameters.{Scheme};
ghost use Rattle.slh_envelope.specs.Opening.{IsAccepted, open_refusal};
ghost use Rattle.slh_envelope.specs.Sealing.{sealed};
ghost use Rattle.slh_trees.specs.Keys.{IsTrueKey};

use slh_dsa::SetSizes;
use slh_dsa::laws::signed_is_accepted;

/// What a key with the root of its own seeds seals is accepted under its verifying key.
pub fn sealed_is_accepted<P: SetSizes>()
    ensures { (key : List ℕ) (opt_rand : Option (List ℕ)) (payload_type payload : List ℕ)
        → IsTrueKey P.scheme key
        → length key ≡ 4 * P.N.USIZE
        → length (pae payload_type payload) ≤ 2 ^ 60
        → open_refusal P.scheme (drop (2 * P.N.USIZE) key) payload_type
        (sealed P.scheme key opt_rand payload_type payload) ≡ None }
{
    signed_is_accepted::<P>();
}

/// An envelope is accepted only where the key accepts one of its signatures, of its payload and this
/// type.
pub fn accepted_is_signed()
    ensures { (Z : Scheme) (key payload_type : List ℕ) (e : Said)
        → open_refusal Z key payload_type e ≡ None
        → IsAccepted Z key payload_type e }
{}
