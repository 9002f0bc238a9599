//! Clones and equality of refusals, as the contract of a function that does nothing else.
ghost use Rattle.std.specs.Prelude.{◌≡◌, ◌↔◌, IsTrue};

use crate::error::EncryptedKeyError;

/// A clone of a refusal is that refusal, and `==` holds exactly where both are the same.
pub fn clone_and_equality_of_encrypted_key_errors(
    a: &EncryptedKeyError,
    b: &EncryptedKeyError,
) -> (EncryptedKeyError, bool)
    ensures clone { result.0 ≡ a.now }
    ensures equal { IsTrue result.1 ↔ (a.now ≡ b.now) }
{
    (a.clone().unwrap(), a == b)
}
