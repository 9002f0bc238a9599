//! Clones and equality of values, as the contracts of functions that do nothing else.
ghost use Rattle.std.specs.Prelude.{◌≡◌, ◌↔◌, IsTrue};

use crate::error::KeyFileError;
use crate::key::Kind;
use crate::passphrase::PassphraseError;

/// A clone of a refusal is that refusal, and `==` holds exactly where both are the same.
pub fn clone_and_equality_of_key_file_errors(
    a: &KeyFileError,
    b: &KeyFileError,
) -> (KeyFileError, bool)
    ensures clone { result.0 ≡ a.now }
    ensures equal { IsTrue result.1 ↔ (a.now ≡ b.now) }
{
    (a.clone().unwrap(), a == b)
}

/// A clone of a refusal of a passphrase is that refusal, and `==` holds exactly where both are the
/// same.
pub fn clone_and_equality_of_passphrase_errors(
    a: &PassphraseError,
    b: &PassphraseError,
) -> (PassphraseError, bool)
    ensures clone { result.0 ≡ a.now }
    ensures equal { IsTrue result.1 ↔ (a.now ≡ b.now) }
{
    (a.clone().unwrap(), a == b)
}

/// A clone of a kind is that kind, and `==` holds exactly where both are the same.
pub fn clone_and_equality_of_kinds(a: &Kind, b: &Kind) -> (Kind, bool)
    ensures clone { result.0 ≡ a.now }
    ensures equal { IsTrue result.1 ↔ (a.now ≡ b.now) }
{
    (a.clone().unwrap(), a == b)
}
