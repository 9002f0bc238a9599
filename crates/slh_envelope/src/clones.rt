//! Clones and equality of values, as the contracts of functions that do nothing else.
ghost use Rattle.std.specs.Prelude.{◌≡◌, ◌↔◌, IsTrue};

use crate::error::{OpenError, SealError};

/// A clone of why no envelope is made is the same, and `==` holds exactly where both are the same.
pub fn clone_and_equality_of_seal_errors(a: &SealError, b: &SealError) -> (SealError, bool)
    ensures clone { result.0 ≡ a.now }
    ensures equal { IsTrue result.1 ↔ (a.now ≡ b.now) }
{
    (a.clone().unwrap(), a == b)
}

/// Likewise for why an envelope isn't accepted.
pub fn clone_and_equality_of_open_errors(a: &OpenError, b: &OpenError) -> (OpenError, bool)
    ensures clone { result.0 ≡ a.now }
    ensures equal { IsTrue result.1 ↔ (a.now ≡ b.now) }
{
    (a.clone().unwrap(), a == b)
}
