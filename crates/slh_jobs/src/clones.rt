//! Clones and equality of values, as the contracts of functions that do nothing else.
ghost use Rattle.std.specs.Prelude.{◌≡◌, ◌↔◌, IsTrue};

use crate::job::Error;

/// A clone of a refusal is that refusal, and `==` holds exactly where both are the same.
pub fn clone_and_equality_of_errors(a: &Error, b: &Error) -> (Error, bool)
    ensures clone { result.0 ≡ a.now }
    ensures equal { IsTrue result.1 ↔ (a.now ≡ b.now) }
{
    (a.clone().unwrap(), a == b)
}
