//! What holds of refusals, as contracts.

ghost use Rattle.std.specs.Prelude.{◌≡◌, ◌↔◌, IsTrue};

use crate::stream::Failed;

/// A clone of a refusal is that refusal, and all are equal.
pub fn clone_and_equality_of_failures(a: &Failed, b: &Failed) -> (Failed, bool)
    ensures clone { result.0 ≡ a.now }
    ensures equal { IsTrue result.1 ↔ (a.now ≡ b.now) }
{
    (a.clone().unwrap(), a == b)
}
