//! Clones and equality of values, as the contracts of functions that do nothing else.
ghost use Rattle.std.specs.Prelude.{◌≡◌, ◌-◌};
ghost use Rattle.std.specs.Prelude.{IsTrue, ◌↔◌};

use crate::checking::Place;
use crate::error::{BatchError, HeadError, ReceiptError};

/// A clone of why a call was refused is the same, and `==` holds exactly where both are the same.
pub fn clone_and_equality_of_errors(a: &BatchError, b: &BatchError) -> (BatchError, bool)
    ensures clone { result.0 ≡ a.now }
    ensures equal { IsTrue result.1 ↔ (a.now ≡ b.now) }
{
    (a.clone().unwrap(), a == b)
}

/// Likewise for why a receipt wasn't accepted.
pub fn clone_and_equality_of_receipt_errors(
    a: &ReceiptError,
    b: &ReceiptError,
) -> (ReceiptError, bool)
    ensures clone { result.0 ≡ a.now }
    ensures equal { IsTrue result.1 ↔ (a.now ≡ b.now) }
{
    (a.clone().unwrap(), a == b)
}

/// Likewise for why a head wasn't opened.
pub fn clone_and_equality_of_head_errors(a: &HeadError, b: &HeadError) -> (HeadError, bool)
    ensures clone { result.0 ≡ a.now }
    ensures equal { IsTrue result.1 ↔ (a.now ≡ b.now) }
{
    (a.clone().unwrap(), a == b)
}

/// Likewise for places.
pub fn clone_and_equality_of_places(a: &Place, b: &Place) -> (Place, bool)
    ensures clone { result.0 ≡ a.now }
    ensures equal { IsTrue result.1 ↔ (a.now ≡ b.now) }
{
    (a.clone().unwrap(), a == b)
}
