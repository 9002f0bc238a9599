//! What tells what is wrong with a line apart, as contracts.
ghost use Rattle.std.specs.Prelude.{◌≡◌, ◌↔◌, IsTrue};

use crate::line_error::LineError;

/// A clone of an error of a line is that error, and `==` holds exactly where both are the same.
pub fn clone_and_equality_of_line_errors(a: &LineError, b: &LineError) -> (LineError, bool)
    ensures clone { result.0 ≡ a.now }
    ensures equal { IsTrue result.1 ↔ (a.now ≡ b.now) }
{
    (a.clone().unwrap(), a == b)
}
