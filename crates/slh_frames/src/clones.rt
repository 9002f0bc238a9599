//! Clones and equality of modes, as the contract of a function that does nothing else.
ghost use Rattle.std.specs.Prelude.{◌≡◌, ◌↔◌, IsTrue};

use crate::frame::Mode;

/// A clone of a mode is that mode, and `==` holds exactly where both are the same.
pub fn clone_and_equality_of_modes(a: &Mode, b: &Mode) -> (Mode, bool)
    ensures clone { result.0 ≡ a.now }
    ensures equal { IsTrue result.1 ↔ (a.now ≡ b.now) }
{
    (a.clone().unwrap(), a == b)
}
