//! Clones and equality of values, as the contracts of functions that do nothing else.
ghost use Rattle.std.specs.Prelude.{◌↔◌, IsTrue};
ghost use Rattle.std.specs.Prelude.{◌≡◌};
ghost use Rattle.slh_manifest.specs.declared.error.CheckError.{CheckError};

use crate::error::{BuildError, CheckError, EntryError};

/// A clone of why nothing was added or made is the same, and `==` holds exactly where both are the
/// same.
pub fn clone_and_equality_of_build_errors(a: &BuildError, b: &BuildError) -> (BuildError, bool)
    ensures clone { result.0 ≡ a.now }
    ensures equal { IsTrue result.1 ↔ (a.now ≡ b.now) }
{
    (a.clone().unwrap(), a == b)
}

/// Likewise for why a manifest isn't accepted.
pub fn clone_and_equality_of_check_errors(a: &CheckError, b: &CheckError) -> (CheckError, bool)
    ensures clone { result.0 ≡ a.now }
    ensures equal { IsTrue result.1 ↔ (a.now ≡ b.now) }
{
    (a.clone().unwrap(), a == b)
}

/// Likewise for why an entry isn't right.
pub fn clone_and_equality_of_entry_errors(a: &EntryError, b: &EntryError) -> (EntryError, bool)
    ensures clone { result.0 ≡ a.now }
    ensures equal { IsTrue result.1 ↔ (a.now ≡ b.now) }
{
    (a.clone().unwrap(), a == b)
}
