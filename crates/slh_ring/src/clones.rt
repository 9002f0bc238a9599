//! Clones and equality of values, as the contracts of functions that do nothing else.
ghost use Rattle.std.specs.Prelude.{◌≡◌, ◌↔◌, IsTrue, IfOk};

use crate::error::{RestoreError, RingError};
use crate::path::Path;
use crate::ring::Ring;
use slh_dsa::SetSizes;
use std::alloc::AllocError;

/// A clone of why a path wasn't added is the same, and `==` holds exactly where both are the same.
pub fn clone_and_equality_of_ring_errors(a: &RingError, b: &RingError) -> (RingError, bool)
    ensures clone { result.0 ≡ a.now }
    ensures equal { IsTrue result.1 ↔ (a.now ≡ b.now) }
{
    (a.clone().unwrap(), a == b)
}

/// Likewise for why a record gave no ring.
pub fn clone_and_equality_of_restore_errors(
    a: &RestoreError,
    b: &RestoreError,
) -> (RestoreError, bool)
    ensures clone { result.0 ≡ a.now }
    ensures equal { IsTrue result.1 ↔ (a.now ≡ b.now) }
{
    (a.clone().unwrap(), a == b)
}

/// Likewise for paths.
pub fn clone_and_equality_of_paths(a: &Path, b: &Path) -> (Path, bool)
    ensures clone { result.0 ≡ a.now }
    ensures equal { IsTrue result.1 ↔ (a.now ≡ b.now) }
{
    (a.clone().unwrap(), a == b)
}

/// Likewise for rings, whose clones take memory.
pub fn clone_and_equality_of_rings<P: SetSizes>(
    a: &Ring<P>,
    b: &Ring<P>,
) -> (Result<Ring<P>, AllocError>, bool)
    ensures clone { IfOk result.0 (λ ring. ring ≡ a.now) }
    ensures equal { IsTrue result.1 ↔ (a.now ≡ b.now) }
{
    (a.clone(), a == b)
}
