//! Clones and equality of values, as the contracts of functions that do nothing else.
ghost use Rattle.std.specs.Prelude.{◌≡◌, ◌↔◌, IsTrue};

use crate::error::{CheckpointError, GrowthError, OpenError, PresenceError};
use crate::note::Checkpoint;

/// A clone of why no checkpoint was made is the same, and `==` holds exactly where both are the
/// same.
pub fn clone_and_equality_of_checkpoint_errors(
    a: &CheckpointError,
    b: &CheckpointError,
) -> (CheckpointError, bool)
    ensures clone { result.0 ≡ a.now }
    ensures equal { IsTrue result.1 ↔ (a.now ≡ b.now) }
{
    (a.clone().unwrap(), a == b)
}

/// Likewise for why a checkpoint wasn't opened.
pub fn clone_and_equality_of_open_errors(a: &OpenError, b: &OpenError) -> (OpenError, bool)
    ensures clone { result.0 ≡ a.now }
    ensures equal { IsTrue result.1 ↔ (a.now ≡ b.now) }
{
    (a.clone().unwrap(), a == b)
}

/// Likewise for why an entry wasn't shown to be in a log.
pub fn clone_and_equality_of_presence_errors(
    a: &PresenceError,
    b: &PresenceError,
) -> (PresenceError, bool)
    ensures clone { result.0 ≡ a.now }
    ensures equal { IsTrue result.1 ↔ (a.now ≡ b.now) }
{
    (a.clone().unwrap(), a == b)
}

/// Likewise for why a log wasn't shown to have grown.
pub fn clone_and_equality_of_growth_errors(a: &GrowthError, b: &GrowthError) -> (GrowthError, bool)
    ensures clone { result.0 ≡ a.now }
    ensures equal { IsTrue result.1 ↔ (a.now ≡ b.now) }
{
    (a.clone().unwrap(), a == b)
}

/// Likewise for what a checkpoint says.
pub fn clone_and_equality_of_checkpoints(a: &Checkpoint, b: &Checkpoint) -> (Checkpoint, bool)
    ensures clone { result.0 ≡ a.now }
    ensures equal { IsTrue result.1 ↔ (a.now ≡ b.now) }
{
    (a.clone().unwrap(), a == b)
}
