//! Why a call was refused.

use std::alloc::AllocError;

/// Why no checkpoint was made, the first of the causes in this order.
#[derive(Clone, Copy, Debug, PartialEq, Eq)]
pub enum CheckpointError {
    /// The origin has no bytes or more than 255, or a space, a plus sign or a control character.
    Origin,
    /// An `opt_rand` was given that doesn't have n bytes.
    Randomizer,
    /// There was no memory.
    Memory,
}

impl From<AllocError> for CheckpointError {
    ghost use Rattle.std.specs.Prelude.{◌≡◌};
    ghost use Rattle.slh_log.specs.declared.error.CheckpointError.TheVariants.{Memory};

    ghost from_gives = { λ _ e. e ≡ Memory };

    fn from(_error: AllocError) -> Self {
        CheckpointError::Memory
    }
}

/// Why a checkpoint wasn't opened, the first of the causes in this order.
#[derive(Clone, Copy, Debug, PartialEq, Eq)]
pub enum OpenError {
    /// The bytes aren't a text whose second line is a size and whose third is a root, an empty
    /// line, and lines of signatures.
    Form,
    /// The first line isn't the origin that was asked for, or that one has no right form.
    Origin,
    /// No line is one of a signature by this key.
    Unsigned,
    /// The first signature by this key isn't one of the text.
    Invalid,
}

/// Why an entry wasn't shown to be in a log, the first of the causes in this order.
#[derive(Clone, Copy, Debug, PartialEq, Eq)]
pub enum PresenceError {
    /// The log has no entry with this index.
    Index,
    /// The entry has more than 2^60 bytes.
    Entry,
    /// The path is too long or too short for this place.
    Length,
    /// The path leads to another root.
    Invalid,
}

/// Why a log wasn't shown to have grown, the first of the causes in this order.
#[derive(Clone, Copy, Debug, PartialEq, Eq)]
pub enum GrowthError {
    /// The old log has no entries. Every log grew from it, and there is no proof to check.
    Empty,
    /// The new log has fewer entries than the old.
    Smaller,
    /// The proof is too long or too short for these sizes.
    Length,
    /// The proof leads to another root.
    Invalid,
}
