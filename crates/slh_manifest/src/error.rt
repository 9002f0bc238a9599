//! Why a call was refused.

use std::alloc::AllocError;

/// Why nothing was added, or no manifest made. Each call names those that it may answer, in their
/// order.
#[derive(Clone, Copy, Debug, PartialEq, Eq)]
pub enum BuildError {
    /// The name has no bytes or more than 255, or it isn't above the last one.
    Name,
    /// There are 4096 entries.
    Full,
    /// A read of the store failed.
    Fault,
    /// The store has no such name.
    Missing,
    /// There are more than 2^32 bytes under the name.
    TooLarge,
    /// There are no entries.
    Empty,
    /// An `opt_rand` was given that doesn't have n bytes.
    Randomizer,
    /// There was no memory.
    Memory,
}

impl From<AllocError> for BuildError {
    ghost use Rattle.std.specs.Prelude.{◌≡◌};
    ghost use Rattle.slh_manifest.specs.declared.error.BuildError.TheVariants.{Memory};

    ghost from_gives = { λ _ e. e ≡ Memory };

    fn from(_error: AllocError) -> Self {
        BuildError::Memory
    }
}

/// Why a manifest isn't accepted over a store. Entries are numbered from 0.
#[derive(Clone, Copy, Debug, PartialEq, Eq)]
pub enum CheckError {
    /// The bytes don't have the form of a manifest.
    Form,
    /// The signature isn't one of the body.
    Invalid,
    /// The store has no such name as this entry's.
    Missing(u32),
    /// The bytes under this entry's name aren't as many, or don't have that digest.
    Differs(u32),
    /// A read of the store failed.
    Fault,
}

/// Why an entry isn't right over a store.
#[derive(Clone, Copy, Debug, PartialEq, Eq)]
pub enum EntryError {
    /// The store has no such name.
    Missing,
    /// The bytes under the name aren't as many, or don't have that digest.
    Differs,
    /// A read of the store failed.
    Fault,
}
