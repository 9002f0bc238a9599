//! Why a call was refused.
use std::alloc::AllocError;

/// Why no envelope is made. Where several causes stand, the first in this order is answered, or
/// `Memory`.
#[derive(Clone, Copy, Debug, PartialEq, Eq)]
pub enum SealError {
    /// An `opt_rand` was given that doesn't have n bytes.
    Randomizer,
    /// What would be signed has more than 2^60 bytes.
    TooLong,
    /// There was no memory.
    Memory,
}

impl From<AllocError> for SealError {
    ghost use Rattle.std.specs.Prelude.{◌≡◌};
    ghost use Rattle.slh_envelope.specs.declared.error.SealError.TheVariants.{Memory};

    ghost from_gives = { λ _ e. e ≡ Memory };

    fn from(_: AllocError) -> Self {
        SealError::Memory
    }
}

/// Why an envelope isn't accepted: the first of these causes that stands, or `Memory`.
#[derive(Clone, Copy, Debug, PartialEq, Eq)]
pub enum OpenError {
    /// The text isn't an envelope.
    Form,
    /// Its payload is of another type.
    PayloadType,
    /// Each of its signatures has the id of another key.
    Unsigned,
    /// None of those with the key's id, or with none, is a signature of it.
    Invalid,
    /// There was no memory.
    Memory,
}

impl From<AllocError> for OpenError {
    ghost use Rattle.std.specs.Prelude.{◌≡◌};
    ghost use Rattle.slh_envelope.specs.declared.error.OpenError.TheVariants.{Memory};

    ghost from_gives = { λ _ e. e ≡ Memory };

    fn from(_: AllocError) -> Self {
        OpenError::Memory
    }
}
