//! Why a call was refused.

use std::alloc::AllocError;

/// Why a call was refused. Each call names those that it may answer; where several causes stand
/// together, it answers the first in this order.
#[derive(Clone, Copy, Debug, PartialEq, Eq)]
pub enum Error {
    /// A seed doesn't have n bytes, a signing key 4n, a verifying key 2n, or a signature its own
    /// number.
    Length,
    /// The context has more than 255 bytes.
    ContextTooLong,
    /// An `opt_rand` was given that doesn't have n bytes.
    RandomizerLength,
    /// The message has more than 2^60 bytes.
    MessageTooLong,
    /// The root that the signature leads to isn't the key's root.
    Invalid,
    /// There was no memory.
    Memory,
}

impl From<AllocError> for Error {
    ghost use Rattle.std.specs.Prelude.{◌≡◌};
    ghost use Rattle.slh_dsa.specs.declared.error.Error.TheVariants.{Memory};

    ghost from_gives = { λ _ e. e ≡ Memory };

    fn from(_error: AllocError) -> Self {
        Error::Memory
    }
}
