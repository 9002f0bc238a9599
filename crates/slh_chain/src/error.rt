//! Why a call was refused.

use slh_dsa::Error;
use std::alloc::AllocError;

/// Why no link was made, the first of the causes in this order.
#[derive(Clone, Copy, Debug, PartialEq, Eq)]
pub enum LinkError {
    /// The name has no bytes, or more than 64.
    Name,
    /// The depth is over 15.
    Depth,
    /// An `opt_rand` was given that doesn't have n bytes.
    Randomizer,
    /// There was no memory.
    Memory,
}

impl From<AllocError> for LinkError {
    ghost use Rattle.std.specs.Prelude.{◌≡◌};
    ghost use Rattle.slh_chain.specs.declared.error.LinkError.TheVariants.{Memory};

    ghost from_gives = { λ _ e. e ≡ Memory };

    fn from(_error: AllocError) -> Self {
        LinkError::Memory
    }
}

/// Why a chain leads nowhere: the number, from 0, of the first link that isn't good, and the first
/// of its conditions that fails, in this order.
#[derive(Clone, Copy, Debug, PartialEq, Eq)]
pub enum ChainError {
    /// The bytes from here on begin with no link: its depth is over 15, its name has no bytes or
    /// more than 64, or there are too few bytes.
    Form(u32),
    /// The depth isn't below that of the link before, or, in the first link, below 16.
    Budget(u32),
    /// The signature isn't one of the body under the key that the link before names, or, in the
    /// first link, under the root key.
    Invalid(u32),
}

/// Why a chain isn't made longer, the first of the causes in this order.
#[derive(Clone, Copy, Debug, PartialEq, Eq)]
pub enum ExtendError {
    /// The key isn't the one at the end of the chain.
    Key,
    /// The depth isn't below the budget at the end.
    Budget,
    /// The name has no bytes, or more than 64.
    Name,
    /// An `opt_rand` was given that doesn't have n bytes.
    Randomizer,
    /// There was no memory.
    Memory,
}

impl From<AllocError> for ExtendError {
    ghost use Rattle.std.specs.Prelude.{◌≡◌};
    ghost use Rattle.slh_chain.specs.declared.error.ExtendError.TheVariants.{Memory};

    ghost from_gives = { λ _ e. e ≡ Memory };

    fn from(_error: AllocError) -> Self {
        ExtendError::Memory
    }
}

/// Why a message isn't accepted under a root key and a chain.
#[derive(Clone, Copy, Debug, PartialEq, Eq)]
pub enum UnderError {
    /// The chain leads nowhere.
    Chain(ChainError),
    /// The signature isn't one of the key at the chain's end: `Length`, `ContextTooLong`,
    /// `MessageTooLong` or `Invalid`.
    Signature(Error),
}
