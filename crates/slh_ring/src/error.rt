//! Why a call was refused.

use std::alloc::AllocError;

/// Why a path wasn't added, the first of the causes in this order.
#[derive(Clone, Copy, Debug, PartialEq, Eq)]
pub enum RingError {
    /// The path is there already.
    Present,
    /// The ring holds 64 paths.
    Full,
    /// There was no memory.
    Memory,
}

impl From<AllocError> for RingError {
    ghost use Rattle.std.specs.Prelude.{◌≡◌};
    ghost use Rattle.slh_ring.specs.declared.error.RingError.TheVariants.{Memory};

    ghost from_gives = { λ _ e. e ≡ Memory };

    fn from(_error: AllocError) -> Self {
        RingError::Memory
    }
}

/// Why a record gave no ring, the first of the causes in this order.
#[derive(Clone, Copy, Debug, PartialEq, Eq)]
pub enum RestoreError {
    /// The bytes aren't the record of any paths of this parameter set, whatever their keys are.
    Form,
    /// The first path whose key under this master isn't the one that was recorded has this number,
    /// from 0.
    Mismatch(u32),
    /// There was no memory.
    Memory,
}

impl From<AllocError> for RestoreError {
    ghost use Rattle.std.specs.Prelude.{◌≡◌};
    ghost use Rattle.slh_ring.specs.declared.error.RestoreError.TheVariants.{Memory};

    ghost from_gives = { λ _ e. e ≡ Memory };

    fn from(_error: AllocError) -> Self {
        RestoreError::Memory
    }
}
