//! What keeps an array from being made.

use crate::TryFromSliceError;
use std::alloc::AllocError;

/// What keeps an array of a slice's items from being made.
#[derive(Clone, Copy, Debug, PartialEq, Eq)]
pub enum SliceError {
    /// The slice has another length.
    Length(TryFromSliceError),
    /// Memory is wanting.
    Memory(AllocError),
}

/// What keeps an array of a closure's answers from being made.
#[derive(Clone, Debug, PartialEq, Eq, Drop)]
pub enum MakeError<E> {
    /// The closure's own error.
    Caller(E),
    /// Memory is wanting.
    Memory(AllocError),
}
