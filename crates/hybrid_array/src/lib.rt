//! Arrays whose length a type gives, and borrowed views of slices.
//!
//! A port of the Rust crate `hybrid-array` 0.4.15.
//!
//! `Array<T, U>` holds as many items as the size `U` says, which is `Size<N>` or one of its names
//! in `sizes`. Contracts see an array as the list of its items. Views show slices, or parts of
//! them, as arrays: `ArrayRef` and `Chunks` for reading, `ArrayMut` and `ChunksMut` for writing.
//! A call that takes memory is handed `alloc`.
//!
//! ```
//! let mut frame = Array::<u8, U6>::default(alloc)?;
//! let (head, body) = halves_mut::<u8, U2, U4>(frame.as_mut_slice());
//! let mut head = ArrayMut::<u8, U2>::of(head);
//! head.copy_from_slice(&[1, 2]);
//! let mut body = ArrayMut::<u8, U4>::of(body);
//! body.set(3, 9);
//! let (pairs, rest) = Array::<u8, U2>::slice_as_chunks(frame.as_slice());
//! assert_eq!(pairs.len(), 3);
//! assert!(rest.is_empty());
//! let rows: Array<Array<u8, U2>, U3> = frame.unflatten(alloc)?;
//! assert_eq!(rows[0].as_slice(), [1, 2]);
//! assert_eq!(rows[2].as_slice(), [0, 9]);
//! ```
//!
//! The test `the_example_of_the_page` of `ground_tests` runs these lines.
//!
//! Through a view that a call answers in an `Option`, a `Result` or a pair, as
//! `ArrayMut::try_from` does, a caller writes into the slice. A clause of the call says what the
//! slice ends as, but a caller's own proof doesn't read it. Where its contract says what the slice
//! holds, it takes plain references from `whole_mut`, `halves_mut` and their kin, and makes its
//! views of them, as above.
#![tactic(auto)]

mod array;
mod chunks;
mod chunks_mut;
mod compare;
mod error;
mod flatten;
mod from_fn;
mod iter;
pub mod laws;
mod lending;
pub mod sizes;
mod slice_ext;
mod view;
mod view_mut;

ghost use Rattle.std.specs.Prelude.{ℕ};

pub use array::Array;
pub use chunks::Chunks;
pub use chunks_mut::ChunksMut;
pub use error::{MakeError, SliceError};
pub use flatten::{Flatten, Unflatten};
pub use iter::{IterError, TryFromIteratorError};
pub use lending::{
    chunks_and_rest_mut, first_and_rest_mut, halves_mut, whole_mut, with_part_mut, with_whole_mut,
};
pub use slice_ext::SliceExt;
pub use view::ArrayRef;
pub use view_mut::ArrayMut;

/// A length, in items, that a type stands for.
pub trait ArraySize {
    /// The length.
    const USIZE: usize;

    ghost USIZE: { ℕ };
}

/// The length `N`.
pub struct Size<const N: usize>;

impl<const N: usize> ArraySize for Size<N> {
    const USIZE: usize = N;

    ghost USIZE = { N };
}

/// A slice has another length than the size.
#[derive(Clone, Copy, Debug, PartialEq, Eq)]
pub struct TryFromSliceError;

/// An array of `N` items.
pub type ArrayN<T, const N: usize> = Array<T, Size<N>>;
