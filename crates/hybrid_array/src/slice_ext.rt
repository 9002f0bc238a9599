//! Views of slices, by functions that name neither array nor view.

ghost use Rattle.std.specs.Prelude.{◌≡◌, ◌↔◌, ◌<◌, length, take, drop, IsSome, IfSome};
ghost use Rattle.std.specs.Borrow.{sem, name_if_some};
ghost use Rattle.hybrid_array.specs.Chunks.{whole_count};
ghost use Rattle.hybrid_array.specs.Lending.{LendsAllIf, LendsParts};

use crate::{Array, ArrayMut, ArrayRef, ArraySize, Chunks, ChunksMut};

/// What `Array` says of slices, as functions that take the slice.
pub struct SliceExt;

impl SliceExt {
    /// A view of all of `slice`, as `Array::slice_as_array`.
    #[inline]
    pub fn as_hybrid_array<T, U: ArraySize>(slice: &[T]) -> Option<ArrayRef<'_, T, U>>
        ensures some { IsSome result ↔ (length slice.now ≡ U.USIZE) }
        ensures value { IfSome result (λ view. view ≡ slice.now) }
    {
        Array::<T, U>::slice_as_array(slice)
    }

    /// A view of all of `slice` for writing, as `Array::slice_as_mut_array`.
    ///
    /// A caller that has to know what the slice holds after a write makes its view of what
    /// `whole_mut` lends.
    #[inline]
    pub fn as_mut_hybrid_array<T, U: ArraySize>(slice: &mut [T]) -> Option<ArrayMut<'_, T, U>>
        ensures* writes_back { sem 𝓛 (LendsAllIf T.row slice.entry
            (name_if_some (λ view. view.items.ghost_name) result)) }
        ensures some { IsSome result ↔ (length slice.old ≡ U.USIZE) }
        ensures same_reference { IfSome result (λ view.
            view.items.ghost_name ≡ slice.entry.ghost_name) }
        ensures value { IfSome result (λ view. view.items.now ≡ slice.old) }
    {
        Array::<T, U>::slice_as_mut_array(slice)
    }

    /// The chunks of a slice and the items that are left, as `Array::slice_as_chunks`.
    #[inline]
    pub fn as_hybrid_chunks<T, U: ArraySize>(slice: &[T]) -> (Chunks<'_, T, U>, &[T])
        requires { 0 < U.USIZE }
        ensures chunks { result.0 ≡ take (whole_count U.USIZE (length slice.now)) slice.now }
        ensures rest { result.1.now ≡ drop (whole_count U.USIZE (length slice.now)) slice.now }
        ensures short { length result.1.now < U.USIZE }
    {
        Array::<T, U>::slice_as_chunks(slice)
    }

    /// The chunks of a slice and the items that are left, for writing, as
    /// `Array::slice_as_chunks_mut`.
    ///
    /// A caller that has to know what the slice holds after a write makes its view of what
    /// `chunks_and_rest_mut` lends.
    #[inline]
    pub fn as_hybrid_chunks_mut<T, U: ArraySize>(slice: &mut [T]) -> (ChunksMut<'_, T, U>, &mut [T])
        requires { 0 < U.USIZE }
        ensures* writes_back { sem 𝓛 (LendsParts T.row slice.entry
            result.0.items.ghost_name result.1.ghost_name) }
        ensures chunks { result.0.items.now
            ≡ take (whole_count U.USIZE (length slice.old)) slice.old }
        ensures rest { result.1.now ≡ drop (whole_count U.USIZE (length slice.old)) slice.old }
        ensures short { length result.1.now < U.USIZE }
    {
        Array::<T, U>::slice_as_chunks_mut(slice)
    }
}
