//! The parts of a slice that a writable view is made of, as plain references.
//!
//! A caller of `ArrayMut::try_from` and its kin knows what the views hold, but not what the slice
//! holds once it wrote through them. One that has to know takes the parts from here, names both,
//! and makes its views by `ArrayMut::of` or `ChunksMut::of`.

ghost use Rattle.std.specs.Prelude.{◌≡◌, ◌↔◌, ◌+◌, ◌≤◌, ◌<◌, ◌++◌, [], List, length, take, drop, IsSome, IfSome, IsOk, OnOk, OnErr};
ghost use Rattle.std.specs.Fn.{FnOnceReturnsAtMut};
ghost use Rattle.std.specs.Borrow.{sem, LendsBoth, LendsBothIf, Array as Slots};
ghost use Rattle.hybrid_array.specs.Chunks.{whole_count};

use crate::{ArraySize, TryFromSliceError};

/// All items of a slice, and an empty rest, if its length is the size.
///
/// The partner of `ArrayMut::try_from` and `Array::slice_as_mut_array`, as
/// `whole_mut(slice).ok_or(TryFromSliceError)?`.
#[inline]
pub fn whole_mut<T, U: ArraySize>(slice: &mut [T]) -> Option<(&mut [T], &mut [T])>
    ensures* writes_back { sem 𝓛 (LendsBothIf (Slots T.row 0) (Slots T.row 0) (Slots T.row 0)
        slice.entry result ◌++◌ slice.old) }
    ensures some { IsSome result ↔ (length slice.old ≡ U.USIZE) }
    ensures items { IfSome result (λ parts. parts.0.now ≡ slice.old) }
    ensures rest { IfSome result (λ parts. parts.1.now ≡ []) }
{
    if slice.len() == U::USIZE {
        return Some(slice.split_at_mut(U::USIZE));
    }
    None
}

/// The first `N::USIZE` items and the rest, if there are as many.
#[inline]
pub fn first_and_rest_mut<T, N: ArraySize>(slice: &mut [T]) -> Option<(&mut [T], &mut [T])>
    ensures* writes_back { sem 𝓛 (LendsBothIf (Slots T.row 0) (Slots T.row 0) (Slots T.row 0)
        slice.entry result ◌++◌ slice.old) }
    ensures some { IsSome result ↔ (N.USIZE ≤ length slice.old) }
    ensures first { IfSome result (λ parts. parts.0.now ≡ take N.USIZE slice.old) }
    ensures rest { IfSome result (λ parts. parts.1.now ≡ drop N.USIZE slice.old) }
{
    let size = N::USIZE;
    if size <= slice.len() {
        return Some(slice.split_at_mut(size));
    }
    None
}

/// The first `N::USIZE` items of a slice, and the other `R::USIZE`.
///
/// The partner of `Array::split_ref_mut`, at `as_mut_slice`.
#[inline]
pub fn halves_mut<T, N: ArraySize, R: ArraySize>(slice: &mut [T]) -> (&mut [T], &mut [T])
    requires { N.USIZE + R.USIZE ≡ length slice.old }
    ensures* writes_back { sem 𝓛 (LendsBoth (Slots T.row 0) (Slots T.row 0) (Slots T.row 0)
        slice.entry result ◌++◌) }
    ensures first { result.0.now ≡ take N.USIZE slice.old }
    ensures first_len { length result.0.now ≡ N.USIZE }
    ensures rest { result.1.now ≡ drop N.USIZE slice.old }
    ensures rest_len { length result.1.now ≡ R.USIZE }
{
    slice.split_at_mut(N::USIZE)
}

/// The items of a slice's whole chunks, and the items that are left, fewer than a chunk.
///
/// The partner of `Array::slice_as_chunks_mut`.
#[inline]
pub fn chunks_and_rest_mut<T, U: ArraySize>(slice: &mut [T]) -> (&mut [T], &mut [T])
    requires { 0 < U.USIZE }
    ensures* writes_back { sem 𝓛 (LendsBoth (Slots T.row 0) (Slots T.row 0) (Slots T.row 0)
        slice.entry result ◌++◌) }
    ensures chunks { result.0.now ≡ take (whole_count U.USIZE (length slice.old)) slice.old }
    ensures rest { result.1.now ≡ drop (whole_count U.USIZE (length slice.old)) slice.old }
    ensures short { length result.1.now < U.USIZE }
{
    let count = slice.len() / U::USIZE * U::USIZE;
    slice.split_at_mut(count)
}

/// Has a closure write all items of a slice, if its length is the size. Else the closure isn't
/// called.
///
/// A partner of `ArrayMut::try_from` and `Array::slice_as_mut_array`.
#[inline]
pub fn with_whole_mut<T, U: ArraySize, F: FnOnce(&mut [T])>(
    slice: &mut [T],
    f: F,
) -> Result<(), TryFromSliceError>
where
    F: Drop,
    requires { F.IsAlwaysCallable f }
    ensures which { IsOk result ↔ (length slice.old ≡ U.USIZE) }
    ensures ok { OnOk result (FnOnceReturnsAtMut F.FnOnce f slice.old tt slice.new) }
    ensures err { OnErr result (slice.new ≡ slice.old) }
{
    if slice.len() != U::USIZE {
        return Err(TryFromSliceError);
    }
    f(slice);
    Ok(())
}

// Has a closure write the items.
#[inline]
fn write_by<T, F: FnOnce(&mut [T])>(items: &mut [T], f: F)
    requires { F.IsAlwaysCallable f }
    ensures { FnOnceReturnsAtMut F.FnOnce f items.old tt items.new }
{
    f(items);
}

/// Has a closure write the `U::USIZE` items from `at` on.
///
/// A partner of `ChunksMut::get_mut`, at `i * U::USIZE` of the chunks' field `items`.
#[inline]
pub fn with_part_mut<T, U: ArraySize, F: FnOnce(&mut [T])>(slice: &mut [T], at: usize, f: F)
    requires below { at + U.USIZE ≤ length slice.old }
    requires callable { F.IsAlwaysCallable f }
    ensures { (items : List T)
        × FnOnceReturnsAtMut F.FnOnce f (take U.USIZE (drop at slice.old)) tt items
        × (slice.new ≡ take at slice.old ++ items ++ drop U.USIZE (drop at slice.old)) }
{
    let (before, tail) = slice.split_at_mut(at);
    let (items, after) = tail.split_at_mut(U::USIZE);
    write_by(items, f);
}
