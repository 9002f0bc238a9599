//! A borrowed slice whose length a type gives, for writing.

ghost use Rattle.std.specs.Prelude.{◌≡◌, ◌↔◌, ◌+◌, ◌<◌, [], ◌∷◌, length, take, drop, IsOk, IfOk, IsSome, IfSome, slice_set, slice_index_or};
ghost use Rattle.std.specs.Borrow.{sem, follows, name_if_ok, name_if_some, Array as Slots};
ghost use Rattle.hybrid_array.specs.Lending.{LendsAllIf};
ghost use Rattle.std.specs.Fn.{FnOnceReturnsAtMut};
ghost use Rattle.std.specs.Result.{result_ok};
ghost use Rattle.std.specs.Mem.{FitsInMemory};

use crate::lending::halves_mut;
use crate::sizes::U1;
use crate::{Array, ArraySize, Size, TryFromSliceError};
use std::marker::{Model, PhantomData};

// The length that a type gives.
#[derive(Drop)]
struct Length<U: ArraySize> {
    size: PhantomData<U>,
}

impl<U: ArraySize> Model for Length<U> {
    ghost use Rattle.std.specs.Prelude.{ℕ};

    ghost Value = { ℕ };

    ghost view = { λ _. U.USIZE };
}

/// A borrowed slice of exactly `U::USIZE` items, for writing.
///
/// What is written through the view lands in the slice. The view has its reference in the field
/// `items`, by which contracts follow it. A caller that has to know what the slice holds
/// afterwards makes the view by `of`, or moves this field out and writes through it.
#[derive(Drop)]
pub struct ArrayMut<'a, T, U: ArraySize> {
    pub items: &'a mut [T],
    size: Length<U>,
    ghost sized: { length items.now ≡ U.USIZE },
}

impl<'a, T, U: ArraySize> ArrayMut<'a, T, U> {
    ghost use Rattle.hybrid_array.specs.Viewed.{LendsView};

    /// The view of a slice of this length.
    ///
    /// Its caller knows what the slice holds once the view is gone.
    #[inline]
    pub fn of(slice: &'a mut [T]) -> Self
        requires { length slice.old ≡ U.USIZE }
        ensures same_reference { result.items.ghost_name ≡ slice.entry.ghost_name }
        ensures value { result.items.now ≡ slice.old }
    {
        ArrayMut {
            items: slice,
            size: Length { size: PhantomData },
        }
    }

    /// A view of all of `slice`.
    ///
    /// A caller that has to know what the slice holds after a write makes its view of what
    /// `whole_mut` lends.
    #[inline]
    pub fn try_from(slice: &'a mut [T]) -> Result<Self, TryFromSliceError>
        ensures* writes_back { sem 𝓛 (LendsAllIf T.row slice.entry
            (name_if_ok (λ view. view.items.ghost_name) result)) }
        ensures ok { IsOk result ↔ (length slice.old ≡ U.USIZE) }
        ensures same_reference { IfOk result (λ view.
            view.items.ghost_name ≡ slice.entry.ghost_name) }
        ensures value { IfOk result (λ view. view.items.now ≡ slice.old) }
    {
        if slice.len() != U::USIZE {
            return Err(TryFromSliceError);
        }
        Ok(ArrayMut::of(slice))
    }

    /// The items.
    #[inline]
    pub fn as_slice(&self) -> &[T]
        ensures value { result.now ≡ self.now.items.now }
        ensures len { length result.now ≡ U.USIZE }
    {
        self.items
    }

    /// The items, for writing.
    #[inline]
    pub fn as_mut_slice(&mut self) -> &mut [T]
        ensures* writes_back { sem 𝓛 (LendsView T.row U.row U.ArraySize self.entry
            result.ghost_name) }
        ensures value { result.now ≡ self.old.items.now }
        ensures len { length result.now ≡ U.USIZE }
    {
        &mut *self.items
    }

    /// Has a closure write the items.
    #[inline]
    pub fn with_mut_slice<F: FnOnce(&mut [T])>(&mut self, f: F)
        requires { F.IsAlwaysCallable f }
        ensures same_reference { self.new.items.ghost_name ≡ self.old.items.ghost_name }
        ensures value { FnOnceReturnsAtMut F.FnOnce f self.old.items.now tt self.new.items.now }
    {
        f(self.items);
    }

    /// The items for writing, for as long as the slice that was viewed.
    ///
    /// A caller that has to know what the slice holds after a write moves the field `items` out.
    #[inline]
    pub fn into_mut_slice(self) -> &'a mut [T]
        ensures same_reference { result.ghost_name ≡ self.entry.items.ghost_name }
        ensures value { result.now ≡ self.entry.items.now }
        ensures len { length result.now ≡ U.USIZE }
    {
        self.items
    }

    /// Writes item `i`, counted from 0.
    #[inline]
    pub fn set(&mut self, i: usize, value: T)
    where
        T: Drop,
        requires { i < U.USIZE }
        ensures same_reference { self.new.items.ghost_name ≡ self.old.items.ghost_name }
        ensures value { self.new.items.now ≡ slice_set self.old.items.now i value }
    {
        self.items[i] = value;
    }

    /// Writes all items.
    #[inline]
    pub fn copy_from_slice(&mut self, src: &[T])
    where
        T: Copy,
        requires { length src.now ≡ U.USIZE }
        ensures same_reference { self.new.items.ghost_name ≡ self.old.items.ghost_name }
        ensures value { self.new.items.now ≡ src.now }
    {
        self.items.copy_from_slice(src);
    }
}

// The view, if there is one.
#[inline]
fn view_if_ok<'a, T, U: ArraySize>(
    view: Result<ArrayMut<'a, T, U>, TryFromSliceError>,
) -> Option<ArrayMut<'a, T, U>>
    ensures { result ≡ result_ok view.entry }
{
    view.ok()
}

// Views of the two parts.
#[inline]
fn views_of_parts<'a, T, N: ArraySize, R: ArraySize>(
    parts: (&'a mut [T], &'a mut [T]),
) -> (ArrayMut<'a, T, N>, ArrayMut<'a, T, R>)
    requires first_len { length parts.0.now ≡ N.USIZE }
    requires rest_len { length parts.1.now ≡ R.USIZE }
    ensures first_reference { result.0.items.ghost_name ≡ parts.entry.0.ghost_name }
    ensures first { result.0.items.now ≡ parts.entry.0.now }
    ensures rest_reference { result.1.items.ghost_name ≡ parts.entry.1.ghost_name }
    ensures rest { result.1.items.now ≡ parts.entry.1.now }
{
    (ArrayMut::of(parts.0), ArrayMut::of(parts.1))
}

impl<T, U: ArraySize> Array<T, U> {
    ghost use Rattle.hybrid_array.specs.Lending.{LendsTo, LendsHalves};

    /// A view of all items, for writing.
    ///
    /// A caller that has to know what the array holds after a write moves the view's field `items`
    /// out, and writes through it or makes a view of it by `ArrayMut::of`.
    #[inline]
    pub fn as_array_mut(&mut self) -> ArrayMut<'_, T, U>
        ensures* writes_back { sem 𝓛 (LendsTo T.row U.row U.ArraySize self.entry
            result.items.ghost_name) }
        ensures value { result.items.now ≡ self.old }
    {
        ArrayMut::of(self.as_mut_slice())
    }

    /// Views of the first `N::USIZE` items and of the rest, for writing.
    ///
    /// A caller that has to know what the array holds after a write makes its views of what
    /// `halves_mut` lends, at `as_mut_slice`.
    #[inline]
    pub fn split_ref_mut<N: ArraySize, R: ArraySize>(
        &mut self,
    ) -> (ArrayMut<'_, T, N>, ArrayMut<'_, T, R>)
        requires { N.USIZE + R.USIZE ≡ U.USIZE }
        ensures* writes_back { sem 𝓛 (LendsHalves T.row U.row U.ArraySize self.entry
            result.0.items.ghost_name result.1.items.ghost_name) }
        ensures first { result.0.items.now ≡ take N.USIZE self.old }
        ensures rest { result.1.items.now ≡ drop N.USIZE self.old }
    {
        views_of_parts(halves_mut::<T, N, R>(self.as_mut_slice()))
    }

    /// A view of all of `slice`, for writing.
    ///
    /// A caller that has to know what the slice holds after a write makes its view of what
    /// `whole_mut` lends.
    #[inline]
    pub fn slice_as_mut_array(slice: &mut [T]) -> Option<ArrayMut<'_, T, U>>
        ensures* writes_back { sem 𝓛 (LendsAllIf T.row slice.entry
            (name_if_some (λ view. view.items.ghost_name) result)) }
        ensures some { IsSome result ↔ (length slice.old ≡ U.USIZE) }
        ensures same_reference { IfSome result (λ view.
            view.items.ghost_name ≡ slice.entry.ghost_name) }
        ensures value { IfSome result (λ view. view.items.now ≡ slice.old) }
    {
        view_if_ok(ArrayMut::try_from(slice))
    }
}

impl<T> Array<T, U1> {
    /// A view of one item, for writing.
    ///
    /// A caller that has to know the item after a write goes on as after `as_array_mut`.
    #[inline]
    pub fn from_mut(r: &mut T) -> ArrayMut<'_, T, U1>
        requires { FitsInMemory T.row }
        ensures* writes_back { sem 𝓛 (follows T.row (Slots T.row 0) r.entry.ghost_name
            result.items.ghost_name (λ items. slice_index_or items 0 r.old)) }
        ensures value { result.items.now ≡ r.old ∷ [] }
    {
        ArrayMut::of(std::slice::from_mut(r))
    }
}

impl<T, const N: usize> Array<T, Size<N>> {
    /// A view of all items of the language's own array, for writing.
    ///
    /// A caller that has to know what the array holds after a write goes on as after
    /// `as_array_mut`.
    #[inline]
    pub fn cast_from_core_mut(array: &mut [T; N]) -> ArrayMut<'_, T, Size<N>>
        ensures* writes_back { sem 𝓛 (follows (Slots T.row 0) (Slots T.row 0)
            array.entry.ghost_name result.items.ghost_name (λ items. items)) }
        ensures value { result.items.now ≡ array.old }
    {
        ArrayMut::of(&mut array[..])
    }
}
