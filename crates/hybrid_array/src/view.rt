//! A borrowed slice whose length a type gives.

ghost use Rattle.std.specs.Prelude.{◌≡◌, ◌↔◌, ◌+◌, ◌<◌, [], ◌∷◌, length, take, drop, IsOk, IfOk, IsSome, IfSome, slice_get, slice_index_or};
ghost use Rattle.std.specs.Iterator.Runs.{EveryRun, ItemsMapTo};
ghost use Rattle.std.specs.Slice.Iter.{iter_rest, iter_steps};
ghost use Rattle.std.specs.Option.{option_copied};
ghost use Rattle.std.specs.Mem.{FitsInMemory};

use crate::sizes::U1;
use crate::{Array, ArraySize, Size, TryFromSliceError};
use std::alloc::{AllocError, Global};
use std::marker::{Model, PhantomData};
use std::ops::Index;
use std::slice::Iter;

/// A borrowed slice of exactly `U::USIZE` items. Contracts see it as their list.
#[derive(Drop)]
pub struct ArrayRef<'a, T, U: ArraySize> {
    items: &'a [T],
    size: PhantomData<U>,
}

impl<'a, T, U: ArraySize> Model for ArrayRef<'a, T, U> {
    ghost use Rattle.std.specs.Prelude.{◌≡◌, List, length};

    ghost Value = { List T };

    ghost view = { λ a. a.items.now };

    ghost invariant = { λ a. length a.items.now ≡ U.USIZE };
}

impl<'a, T, U: ArraySize> ArrayRef<'a, T, U> {
    // The view of a slice of this length.
    #[inline]
    pub(crate) fn of(slice: &'a [T]) -> Self
        requires { length slice.now ≡ U.USIZE }
        ensures { result ≡ slice.now }
    {
        ArrayRef {
            items: slice,
            size: PhantomData,
        }
    }

    /// A view of all of `slice`.
    #[inline]
    pub fn try_from(slice: &'a [T]) -> Result<Self, TryFromSliceError>
        ensures ok { IsOk result ↔ (length slice.now ≡ U.USIZE) }
        ensures value { IfOk result (λ view. view ≡ slice.now) }
    {
        if slice.len() != U::USIZE {
            return Err(TryFromSliceError);
        }
        Ok(ArrayRef::of(slice))
    }

    /// The items, for as long as the slice that was viewed.
    #[inline]
    pub fn as_slice(&self) -> &'a [T]
        ensures value { result.now ≡ self.now }
        ensures len { length result.now ≡ U.USIZE }
    {
        self.items
    }

    /// Item `i`, counted from 0.
    #[inline]
    pub fn get(&self, i: usize) -> Option<&'a T>
        ensures value { option_copied result ≡ slice_get self.now i }
        ensures some { IsSome result ↔ (i < U.USIZE) }
    {
        self.items.get(i)
    }

    /// The items in order, for as long as the slice that was viewed.
    #[inline]
    pub fn iter(&self) -> Iter<'a, T>
        ensures rest { iter_rest result ≡ self.now }
        ensures len { length (iter_rest result) ≡ U.USIZE }
        ensures runs { EveryRun (iter_steps {A = T}) (λ run.
            ItemsMapTo run (λ item. item.now) (iter_rest run.from)) }
    {
        self.as_slice().iter()
    }

    /// An array of the items' clones.
    pub fn to_array(&self, alloc: Global) -> Result<Array<T, U>, AllocError>
    where
        T: Clone + Drop,
        requires { (x y : T) → T.is_clone x y → y ≡ x }
        ensures { IfOk result (λ array. array ≡ self.now) }
    {
        Ok(Array::of(self.as_slice().to_vec(alloc)?))
    }

    /// Views of the first `N::USIZE` items and of the rest.
    #[inline]
    pub fn split_ref<N: ArraySize, R: ArraySize>(&self) -> (ArrayRef<'a, T, N>, ArrayRef<'a, T, R>)
        requires { N.USIZE + R.USIZE ≡ U.USIZE }
        ensures first { result.0 ≡ take N.USIZE self.now }
        ensures rest { result.1 ≡ drop N.USIZE self.now }
    {
        let (first, rest) = self.items.split_at(N::USIZE);
        (ArrayRef::of(first), ArrayRef::of(rest))
    }
}

impl<'a, T, U: ArraySize> Index<usize> for ArrayRef<'a, T, U> {
    type Output = T;

    ghost can_index = { λ a i. i < U.USIZE };

    ghost index_gives = { λ a i x. x ≡ slice_index_or a i x };

    #[inline]
    fn index(&self, i: usize) -> &T
        requires { i < U.USIZE }
        ensures value { result.now ≡ slice_index_or self.now i result.now }
    {
        let items = self.as_slice();
        &items[i]
    }
}

impl<T, U: ArraySize> Array<T, U> {
    /// A view of all items.
    #[inline]
    pub fn as_array_ref(&self) -> ArrayRef<'_, T, U>
        ensures { result ≡ self.now }
    {
        ArrayRef::of(self.as_slice())
    }

    /// Views of the first `N::USIZE` items and of the rest.
    #[inline]
    pub fn split_ref<N: ArraySize, R: ArraySize>(&self) -> (ArrayRef<'_, T, N>, ArrayRef<'_, T, R>)
        requires { N.USIZE + R.USIZE ≡ U.USIZE }
        ensures first { result.0 ≡ take N.USIZE self.now }
        ensures rest { result.1 ≡ drop N.USIZE self.now }
    {
        let (first, rest) = self.as_slice().split_at(N::USIZE);
        (ArrayRef::of(first), ArrayRef::of(rest))
    }

    /// A view of all of `slice`.
    #[inline]
    pub fn slice_as_array(slice: &[T]) -> Option<ArrayRef<'_, T, U>>
        ensures some { IsSome result ↔ (length slice.now ≡ U.USIZE) }
        ensures value { IfSome result (λ view. view ≡ slice.now) }
    {
        ArrayRef::try_from(slice).ok()
    }
}

impl<T> Array<T, U1> {
    /// A view of one item.
    #[inline]
    pub fn from_ref(r: &T) -> ArrayRef<'_, T, U1>
        requires { FitsInMemory T.row }
        ensures { result ≡ r.now ∷ [] }
    {
        ArrayRef::of(std::slice::from_ref(r))
    }
}

impl<T, const N: usize> Array<T, Size<N>> {
    /// A view of all items of the language's own array.
    #[inline]
    pub fn cast_from_core(array: &[T; N]) -> ArrayRef<'_, T, Size<N>>
        ensures { result ≡ array.now }
    {
        ArrayRef::of(&array[..])
    }
}
