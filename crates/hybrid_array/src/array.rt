//! Arrays by value.

ghost use Rattle.std.specs.Prelude.{◌≡◌, ◌↔◌, ◌≢◌, ◌+◌, ◌<◌, ◌++◌, length, take, drop, vec_len, IsOk, IfOk, slice_index_or};
ghost use Rattle.std.specs.Borrow.{sem};
ghost use Rattle.std.specs.Box.{boxed_slice_items};
ghost use Rattle.hybrid_array.specs.Refusals.{IsLengthRefusal};

use crate::{ArraySize, SliceError, TryFromSliceError};
use std::alloc::{AllocError, Global};
use std::boxed::BoxedSlice;
use std::marker::{Model, PhantomData};
use std::ops::{Index, IndexMut};

/// `U::USIZE` items, on the heap. Contracts see an array as the list of its items.
#[derive(Drop)]
pub struct Array<T, U: ArraySize> {
    items: Vec<T>,
    size: PhantomData<U>,
}

impl<T, U: ArraySize> Model for Array<T, U> {
    ghost use Rattle.std.specs.Prelude.{◌≡◌, List, length};

    ghost Value = { List T };

    ghost view = { λ a. a.items.items };

    ghost invariant = { λ a. length a.items.items ≡ U.USIZE };
}

impl<T, U: ArraySize> Array<T, U> {
    ghost use Rattle.hybrid_array.specs.Lending.{LendsItems};

    // The array of a vector that has as many items.
    #[inline]
    pub(crate) fn of(items: Vec<T>) -> Self
        requires { vec_len items ≡ U.USIZE }
        ensures { result ≡ items.items }
    {
        Array {
            items,
            size: PhantomData,
        }
    }

    /// The array of a vector's items, which aren't copied. A vector of another length is dropped.
    #[inline]
    pub fn from_vec(items: Vec<T>) -> Result<Self, TryFromSliceError>
    where
        T: Drop,
        ensures ok { IsOk result ↔ (vec_len items ≡ U.USIZE) }
        ensures value { IfOk result (λ array. array ≡ items.items) }
    {
        if items.len() != U::USIZE {
            return Err(TryFromSliceError);
        }
        Ok(Array::of(items))
    }

    /// The vector of the items, which aren't copied.
    #[inline]
    pub fn into_vec(self) -> Vec<T>
        ensures value { result.items ≡ self }
        ensures len { vec_len result ≡ U.USIZE }
    {
        let Array { items, .. } = self;
        items
    }

    /// The items.
    #[inline]
    pub fn as_slice(&self) -> &[T]
        ensures value { result.now ≡ self.now }
        ensures len { length result.now ≡ U.USIZE }
    {
        &self.items
    }

    /// The items, for writing.
    #[inline]
    pub fn as_mut_slice(&mut self) -> &mut [T]
        ensures* writes_back { sem 𝓛 (LendsItems T.row U.row U.ArraySize self.entry result) }
        ensures value { result.now ≡ self.old }
        ensures len { length result.now ≡ U.USIZE }
    {
        self.items.as_mut_slice()
    }

    /// A vector of the items' clones.
    pub fn to_vec(&self, alloc: Global) -> Result<Vec<T>, AllocError>
    where
        T: Clone + Drop,
        requires { (x y : T) → T.is_clone x y → y ≡ x }
        ensures value { IfOk result (λ items. items.items ≡ self.now) }
        ensures len { IfOk result (λ items. vec_len items ≡ U.USIZE) }
    {
        self.as_slice().to_vec(alloc)
    }

    /// An array of the items' clones.
    pub fn clone(&self, alloc: Global) -> Result<Self, AllocError>
    where
        T: Clone + Drop,
        requires { (x y : T) → T.is_clone x y → y ≡ x }
        ensures { IfOk result (λ array. array ≡ self.now) }
    {
        Ok(Array::of(self.to_vec(alloc)?))
    }

    /// An array of the clones of a slice's items. The length is tested before memory is taken.
    pub fn clone_from_slice(alloc: Global, slice: &[T]) -> Result<Self, SliceError>
    where
        T: Clone + Drop,
        requires { (x y : T) → T.is_clone x y → y ≡ x }
        ensures length { IsLengthRefusal result ↔ (length slice.now ≢ U.USIZE) }
        ensures value { IfOk result (λ array. array ≡ slice.now) }
    {
        if slice.len() != U::USIZE {
            return Err(SliceError::Length(TryFromSliceError));
        }
        match slice.to_vec(alloc) {
            Ok(items) => Ok(Array::of(items)),
            Err(error) => Err(SliceError::Memory(error)),
        }
    }

    /// The array of an owned slice's items, which aren't copied.
    pub fn from_boxed(_alloc: Global, items: BoxedSlice<T>) -> Result<Self, SliceError>
    where
        T: Drop,
        ensures length { IsLengthRefusal result ↔ (length (boxed_slice_items items) ≢ U.USIZE) }
        ensures value { IfOk result (λ array. array ≡ boxed_slice_items items) }
    {
        Self::from_vec(items.into_vec()).map_err(SliceError::Length)
    }

    /// An owned slice of the items' clones.
    pub fn to_boxed(&self, alloc: Global) -> Result<BoxedSlice<T>, AllocError>
    where
        T: Clone + Drop,
        requires { (x y : T) → T.is_clone x y → y ≡ x }
        ensures { IfOk result (λ items. boxed_slice_items items ≡ self.now) }
    {
        Ok(self.to_vec(alloc)?.into_boxed_slice())
    }

    /// An owned slice of the items, which aren't copied.
    pub fn into_boxed(self, _alloc: Global) -> Result<BoxedSlice<T>, AllocError>
        ensures { IfOk result (λ items. boxed_slice_items items ≡ self) }
    {
        Ok(self.into_vec().into_boxed_slice())
    }

    /// The items of both arrays.
    pub fn concat<N: ArraySize, S: ArraySize>(
        self,
        alloc: Global,
        other: Array<T, N>,
    ) -> Result<Array<T, S>, AllocError>
    where
        T: Drop,
        requires { S.USIZE ≡ U.USIZE + N.USIZE }
        ensures { IfOk result (λ array. array ≡ self ++ other) }
    {
        let mut items = Vec::with_capacity(alloc, S::USIZE)?;
        let mut first = self.into_vec();
        let mut second = other.into_vec();
        items.append(&mut first)?;
        items.append(&mut second)?;
        Ok(Array::of(items))
    }

    /// The first `N::USIZE` items, and the rest.
    pub fn split<N: ArraySize, R: ArraySize>(
        self,
        _alloc: Global,
    ) -> Result<(Array<T, N>, Array<T, R>), AllocError>
    where
        T: Drop,
        requires { N.USIZE + R.USIZE ≡ U.USIZE }
        ensures first { IfOk result (λ both. both.0 ≡ take N.USIZE self) }
        ensures rest { IfOk result (λ both. both.1 ≡ drop N.USIZE self) }
    {
        let mut items = self.into_vec();
        let rest = items.split_off(N::USIZE)?;
        Ok((Array::of(items), Array::of(rest)))
    }
}

impl<T, U: ArraySize> Index<usize> for Array<T, U> {
    type Output = T;

    ghost can_index = { λ a i. i < U.USIZE };

    ghost index_gives = { λ a i x. x ≡ slice_index_or a i x };

    #[inline]
    fn index(&self, i: usize) -> &T
        requires { i < U.USIZE }
        ensures value { result.now ≡ slice_index_or self.now i result.now }
    {
        &self.items[i]
    }
}

impl<T, U: ArraySize> IndexMut<usize> for Array<T, U> {
    ghost use Rattle.hybrid_array.specs.Lending.{LendsItem};

    #[inline]
    fn index_mut(&mut self, i: usize) -> &mut T
        requires { i < U.USIZE }
        ensures* writes_back { sem 𝓛 (LendsItem T.row U.row U.ArraySize self.entry i result) }
        ensures value { result.now ≡ slice_index_or self.old i result.now }
    {
        &mut self.items[i]
    }
}
