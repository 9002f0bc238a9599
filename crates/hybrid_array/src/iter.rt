//! Arrays of what an iterator gives, and iterators over arrays.

ghost use Rattle.std.specs.Prelude.{◌≡◌, ◌<◌, length, vec_len, IfOk, IfErr, IfSome};
ghost use Rattle.std.specs.Borrow.{sem};
ghost use Rattle.std.specs.Iterator.Runs.{EveryRun, ItemsAre, ItemsMapTo};
ghost use Rattle.std.specs.Slice.Iter.{iter_rest, iter_steps, iter_mut_rest, iter_mut_steps};
ghost use Rattle.std.specs.Vec.Iter.{into_iter_items, into_iter_steps};
ghost use Rattle.std.specs.declared.alloc.Global.{Global};
ghost use Rattle.hybrid_array.specs.Gives.{GivesAll, GivesOther};
ghost use Rattle.hybrid_array.specs.Refusals.{OnCount, OnNoMemory};

use crate::{Array, ArraySize};
use std::alloc::{AllocError, Global};
use std::slice::{Iter, IterMut};

/// An iterator gave another number of items than the size.
#[derive(Clone, Copy, Debug, PartialEq, Eq, thiserror::Error)]
#[error("iterator did not contain the correct number of items for the array size")]
pub struct TryFromIteratorError;

/// What keeps an array of an iterator's items from being made.
#[derive(Clone, Copy, Debug, PartialEq, Eq)]
pub enum IterError {
    /// The iterator gave another number of items.
    Count(TryFromIteratorError),
    /// Memory is wanting.
    Memory(AllocError),
}

// What one call of `next` answers, of an iterator that may have no end.
fn next_of<I: Iterator>(it: &mut I) -> Option<I::Item>
    requires { I.can_next it.old }
    ensures gives { I.next_gives it.old result it.new }
    ensures keeps { IfSome result (λ _. I.can_next it.new) }
{
    it.next()
}

// The items of an iterator that has `count` of them. It is left as the last of these calls of
// `next` leaves it.
fn items_of<I: Iterator>(alloc: Global, count: usize, it: &mut I) -> Result<Vec<I::Item>, IterError>
where
    I::Item: Drop,
    requires { I.can_next it.old }
    ensures len { IfOk result (λ items. vec_len items ≡ count) }
    ensures value { IfOk result (λ items. GivesAll I.next_gives it.old items.items it.new) }
    ensures count { IfErr result (OnCount (GivesOther I.next_gives it.old count it.new)) }
    ensures unasked { OnNoMemory (it.new ≡ it.old) result }
{
    let mut items = match Vec::with_capacity(alloc, count) {
        Ok(items) => items,
        Err(error) => return Err(IterError::Memory(error)),
    };
    for i in 0..count {
        match next_of(it) {
            Some(item) => items.push_reserved(item),
            None => return Err(IterError::Count(TryFromIteratorError)),
        }
    }
    match next_of(it) {
        Some(_) => Err(IterError::Count(TryFromIteratorError)),
        None => Ok(items),
    }
}

impl<T: Drop, U: ArraySize> Array<T, U> {
    /// The array of an iterator's items. Memory is taken first. The iterator is asked up to the
    /// first item that is missing, and where none is, once after the last.
    pub fn try_from_iter<I: IntoIterator<Item = T>>(
        alloc: Global,
        iter: I,
    ) -> Result<Self, IterError>
    where
        I: Drop,
        I::IntoIter: Drop,
        requires { (it : I.IntoIter) → I.into_iter_gives iter it → I.IntoIter.can_next it }
        ensures len { IfOk result (λ array. length array ≡ U.USIZE) }
        ensures value { IfOk result (λ array. (it : I.IntoIter) × (end : I.IntoIter)
            × I.into_iter_gives iter it × GivesAll I.IntoIter.next_gives it array end) }
        ensures count { IfErr result (OnCount ((it : I.IntoIter) × (end : I.IntoIter)
            × I.into_iter_gives iter it × GivesOther I.IntoIter.next_gives it U.USIZE end)) }
    {
        let mut it = iter.into_iter();
        match items_of(alloc, U::USIZE, &mut it) {
            Ok(items) => Ok(Array::of(items)),
            Err(error) => Err(error),
        }
    }
}

impl<T, U: ArraySize> Array<T, U> {
    ghost use Rattle.hybrid_array.specs.Lending.{LendsIter};

    /// The items in order.
    #[inline]
    pub fn iter(&self) -> Iter<'_, T>
        ensures rest { iter_rest result ≡ self.now }
        ensures len { length (iter_rest result) ≡ U.USIZE }
        ensures runs { EveryRun (iter_steps {A = T}) (λ run.
            ItemsMapTo run (λ item. item.now) (iter_rest run.from)) }
    {
        self.as_slice().iter()
    }

    /// The items in order, for writing.
    #[inline]
    pub fn iter_mut(&mut self) -> IterMut<'_, T>
        ensures* writes_back { sem 𝓛 (LendsIter T.row U.row U.ArraySize self.entry result) }
        ensures rest { iter_mut_rest result ≡ self.old }
        ensures len { length (iter_mut_rest result) ≡ U.USIZE }
        ensures runs { EveryRun (iter_mut_steps {A = T}) (λ run.
            ItemsMapTo run (λ item. item.now) (iter_mut_rest run.from)) }
    {
        self.as_mut_slice().iter_mut()
    }
}

impl<T: Drop, U: ArraySize> IntoIterator for Array<T, U> {
    type Item = T;

    type IntoIter = std::vec::IntoIter<T>;

    ghost into_iter_gives = { λ array it. (into_iter_items it ≡ array)
        × EveryRun (into_iter_steps {X = T} {Z = Global})
        (λ run. ItemsAre run (into_iter_items run.from)) };

    #[inline]
    fn into_iter(self) -> std::vec::IntoIter<T> {
        self.into_vec().into_iter()
    }
}
