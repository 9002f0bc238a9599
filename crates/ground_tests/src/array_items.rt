//! Arrays, on values worked by hand.

use crate::shown::shows;
use crate::texts::is_text;
use hybrid_array::sizes::{U0, U2, U3, U4, U6};
use hybrid_array::{
    Array, ArrayMut, ArrayN, ArraySize, Flatten, IterError, MakeError, SliceError,
    TryFromIteratorError, Unflatten, halves_mut,
};
use std::alloc::{AllocError, Global};
use std::boxed::BoxedSlice;

/// Whether there is an array, and holds these items.
pub(crate) fn holds<T: PartialEq + Drop, U: ArraySize>(
    made: Option<Array<T, U>>,
    items: &[T],
) -> bool {
    match made {
        Some(array) => array.as_slice() == items,
        None => false,
    }
}

fn write_head_and_body(frame: &mut Array<u8, U6>) {
    let (head, body) = halves_mut::<u8, U2, U4>(frame.as_mut_slice());
    let mut head = ArrayMut::<u8, U2>::of(head);
    head.copy_from_slice(&[1, 2]);
    let mut body = ArrayMut::<u8, U4>::of(body);
    body.set(3, 9);
}

fn is_three_pairs(frame: &Array<u8, U6>) -> bool {
    let (pairs, rest) = Array::<u8, U2>::slice_as_chunks(frame.as_slice());
    pairs.len() == 3 && rest.is_empty()
}

fn has_head_and_body(rows: &Array<Array<u8, U2>, U3>) -> bool {
    rows[0].as_slice() == [1, 2].as_slice() && rows[2].as_slice() == [0, 9].as_slice()
}

fn is_example_right(alloc: Global) -> Result<bool, AllocError> {
    let mut frame = Array::<u8, U6>::default(alloc)?;
    write_head_and_body(&mut frame);
    let is_cut = is_three_pairs(&frame);
    let rows: Array<Array<u8, U2>, U3> = frame.unflatten(alloc)?;
    Ok(is_cut && has_head_and_body(&rows))
}

#[test]
fn the_example_of_the_page(rt: HostRuntime) {
    shows(&rt, is_example_right(rt.alloc()) == Ok(true));
}

// Whether the items are these, one a call.
fn is_call_an_item<U: ArraySize>(alloc: Global, items: &[usize]) -> bool {
    let mut calls = 0usize;
    let made = Array::<usize, U>::from_fn(alloc, |i| {
        calls = calls.wrapping_add(1);
        i
    });
    holds(made.ok(), items) && calls == items.len()
}

#[test]
fn from_fn_calls_once_for_each_item(rt: HostRuntime) {
    let alloc = rt.alloc();
    shows(
        &rt,
        is_call_an_item::<U0>(alloc, &[]) && is_call_an_item::<U3>(alloc, &[0, 1, 2]),
    );
}

// What a closure that refuses an item by 7 makes of halves, and how often it is called.
fn halves_but(alloc: Global, refused: usize) -> (Result<Array<usize, U3>, MakeError<u8>>, usize) {
    let mut calls = 0usize;
    let made = Array::<usize, U3>::try_from_fn(alloc, |i| {
        calls = calls.wrapping_add(1);
        if i == refused { Err(7u8) } else { Ok(i / 2) }
    });
    (made, calls)
}

// Whether it is refused, after so many calls.
fn is_refused_after(alloc: Global, refused: usize, wanted: usize) -> bool {
    match halves_but(alloc, refused) {
        (Err(MakeError::Caller(7)), calls) => calls == wanted,
        _ => false,
    }
}

#[test]
fn try_from_fn_stops_at_the_first_error(rt: HostRuntime) {
    let alloc = rt.alloc();
    shows(
        &rt,
        is_refused_after(alloc, 1, 2) && holds(halves_but(alloc, 3).0.ok(), &[0, 0, 1]),
    );
}

// Gives a number of items and then none, and counts how often it is asked.
#[derive(Drop)]
struct Asked<'a> {
    left: u8,
    calls: &'a mut usize,
}

impl Iterator for Asked<'_> {
    type Item = u8;

    fn next(&mut self) -> Option<u8> {
        *self.calls = self.calls.wrapping_add(1);
        self.left = self.left.checked_sub(1)?;
        Some(self.left)
    }
}

// Whether three items are taken of so many, or these are refused by their count, once the iterator
// was asked so often.
fn is_asked(alloc: Global, left: u8, wanted: usize) -> bool {
    let mut calls = 0usize;
    let asked = Asked {
        left,
        calls: &mut calls,
    };
    let is_right = match Array::<u8, U3>::try_from_iter(alloc, asked) {
        Ok(made) => left == 3 && made.as_slice() == [2, 1, 0].as_slice(),
        Err(IterError::Count(_)) => left != 3,
        Err(_) => false,
    };
    is_right && calls == wanted
}

#[test]
fn an_iterator_is_asked_up_to_the_first_item_that_is_missing(rt: HostRuntime) {
    let alloc = rt.alloc();
    shows(
        &rt,
        is_asked(alloc, 0, 1)
            && is_asked(alloc, 2, 3)
            && is_asked(alloc, 3, 4)
            && is_asked(alloc, 4, 4)
            && is_asked(alloc, 9, 4),
    );
}

#[test]
fn a_refused_count_prints_its_text(rt: HostRuntime) {
    let expected = "iterator did not contain the correct number of items for the array size";
    let made = format!(in rt.alloc(); "{TryFromIteratorError}");
    shows(&rt, is_text(made, expected));
}

// Items and their number, mapped by a closure that counts its calls.
fn are_mapped(alloc: Global) -> bool {
    let Ok(items) = Array::<u8, U3>::clone_from_slice(alloc, &[1, 2, 3]) else {
        return false;
    };
    let mut calls = 0usize;
    let made = items.map(alloc, |x| {
        calls = calls.wrapping_add(1);
        u16::from(x) + 1
    });
    holds(made.ok(), &[2, 3, 4]) && calls == 3
}

#[test]
fn map_calls_once_for_each_item(rt: HostRuntime) {
    shows(&rt, are_mapped(rt.alloc()));
}

// The array of a slice, as an owned slice in between.
fn reboxed(alloc: Global, items: &[u8]) -> Result<Array<u8, U6>, SliceError> {
    let array = Array::<u8, U6>::clone_from_slice(alloc, items)?;
    match array.into_boxed(alloc) {
        Ok(boxed) => Array::from_boxed(alloc, boxed),
        Err(error) => Err(SliceError::Memory(error)),
    }
}

// An owned slice of a copy of a copy.
fn copied(alloc: Global, array: &Array<u8, U6>) -> Result<BoxedSlice<u8>, AllocError> {
    let copy = array.clone(alloc)?;
    copy.as_array_ref().to_array(alloc)?.to_boxed(alloc)
}

// An array cut in two, joined, cut in runs and joined again. A size by a constant is that by its
// name.
fn rearranged(alloc: Global, array: Array<u8, U6>) -> Result<ArrayN<u8, 6>, AllocError> {
    let (first, rest) = array.split::<U2, U4>(alloc)?;
    let joined: Array<u8, U6> = first.concat(alloc, rest)?;
    let rows: Array<Array<u8, U2>, U3> = joined.unflatten(alloc)?;
    rows.flatten(alloc)
}

fn are_kept(alloc: Global, items: &[u8]) -> Option<bool> {
    let copy = copied(alloc, &reboxed(alloc, items).ok()?).ok()?;
    let array = Array::from_vec(copy.into_vec()).ok()?;
    Some(holds(rearranged(alloc, array).ok(), items))
}

// All of these calls say what they make; here, that they make it where there is memory.
#[test]
fn items_are_moved_and_copied(rt: HostRuntime) {
    shows(&rt, are_kept(rt.alloc(), &[1, 2, 3, 4, 5, 6]) == Some(true));
}
