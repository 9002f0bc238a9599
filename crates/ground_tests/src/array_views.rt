//! Slices and an array that are written through views which a call answers in an `Option`, a
//! `Result` or a pair: a caller's own proof doesn't read what they hold afterwards.

use crate::shown::shows;
use hybrid_array::sizes::{U1, U2, U3};
use hybrid_array::{Array, ArrayMut, SliceExt};
use std::alloc::Global;

// Writes the second chunk of two items and the first item of the rest, and raises all chunks by
// five.
fn write_chunks_and_rest(slice: &mut [u8]) {
    let (mut chunks, rest) = SliceExt::as_hybrid_chunks_mut::<u8, U2>(slice);
    if let Some(first) = rest.first_mut() {
        *first = 9;
    }
    if let Some(mut chunk) = chunks.get_mut(1) {
        chunk.copy_from_slice(&[7, 8]);
    }
    for item in chunks.as_flattened_mut() {
        *item = item.wrapping_add(5);
    }
}

fn write_by_view(slice: &mut [u8]) {
    if let Ok(mut view) = ArrayMut::<u8, U3>::try_from(slice) {
        view.set(0, 4);
        view.as_mut_slice()[1] = 8;
        view.into_mut_slice()[2] = 6;
    }
}

#[test]
fn slices_are_written_by_their_views(rt: HostRuntime) {
    let mut items = [1u8, 2, 3, 4, 5];
    write_chunks_and_rest(&mut items);
    shows(&rt, items == [6, 7, 12, 13, 9]);
    write_by_view(&mut items[..3]);
    shows(&rt, items == [4, 8, 6, 13, 9]);
}

fn write_parts(array: &mut Array<u8, U3>) {
    let (mut first, mut rest) = array.split_ref_mut::<U1, U2>();
    first.set(0, 4);
    rest.set(0, 5);
}

fn are_parts_written(alloc: Global) -> bool {
    let Ok(mut array) = Array::<u8, U3>::default(alloc) else {
        return false;
    };
    write_parts(&mut array);
    array.as_slice() == [4, 5, 0].as_slice()
}

#[test]
fn an_array_is_written_by_views_of_its_parts(rt: HostRuntime) {
    shows(&rt, are_parts_written(rt.alloc()));
}
