//! Callers that write through a view, and prove what the whole slice holds afterwards.

ghost use Rattle.std.specs.Prelude.{◌≡◌, ◌≢◌, ◌==◌, ◌↔◌, ◌+◌, ◌≤◌, ◌++◌, ◌∷◌, [], length, take, drop, IsOk, OnOk, OnErr, slice_set};

use crate::shown::shows;
use hybrid_array::sizes::{U1, U2, U4};
use hybrid_array::{
    Array, ArrayMut, ArraySize, ChunksMut, TryFromSliceError, chunks_and_rest_mut,
    first_and_rest_mut, halves_mut, whole_mut, with_part_mut, with_whole_mut,
};
use std::alloc::Global;

// In place of `Array::slice_as_mut_array` and `ArrayMut::try_from`.
fn copy_if<T: Copy, U: ArraySize>(slice: &mut [T], src: &[T]) -> bool
    requires { length src.now ≡ U.USIZE }
    ensures which { result ≡ (length slice.old == U.USIZE) }
    ensures some { length slice.old ≡ U.USIZE → slice.new ≡ src.now }
    ensures none { length slice.old ≢ U.USIZE → slice.new ≡ slice.old }
{
    match whole_mut::<T, U>(slice) {
        Some((items, rest)) => {
            let mut view = ArrayMut::<T, U>::of(items);
            view.copy_from_slice(src);
            true
        }
        None => false,
    }
}

// The same by a closure.
fn try_set_within(slice: &mut [u8]) -> Result<(), TryFromSliceError>
    ensures which { IsOk result ↔ (length slice.old ≡ 4) }
    ensures ok { OnOk result (slice.new ≡ slice_set slice.old 1 7) }
    ensures err { OnErr result (slice.new ≡ slice.old) }
{
    with_whole_mut::<u8, U4, _>(slice, |items| {
        if items.len() == 4 {
            let mut view = ArrayMut::<u8, U4>::of(items);
            view.set(1, 7);
        }
    })
}

// In place of `Array::slice_as_chunks_mut`.
fn set_chunk_and_rest(slice: &mut [u8])
    requires { length slice.old ≡ 5 }
    ensures { slice.new ≡ take 2 slice.old ++ 1 ∷ 2 ∷ 9 ∷ [] }
{
    let (items, rest) = chunks_and_rest_mut::<u8, U2>(slice);
    let mut chunks = ChunksMut::<u8, U2>::of(items);
    chunks.copy_chunk(1, &[1, 2]);
    rest[0] = 9;
}

// A view of the first items.
fn set_first(slice: &mut [u8]) -> bool
    ensures { 4 ≤ length slice.old → slice.new ≡ slice_set slice.old 1 7 }
{
    let Some((first, rest)) = first_and_rest_mut::<u8, U4>(slice) else {
        return false;
    };
    let mut view = ArrayMut::<u8, U4>::of(first);
    view.set(1, 7);
    true
}

// In place of `Array::split_ref_mut`.
fn copy_halves<T: Copy, U: ArraySize, N: ArraySize, R: ArraySize>(
    array: &mut Array<T, U>,
    a: &[T],
    b: &[T],
)
    requires sizes { N.USIZE + R.USIZE ≡ U.USIZE }
    requires a_len { length a.now ≡ N.USIZE }
    requires b_len { length b.now ≡ R.USIZE }
    ensures { array.new ≡ a.now ++ b.now }
{
    let (first, rest) = halves_mut::<T, N, R>(array.as_mut_slice());
    let mut first = ArrayMut::<T, N>::of(first);
    let mut rest = ArrayMut::<T, R>::of(rest);
    first.copy_from_slice(a);
    rest.copy_from_slice(b);
}

// In place of `ChunksMut::get_mut`, after a write by the chunks.
fn set_in_chunks(slice: &mut [u8])
    requires { length slice.old ≡ 6 }
    ensures { slice.new ≡ slice_set (1 ∷ 2 ∷ drop 2 slice.old) 2 7 }
{
    let mut chunks = ChunksMut::<u8, U2>::of(slice);
    chunks.copy_chunk(0, &[1, 2]);
    let items = chunks.items;
    with_part_mut::<u8, U2, _>(items, 2, |items| {
        if items.len() == 2 {
            let mut chunk = ArrayMut::<u8, U2>::of(items);
            chunk.set(0, 7);
        }
    });
}

// All items of a view, by a closure.
fn set_in_view(slice: &mut [u8])
    requires { length slice.old ≡ 4 }
    ensures { slice.new ≡ slice_set (slice_set slice.old 1 7) 2 8 }
{
    let mut view = ArrayMut::<u8, U4>::of(slice);
    view.set(1, 7);
    view.with_mut_slice(|items| {
        if items.len() == 4 {
            items[2] = 8;
        }
    });
}

// All items of a view, by the slice that it lends.
fn set_by_slice(slice: &mut [u8])
    requires { length slice.old ≡ 4 }
    ensures { slice.new ≡ slice_set (slice_set slice.old 1 7) 2 8 }
{
    let mut view = ArrayMut::<u8, U4>::of(slice);
    view.set(1, 7);
    view.as_mut_slice()[2] = 8;
}

// The view's own reference, after a write by the view.
fn set_and_write(slice: &mut [u8])
    requires { length slice.old ≡ 4 }
    ensures { slice.new ≡ slice_set (slice_set slice.old 1 7) 2 8 }
{
    let mut view = ArrayMut::<u8, U4>::of(slice);
    view.set(1, 7);
    let items = view.items;
    items[2] = 8;
}

// The view of an array, taken from its field.
fn set_by_view(array: &mut Array<u8, U4>)
    ensures { array.new ≡ slice_set array.old 3 7 }
{
    let view = array.as_array_mut();
    let items = view.items;
    let mut view = ArrayMut::<u8, U4>::of(items);
    view.set(3, 7);
}

// The views of one item and of a core array.
fn set_item(item: &mut u8)
    ensures { item.new ≡ 7 }
{
    let view = Array::<u8, U1>::from_mut(item);
    let items = view.items;
    items[0] = 7;
}

fn set_core(array: &mut [u8; 4])
    ensures { array.new ≡ slice_set array.old 3 7 }
{
    let view = Array::<u8, U4>::cast_from_core_mut(array);
    let items = view.items;
    items[3] = 7;
}

// An item by its index, and all items.
fn set_by_index(array: &mut Array<u8, U4>)
    ensures { array.new ≡ slice_set (slice_set array.old 1 7) 2 8 }
{
    array[1] = 7;
    array.as_mut_slice()[2] = 8;
}

// What each of these callers leaves in a slice is said by its own clauses, and so only run here.
fn write_four(items: &mut [u8; 4]) -> bool {
    set_in_view(items);
    set_by_slice(items);
    set_and_write(items);
    set_core(items);
    set_item(&mut items[0]);
    copy_if::<u8, U4>(items, &[1, 2, 3, 4]) && try_set_within(items).is_ok() && set_first(items)
}

fn write_six(items: &mut [u8; 6]) {
    set_in_chunks(items);
    set_chunk_and_rest(&mut items[..5]);
}

#[test]
fn callers_write_into_slices(rt: HostRuntime) {
    let mut four = [0; 4];
    let mut six = [0; 6];
    write_six(&mut six);
    shows(
        &rt,
        write_four(&mut four) && four == [1, 7, 3, 4] && six == [1, 2, 1, 2, 9, 0],
    );
}

fn is_array_written(alloc: Global) -> bool {
    let Ok(mut array) = Array::<u8, U4>::default(alloc) else {
        return false;
    };
    copy_halves::<u8, U4, U2, U2>(&mut array, &[1, 2], &[3, 4]);
    set_by_index(&mut array);
    set_by_view(&mut array);
    array.as_slice() == [1, 7, 8, 7].as_slice()
}

#[test]
fn callers_write_into_an_array(rt: HostRuntime) {
    shows(&rt, is_array_written(rt.alloc()));
}
