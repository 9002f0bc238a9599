//! A borrowed slice that is cut into chunks whose length a type gives, for writing.

ghost use Rattle.std.specs.Prelude.{◌≡◌, true, ◌↔◌, ◌+◌, ◌*◌, ◌/◌, ◌≤◌, ◌<◌, ◌++◌, length, take, drop, IsSome, IfSome};
ghost use Rattle.std.specs.Borrow.{sem, name_if_some, LendsBoth, Array as Slots};
ghost use Rattle.hybrid_array.specs.Chunks.{IsWholeChunks, chunk_at, whole_count};
ghost use Rattle.hybrid_array.specs.Lending.{LendsPart, LendsParts};

use crate::chunks::chunk;
use crate::lending::chunks_and_rest_mut;
use crate::{Array, ArrayMut, ArrayRef, ArraySize};
use std::marker::{Model, PhantomData};

// A length that isn't 0.
#[derive(Drop)]
struct Positive<U: ArraySize> {
    size: PhantomData<U>,
}

impl<U: ArraySize> Model for Positive<U> {
    ghost use Rattle.std.specs.Prelude.{ℕ, ◌<◌};

    ghost Value = { ℕ };

    ghost view = { λ _. U.USIZE };

    ghost invariant = { λ _. 0 < U.USIZE };
}

impl<U: ArraySize> Positive<U> {
    // The length.
    #[inline]
    fn get(&self) -> usize
        ensures value { result ≡ U.USIZE }
        ensures some { 0 < result }
    {
        let _size = &self.size;
        U::USIZE
    }
}

/// A borrowed slice that is cut into chunks of `U::USIZE` items, for writing.
///
/// What is written through the view lands in the slice. The view has its reference in the field
/// `items`, by which contracts follow it. A caller that has to know what the slice holds
/// afterwards makes the view by `of`, or moves this field out and writes through it.
#[derive(Drop)]
pub struct ChunksMut<'a, T, U: ArraySize> {
    /// The items of all chunks.
    pub items: &'a mut [T],
    size: Positive<U>,
}

impl<'a, T, U: ArraySize> ChunksMut<'a, T, U> {
    ghost use Rattle.hybrid_array.specs.Chunked.{LendsChunk, LendsChunks, RestsWithNone};

    /// The chunks of a slice that has no item left over.
    ///
    /// Its caller knows what the slice holds once the view is gone.
    #[inline]
    pub fn of(slice: &'a mut [T]) -> Self
        requires { IsWholeChunks U.USIZE (length slice.old) }
        ensures same_reference { result.items.ghost_name ≡ slice.entry.ghost_name }
        ensures value { result.items.now ≡ slice.old }
    {
        ChunksMut {
            items: slice,
            size: Positive { size: PhantomData },
        }
    }

    /// The number of chunks.
    #[inline]
    pub fn len(&self) -> usize
        ensures { result ≡ length self.now.items.now / U.USIZE }
    {
        self.items.len() / self.size.get()
    }

    /// Chunk `i`, counted from 0.
    #[inline]
    pub fn get(&self, i: usize) -> Option<ArrayRef<'_, T, U>>
        ensures some { IsSome result ↔ (i < length self.now.items.now / U.USIZE) }
        ensures value { IfSome result (λ view. view ≡ chunk_at U.USIZE self.now.items.now i) }
    {
        let count = self.len();
        if i >= count {
            return None;
        }
        Some(ArrayRef::of(chunk(self.items, U::USIZE, count, i)))
    }

    /// Chunk `i`, counted from 0, for writing.
    ///
    /// A caller that has to know what the slice holds after a write moves the field `items` out,
    /// and writes by `with_part_mut` at `i * U::USIZE`.
    #[inline]
    pub fn get_mut(&mut self, i: usize) -> Option<ArrayMut<'_, T, U>>
        ensures* unchanged { sem 𝓛 (RestsWithNone T.row U.row U.ArraySize self.entry result) }
        ensures* writes_back { sem 𝓛 (LendsChunk T.row U.row U.ArraySize self.entry i
            (name_if_some (λ view. view.items.ghost_name) result)) }
        ensures some { IsSome result ↔ (i < length self.old.items.now / U.USIZE) }
        ensures value { IfSome result (λ view.
            view.items.now ≡ chunk_at U.USIZE self.old.items.now i) }
    {
        chunk_if_any(self.as_flattened_mut(), i)
    }

    /// The items of all chunks.
    #[inline]
    pub fn as_flattened(&self) -> &[T]
        ensures { result.now ≡ self.now.items.now }
    {
        self.items
    }

    /// The items of all chunks, for writing.
    ///
    /// A caller that has to know what the slice holds after a write moves the field `items` out,
    /// and writes through it.
    #[inline]
    pub fn as_flattened_mut(&mut self) -> &mut [T]
        ensures* writes_back { sem 𝓛 (LendsChunks T.row U.row U.ArraySize self.entry
            result.ghost_name) }
        ensures value { result.now ≡ self.old.items.now }
    {
        self.items
    }

    /// Writes chunk `i`, counted from 0.
    #[inline]
    pub fn copy_chunk(&mut self, i: usize, src: &[T])
    where
        T: Copy,
        requires chunk { length src.now ≡ U.USIZE }
        requires below { (i + 1) * U.USIZE ≤ length self.old.items.now }
        ensures same_reference { self.new.items.ghost_name ≡ self.old.items.ghost_name }
        ensures value { self.new.items.now ≡ take (i * U.USIZE) self.old.items.now
            ++ src.now ++ drop ((i + 1) * U.USIZE) self.old.items.now }
    {
        write_chunk(self.items, U::USIZE, i, src);
    }
}

// Whether so many items have a chunk `i`.
#[inline]
fn has_chunk<U: ArraySize>(len: usize, i: usize) -> bool
    ensures { (result ≡ true) ↔ (i < len / U.USIZE) }
{
    let size = U::USIZE;
    size != 0 && i < len / size
}

// The items before chunk `i`, which is there, and those from it on.
#[inline]
#[tactic(auto, using(crate::proofs::ChunkLemmas::chunk_starts))]
fn before_and_rest_mut<T, U: ArraySize>(items: &mut [T], i: usize) -> (&mut [T], &mut [T])
    requires { i < length items.old / U.USIZE }
    ensures* writes_back { sem 𝓛 (LendsBoth (Slots T.row 0) (Slots T.row 0) (Slots T.row 0)
        items.entry result ◌++◌) }
    ensures before { result.0.now ≡ take (i * U.USIZE) items.old }
    ensures rest { result.1.now ≡ drop (i * U.USIZE) items.old }
    ensures enough { U.USIZE ≤ length result.1.now }
{
    let start = i * U::USIZE;
    items.split_at_mut(start)
}

// The first chunk, and the items after it.
#[inline]
fn chunk_and_after_mut<T, U: ArraySize>(items: &mut [T]) -> (&mut [T], &mut [T])
    requires { U.USIZE ≤ length items.old }
    ensures* writes_back { sem 𝓛 (LendsBoth (Slots T.row 0) (Slots T.row 0) (Slots T.row 0)
        items.entry result ◌++◌) }
    ensures chunk { result.0.now ≡ take U.USIZE items.old }
    ensures after { result.1.now ≡ drop U.USIZE items.old }
    ensures len { length result.0.now ≡ U.USIZE }
{
    items.split_at_mut(U::USIZE)
}

// A view of a chunk.
#[inline]
fn chunk_view<'a, T, U: ArraySize>(items: &'a mut [T]) -> Option<ArrayMut<'a, T, U>>
    requires { length items.old ≡ U.USIZE }
    ensures some { IsSome result }
    ensures same_reference { IfSome result (λ view.
        view.items.ghost_name ≡ items.entry.ghost_name) }
    ensures value { IfSome result (λ view. view.items.now ≡ items.old) }
{
    Some(ArrayMut::of(items))
}

// A view of chunk `i`, if there is one, for writing.
#[inline]
fn chunk_if_any<T, U: ArraySize>(items: &mut [T], i: usize) -> Option<ArrayMut<'_, T, U>>
    ensures* writes_back { sem 𝓛 (LendsPart T.row items.entry (i * U.USIZE) U.USIZE
        (name_if_some (λ view. view.items.ghost_name) result)) }
    ensures some { IsSome result ↔ (i < length items.old / U.USIZE) }
    ensures value { IfSome result (λ view. view.items.now ≡ chunk_at U.USIZE items.old i) }
{
    if has_chunk::<U>(items.len(), i) {
        let parts = before_and_rest_mut::<T, U>(items, i);
        let chunks = chunk_and_after_mut::<T, U>(parts.1);
        return chunk_view(chunks.0);
    }
    None
}

// Writes chunk `i` of chunks of `size` items.
#[inline]
fn write_chunk<T: Copy>(items: &mut [T], size: usize, i: usize, src: &[T])
    requires chunk { length src.now ≡ size }
    requires below { (i + 1) * size ≤ length items.old }
    ensures { items.new ≡ take (i * size) items.old ++ src.now ++ drop ((i + 1) * size) items.old }
{
    let start = i * size;
    items[start..start + size].copy_from_slice(src);
}

// The chunks of the first part, and the rest.
#[inline]
fn chunks_of_parts<'a, T, U: ArraySize>(
    parts: (&'a mut [T], &'a mut [T]),
) -> (ChunksMut<'a, T, U>, &'a mut [T])
    requires { IsWholeChunks U.USIZE (length parts.0.now) }
    ensures chunks_reference { result.0.items.ghost_name ≡ parts.entry.0.ghost_name }
    ensures chunks { result.0.items.now ≡ parts.entry.0.now }
    ensures rest_reference { result.1.ghost_name ≡ parts.entry.1.ghost_name }
    ensures rest { result.1.now ≡ parts.entry.1.now }
{
    (ChunksMut::of(parts.0), parts.1)
}

impl<T, U: ArraySize> Array<T, U> {
    /// The chunks of a slice, from its start, and the items that are left, fewer than a chunk, for
    /// writing.
    ///
    /// A caller that has to know what the slice holds after a write makes its view of what
    /// `chunks_and_rest_mut` lends.
    #[inline]
    pub fn slice_as_chunks_mut(buf: &mut [T]) -> (ChunksMut<'_, T, U>, &mut [T])
        requires { 0 < U.USIZE }
        ensures* writes_back { sem 𝓛 (LendsParts T.row buf.entry
            result.0.items.ghost_name result.1.ghost_name) }
        ensures chunks { result.0.items.now ≡ take (whole_count U.USIZE (length buf.old)) buf.old }
        ensures rest { result.1.now ≡ drop (whole_count U.USIZE (length buf.old)) buf.old }
        ensures short { length result.1.now < U.USIZE }
    {
        chunks_of_parts(chunks_and_rest_mut::<T, U>(buf))
    }
}
