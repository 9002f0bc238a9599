//! A borrowed slice that is cut into chunks whose length a type gives.

ghost use Rattle.std.specs.Prelude.{◌≡◌, ◌↔◌, ◌*◌, ◌≤◌, ◌<◌, length, take, drop, IsSome, IfSome};
ghost use Rattle.std.specs.Iterator.Runs.{EveryRun, IsChunksExactRun};
ghost use Rattle.std.specs.Slice.Iter.{chunks_exact_rest, chunks_exact_size, chunks_exact_steps};
ghost use Rattle.hybrid_array.specs.Chunks.{IsWholeChunks, chunk_at, whole_count};

use crate::{Array, ArrayRef, ArraySize};
use std::marker::{Model, PhantomData};
use std::slice::ChunksExact;

/// A borrowed slice that is cut into chunks of `U::USIZE` items, with none left over. Contracts see
/// it as the list of all items.
#[derive(Drop)]
pub struct Chunks<'a, T, U: ArraySize> {
    items: &'a [T],
    size: PhantomData<U>,
}

impl<'a, T, U: ArraySize> Model for Chunks<'a, T, U> {
    ghost use Rattle.std.specs.Prelude.{List, length};
    ghost use Rattle.hybrid_array.specs.Chunks.{IsWholeChunks};

    ghost Value = { List T };

    ghost view = { λ a. a.items.now };

    ghost invariant = { λ a. IsWholeChunks U.USIZE (length a.items.now) };
}

impl<T, U: ArraySize> Array<T, U> {
    /// The chunks of a slice, from its start, and the items that are left, fewer than a chunk.
    #[inline]
    pub fn slice_as_chunks(buf: &[T]) -> (Chunks<'_, T, U>, &[T])
        requires { 0 < U.USIZE }
        ensures chunks { result.0 ≡ take (whole_count U.USIZE (length buf.now)) buf.now }
        ensures rest { result.1.now ≡ drop (whole_count U.USIZE (length buf.now)) buf.now }
        ensures short { length result.1.now < U.USIZE }
    {
        let (whole, rest) = buf.split_at(buf.len() / U::USIZE * U::USIZE);
        let chunks = Chunks {
            items: whole,
            size: PhantomData,
        };
        (chunks, rest)
    }
}

// Chunk `i` of `count` chunks of `size` items.
#[inline]
#[tactic(auto, using(crate::proofs::ChunkLemmas::chunk_fits))]
pub(crate) fn chunk<T>(items: &[T], size: usize, count: usize, i: usize) -> &[T]
    requires whole { count * size ≤ length items.now }
    requires below { i < count }
    ensures value { result.now ≡ chunk_at size items.now i }
    ensures len { length result.now ≡ size }
{
    let _all = items.len();
    let start = i * size;
    &items[start..start + size]
}

impl<'a, T, U: ArraySize> Chunks<'a, T, U> {
    /// The number of chunks.
    #[inline]
    pub fn len(&self) -> usize
        ensures { result * U.USIZE ≡ length self.now }
    {
        self.items.len() / U::USIZE
    }

    /// Chunk `i`, counted from 0.
    #[inline]
    pub fn get(&self, i: usize) -> Option<ArrayRef<'a, T, U>>
        ensures some { IsSome result ↔ (i * U.USIZE < length self.now) }
        ensures value { IfSome result (λ view. view ≡ chunk_at U.USIZE self.now i) }
    {
        let items = self.items;
        let count = items.len() / U::USIZE;
        if i >= count {
            return None;
        }
        ArrayRef::try_from(chunk(items, U::USIZE, count, i)).ok()
    }

    /// The chunks in order, each as the slice of its items.
    #[inline]
    pub fn iter(&self) -> ChunksExact<'_, T>
        ensures rest { chunks_exact_rest result ≡ self.now }
        ensures size { chunks_exact_size result ≡ U.USIZE }
        ensures runs { EveryRun (chunks_exact_steps {A = T}) (λ run. 0 < chunks_exact_size run.from
            → IsChunksExactRun run (chunks_exact_size run.from) (chunks_exact_rest run.from)) }
    {
        self.items.chunks_exact(U::USIZE)
    }

    /// The items of all chunks, for as long as the slice that was cut.
    #[inline]
    pub fn as_flattened(&self) -> &'a [T]
        ensures value { result.now ≡ self.now }
        ensures whole { IsWholeChunks U.USIZE (length result.now) }
    {
        self.items
    }
}
