//! Arrays of arrays: their items in one array, and an array's items in several.

ghost use Rattle.std.specs.Prelude.{◌≡◌, ℕ, ◌*◌, ◌<◌, List, IfOk};
ghost use Rattle.hybrid_array.specs.Runs.{runs, joined};

use crate::{Array, ArraySize, Chunks};
use std::alloc::{AllocError, Global};

/// Arrays whose items are arrays.
pub trait Flatten<T, S: ArraySize> {
    /// The inner items, one array after another.
    ghost flat: { Self → List T };

    /// Whether there are so many of them.
    ghost fits: { Self → ℕ → Type 0 };

    /// One array of the inner arrays' items, in order.
    fn flatten(self, alloc: Global) -> Result<Array<T, S>, AllocError>
        requires { fits self S.USIZE }
        ensures { IfOk result (λ array. array ≡ flat self) };
}

impl<T: Drop, M: ArraySize, N: ArraySize, S: ArraySize> Flatten<T, S> for Array<Array<T, M>, N> {
    ghost flat = { joined };

    ghost fits = { λ _ size. size ≡ N.USIZE * M.USIZE };

    fn flatten(self, alloc: Global) -> Result<Array<T, S>, AllocError> {
        let mut items = Vec::with_capacity(alloc, S::USIZE)?;
        for row in self.into_vec() {
            let mut row = row.into_vec();
            items.append(&mut row)?;
        }
        Ok(Array::of(items))
    }
}

/// Arrays whose items are cut into `M::USIZE` runs of `Q::USIZE` items.
pub trait Unflatten<M: ArraySize, Q: ArraySize> {
    /// An item of a run.
    type Item;

    /// The runs.
    ghost cut: { Self → List (List Self.Item) };

    /// Whether the runs take all items.
    ghost fits: { Self → Type 0 };

    /// An array of the runs, in order.
    fn unflatten(self, alloc: Global) -> Result<Array<Array<Self::Item, Q>, M>, AllocError>
        requires { fits self }
        ensures { IfOk result (λ rows. rows ≡ cut self) };
}

impl<T: Drop, N: ArraySize, M: ArraySize, Q: ArraySize> Unflatten<M, Q> for Array<T, N> {
    type Item = T;

    ghost cut = { runs Q.USIZE M.USIZE };

    ghost fits = { λ _. (N.USIZE ≡ M.USIZE * Q.USIZE) × (0 < M.USIZE) };

    fn unflatten(self, alloc: Global) -> Result<Array<Array<T, Q>, M>, AllocError> {
        let mut rows = Vec::with_capacity(alloc, M::USIZE)?;
        let mut rest = self.into_vec();
        for i in 0..M::USIZE {
            let later = rest.split_off(Q::USIZE)?;
            rows.push_reserved(Array::of(rest));
            rest = later;
        }
        Ok(Array::of(rows))
    }
}

impl<T, U: ArraySize> Array<T, U> {
    /// The items cut into `M::USIZE` chunks of `Q::USIZE` items, borrowed.
    #[inline]
    pub fn unflatten_ref<M: ArraySize, Q: ArraySize>(&self) -> Chunks<'_, T, Q>
        requires some { 0 < Q.USIZE }
        requires whole { U.USIZE ≡ M.USIZE * Q.USIZE }
        ensures { result ≡ self.now }
    {
        let (chunks, _) = Array::<T, Q>::slice_as_chunks(self.as_slice());
        chunks
    }
}
