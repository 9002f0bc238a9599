//! Byte strings whose length a type gives.
ghost use Rattle.std.specs.Prelude.{◌≡◌, ◌↔◌, ℕ, ◌≤◌, length, take, IsOk, IfOk};

use crate::params::MAX_N;
use hybrid_array::{ArrayRef, ArraySize, TryFromSliceError};
use std::alloc::AllocError;
use std::marker::{Model, PhantomData};

/// `N::USIZE` bytes, at most `MAX_N`: a seed, a hash value or a message.
#[derive(Drop)]
pub struct NBytes<N: ArraySize> {
    store: [u8; MAX_N],
    size: PhantomData<N>,
}

impl<N: ArraySize> Model for NBytes<N> {
    ghost use Rattle.std.specs.Prelude.{ℕ, List, take, ◌≤◌};
    ghost use Rattle.slh_core.specs.declared.params.TheConstants.{MAX_N};

    ghost Value = { List ℕ };

    ghost view = { λ s. take N.USIZE s.store };

    ghost invariant = { λ s. N.USIZE ≤ MAX_N };
}

impl<N: ArraySize> NBytes<N> {
    /// The bytes of a slice, refused where its length isn't `N::USIZE`.
    pub fn from_slice(slice: &[u8]) -> Result<Self, TryFromSliceError>
        requires { N.USIZE ≤ MAX_N }
        ensures ok { IsOk result ↔ (length slice.now ≡ N.USIZE) }
        ensures value { IfOk result (λ bytes. bytes ≡ slice.now) }
    {
        if slice.len() != N::USIZE {
            return Err(TryFromSliceError);
        }
        Ok(Self::exact(slice))
    }

    /// The bytes of a view, which has the length by its type.
    #[inline]
    pub fn from_view(view: ArrayRef<'_, u8, N>) -> Self
        requires { N.USIZE ≤ MAX_N }
        ensures { result ≡ view.entry }
    {
        Self::exact(view.as_slice())
    }

    /// The bytes of a slice that is known to have the length.
    #[inline]
    pub fn exact(slice: &[u8]) -> Self
        requires small { N.USIZE ≤ MAX_N }
        requires len { length slice.now ≡ N.USIZE }
        ensures { result ≡ slice.now }
    {
        let mut store = [0u8; MAX_N];
        store[..N::USIZE].copy_from_slice(slice);
        NBytes {
            store,
            size: PhantomData,
        }
    }

    /// The first bytes of a store.
    #[inline]
    pub fn first_of(store: [u8; MAX_N]) -> Self
        requires { N.USIZE ≤ MAX_N }
        ensures { result ≡ take N.USIZE store }
    {
        NBytes {
            store,
            size: PhantomData,
        }
    }

    /// The bytes. That there are at most `MAX_N` is known once this was called.
    #[inline]
    pub fn as_slice(&self) -> &[u8]
        ensures value { result.now ≡ self.now }
        ensures len { length result.now ≡ N.USIZE }
        ensures small { N.USIZE ≤ MAX_N }
    {
        &self.store[..N::USIZE]
    }

    /// The same bytes again.
    #[inline]
    pub fn copy(&self) -> Self
        ensures { result ≡ self.now }
    {
        NBytes {
            store: self.store,
            size: PhantomData,
        }
    }
}

impl<N: ArraySize> Clone for NBytes<N> {
    ghost use Rattle.std.specs.Prelude.{◌≡◌, ⊤};

    ghost is_clone = { λ bytes copy. copy ≡ bytes };

    ghost is_infallible = { λ _. ⊤ };

    fn clone(&self) -> Result<Self, AllocError> {
        Ok(self.copy())
    }
}

impl<N: ArraySize> PartialEq for NBytes<N> {
    ghost use Rattle.std.specs.Prelude.{◌==◌};
    ghost use Rattle.std.specs.Cmp.Rules.{comparing};
    ghost use Rattle.std.specs.Cmp.Lexicographic.{pointwise};
    ghost use Rattle.std.proofs.Common.{rules};

    ghost eq = { pointwise ◌==◌ };

    ghost laws = { Prim.search (comparing, rules) };

    fn eq(&self, other: &Self) -> bool {
        self.as_slice() == other.as_slice()
    }
}

impl<N: ArraySize> Eq for NBytes<N> {
    ghost use Rattle.std.specs.Cmp.Rules.{comparing};
    ghost use Rattle.std.proofs.Common.{rules};

    ghost laws = { Prim.search (comparing, rules) };
}
