//! Laws of arrays and of refusals, each the contract of a function that makes the calls that it
//! speaks of.

ghost use Rattle.std.specs.Prelude.{◌≡◌, ◌↔◌, ◌+◌, ◌*◌, ◌<◌, IfOk, IsTrue};

use crate::{
    Array, ArraySize, Flatten, IterError, SliceError, TryFromIteratorError, TryFromSliceError,
    Unflatten,
};
use std::alloc::{AllocError, Global};

/// Two arrays that are joined and cut again, at the first one's size, are both given back.
pub fn concat_then_split<T: Drop, N: ArraySize, R: ArraySize, S: ArraySize>(
    alloc: Global,
    first: Array<T, N>,
    second: Array<T, R>,
) -> Result<(Array<T, N>, Array<T, R>), AllocError>
    requires { S.USIZE ≡ N.USIZE + R.USIZE }
    ensures first { IfOk result (λ both. both.0 ≡ first) }
    ensures second { IfOk result (λ both. both.1 ≡ second) }
{
    let both: Array<T, S> = first.concat(alloc, second)?;
    both.split(alloc)
}

/// An array that is cut into runs, and these joined again, is given back.
pub fn unflatten_then_flatten<T: Drop, N: ArraySize, M: ArraySize, Q: ArraySize>(
    alloc: Global,
    array: Array<T, N>,
) -> Result<Array<T, N>, AllocError>
    requires whole { N.USIZE ≡ M.USIZE * Q.USIZE }
    requires some { 0 < M.USIZE }
    ensures { IfOk result (λ back. back ≡ array) }
{
    let _items = array.as_slice();
    let rows: Array<Array<T, Q>, M> = array.unflatten(alloc)?;
    let back = rows.flatten(alloc)?;
    Ok(back)
}

/// A clone of a length's refusal is that refusal, and all are equal.
pub fn clone_and_equality_of_slice_errors(
    a: &TryFromSliceError,
    b: &TryFromSliceError,
) -> (TryFromSliceError, bool)
    ensures clone { result.0 ≡ a.now }
    ensures equal { IsTrue result.1 ↔ (a.now ≡ b.now) }
{
    (a.clone().unwrap(), a == b)
}

/// A clone of a count's refusal is that refusal, and all are equal.
pub fn clone_and_equality_of_iterator_errors(
    a: &TryFromIteratorError,
    b: &TryFromIteratorError,
) -> (TryFromIteratorError, bool)
    ensures clone { result.0 ≡ a.now }
    ensures equal { IsTrue result.1 ↔ (a.now ≡ b.now) }
{
    (a.clone().unwrap(), a == b)
}

/// A clone of a slice's refusal is that refusal, and `==` holds exactly where both are the same.
pub fn clone_and_equality_of_slice_refusals(a: &SliceError, b: &SliceError) -> (SliceError, bool)
    ensures clone { result.0 ≡ a.now }
    ensures equal { IsTrue result.1 ↔ (a.now ≡ b.now) }
{
    (a.clone().unwrap(), a == b)
}

/// A clone of an iterator's refusal is that refusal, and `==` holds exactly where both are the
/// same.
pub fn clone_and_equality_of_iterator_refusals(a: &IterError, b: &IterError) -> (IterError, bool)
    ensures clone { result.0 ≡ a.now }
    ensures equal { IsTrue result.1 ↔ (a.now ≡ b.now) }
{
    (a.clone().unwrap(), a == b)
}
