//! Arrays of what a closure answers.

ghost use Rattle.std.specs.Prelude.{◌≡◌, ◌<◌, List, length, vec_len, All, IfOk, IfErr, OnErr};
ghost use Rattle.hybrid_array.specs.Calls.{Answers, AnswersOk, Stops, Maps};
ghost use Rattle.hybrid_array.specs.Refusals.{IfCaller, OnMemory};

use crate::{Array, ArraySize, MakeError};
use std::alloc::{AllocError, Global};

// What a closure answers to 0, 1 and so on, below `count`. It is left as these calls leave it.
fn answers_of<T: Drop, F: FnMut(usize) -> T>(
    alloc: Global,
    count: usize,
    f: &mut F,
) -> Result<Vec<T>, AllocError>
    requires { F.IsAlwaysCallable f.old }
    ensures len { IfOk result (λ answers. vec_len answers ≡ count) }
    ensures value { IfOk result (λ answers. Answers F.step 0 f.old answers.items f.new) }
    ensures uncalled { OnErr result (f.new ≡ f.old) }
{
    let mut answers = Vec::with_capacity(alloc, count)?;
    for i in 0..count {
        answers.push_reserved(f(i));
    }
    Ok(answers)
}

// The same up to the closure's first error, which is its last call.
fn try_answers_of<T: Drop, E, F: FnMut(usize) -> Result<T, E>>(
    alloc: Global,
    count: usize,
    f: &mut F,
) -> Result<Vec<T>, MakeError<E>>
    requires { F.IsAlwaysCallable f.old }
    ensures len { IfOk result (λ items. vec_len items ≡ count) }
    ensures value { IfOk result (λ items. Answers (AnswersOk F.step) 0 f.old items.items f.new) }
    ensures caller { IfErr result (IfCaller (λ e.
        (items : List T) × Stops F.step f.old items e count f.new)) }
    ensures uncalled { OnMemory (f.new ≡ f.old) result }
{
    let mut items = match Vec::with_capacity(alloc, count) {
        Ok(items) => items,
        Err(error) => return Err(MakeError::Memory(error)),
    };
    for i in 0..count {
        match f(i) {
            Ok(item) => items.push_reserved(item),
            Err(error) => return Err(MakeError::Caller(error)),
        }
    }
    Ok(items)
}

// What a closure answers to each item, in order. It is left as these calls leave it.
fn maps_of<T: Drop, O: Drop, F: FnMut(T) -> O>(
    alloc: Global,
    from: Vec<T>,
    f: &mut F,
) -> Result<Vec<O>, AllocError>
    requires { F.IsAlwaysCallable f.old }
    ensures len { IfOk result (λ items. vec_len items ≡ vec_len from) }
    ensures value { IfOk result (λ items. Maps F.step f.old from.items items.items f.new) }
    ensures uncalled { OnErr result (f.new ≡ f.old) }
{
    let mut items = Vec::with_capacity(alloc, from.len())?;
    for x in from {
        items.push_reserved(f(x));
    }
    Ok(items)
}

impl<T: Drop, U: ArraySize> Array<T, U> {
    /// The array of what a closure answers to 0, 1 and so on. Memory is taken before the first
    /// call.
    pub fn from_fn<F: FnMut(usize) -> T>(alloc: Global, mut f: F) -> Result<Self, AllocError>
    where
        F: Drop,
        requires { F.IsAlwaysCallable f }
        ensures len { IfOk result (λ array. length array ≡ U.USIZE) }
        ensures value { IfOk result (λ array. (last : F) × Answers F.step 0 f array last) }
    {
        Ok(Array::of(answers_of(alloc, U::USIZE, &mut f)?))
    }

    /// The array of what a closure answers to 0, 1 and so on, up to the first error, after which
    /// it isn't called again and the items so far are dropped. Memory is taken before the first
    /// call.
    pub fn try_from_fn<E, F: FnMut(usize) -> Result<T, E>>(
        alloc: Global,
        mut f: F,
    ) -> Result<Self, MakeError<E>>
    where
        F: Drop,
        requires { F.IsAlwaysCallable f }
        ensures len { IfOk result (λ array. length array ≡ U.USIZE) }
        ensures value { IfOk result (λ array.
            (last : F) × Answers (AnswersOk F.step) 0 f array last) }
        ensures caller { IfErr result (IfCaller (λ e.
            (items : List T) × (last : F) × Stops F.step f items e U.USIZE last)) }
    {
        match try_answers_of(alloc, U::USIZE, &mut f) {
            Ok(items) => Ok(Array::of(items)),
            Err(error) => Err(error),
        }
    }

    /// The array of what a closure answers to each item, in order. Memory is taken before the
    /// first call.
    pub fn map<O: Drop, F: FnMut(T) -> O>(
        self,
        alloc: Global,
        mut f: F,
    ) -> Result<Array<O, U>, AllocError>
    where
        F: Drop,
        requires { F.IsAlwaysCallable f }
        ensures len { IfOk result (λ array. length array ≡ U.USIZE) }
        ensures value { IfOk result (λ array. (last : F) × Maps F.step f self array last) }
    {
        Ok(Array::of(maps_of(alloc, self.into_vec(), &mut f)?))
    }

    /// An array whose items are all the default.
    pub fn default(alloc: Global) -> Result<Self, AllocError>
    where
        T: Default,
        ensures len { IfOk result (λ array. length array ≡ U.USIZE) }
        ensures value { IfOk result (λ array. All T.is_default array) }
    {
        let mut items = Vec::with_capacity(alloc, U::USIZE)?;
        for _i in 0..U::USIZE {
            items.push_reserved(T::default());
        }
        Ok(Array::of(items))
    }
}
