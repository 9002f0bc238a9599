//! What is done in a set that is known only when the program runs.
ghost use Rattle.std.specs.Prelude.{◌≡◌, ℕ, List, length};
ghost use Rattle.slh_core.specs.Parameters.{Scheme};
ghost use Rattle.slh_sets.specs.Sets.{name_of, scheme_for};

use crate::set::Set;
use slh_dsa::{SetSizes, Sha2_128f, Sha2_128s, Sha2_192f, Sha2_192s, Sha2_256f, Sha2_256s};
use slh_hash::ResumableSuite;

/// What each of the sets is as a type.
pub trait SetSuite: SetSizes + ResumableSuite {}

impl SetSuite for Sha2_128s {}

impl SetSuite for Sha2_128f {}

impl SetSuite for Sha2_192s {}

impl SetSuite for Sha2_192f {}

impl SetSuite for Sha2_256s {}

impl SetSuite for Sha2_256f {}

/// Something to do, of which only the parameter set isn't known.
pub trait OnSet {
    /// What it gives.
    type Out: Drop;

    /// What is said of it, for a suite with its sizes, and for the name of the set.
    ghost gives: { Self → Scheme → List ℕ → Self.Out → Type 0 };

    /// Does it.
    fn on<P: SetSuite>(self) -> Self::Out
        ensures { gives self P.scheme P.set_name result };
}

/// Something to write into a slice of the caller's, of which only the parameter set isn't known.
pub trait WriteOnSet {
    /// What it answers.
    type Out: Drop;

    /// What is said of the answer, for a suite with its sizes, where there is room for so many
    /// bytes.
    ghost gives: { Self → Scheme → ℕ → Self.Out → Type 0 };

    /// Which answers tell that the bytes were written. After all others they are as before.
    ghost wrote: { Self.Out → Type 0 };

    /// What is said of the bytes then.
    ghost writes: { Self → Scheme → List ℕ → Type 0 };

    /// Writes them.
    fn write<P: SetSuite>(self, out: &mut [u8]) -> Self::Out
        ensures answer { gives self P.scheme (length out.old) result }
        ensures value { wrote result → writes self P.scheme out.new }
        ensures same { (wrote result → ⊥) → out.new ≡ out.old };
}

/// Something to do in a scratch buffer of the caller's, of which only the parameter set isn't known.
/// Nothing is said of what the buffer holds afterwards.
pub trait OnSetInScratch {
    /// What it gives.
    type Out: Drop;

    /// What is said of it, for a suite with its sizes, for the name of the set, and where the buffer
    /// has so many bytes.
    ghost gives: { Self → Scheme → List ℕ → ℕ → Self.Out → Type 0 };

    /// Does it.
    fn on<P: SetSuite>(self, scratch: &mut [u8]) -> Self::Out
        ensures { gives self P.scheme P.set_name (length scratch.old) result };
}

impl Set {
    /// Does something in this set.
    pub fn run<T: OnSet>(self, task: T) -> T::Out
        ensures { T.gives task (scheme_for self) (name_of self) result }
    {
        match self {
            Set::Sha2_128s => task.on::<Sha2_128s>(),
            Set::Sha2_128f => task.on::<Sha2_128f>(),
            Set::Sha2_192s => task.on::<Sha2_192s>(),
            Set::Sha2_192f => task.on::<Sha2_192f>(),
            Set::Sha2_256s => task.on::<Sha2_256s>(),
            Set::Sha2_256f => task.on::<Sha2_256f>(),
        }
    }

    /// Does something in a scratch buffer, in this set.
    pub fn run_in_scratch<T: OnSetInScratch>(self, task: T, scratch: &mut [u8]) -> T::Out
        ensures { T.gives task (scheme_for self) (name_of self) (length scratch.old) result }
    {
        match self {
            Set::Sha2_128s => task.on::<Sha2_128s>(scratch),
            Set::Sha2_128f => task.on::<Sha2_128f>(scratch),
            Set::Sha2_192s => task.on::<Sha2_192s>(scratch),
            Set::Sha2_192f => task.on::<Sha2_192f>(scratch),
            Set::Sha2_256s => task.on::<Sha2_256s>(scratch),
            Set::Sha2_256f => task.on::<Sha2_256f>(scratch),
        }
    }

    /// Writes something into a slice, in this set.
    pub fn run_into<T: WriteOnSet>(self, task: T, out: &mut [u8]) -> T::Out
        ensures answer { T.gives task (scheme_for self) (length out.old) result }
        ensures value { T.wrote result → T.writes task (scheme_for self) out.new }
        ensures same { (T.wrote result → ⊥) → out.new ≡ out.old }
    {
        match self {
            Set::Sha2_128s => task.write::<Sha2_128s>(out),
            Set::Sha2_128f => task.write::<Sha2_128f>(out),
            Set::Sha2_192s => task.write::<Sha2_192s>(out),
            Set::Sha2_192f => task.write::<Sha2_192f>(out),
            Set::Sha2_256s => task.write::<Sha2_256s>(out),
            Set::Sha2_256f => task.write::<Sha2_256f>(out),
        }
    }
}
