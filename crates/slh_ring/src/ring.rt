//! Rings: the paths of the keys that are in use.
ghost use Rattle.std.specs.Prelude.{◌≡◌, ◌+◌, ◌<◌, ◌≤◌, [], length, slice_get, OnOk, OnErr};
ghost use Rattle.std.specs.Option.{option_copied};
ghost use Rattle.slh_ring.specs.Rings.{IsRing, add_refusal, has_path, with_path, without_path};
ghost use Rattle.slh_core.specs.Refusals.{RefusedOrNoMemory};
ghost use Rattle.slh_ring.specs.declared.error.RingError.TheVariants.{Memory};

use crate::error::RingError;
use crate::path::Path;
use slh_dsa::SetSizes;
use std::alloc::{AllocError, Global};
use std::collections::BTreeSet;
use std::fmt;
use std::marker::{Model, PhantomData};

/// The most paths of a ring.
pub const MAX_PATHS: usize = 64;

/// The paths of up to 64 keys of one parameter set. Clauses see it as the list of them, in order.
#[derive(Drop)]
pub struct Ring<P: SetSizes> {
    paths: BTreeSet<Path>,
    set: PhantomData<P>,
}

impl<P: SetSizes> Model for Ring<P> {
    ghost use Rattle.std.specs.Prelude.{List, ℕ};
    ghost use Rattle.slh_ring.specs.Rings.{IsKept};

    ghost Value = { List (List ℕ) };

    ghost view = { λ r. r.paths.keys };

    ghost invariant = { λ r. IsKept r.paths.keys };
}

impl<P: SetSizes> Ring<P> {
    /// No paths. It takes no memory.
    pub fn new(alloc: Global) -> Self
        ensures { result ≡ [] }
    {
        Ring {
            paths: BTreeSet::new(alloc),
            set: PhantomData,
        }
    }

    /// Puts a path at its place, in memory of the allocator that the ring was made with. After a
    /// refusal the ring is as it was. `Present`: the path is there; `Full`: it isn't, and 64 others
    /// are; `Memory`.
    pub fn add(&mut self, path: Path) -> Result<(), RingError>
        ensures refusal { RefusedOrNoMemory Memory result (add_refusal self.old path) }
        ensures added { OnOk result (self.new ≡ with_path self.old path) }
        ensures same { OnErr result (self.new ≡ self.old) }
        ensures one { length self.new ≤ length self.old + 1 }
    {
        if self.paths.contains(&path) {
            return Err(RingError::Present);
        }
        if self.paths.len() >= MAX_PATHS {
            return Err(RingError::Full);
        }
        self.put(path)?;
        Ok(())
    }

    /// Puts a path at its place, where there is room and unless it is there.
    pub(crate) fn put(&mut self, path: Path) -> Result<(), AllocError>
        requires { length self.old < 64 }
        ensures put { OnOk result (self.new ≡ with_path self.old path) }
        ensures same { OnErr result (self.new ≡ self.old) }
        ensures one { length self.new ≤ length self.old + 1 }
    {
        // its clause says that this is a path
        let _numbers = path.as_slice();
        match self.paths.insert(path) {
            Ok(_) => Ok(()),
            Err(_) => Err(AllocError),
        }
    }

    /// Whether a path is there.
    pub fn contains(&self, path: &Path) -> bool
        ensures { result ≡ has_path self.now path.now }
    {
        self.paths.contains(path)
    }

    /// Takes a path out, and says whether it was there.
    pub fn remove(&mut self, path: &Path) -> bool
        ensures found { result ≡ has_path self.old path.now }
        ensures removed { self.new ≡ without_path self.old path.now }
    {
        self.paths.remove(path)
    }

    /// The paths in order.
    pub fn paths(&self) -> &BTreeSet<Path>
        ensures { result.now.keys ≡ self.now }
    {
        &self.paths
    }

    /// How many paths there are, at most 64.
    pub fn len(&self) -> usize
        ensures len { result ≡ length self.now }
        ensures ring { IsRing self.now }
    {
        self.paths.len()
    }

    /// The path at an index from 0, in order. `None`: there are not so many.
    pub fn get(&self, i: usize) -> Option<&Path>
        ensures { option_copied result ≡ slice_get self.now i }
    {
        self.paths.iter().nth(i)
    }
}

impl<P: SetSizes> Clone for Ring<P> {
    ghost use Rattle.std.specs.Prelude.{◌≡◌};

    ghost is_clone = { λ ring copy. copy ≡ ring };

    fn clone(&self) -> Result<Self, AllocError> {
        Ok(Ring {
            paths: self.paths.clone()?,
            set: PhantomData,
        })
    }
}

/// Rings are equal where they have the same paths.
impl<P: SetSizes> PartialEq for Ring<P> {
    ghost use Rattle.std.specs.Prelude.{◌==◌};
    ghost use Rattle.std.specs.Cmp.Rules.{comparing};
    ghost use Rattle.std.specs.Cmp.Lexicographic.{pointwise};
    ghost use Rattle.std.proofs.Common.{rules};

    ghost eq = { pointwise (pointwise ◌==◌) };

    ghost laws = { Prim.search (comparing, rules) };

    fn eq(&self, other: &Self) -> bool {
        self.paths == other.paths
    }
}

impl<P: SetSizes> Eq for Ring<P> {
    ghost use Rattle.std.specs.Cmp.Rules.{comparing};
    ghost use Rattle.std.proofs.Common.{rules};

    ghost laws = { Prim.search (comparing, rules) };
}

/// The paths, as a set shows them.
impl<P: SetSizes> fmt::Debug for Ring<P> {
    fn fmt<W: fmt::Write>(&self, f: &mut fmt::Formatter<W>) -> fmt::Result {
        self.paths.fmt(f)
    }
}
