//! Paths of keys.
ghost use Rattle.std.specs.Prelude.{◌≡◌, ◌↔◌, ◌≤◌, length, IsSome, IfSome};
ghost use Rattle.slh_ring.specs.Paths.{IsPath};

use std::alloc::AllocError;
use std::cmp::Ordering;
use std::fmt;
use std::marker::Model;

/// The most numbers of a path.
pub const MAX_NUMBERS: usize = 8;

/// Where a key stands under a master secret: 0 to 8 numbers, as of a product, a year and a device.
/// Clauses see it as the list of them.
#[derive(Drop)]
pub struct Path {
    store: [u32; MAX_NUMBERS],
    len: usize,
}

impl Model for Path {
    ghost use Rattle.std.specs.Prelude.{List, ℕ, take, ◌≤◌};
    ghost use Rattle.slh_ring.specs.Paths.{IsPath};

    ghost Value = { List ℕ };

    ghost view = { λ p. take p.len p.store };

    ghost invariant = { λ p. IsPath (take p.len p.store) × (p.len ≤ 8) };
}

impl Path {
    /// The path of these numbers. `None`: there are more than 8.
    pub fn from_slice(parts: &[u32]) -> Option<Path>
        ensures some { IsSome result ↔ (length parts.now ≤ 8) }
        ensures value { IfSome result (λ path. path ≡ parts.now) }
    {
        if parts.len() > MAX_NUMBERS {
            return None;
        }
        let mut store = [0u32; MAX_NUMBERS];
        store[..parts.len()].copy_from_slice(parts);
        Some(Path {
            store,
            len: parts.len(),
        })
    }

    /// The numbers.
    pub fn as_slice(&self) -> &[u32]
        ensures value { result.now ≡ self.now }
        ensures path { IsPath self.now }
    {
        &self.store[..self.len]
    }
}

impl Clone for Path {
    ghost use Rattle.std.specs.Prelude.{◌≡◌, ⊤};

    ghost is_clone = { λ path copy. copy ≡ path };

    ghost is_infallible = { λ _. ⊤ };

    fn clone(&self) -> Result<Self, AllocError> {
        Ok(Path {
            store: self.store,
            len: self.len,
        })
    }
}

/// The numbers, as a slice shows them.
impl fmt::Debug for Path {
    fn fmt<W: fmt::Write>(&self, f: &mut fmt::Formatter<W>) -> fmt::Result {
        self.as_slice().fmt(f)
    }
}

/// Paths are equal where their numbers are.
impl PartialEq for Path {
    ghost use Rattle.std.specs.Prelude.{◌==◌};
    ghost use Rattle.std.specs.Cmp.Rules.{comparing};
    ghost use Rattle.std.specs.Cmp.Lexicographic.{pointwise};
    ghost use Rattle.std.proofs.Common.{rules};

    ghost eq = { pointwise ◌==◌ };

    ghost laws = { Prim.search (comparing, rules) };

    fn eq(&self, other: &Self) -> bool {
        self.as_slice() == other.as_slice()
    }
}

impl Eq for Path {
    ghost use Rattle.std.specs.Cmp.Rules.{comparing};
    ghost use Rattle.std.proofs.Common.{rules};

    ghost laws = { Prim.search (comparing, rules) };
}

/// Paths are ordered as lists: by the first number that differs, and a path before those that go on
/// from it.
impl PartialOrd for Path {
    ghost use Rattle.std.specs.Ordering.{as_partial_cmp, nat_cmp};
    ghost use Rattle.std.specs.Cmp.Rules.{comparing};
    ghost use Rattle.std.specs.Cmp.Lexicographic.{slice_cmp};
    ghost use Rattle.std.proofs.Common.{rules};
    ghost use Rattle.std.specs.Cmp.{partial_order_from_own_ties};

    ghost partial_cmp = { as_partial_cmp (slice_cmp nat_cmp) };

    ghost laws = { partial_order_from_own_ties
        (Prim.search (comparing, rules)) (Prim.search (comparing, rules)) };

    fn partial_cmp(&self, other: &Self) -> Option<Ordering> {
        Some(self.cmp(other))
    }
}

impl Ord for Path {
    ghost use Rattle.std.specs.Ordering.{nat_cmp};
    ghost use Rattle.std.specs.Cmp.Rules.{comparing};
    ghost use Rattle.std.specs.Cmp.Lexicographic.{slice_cmp};
    ghost use Rattle.std.proofs.Common.{refl, rules};

    ghost cmp = { slice_cmp nat_cmp };

    ghost total = { Prim.search (comparing, rules) };

    ghost matches_partial_cmp = { λ x y. refl };

    ghost matches_eq = { Prim.search (comparing, rules) };

    fn cmp(&self, other: &Self) -> Ordering {
        self.as_slice().cmp(other.as_slice())
    }
}
