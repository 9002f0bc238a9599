//! What tells sets apart, as contracts.
ghost use Rattle.std.specs.Prelude.{◌≡◌, ◌↔◌, IsTrue, Some};
ghost use Rattle.slh_sets.specs.Sets.{name_of, number_of, set_named, set_numbered};
ghost use Rattle.slh_sets.specs.declared.set.Set.{Set as AnySet};

use crate::set::Set;

/// Each set has a name and a number of its own.
pub fn names_and_numbers_are_read()
    ensures name { (set : AnySet) → set_named (name_of set) ≡ Some set }
    ensures number { (set : AnySet) → set_numbered (number_of set) ≡ Some set }
{}

/// A clone of a set is that set, and `==` holds exactly where both are the same.
pub fn clone_and_equality_of_sets(a: &Set, b: &Set) -> (Set, bool)
    ensures clone { result.0 ≡ a.now }
    ensures equal { IsTrue result.1 ↔ (a.now ≡ b.now) }
{
    (a.clone().unwrap(), a == b)
}
