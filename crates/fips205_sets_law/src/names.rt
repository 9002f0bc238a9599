//! The name of each set, by its constant and by its call.
ghost use Rattle.std.specs.Prelude.{◌≡◌};

use slh_dsa::{ParameterSet, Sha2_128f, Sha2_128s, Sha2_192f, Sha2_192s, Sha2_256f, Sha2_256s};
use slh_trees::toy::Toy;

/// `NAME` of SLH-DSA-SHA2-128s, which is what its `set_name()` gives.
pub fn name_of_128s() -> &'static str
    ensures { result.now ≡ ⟦<Sha2_128s as ParameterSet>⟧.set_name }
{
    <Sha2_128s as ParameterSet>::NAME
}

/// `NAME` of SLH-DSA-SHA2-128f, which is what its `set_name()` gives.
pub fn name_of_128f() -> &'static str
    ensures { result.now ≡ ⟦<Sha2_128f as ParameterSet>⟧.set_name }
{
    <Sha2_128f as ParameterSet>::NAME
}

/// `NAME` of SLH-DSA-SHA2-192s, which is what its `set_name()` gives.
pub fn name_of_192s() -> &'static str
    ensures { result.now ≡ ⟦<Sha2_192s as ParameterSet>⟧.set_name }
{
    <Sha2_192s as ParameterSet>::NAME
}

/// `NAME` of SLH-DSA-SHA2-192f, which is what its `set_name()` gives.
pub fn name_of_192f() -> &'static str
    ensures { result.now ≡ ⟦<Sha2_192f as ParameterSet>⟧.set_name }
{
    <Sha2_192f as ParameterSet>::NAME
}

/// `NAME` of SLH-DSA-SHA2-256s, which is what its `set_name()` gives.
pub fn name_of_256s() -> &'static str
    ensures { result.now ≡ ⟦<Sha2_256s as ParameterSet>⟧.set_name }
{
    <Sha2_256s as ParameterSet>::NAME
}

/// `NAME` of SLH-DSA-SHA2-256f, which is what its `set_name()` gives.
pub fn name_of_256f() -> &'static str
    ensures { result.now ≡ ⟦<Sha2_256f as ParameterSet>⟧.set_name }
{
    <Sha2_256f as ParameterSet>::NAME
}

/// `NAME` of the toy set of the tests, which is what its `set_name()` gives.
pub fn name_of_toy() -> &'static str
    ensures { result.now ≡ ⟦<Toy as ParameterSet>⟧.set_name }
{
    <Toy as ParameterSet>::NAME
}
