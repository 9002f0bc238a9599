//! Clones and equality of values, as the contracts of functions that do nothing else.
ghost use Rattle.std.specs.Prelude.{◌≡◌, ◌↔◌, IsTrue};
ghost use Rattle.slh_chain.specs.declared.error.ChainError.{ChainError};
ghost use Rattle.slh_chain.specs.declared.error.UnderError.{UnderError};

use crate::error::{ChainError, ExtendError, LinkError, UnderError};
use crate::walking::End;
use slh_dsa::SetSizes;

/// A clone of why no link was made is the same, and `==` holds exactly where both are the same.
pub fn clone_and_equality_of_link_errors(a: &LinkError, b: &LinkError) -> (LinkError, bool)
    ensures clone { result.0 ≡ a.now }
    ensures equal { IsTrue result.1 ↔ (a.now ≡ b.now) }
{
    (a.clone().unwrap(), a == b)
}

/// Likewise for why a chain leads nowhere.
pub fn clone_and_equality_of_chain_errors(a: &ChainError, b: &ChainError) -> (ChainError, bool)
    ensures clone { result.0 ≡ a.now }
    ensures equal { IsTrue result.1 ↔ (a.now ≡ b.now) }
{
    (a.clone().unwrap(), a == b)
}

/// Likewise for where a chain ends.
pub fn clone_and_equality_of_ends<P: SetSizes>(a: &End<P>, b: &End<P>) -> (End<P>, bool)
    ensures clone { result.0 ≡ a.now }
    ensures equal { IsTrue result.1 ↔ (a.now ≡ b.now) }
{
    (a.clone().unwrap(), a == b)
}

/// Likewise for why a chain isn't made longer.
pub fn clone_and_equality_of_extend_errors(a: &ExtendError, b: &ExtendError) -> (ExtendError, bool)
    ensures clone { result.0 ≡ a.now }
    ensures equal { IsTrue result.1 ↔ (a.now ≡ b.now) }
{
    (a.clone().unwrap(), a == b)
}

/// Likewise for why a message isn't accepted under a chain.
pub fn clone_and_equality_of_under_errors(a: &UnderError, b: &UnderError) -> (UnderError, bool)
    ensures clone { result.0 ≡ a.now }
    ensures equal { IsTrue result.1 ↔ (a.now ≡ b.now) }
{
    (a.clone().unwrap(), a == b)
}
