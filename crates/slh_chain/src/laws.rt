//! Laws of links and chains, as the contracts of functions that do nothing but make the calls that
//! they speak of.
ghost use Rattle.std.specs.Prelude.{◌≡◌, ◌≤◌, ◌+◌, ◌++◌, ℕ, List, length, Ok, Err, true};
ghost use Rattle.slh_chain.specs.Delegations.{AreDelegated, Delegation, chain_of, last_depth};
ghost use Rattle.slh_chain.specs.Delegations.{last_subject};
ghost use Rattle.slh_chain.specs.Links.{HasLink, ReadsLink, after_link, has_form, link_depth};
ghost use Rattle.slh_chain.specs.Links.{link_name, link_signature, link_subject};
ghost use Rattle.slh_chain.specs.Walks.{Ended, IsFaulty, IsGood, ended_at, place, walk_answer};
ghost use Rattle.slh_chain.specs.declared.error.ChainError.{ChainError};

use crate::error::ChainError;
use slh_core::params::chain_sizes;
use slh_dsa::SetSizes;
use slh_dsa::laws::signed_is_accepted;

/// A chain is cut in one way: bytes begin with the link of some parts exactly where they have the
/// form, and the parts that are read are these.
pub fn links_are_cut_once<P: SetSizes>()
    ensures read { (depth : ℕ) (name subject sig rest bytes : List ℕ)
        → HasLink P.scheme depth name subject sig rest bytes
        → ReadsLink P.scheme depth name subject sig rest bytes }
    ensures written { (bytes : List ℕ)
        → let Z = P.scheme in has_form Z bytes ≡ true
        → HasLink Z (link_depth bytes) (link_name bytes) (link_subject Z bytes)
        (link_signature Z bytes) (after_link Z bytes) bytes }
{}

/// A walk comes to the end exactly where every link is good, of which there are at most 16, and it
/// comes to a fault exactly where that is the one of the first link that isn't good.
pub fn walks_are_exact<P: SetSizes>()
    ensures good { (root chain : List ℕ) (end : Ended) → let Z = P.scheme in
        walk_answer Z root chain ≡ Ok end
        → IsGood Z root chain end.links
        × (end ≡ ended_at end.links (place Z root chain end.links)) }
    ensures ended { (root chain : List ℕ) (links : ℕ) → let Z = P.scheme in
        IsGood Z root chain links
        → walk_answer Z root chain ≡ Ok (ended_at links (place Z root chain links)) }
    ensures few { (root chain : List ℕ) (links : ℕ)
        → IsGood P.scheme root chain links
        → links ≤ 16 }
    ensures faulty { (root chain : List ℕ) (fault : ChainError) → let Z = P.scheme in
        walk_answer Z root chain ≡ Err fault
        → (i : ℕ) × IsFaulty Z root chain i fault }
    ensures refused { (root chain : List ℕ) (i : ℕ) (fault : ChainError) → let Z = P.scheme in
        IsFaulty Z root chain i fault
        → walk_answer Z root chain ≡ Err fault }
{}

/// Links that true keys made, the first one's verifying key the root key and each later one's the
/// subject before it, with falling depths below 16, are walked to the last subject.
pub fn delegated_is_walked<P: SetSizes>()
    ensures { (root : List ℕ) (xs : List Delegation)
        → AreDelegated P.scheme root 16 xs
        → walk_answer P.scheme root (chain_of P.scheme xs) ≡ Ok (record {
          key = last_subject root xs;
          budget = last_depth 16 xs;
          links = length xs;
        }) }
{
    chain_sizes::<P>();
    signed_is_accepted::<P>();
}

/// A chain that is walked to an end, and after it links that true keys made, the first one's
/// verifying key the one at that end and each later one's the subject before it, with falling
/// depths below the budget there, are walked to the last subject: so what [`Chain::extend`] makes
/// with a key with the root of its own seeds is walked to its subject.
///
/// [`Chain::extend`]: crate::Chain::extend
pub fn extended_is_walked<P: SetSizes>()
    ensures { (root chain : List ℕ) (end : Ended) (xs : List Delegation)
        → walk_answer P.scheme root chain ≡ Ok end
        → AreDelegated P.scheme end.key end.budget xs
        → walk_answer P.scheme root (chain ++ chain_of P.scheme xs) ≡ Ok (record {
          key = last_subject end.key xs;
          budget = last_depth end.budget xs;
          links = end.links + length xs;
        }) }
{
    chain_sizes::<P>();
    signed_is_accepted::<P>();
}
