//! The links of a chain that was walked, and the last one of any chain.
ghost use Rattle.std.specs.Prelude.{◌≡◌, ◌<◌, ◌≤◌, ◌*◌, length, IfErr, IfOk, Ok, Err};
ghost use Rattle.std.specs.Option.{option_map};
ghost use Rattle.slh_core.specs.Refusals.{RefusedExactly};
ghost use Rattle.slh_trees.specs.Checking.{signature_size};
ghost use Rattle.slh_chain.specs.Links.{after_link, body_of, link_depth, link_name, link_signature};
ghost use Rattle.slh_chain.specs.Links.{link_subject};
ghost use Rattle.slh_chain.specs.Parts.{last_of, outer_fault};

use crate::error::ChainError;
use crate::link::{Link, read_link};
use slh_dsa::{SetSizes, VerifyingKey};
use std::marker::{Model, PhantomData};

/// A link where it stands in a chain.
#[derive(Drop)]
pub struct LinkRef<'a, P: SetSizes> {
    /// How deep the subject may delegate in turn.
    pub depth: u8,
    pub name: &'a [u8],
    pub subject: VerifyingKey<P>,
}

/// The links of a chain that was walked, the root key's first. Clauses see it as the list of those
/// that are left.
#[derive(Drop)]
pub struct Links<'a, P: SetSizes> {
    left: u32,
    rest: &'a [u8],
    set: PhantomData<P>,
}

impl<'a, P: SetSizes> Model for Links<'a, P> {
    ghost use Rattle.std.specs.Prelude.{◌≡◌, List, true};
    ghost use Rattle.slh_chain.specs.Parts.{LinkParts, have_form, links_in};

    ghost Value = { List LinkParts };

    ghost view = { λ links. links_in P.scheme links.left links.rest.now };

    ghost invariant = { λ links. have_form P.scheme links.left links.rest.now ≡ true };
}

impl<'a, P: SetSizes> Links<'a, P> {
    ghost use Rattle.std.specs.Prelude.{◌≡◌, true};
    ghost use Rattle.slh_chain.specs.Parts.{have_form, links_in};

    /// The first links of some bytes, so many.
    pub(crate) fn new(count: u32, bytes: &'a [u8]) -> Self
        requires { have_form P.scheme count bytes.now ≡ true }
        ensures { result ≡ links_in P.scheme count bytes.now }
    {
        Links {
            left: count,
            rest: bytes,
            set: PhantomData,
        }
    }
}

impl<'a, P: SetSizes> Iterator for Links<'a, P> {
    ghost use Rattle.std.specs.Iterator.{YieldsFirstBy, item_count};
    ghost use Rattle.slh_chain.specs.Parts.{LinkParts};

    type Item = LinkRef<'a, P>;

    ghost next_gives = { YieldsFirstBy
        (λ link. record { depth = link.depth; name = link.name.now; subject = link.subject })
        (λ links. links) };

    ghost remaining = { item_count (λ links. links) };

    fn next(&mut self) -> Option<LinkRef<'a, P>> {
        if self.left == 0 {
            return None;
        }
        let Some(link) = read_link::<P>(self.rest) else {
            unreachable!()
        };
        self.left -= 1;
        self.rest = link.rest;
        Some(LinkRef {
            depth: link.depth,
            name: link.name,
            subject: VerifyingKey::try_from(link.subject).unwrap(),
        })
    }
}

/// The budget of a chain's first link.
pub(crate) const FIRST_BUDGET: u8 = 16;

/// The link that the bytes begin with, which is number `i` and has a depth below the budget. `Form`;
/// `Budget`.
pub(crate) fn link_within<P: SetSizes>(
    bytes: &[u8],
    i: u32,
    budget: u8,
) -> Result<Link<'_>, ChainError>
    ensures refusal { RefusedExactly result (outer_fault P.scheme i budget bytes.now) }
    ensures depth { IfOk result (λ link. link.depth ≡ link_depth bytes.now) }
    ensures name { IfOk result (λ link. link.name.now ≡ link_name bytes.now) }
    ensures subject { IfOk result (λ link. link.subject.now ≡ link_subject P.scheme bytes.now) }
    ensures body { IfOk result (λ link. link.body.now ≡ body_of P.scheme bytes.now) }
    ensures signature { IfOk result
        (λ link. link.signature.now ≡ link_signature P.scheme bytes.now) }
    ensures rest { IfOk result (λ link. link.rest.now ≡ after_link P.scheme bytes.now) }
    ensures falls { IfOk result (λ link. link.depth < budget) }
    ensures body_len { IfOk result (λ link. length link.body.now ≤ 130) }
    ensures signature_len { IfOk result
        (λ link. length link.signature.now ≡ signature_size P.scheme) }
    ensures shorter { IfOk result (λ link. length link.rest.now < length bytes.now) }
    ensures key { IfOk result (λ link. length link.subject.now ≡ 2 * P.N.USIZE) }
{
    let Some(link) = read_link::<P>(bytes) else {
        return Err(ChainError::Form(i));
    };
    if link.depth >= budget {
        return Err(ChainError::Budget(i));
    }
    Ok(link)
}

/// The last link of a chain, if there is one, by its bytes alone: no signature is looked at, so
/// nothing is said of who made it. `Form`, `Budget`: the first link that has no form, or whose depth
/// isn't below the one before.
pub fn last_link<P: SetSizes>(chain: &[u8]) -> Result<Option<LinkRef<'_, P>>, ChainError>
    ensures last { IfOk result (λ last. last_of P.scheme chain.now ≡ Ok (option_map
        (λ link. record { depth = link.depth; name = link.name.now; subject = link.subject })
        last)) }
    ensures fault { IfErr result (λ e. last_of P.scheme chain.now ≡ Err e) }
{
    let mut last = None;
    let mut budget = FIRST_BUDGET;
    let mut links = 0;
    let mut rest = chain;
    while !rest.is_empty() {
        let link = link_within::<P>(rest, links, budget)?;
        rest = link.rest;
        budget = link.depth;
        links += 1;
        last = Some(LinkRef {
            depth: link.depth,
            name: link.name,
            subject: VerifyingKey::try_from(link.subject).unwrap(),
        });
    }
    Ok(last)
}
