//! Walking a chain from its root key to its end.
ghost use Rattle.std.specs.Prelude.{◌≡◌, ◌+◌, ◌^◌, ◌≤◌, ◌<◌, length};
ghost use Rattle.std.specs.Prelude.{IfOk, IfErr, OnOk, Ok, Err};
ghost use Rattle.slh_trees.specs.Checking.{signature_size};
ghost use Rattle.slh_core.specs.Refusals.{RefusedExactly};
ghost use Rattle.slh_dsa.specs.Calls.{is_valid};
ghost use Rattle.slh_frames.specs.declared.frame.Mode.TheVariants.{Pure};
ghost use Rattle.slh_chain.specs.Links.{after_link, chain_context, link_depth, link_subject};
ghost use Rattle.slh_chain.specs.Walks.{Place, link_fault, walk_answer};

use crate::error::ChainError;
use crate::link::{CONTEXT, Link};
use crate::links::{FIRST_BUDGET, link_within};
use slh_dsa::{Message, Mode, SetSizes, VerifyingKey};
use slh_frames::MAX_MESSAGE;

/// Where a chain ends.
#[derive(Drop)]
#[derive_where(Clone, PartialEq, Eq)]
pub struct End<P: SetSizes> {
    /// The last link's subject, or the root key where there is no link.
    pub key: VerifyingKey<P>,
    /// The last link's depth, or 16. The key may delegate further with depths below it.
    pub budget: u8,
    /// How many links there are, at most 16.
    pub links: u32,
}

// Whether a link's signature is one of its body under a key.
fn is_signed<P: SetSizes>(key: &VerifyingKey<P>, link: &Link<'_>) -> bool
    requires body { length link.now.body.now ≤ MAX_MESSAGE }
    requires signature { length link.now.signature.now ≡ signature_size P.scheme }
    ensures { result ≡ is_valid P.scheme Pure key.now chain_context
        link.now.body.now link.now.signature.now }
{
    let body = Message::fitting(Mode::Pure, link.body, CONTEXT);
    key.is_valid(&body, link.signature)
}

impl<P: SetSizes> End<P> {
    // The end of a chain of no links.
    fn start(root: &VerifyingKey<P>) -> Self
        ensures key { result.key ≡ root.now }
        ensures budget { result.budget ≡ 16 }
        ensures links { result.links ≡ 0 }
    {
        End {
            key: root.clone().unwrap(),
            budget: FIRST_BUDGET,
            links: 0,
        }
    }

    // Takes the link that the bytes begin with, and answers the bytes after it.
    fn follow<'a>(&mut self, bytes: &'a [u8]) -> Result<&'a [u8], ChainError>
        requires { self.old.links + self.old.budget ≤ 16 }
        ensures refusal { let at : Place = record {
          key = self.old.key;
          budget = self.old.budget;
          rest = bytes.now;
        } in
            RefusedExactly result (link_fault P.scheme self.old.links at) }
        ensures key { OnOk result (self.new.key ≡ link_subject P.scheme bytes.now) }
        ensures budget { OnOk result (self.new.budget ≡ link_depth bytes.now) }
        ensures links { OnOk result (self.new.links ≡ self.old.links + 1) }
        ensures falls { OnOk result (self.new.budget < self.old.budget) }
        ensures rest { IfOk result (λ rest. rest.now ≡ after_link P.scheme bytes.now) }
        ensures shorter { IfOk result (λ rest. length rest.now < length bytes.now) }
    {
        let link = link_within::<P>(bytes, self.links, self.budget)?;
        if !is_signed(&self.key, &link) {
            return Err(ChainError::Invalid(self.links));
        }
        self.key = VerifyingKey::try_from(link.subject).unwrap();
        self.budget = link.depth;
        self.links += 1;
        Ok(link.rest)
    }
}

/// The end of a chain whose first link is signed by a root key; the empty chain ends with that
/// key. `Form`, `Budget`, `Invalid`: the first link that isn't good, and the first of its
/// conditions that fails. Verifies each link at most once, where it stands, and takes no memory.
pub fn walk<P: SetSizes>(root: &VerifyingKey<P>, chain: &[u8]) -> Result<End<P>, ChainError>
    ensures end { IfOk result (λ end. walk_answer P.scheme root.now chain.now
        ≡ Ok (record { key = end.key; budget = end.budget; links = end.links })) }
    ensures fault { IfErr result (λ e. walk_answer P.scheme root.now chain.now ≡ Err e) }
{
    let mut end = End::start(root);
    let mut rest = chain;
    while !rest.is_empty() {
        rest = end.follow(rest)?;
    }
    Ok(end)
}
