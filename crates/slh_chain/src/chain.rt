//! Chains that were walked, and what is done with one.
ghost use Rattle.std.specs.Prelude.{◌≡◌, ◌++◌, IfOk, IfErr, Ok, Err};
ghost use Rattle.std.specs.Option.{option_copied};
ghost use Rattle.slh_core.specs.Refusals.{RefusedOrNoMemory};
ghost use Rattle.slh_chain.specs.Chains.{extend_refusal, under_answer};
ghost use Rattle.slh_chain.specs.Links.{link_body, signed_link};
ghost use Rattle.slh_chain.specs.Parts.{links_in};
ghost use Rattle.slh_chain.specs.Walks.{walk_answer};
ghost use Rattle.slh_chain.specs.declared.error.ExtendError.TheVariants.{Memory};

use crate::error::{ChainError, ExtendError, LinkError, UnderError};
use crate::link::delegate;
use crate::links::Links;
use crate::walking::{End, walk};
use slh_core::params::chain_sizes;
use slh_dsa::{Mode, SetSizes, SigningKey, VerifyingKey};
use std::alloc::Global;
use std::marker::Model;

/// A chain that was walked to its end. Clauses see its bytes and its end.
#[derive(Drop)]
pub struct Chain<'a, P: SetSizes> {
    bytes: &'a [u8],
    end: End<P>,
}

impl<'a, P: SetSizes> Model for Chain<'a, P> {
    ghost use Rattle.slh_chain.specs.Parts.{IsWalked, Walked};

    ghost Value = { Walked };

    ghost view = { λ c. record {
      bytes = c.bytes.now;
      end = record { key = c.end.key; budget = c.end.budget; links = c.end.links };
    } };

    ghost invariant = { λ c. IsWalked P.scheme c.end.links c.end.budget c.bytes.now };
}

impl<'a, P: SetSizes> Chain<'a, P> {
    /// Walks a chain from a root key, as [`walk`] does, whose errors these are. Takes no memory.
    pub fn open(root: &VerifyingKey<P>, bytes: &'a [u8]) -> Result<Self, ChainError>
        ensures end { IfOk result
            (λ chain. walk_answer P.scheme root.now bytes.now ≡ Ok chain.end) }
        ensures bytes { IfOk result (λ chain. chain.bytes ≡ bytes.now) }
        ensures fault { IfErr result (λ e. walk_answer P.scheme root.now bytes.now ≡ Err e) }
    {
        match walk(root, bytes) {
            Ok(end) => Ok(Chain { bytes, end }),
            Err(error) => Err(error),
        }
    }

    /// Where it ends.
    pub fn end(&self) -> &End<P>
        ensures key { result.now.key ≡ self.now.end.key }
        ensures budget { result.now.budget ≡ self.now.end.budget }
        ensures links { result.now.links ≡ self.now.end.links }
    {
        &self.end
    }

    /// Its links, from the root key's on.
    pub fn links(&self) -> Links<'a, P>
        ensures { result ≡ links_in P.scheme self.now.end.links self.now.bytes }
    {
        Links::new(self.end.links, self.bytes)
    }

    /// The chain with a link more, which the key at its end signs, so that it is walked to the
    /// subject ([`delegate`] makes the link). Refused before anything is signed. `Key`; `Budget`;
    /// `Name`; `Randomizer`; `Memory`.
    pub fn extend(
        &self,
        alloc: Global,
        key: &SigningKey<P>,
        name: &[u8],
        depth: u8,
        subject: &VerifyingKey<P>,
        opt_rand: Option<&[u8]>,
    ) -> Result<Vec<u8>, ExtendError>
        ensures refusal { let opt_rand = option_copied opt_rand.entry in
            RefusedOrNoMemory Memory result
            (extend_refusal P.scheme self.now.end key.now name.now depth opt_rand) }
        ensures chain { let opt_rand = option_copied opt_rand.entry in
            let body = link_body depth name.now subject.now in
            IfOk result (λ chain. chain.items
            ≡ self.now.bytes ++ signed_link P.scheme key.now opt_rand body) }
    {
        chain_sizes::<P>();
        if key.verifying_key() != self.end.key {
            return Err(ExtendError::Key);
        }
        if depth >= self.end.budget {
            return Err(ExtendError::Budget);
        }
        let link = match delegate(alloc, key, name, depth, subject, opt_rand) {
            Ok(link) => link,
            Err(LinkError::Name) => return Err(ExtendError::Name),
            Err(LinkError::Depth) => unreachable!(),
            Err(LinkError::Randomizer) => return Err(ExtendError::Randomizer),
            Err(LinkError::Memory) => return Err(ExtendError::Memory),
        };
        let mut chain = self.bytes.to_vec(alloc)?;
        chain.extend_from_slice(&link)?;
        Ok(chain)
    }
}

/// Verifies a message that the key at the end of a chain signed, with a context, as the mode says,
/// and answers that end. `Chain`: the chain leads nowhere; `Signature`: as
/// [`VerifyingKey::hash_verify`] refuses it. Takes no memory.
pub fn verify_under<P: SetSizes>(
    root: &VerifyingKey<P>,
    chain: &[u8],
    mode: Mode,
    msg: &[u8],
    ctx: &[u8],
    sig: &[u8],
) -> Result<End<P>, UnderError>
    ensures end { IfOk result
        (λ end. under_answer P.scheme root.now chain.now mode ctx.now msg.now sig.now
        ≡ Ok (record { key = end.key; budget = end.budget; links = end.links })) }
    ensures refused { IfErr result
        (λ e. under_answer P.scheme root.now chain.now mode ctx.now msg.now sig.now ≡ Err e) }
{
    let end = match walk(root, chain) {
        Ok(end) => end,
        Err(error) => return Err(UnderError::Chain(error)),
    };
    match end.key.hash_verify(mode, msg, ctx, sig) {
        Ok(()) => Ok(end),
        Err(error) => Err(UnderError::Signature(error)),
    }
}
