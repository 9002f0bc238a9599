//! Verifying a message that comes in pieces.
ghost use Rattle.std.specs.Prelude.{◌≡◌, ◌≢◌, ℕ, ◌+◌, ◌≤◌, List, [], ◌++◌, length};
ghost use Rattle.std.specs.Prelude.{IfOk, IfErr, OnOk, OnErr};
ghost use Rattle.slh_core.specs.Costs.{slh_verify_bound};
ghost use Rattle.slh_core.specs.Steps.{IsFresh};
ghost use Rattle.slh_dsa.specs.Calls.{hash_verify_error, verify_refusal};
ghost use Rattle.slh_dsa.specs.declared.error.Error.TheVariants.{MessageTooLong, Invalid};
ghost use Rattle.slh_frames.specs.declared.frame.Mode.{Mode as SigningMode};
ghost use Rattle.slh_frames.specs.Tails.{hashed_count};
ghost use Rattle.slh_stream.specs.Verifying.{EndsIn, IsVerifying, message_digest};
ghost use Rattle.slh_trees.specs.Checking.{digest_root};
ghost use Rattle.slh_core.specs.Refusals.{RefusedExactly, message_refusal};
ghost use Rattle.slh_frames.specs.declared.message.TheConstants.{MAX_MESSAGE};

use slh_core::array::ArraySize;
use slh_core::nbytes::NBytes;
use slh_core::params::{MAX_DIGEST_LEN, forest_sizes};
use slh_core::pieces::MessageSuite;
use slh_core::steps::Steps;
use slh_dsa::{Error, Mode, SetSizes, VerifyingKey};
use slh_frames::pieces::begin_front;
use slh_frames::{MAX_MESSAGE, Tail, check_context};
use slh_trees::SigView;
use slh_trees::check::root_for_digest;
use std::marker::Brand;
use std::sync::ledger::{Blank, Ledger};

/// A signature and H_msg of a message, as the message comes.
#[derive(Drop)]
pub struct MessageVerifier<'a, P: SetSizes + MessageSuite> {
    pub(crate) pk_seed: NBytes<P::N>,
    pub(crate) pk_root: NBytes<P::N>,
    pub(crate) sig: SigView<'a, P>,
    pub(crate) digest: P::Digest,
    pub(crate) tail: Tail,
    pub(crate) taken: u64,
    ghost short: { taken ≤ MAX_MESSAGE },
    ghost room: { P.digest_count digest ≤ taken + 257 },
    ghost hashed: { hashed_count tail ≤ taken },
}

/// What a verifier stands for.
pub trait Verifying {
    /// The verifier stands for a mode, the bytes of a verifying key, a context, a signature and a
    /// message.
    ghost verifies: { Self → SigningMode → List ℕ → List ℕ → List ℕ → List ℕ → Type 0 };
}

impl<'a, P: SetSizes + MessageSuite> Verifying for MessageVerifier<'a, P> {
    ghost verifies = { λ v mode key context sig m. IsVerifying P.N.USIZE (P.digests v.digest)
        v.tail v.taken v.pk_seed v.pk_root v.sig mode key context sig m };
}

impl<'a, P: SetSizes + MessageSuite> MessageVerifier<'a, P> {
    /// A verifier of the empty message, to go on from. `Length`, `ContextTooLong`.
    pub fn new(key: &VerifyingKey<P>, mode: Mode, ctx: &[u8], sig: &'a [u8]) -> Result<Self, Error>
        ensures refusal { RefusedExactly result (verify_refusal P.scheme ctx.now [] sig.now) }
        ensures empty { IfOk result (λ v. ⟦<MessageVerifier<'a, P> as Verifying>⟧.verifies v mode
            key.now ctx.now sig.now []) }
    {
        if sig.len() != P::SIG_LEN {
            return Err(Error::Length);
        }
        check_context(ctx, Error::ContextTooLong)?;
        let (pk_seed, pk_root) = (key.pk_seed().copy(), key.pk_root().copy());
        let sig = SigView::exact(sig);
        let rand = NBytes::<P::N>::from_view(sig.randomizer());
        let digest = begin_front::<P>(&rand, &pk_seed, &pk_root, mode, ctx);
        Ok(MessageVerifier {
            pk_seed,
            pk_root,
            sig,
            digest,
            tail: Tail::new(mode),
            taken: 0,
        })
    }

    /// Absorbs a piece of the message, after those before. `MessageTooLong`: more than 2^60 bytes
    /// would have come.
    pub fn update(&mut self, piece: &[u8]) -> Result<(), Error>
        ensures refusal { (mode : SigningMode) (key context sig m : List ℕ)
            → ⟦<MessageVerifier<'a, P> as Verifying>⟧.verifies self.old mode key context sig m
            → RefusedExactly result (message_refusal MessageTooLong (m ++ piece.now)) }
        ensures joins { OnOk result ((mode : SigningMode) (key context sig m : List ℕ)
            → ⟦<MessageVerifier<'a, P> as Verifying>⟧.verifies self.old mode key context sig m
            → ⟦<MessageVerifier<'a, P> as Verifying>⟧.verifies self.new mode key context sig
            (m ++ piece.now)) }
        ensures same { OnErr result (self.new ≡ self.old) }
    {
        if piece.len() > MAX_MESSAGE - self.taken as usize {
            return Err(Error::MessageTooLong);
        }
        self.tail.absorb::<P>(&mut self.digest, piece);
        self.taken += piece.len() as u64;
        Ok(())
    }

    /// What the call in one piece answers for what was absorbed: `Invalid`, or that the signature
    /// leads to the key's root.
    pub fn finish_counted<L: Ledger>(self, steps: &mut Steps<L>) -> Result<(), Error>
        ensures value { (mode : SigningMode) (key context sig m : List ℕ)
            → ⟦<MessageVerifier<'a, P> as Verifying>⟧.verifies self.entry mode key context sig m
            → RefusedExactly result (hash_verify_error P.scheme mode key context m sig) }
        ensures only { IfErr result (λ e. e ≡ Invalid) }
        ensures ends { OnOk result
            (EndsIn P.scheme self.entry.pk_seed self.entry.pk_root self.entry.sig) }
        ensures bound { steps.new ≤ steps.old + slh_verify_bound P.scheme }
        ensures rises { steps.old ≤ steps.new }
    {
        let MessageVerifier {
            pk_seed,
            pk_root,
            sig,
            digest,
            tail,
            ..
        } = self;
        forest_sizes::<P>();
        let mut store = [0u8; MAX_DIGEST_LEN];
        let hashed = &mut store[..P::M::USIZE];
        P::end_digest(tail.end::<P>(digest), hashed);
        let root = root_for_digest::<P, L>(&pk_seed, hashed, &sig, steps);
        if root.as_slice() != pk_root.as_slice() {
            return Err(Error::Invalid);
        }
        Ok(())
    }

    /// Writes the digest of what was absorbed, of m bytes: H_msg with the signature's randomizer under
    /// the key, of which an audit goes on.
    pub fn finish_digest(self, out: &mut [u8])
        requires { length out.old ≡ P.M.USIZE }
        ensures { (mode : SigningMode) (key context sig m : List ℕ)
            → ⟦<MessageVerifier<'a, P> as Verifying>⟧.verifies self.entry mode key context sig m
            → out.new ≡ message_digest P.scheme mode key context m sig }
    {
        let MessageVerifier { digest, tail, .. } = self;
        forest_sizes::<P>();
        P::end_digest(tail.end::<P>(digest), out);
    }

    /// As `finish_counted`, with no counter.
    pub fn finish(self) -> Result<(), Error>
        ensures value { (mode : SigningMode) (key context sig m : List ℕ)
            → ⟦<MessageVerifier<'a, P> as Verifying>⟧.verifies self.entry mode key context sig m
            → RefusedExactly result (hash_verify_error P.scheme mode key context m sig) }
        ensures only { IfErr result (λ e. e ≡ Invalid) }
        ensures ends { OnOk result
            (EndsIn P.scheme self.entry.pk_seed self.entry.pk_root self.entry.sig) }
    {
        self.finish_on::<Brand>(Blank::new(1))
    }

    // The same, on a counter that is made here.
    fn finish_on<L: Ledger>(self, blank: Blank) -> Result<(), Error>
        requires fresh { IsFresh blank L.name L.parts }
        ensures value { (mode : SigningMode) (key context sig m : List ℕ)
            → ⟦<MessageVerifier<'a, P> as Verifying>⟧.verifies self.entry mode key context sig m
            → RefusedExactly result (hash_verify_error P.scheme mode key context m sig) }
        ensures only { IfErr result (λ e. e ≡ Invalid) }
        ensures ends { OnOk result
            (EndsIn P.scheme self.entry.pk_seed self.entry.pk_root self.entry.sig) }
    {
        self.finish_counted::<L>(&mut Steps::new(blank))
    }
}
