//! Signing the digest of a message that comes in pieces, once.
ghost use Rattle.std.specs.Prelude.{◌≡◌, ℕ, ◌+◌, ◌≤◌, List, [], ◌∷◌, ◌++◌, length, Option};
ghost use Rattle.std.specs.Prelude.{IfOk, OnOk, OnErr};
ghost use Rattle.std.specs.Option.{option_copied};
ghost use Rattle.slh_core.specs.Costs.{slh_sign_cost};
ghost use Rattle.slh_core.specs.Steps.{IsFresh};
ghost use Rattle.slh_dsa.specs.Calls.{sign_input_refusal, signature_refusal};
ghost use Rattle.slh_frames.specs.Frames.{mode_frame};
ghost use Rattle.slh_dsa.specs.declared.error.Error.TheVariants.{MessageTooLong};
ghost use Rattle.slh_frames.specs.declared.frame.Mode.{Mode as SigningMode};
ghost use Rattle.slh_stream.specs.Digesting.{IsDigesting};
ghost use Rattle.slh_stream.specs.Digests.{begin_digest_refusal};
ghost use Rattle.slh_frames.specs.Tails.{hashed_count};
ghost use Rattle.slh_trees.specs.Signing.{signature_of};
ghost use Rattle.slh_core.specs.Refusals.{RefusedExactly, message_refusal};
ghost use Rattle.slh_frames.specs.declared.message.TheConstants.{MAX_MESSAGE};

use crate::context::Context;
use slh_core::nbytes::NBytes;
use slh_core::steps::Steps;
use slh_dsa::{Error, Mode, SetSizes, SigningKey, check_opt_rand};
use slh_frames::pieces::MAX_TAIL;
use slh_frames::{MAX_MESSAGE, Tail, check_context, head_of};
use std::marker::Brand;
use std::sync::ledger::{Blank, Ledger};

/// A signer of the digest of a message, as the message comes.
#[derive(Drop)]
pub struct DigestSigner<'a, P: SetSizes> {
    key: &'a SigningKey<P>,
    ctx: Context,
    opt_rand: NBytes<P::N>,
    tail: Tail,
    taken: u64,
    ghost short: { taken ≤ MAX_MESSAGE },
    ghost hashed: { hashed_count tail ≤ taken },
}

/// What a signer of a digest stands for.
pub trait Digesting {
    /// The signer stands for a mode, the bytes of a signing key, a randomizer, or none, a context
    /// and a message.
    ghost digests: { Self → SigningMode → List ℕ → Option (List ℕ) → List ℕ → List ℕ → Type 0 };
}

impl<'a, P: SetSizes> Digesting for DigestSigner<'a, P> {
    ghost digests = { λ s mode key opt_rand context m. IsDigesting P.N.USIZE s.tail s.key.now s.ctx
        s.opt_rand s.taken mode key opt_rand context m };
}

impl<'a, P: SetSizes> DigestSigner<'a, P> {
    /// A signer of the empty message, to go on from. `Length`: the mode is `Pure`;
    /// `ContextTooLong`, `RandomizerLength`.
    pub fn new(
        key: &'a SigningKey<P>,
        mode: Mode,
        ctx: &[u8],
        opt_rand: Option<&[u8]>,
    ) -> Result<Self, Error>
        ensures refusal { let opt_rand = option_copied opt_rand.entry in
            RefusedExactly result (begin_digest_refusal P.scheme mode ctx.now opt_rand) }
        ensures empty { let opt_rand = option_copied opt_rand.entry in
            IfOk result (λ s. ⟦<DigestSigner<'a, P> as Digesting>⟧.digests s mode key.now
            opt_rand ctx.now []) }
    {
        if mode == Mode::Pure {
            return Err(Error::Length);
        }
        check_context(ctx, Error::ContextTooLong)?;
        check_opt_rand::<P, Error>(opt_rand, Error::RandomizerLength)?;
        let opt_rand = key.opt_rand_or_seed(opt_rand);
        Ok(DigestSigner {
            key,
            ctx: Context::new(ctx),
            opt_rand,
            tail: Tail::new(mode),
            taken: 0,
        })
    }

    /// Absorbs a piece of the message, after those before. `MessageTooLong`: more than 2^60 bytes
    /// would have come.
    pub fn update(&mut self, piece: &[u8]) -> Result<(), Error>
        ensures refusal { (mode : SigningMode) (key : List ℕ)
            (opt_rand : Option (List ℕ)) (context m : List ℕ)
            → ⟦<DigestSigner<'a, P> as Digesting>⟧.digests self.old mode key opt_rand context m
            → RefusedExactly result (message_refusal MessageTooLong (m ++ piece.now)) }
        ensures joins { OnOk result ((mode : SigningMode) (key : List ℕ)
            (opt_rand : Option (List ℕ)) (context m : List ℕ)
            → ⟦<DigestSigner<'a, P> as Digesting>⟧.digests self.old mode key opt_rand context m
            → ⟦<DigestSigner<'a, P> as Digesting>⟧.digests self.new mode key opt_rand
            context (m ++ piece.now)) }
        ensures same { OnErr result (self.new ≡ self.old) }
    {
        if piece.len() > MAX_MESSAGE - self.taken as usize {
            return Err(Error::MessageTooLong);
        }
        self.tail.hash(piece);
        self.taken += piece.len() as u64;
        Ok(())
    }

    /// Writes the signature of what was absorbed. `Length`: `out` doesn't have the bytes of a
    /// signature.
    pub fn finish_into_counted<L: Ledger>(
        self,
        out: &mut [u8],
        steps: &mut Steps<L>,
    ) -> Result<(), Error>
        ensures refusal { RefusedExactly result (signature_refusal P.scheme (length out.old)) }
        ensures value { OnOk result ((mode : SigningMode) (key : List ℕ)
            (opt_rand : Option (List ℕ)) (context m : List ℕ)
            → ⟦<DigestSigner<'a, P> as Digesting>⟧.digests self.entry mode key opt_rand context m
            → out.new ≡ signature_of P.scheme key opt_rand (mode_frame mode context m)) }
        ensures same { OnErr result (out.new ≡ out.old) }
        ensures cost { OnOk result (steps.new ≡ steps.old + slh_sign_cost P.scheme) }
        ensures free { OnErr result (steps.new ≡ steps.old) }
    {
        let DigestSigner {
            key,
            ctx,
            opt_rand,
            tail,
            ..
        } = self;
        if out.len() != P::SIG_LEN {
            return Err(Error::Length);
        }
        let ctx = ctx.as_slice();
        let front = head_of(tail.mode(), ctx);
        let mut store = [0u8; MAX_TAIL];
        let end = tail.end_hash(&mut store);
        key.sign_slices(&opt_rand, &front, ctx, &store[..end], out, steps);
        Ok(())
    }

    /// As `finish_into_counted`, with no counter.
    pub fn finish_into(self, out: &mut [u8]) -> Result<(), Error>
        ensures refusal { RefusedExactly result (signature_refusal P.scheme (length out.old)) }
        ensures value { OnOk result ((mode : SigningMode) (key : List ℕ)
            (opt_rand : Option (List ℕ)) (context m : List ℕ)
            → ⟦<DigestSigner<'a, P> as Digesting>⟧.digests self.entry mode key opt_rand context m
            → out.new ≡ signature_of P.scheme key opt_rand (mode_frame mode context m)) }
        ensures same { OnErr result (out.new ≡ out.old) }
    {
        self.finish_into_on::<Brand>(out, Blank::new(1))
    }

    // The same, on a counter that is made here.
    fn finish_into_on<L: Ledger>(self, out: &mut [u8], blank: Blank) -> Result<(), Error>
        requires fresh { IsFresh blank L.name L.parts }
        ensures refusal { RefusedExactly result (signature_refusal P.scheme (length out.old)) }
        ensures value { OnOk result ((mode : SigningMode) (key : List ℕ)
            (opt_rand : Option (List ℕ)) (context m : List ℕ)
            → ⟦<DigestSigner<'a, P> as Digesting>⟧.digests self.entry mode key opt_rand context m
            → out.new ≡ signature_of P.scheme key opt_rand (mode_frame mode context m)) }
        ensures same { OnErr result (out.new ≡ out.old) }
    {
        self.finish_into_counted::<L>(out, &mut Steps::new(blank))
    }
}
