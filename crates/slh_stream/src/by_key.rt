//! What is verified and signed piece by piece, begun by the key.
ghost use Rattle.std.specs.Prelude.{[], IfOk};
ghost use Rattle.std.specs.Option.{option_copied};
ghost use Rattle.slh_dsa.specs.Calls.{sign_input_refusal, verify_refusal};
ghost use Rattle.slh_stream.specs.Digests.{begin_digest_refusal};
ghost use Rattle.slh_core.specs.Refusals.{RefusedExactly};

use crate::digest_signer::{DigestSigner, Digesting};
use crate::passes::{FirstPass, Passing};
use crate::verifier::{MessageVerifier, Verifying};
use slh_core::pieces::MessageSuite;
use slh_dsa::{Error, Mode, SetSizes, SigningKey, VerifyingKey};

/// A key that verifies messages in pieces.
pub trait PieceVerifying<P: SetSizes + MessageSuite> {
    /// As [`MessageVerifier::new`].
    fn verifier<'a>(
        &self,
        mode: Mode,
        ctx: &[u8],
        sig: &'a [u8],
    ) -> Result<MessageVerifier<'a, P>, Error>;
}

impl<P: SetSizes + MessageSuite> PieceVerifying<P> for VerifyingKey<P> {
    fn verifier<'a>(
        &self,
        mode: Mode,
        ctx: &[u8],
        sig: &'a [u8],
    ) -> Result<MessageVerifier<'a, P>, Error>
        ensures refusal { RefusedExactly result (verify_refusal P.scheme ctx.now [] sig.now) }
        ensures empty { IfOk result (λ v. ⟦<MessageVerifier<'a, P> as Verifying>⟧.verifies v mode
            self.now ctx.now sig.now []) }
    {
        MessageVerifier::new(self, mode, ctx, sig)
    }
}

/// A key that signs messages in pieces.
pub trait PieceSigning<P: SetSizes + MessageSuite> {
    /// As [`DigestSigner::new`].
    fn digest_signer<'a>(
        &'a self,
        mode: Mode,
        ctx: &[u8],
        opt_rand: Option<&[u8]>,
    ) -> Result<DigestSigner<'a, P>, Error>;

    /// As [`FirstPass::new`].
    fn message_signer<'a>(
        &'a self,
        ctx: &[u8],
        opt_rand: Option<&[u8]>,
    ) -> Result<FirstPass<'a, P>, Error>;
}

impl<P: SetSizes + MessageSuite> PieceSigning<P> for SigningKey<P> {
    fn digest_signer<'a>(
        &'a self,
        mode: Mode,
        ctx: &[u8],
        opt_rand: Option<&[u8]>,
    ) -> Result<DigestSigner<'a, P>, Error>
        ensures refusal { let opt_rand = option_copied opt_rand.entry in
            RefusedExactly result (begin_digest_refusal P.scheme mode ctx.now opt_rand) }
        ensures empty { let opt_rand = option_copied opt_rand.entry in
            IfOk result (λ s. ⟦<DigestSigner<'a, P> as Digesting>⟧.digests s mode self.now
            opt_rand ctx.now []) }
    {
        DigestSigner::new(self, mode, ctx, opt_rand)
    }

    fn message_signer<'a>(
        &'a self,
        ctx: &[u8],
        opt_rand: Option<&[u8]>,
    ) -> Result<FirstPass<'a, P>, Error>
        ensures refusal { let opt_rand = option_copied opt_rand.entry in
            RefusedExactly result (sign_input_refusal P.scheme ctx.now opt_rand []) }
        ensures empty { let opt_rand = option_copied opt_rand.entry in
            IfOk result (λ f. ⟦<FirstPass<'a, P> as Passing>⟧.passes f self.now opt_rand
            ctx.now []) }
    {
        FirstPass::new(self, ctx, opt_rand)
    }
}
