//! Signing and verifying by the digest of a message.
ghost use Rattle.std.specs.Prelude.{◌≡◌, ◌≢◌, ◌+◌, ◌≤◌, length, IfErr, IfOk, OnOk, OnErr};
ghost use Rattle.std.specs.Option.{option_copied};
ghost use Rattle.slh_core.specs.Costs.{slh_sign_cost, slh_verify_bound};
ghost use Rattle.slh_dsa.specs.declared.error.Error.TheVariants.{Invalid};
ghost use Rattle.slh_frames.specs.Messages.{digest_message};
ghost use Rattle.slh_stream.specs.Digests.{digest_frame, digest_input_refusal};
ghost use Rattle.slh_stream.specs.Digests.{sign_digest_refusal, verify_digest_error};
ghost use Rattle.slh_trees.specs.Signing.{signature_of};
ghost use Rattle.slh_core.specs.Refusals.{RefusedExactly};

use slh_core::steps::Steps;
use slh_dsa::{Error, Message, Mode, SetSizes, SigningKey, VerifyingKey};
use slh_frames::{check_context, check_digest};
use std::sync::ledger::Ledger;

// The message that has a digest, with a context. `Length`: the digest doesn't have its bytes, or the
// mode is `Pure`; `ContextTooLong`.
fn message_of<'a>(mode: Mode, digest: &'a [u8], ctx: &'a [u8]) -> Result<Message<'a>, Error>
    ensures refusal { RefusedExactly result (digest_input_refusal mode ctx.now digest.now) }
    ensures value { IfOk result (λ m. m ≡ digest_message mode ctx.now digest.now) }
{
    check_digest(mode, digest, Error::Length)?;
    check_context(ctx, Error::ContextTooLong)?;
    Ok(Message::of_fitting_digest(mode, digest, ctx))
}

/// Verifies a signature of a message by its digest. `Length`: the signature or the digest doesn't
/// have its bytes, or the mode is `Pure`; `ContextTooLong`; `Invalid`.
pub fn verify_digest_counted<P: SetSizes, L: Ledger>(
    key: &VerifyingKey<P>,
    mode: Mode,
    digest: &[u8],
    ctx: &[u8],
    sig: &[u8],
    steps: &mut Steps<L>,
) -> Result<(), Error>
    ensures value { RefusedExactly result
        (verify_digest_error P.scheme mode key.now ctx.now digest.now sig.now) }
    ensures bound { steps.new ≤ steps.old + slh_verify_bound P.scheme }
    ensures rises { steps.old ≤ steps.new }
    ensures free { IfErr result (λ e. e ≢ Invalid → steps.new ≡ steps.old) }
{
    if sig.len() != P::SIG_LEN {
        return Err(Error::Length);
    }
    let message = message_of(mode, digest, ctx)?;
    key.verify_message_counted(&message, sig, steps)
}

/// As `verify_digest_counted`, with no counter.
pub fn verify_digest<P: SetSizes>(
    key: &VerifyingKey<P>,
    mode: Mode,
    digest: &[u8],
    ctx: &[u8],
    sig: &[u8],
) -> Result<(), Error>
    ensures { RefusedExactly result
        (verify_digest_error P.scheme mode key.now ctx.now digest.now sig.now) }
{
    if sig.len() != P::SIG_LEN {
        return Err(Error::Length);
    }
    let message = message_of(mode, digest, ctx)?;
    key.verify_message(&message, sig)
}

/// Writes the signature of a message by its digest. `Length`: `out` doesn't have the bytes of a
/// signature, or the digest its own, or the mode is `Pure`; `ContextTooLong`, `RandomizerLength`.
pub fn sign_digest_counted<P: SetSizes, L: Ledger>(
    key: &SigningKey<P>,
    mode: Mode,
    digest: &[u8],
    ctx: &[u8],
    opt_rand: Option<&[u8]>,
    out: &mut [u8],
    steps: &mut Steps<L>,
) -> Result<(), Error>
    ensures refusal { let opt_rand = option_copied opt_rand.entry in
        RefusedExactly result
        (sign_digest_refusal P.scheme mode ctx.now opt_rand digest.now (length out.old)) }
    ensures value { let opt_rand = option_copied opt_rand.entry in
        let message = digest_frame mode ctx.now digest.now in
        OnOk result (out.new ≡ signature_of P.scheme key.now opt_rand message) }
    ensures same { OnErr result (out.new ≡ out.old) }
    ensures cost { OnOk result (steps.new ≡ steps.old + slh_sign_cost P.scheme) }
    ensures free { OnErr result (steps.new ≡ steps.old) }
{
    if out.len() != P::SIG_LEN {
        return Err(Error::Length);
    }
    let message = message_of(mode, digest, ctx)?;
    key.sign_message_counted(&message, opt_rand, out, steps)
}

/// As `sign_digest_counted`, with no counter.
pub fn sign_digest<P: SetSizes>(
    key: &SigningKey<P>,
    mode: Mode,
    digest: &[u8],
    ctx: &[u8],
    opt_rand: Option<&[u8]>,
    out: &mut [u8],
) -> Result<(), Error>
    ensures refusal { let opt_rand = option_copied opt_rand.entry in
        RefusedExactly result
        (sign_digest_refusal P.scheme mode ctx.now opt_rand digest.now (length out.old)) }
    ensures value { let opt_rand = option_copied opt_rand.entry in
        let message = digest_frame mode ctx.now digest.now in
        OnOk result (out.new ≡ signature_of P.scheme key.now opt_rand message) }
    ensures same { OnErr result (out.new ≡ out.old) }
{
    if out.len() != P::SIG_LEN {
        return Err(Error::Length);
    }
    let message = message_of(mode, digest, ctx)?;
    key.sign_message(&message, opt_rand, out)
}
