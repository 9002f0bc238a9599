//! The checks of sizes that come before anything is hashed.
ghost use Rattle.std.specs.Prelude.{◌≡◌, ◌*◌, length, IfOk, None, OnOk};
ghost use Rattle.slh_audit.specs.Verdicts.{length_refusals, size_refusal};
ghost use Rattle.slh_frames.specs.Messages.{whole_message};
ghost use Rattle.slh_trees.specs.Checking.{signature_size};
ghost use Rattle.slh_core.specs.Refusals.{RefusedExactly};

use crate::evidence::AuditError;
use slh_core::array::ArraySize;
use slh_core::params::{ForsSizes, forest_sizes};
use slh_frames::{Message, Mode, check_context, check_message};
use slh_trees::SigView;

/// A view of the signature, where the key and the signature have their lengths.
pub(crate) fn check_lengths<'a, P: ForsSizes>(
    key: &[u8],
    sig: &'a [u8],
) -> Result<SigView<'a, P>, AuditError>
    ensures refusal { RefusedExactly result (length_refusals P.scheme key.now sig.now) }
    ensures key { OnOk result (length key.now ≡ 4 * P.N.USIZE) }
    ensures sig { IfOk result (λ view. view ≡ sig.now) }
    ensures whole { OnOk result (length sig.now ≡ signature_size P.scheme) }
{
    forest_sizes::<P>();
    if key.len() != 4 * P::N::USIZE {
        return Err(AuditError::Length);
    }
    match SigView::new(sig) {
        Some(view) => Ok(view),
        None => Err(AuditError::Length),
    }
}

/// The message of an audit or of a test of evidence: `Length`, where the key or the signature has a
/// wrong number of bytes; `ContextTooLong`, `MessageTooLong`.
pub(crate) fn message<'a, P: ForsSizes>(
    mode: Mode,
    key: &[u8],
    msg: &'a [u8],
    ctx: &'a [u8],
    sig: &[u8],
) -> Result<Message<'a>, AuditError>
    ensures refusal { let refusal = size_refusal P.scheme key.now ctx.now msg.now sig.now in
        RefusedExactly result refusal }
    ensures lengths { OnOk result (length_refusals P.scheme key.now sig.now ≡ None) }
    ensures value { IfOk result (λ m. m ≡ whole_message mode ctx.now msg.now) }
{
    check_lengths::<P>(key, sig)?;
    check_context(ctx, AuditError::ContextTooLong)?;
    check_message(msg, AuditError::MessageTooLong)?;
    Ok(Message::fitting(mode, msg, ctx))
}
