//! `SET accept VK MSG RECEIPT` says whether a receipt is one of the message.
ghost use Rattle.std.specs.Prelude.{◌≡◌, ◌⊎◌, Err};
ghost use Rattle.line_serve.specs.Fields.{contents};
ghost use Rattle.slh_batch.specs.Calls.{accept_error};
ghost use Rattle.slh_batch_cli.specs.Replies.{accept_answer};
ghost use Rattle.slh_batch_cli.specs.Replies.{accept_request as spec_accept_request};
ghost use Rattle.slh_batch_cli.specs.Replies.{accept_text as spec_accept_text};
ghost use Rattle.slh_line.specs.declared.line_error.LineError.TheVariants.{Memory};

use line_serve::ByteString;
use slh_batch::{ReceiptError, accept};
use slh_dsa::{SetSizes, VerifyingKey};
use slh_line::{LineError, bytes_at, verifying_key};
use std::alloc::Global;

// The text of what checking a receipt answers.
fn accept_text<P: SetSizes>(key: &VerifyingKey<P>, message: &[u8], receipt: &[u8]) -> &'static [u8]
    ensures { result.now
        ≡ spec_accept_text (accept_error P.scheme key.now message.now receipt.now) }
{
    match accept(key, message, receipt) {
        Ok(()) => b"accepted\n",
        Err(ReceiptError::Form) => b"error form\n",
        Err(ReceiptError::Message) => b"error message\n",
        Err(ReceiptError::Invalid) => b"error invalid\n",
    }
}

// The reply to a verifying key, a message and a receipt.
fn accept_request<P: SetSizes>(
    alloc: Global,
    key: &[u8],
    message: &[u8],
    receipt: &[u8],
) -> Result<ByteString, LineError>
    ensures { (result ≡ spec_accept_request P.scheme key.now message.now receipt.now)
        ⊎ (result ≡ Err Memory) }
{
    let key = verifying_key::<P>(key)?;
    let text = accept_text(&key, message, receipt);
    Ok(ByteString::from_slice(alloc, text)?)
}

/// The reply to an `accept` line.
pub(crate) fn accept_line<P: SetSizes>(
    alloc: Global,
    fields: &[&[u8]],
) -> Result<ByteString, LineError>
    ensures { (result ≡ accept_answer P.scheme (contents fields.now)) ⊎ (result ≡ Err Memory) }
{
    if fields.len() != 5 {
        return Err(LineError::Fields);
    }
    let key = bytes_at(alloc, fields, 2)?;
    let message = bytes_at(alloc, fields, 3)?;
    let receipt = bytes_at(alloc, fields, 4)?;
    accept_request::<P>(
        alloc,
        key.as_slice(),
        message.as_slice(),
        receipt.as_slice(),
    )
}
