//! `SET open VK ORIGIN CHECKPOINT` tells the head that a checkpoint says.
ghost use Rattle.std.specs.Prelude.{◌≡◌, ◌⊎◌, Ok, Err};
ghost use Rattle.line_serve.specs.Fields.{contents};
ghost use Rattle.slh_line.specs.declared.line_error.LineError.TheVariants.{Memory};
ghost use Rattle.slh_log.specs.Calls.{open_refusal};
ghost use Rattle.slh_log.specs.Reading.{text_of as spec_text_of};
ghost use Rattle.slh_log_cli.specs.Replies.{head_text as spec_head_text, open_answer};
ghost use Rattle.slh_log_cli.specs.Replies.{open_request as spec_open_request};
ghost use Rattle.slh_log_cli.specs.Replies.{open_text as spec_open_text};

use line_serve::{ByteString, push_hex_line, push_number};
use slh_dsa::{SetSizes, VerifyingKey};
use slh_line::{LineError, bytes_at, verifying_key};
use slh_log::{Checkpoint, OpenError, open, text_of};
use std::alloc::Global;

// The text of a head.
fn head_text(alloc: Global, head: &Checkpoint) -> Result<ByteString, LineError>
    ensures { (result ≡ Ok (spec_head_text head.now.size head.now.root)) ⊎ (result ≡ Err Memory) }
{
    let mut text = ByteString::from_slice(alloc, b"head ")?;
    push_number(&mut text, head.size)?;
    push_hex_line(&mut text, b" ", &head.root)?;
    Ok(text)
}

// The text for what opening a checkpoint answers.
fn open_text<P: SetSizes>(
    alloc: Global,
    key: &VerifyingKey<P>,
    origin: &[u8],
    checkpoint: &[u8],
) -> Result<ByteString, LineError>
    ensures { (result ≡ Ok (spec_open_text checkpoint.now
        (open_refusal P.scheme P.set_name key.now (spec_text_of origin.now) checkpoint.now)))
        ⊎ (result ≡ Err Memory) }
{
    match open(key, text_of(origin), checkpoint) {
        Ok(head) => head_text(alloc, &head),
        Err(OpenError::Form) => Ok(ByteString::from_slice(alloc, b"error form\n")?),
        Err(OpenError::Origin) => Ok(ByteString::from_slice(alloc, b"error origin\n")?),
        Err(OpenError::Unsigned) => Ok(ByteString::from_slice(alloc, b"error unsigned\n")?),
        Err(OpenError::Invalid) => Ok(ByteString::from_slice(alloc, b"error invalid\n")?),
    }
}

// The reply to the bytes of a line.
fn open_request<P: SetSizes>(
    alloc: Global,
    key: &[u8],
    origin: &[u8],
    checkpoint: &[u8],
) -> Result<ByteString, LineError>
    ensures { (result ≡ spec_open_request P.scheme P.set_name key.now origin.now checkpoint.now)
        ⊎ (result ≡ Err Memory) }
{
    let key = verifying_key::<P>(key)?;
    open_text(alloc, &key, origin, checkpoint)
}

/// The reply to an `open` line.
pub(crate) fn open_line<P: SetSizes>(
    alloc: Global,
    fields: &[&[u8]],
) -> Result<ByteString, LineError>
    ensures { (result ≡ open_answer P.scheme P.set_name (contents fields.now))
        ⊎ (result ≡ Err Memory) }
{
    if fields.len() != 5 {
        return Err(LineError::Fields);
    }
    let key = bytes_at(alloc, fields, 2)?;
    let origin = bytes_at(alloc, fields, 3)?;
    let checkpoint = bytes_at(alloc, fields, 4)?;
    open_request::<P>(
        alloc,
        key.as_slice(),
        origin.as_slice(),
        checkpoint.as_slice(),
    )
}
