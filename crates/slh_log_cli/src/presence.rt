//! `presence SIZE ROOT INDEX ENTRY PATH ..` says whether a log has an entry.
ghost use Rattle.std.specs.Prelude.{◌≡◌, ◌⊎◌, Err};
ghost use Rattle.line_serve.specs.Fields.{contents};
ghost use Rattle.slh_line.specs.declared.line_error.LineError.TheVariants.{Memory};
ghost use Rattle.slh_log.specs.Calls.{presence_refusal};
ghost use Rattle.slh_log_cli.specs.Proofs.{presence_answer};
ghost use Rattle.slh_log_cli.specs.Proofs.{presence_request as spec_presence_request};
ghost use Rattle.slh_log_cli.specs.Proofs.{presence_text as spec_presence_text};

use crate::digests::{digest_of, digests_of, has_proof, size_at};
use line_serve::{ByteString, Words};
use slh_line::{LineError, all_bytes_at, bytes_at};
use slh_log::{Checkpoint, PresenceError, check_presence};
use std::alloc::Global;

// The text of what a check of an entry answers.
fn presence_text(head: &Checkpoint, index: u64, entry: &[u8], path: &[[u8; 32]]) -> &'static [u8]
    ensures { result.now ≡ spec_presence_text
        (presence_refusal head.now.size head.now.root index entry.now path.now) }
{
    match check_presence(head, index, entry, path) {
        Ok(()) => b"present\n",
        Err(PresenceError::Index) => b"error index\n",
        Err(PresenceError::Entry) => b"error entry\n",
        Err(PresenceError::Length) => b"error proof\n",
        Err(PresenceError::Invalid) => b"error invalid\n",
    }
}

// The reply to the bytes of a line, its size and its index.
fn presence_request(
    alloc: Global,
    size: u64,
    root: &[u8],
    index: u64,
    entry: &[u8],
    path: &Words,
) -> Result<ByteString, LineError>
    ensures { (result ≡ spec_presence_request size root.now index entry.now path.now)
        ⊎ (result ≡ Err Memory) }
{
    let root = digest_of(root)?;
    let path = digests_of(alloc, path)?;
    let head = Checkpoint { size, root };
    let text = presence_text(&head, index, entry, path.as_slice());
    Ok(ByteString::from_slice(alloc, text)?)
}

/// The reply to a `presence` line.
pub(crate) fn presence_line(alloc: Global, fields: &[&[u8]]) -> Result<ByteString, LineError>
    ensures { (result ≡ presence_answer (contents fields.now)) ⊎ (result ≡ Err Memory) }
{
    if !has_proof(fields, 5) {
        return Err(LineError::Fields);
    }
    let size = size_at(fields, 1)?;
    let index = size_at(fields, 3)?;
    let root = bytes_at(alloc, fields, 2)?;
    let entry = bytes_at(alloc, fields, 4)?;
    let path = all_bytes_at(alloc, fields, 5)?;
    presence_request(alloc, size, root.as_slice(), index, entry.as_slice(), &path)
}
