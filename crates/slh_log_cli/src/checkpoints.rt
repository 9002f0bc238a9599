//! `SET checkpoint KEY ORIGIN SIZE ROOT RAND` gives a checkpoint.
ghost use Rattle.std.specs.Prelude.{◌≡◌, ◌≤◌, ◌⊎◌, Ok, Err, length};
ghost use Rattle.std.specs.Option.{option_copied, ForSome};
ghost use Rattle.line_serve.specs.Fields.{contents};
ghost use Rattle.slh_line.specs.declared.line_error.LineError.TheVariants.{Memory};
ghost use Rattle.slh_log.specs.Reading.{text_of as spec_text_of};
ghost use Rattle.slh_log_cli.specs.Replies.{checkpoint_answer};
ghost use Rattle.slh_log_cli.specs.Replies.{checkpoint_request as spec_checkpoint_request};
ghost use Rattle.slh_log_cli.specs.Replies.{checkpoint_text as spec_checkpoint_text};

use crate::digests::{digest_of, size_at};
use line_serve::{ByteString, push_hex_line};
use slh_dsa::{SetSizes, SigningKey};
use slh_line::{LineError, as_bytes, bytes_at, checked_randomizer, randomizer_at, signing_key};
use slh_log::{CheckpointError, checkpoint, text_of};
use std::alloc::Global;

// What a line has besides its key.
#[derive(Clone, Copy)]
struct Head<'a> {
    origin: &'a [u8],
    size: u64,
    root: &'a [u8; 32],
}

// The text for the checkpoint of these, or for an origin that no log has.
fn checkpoint_text<P: SetSizes>(
    alloc: Global,
    key: &SigningKey<P>,
    head: Head<'_>,
    opt_rand: Option<&[u8]>,
) -> Result<ByteString, LineError>
    requires { ForSome (option_copied opt_rand) (λ bytes. length bytes ≡ P.N.USIZE) }
    ensures { let opt_rand = option_copied opt_rand.entry in let h = head.entry in
        (result ≡ Ok (spec_checkpoint_text P.scheme P.set_name key.now opt_rand
        (spec_text_of h.origin.now) h.size h.root.now)) ⊎ (result ≡ Err Memory) }
{
    let origin = text_of(head.origin);
    match checkpoint(alloc, key, origin, head.size, head.root, opt_rand) {
        Ok(note) => {
            let mut text = ByteString::new(alloc);
            push_hex_line(&mut text, b"checkpoint ", &note)?;
            Ok(text)
        }
        Err(CheckpointError::Origin) => Ok(ByteString::from_slice(alloc, b"error origin\n")?),
        Err(CheckpointError::Randomizer) => unreachable!(),
        Err(CheckpointError::Memory) => Err(LineError::Memory),
    }
}

// The reply to the bytes of a line, and its size.
fn checkpoint_request<P: SetSizes>(
    alloc: Global,
    key: &[u8],
    origin: &[u8],
    size: u64,
    root: &[u8],
    opt_rand: Option<ByteString>,
) -> Result<ByteString, LineError>
    ensures { (result ≡ spec_checkpoint_request P.scheme P.set_name key.now opt_rand origin.now
        size root.now) ⊎ (result ≡ Err Memory) }
{
    let key = signing_key::<P>(key)?;
    let root = digest_of(root)?;
    let opt_rand = checked_randomizer::<P>(opt_rand)?;
    let head = Head {
        origin,
        size,
        root: &root,
    };
    checkpoint_text(alloc, &key, head, as_bytes(&opt_rand))
}

/// The reply to a `checkpoint` line.
pub(crate) fn checkpoint_line<P: SetSizes>(
    alloc: Global,
    fields: &[&[u8]],
) -> Result<ByteString, LineError>
    ensures { (result ≡ checkpoint_answer P.scheme P.set_name (contents fields.now))
        ⊎ (result ≡ Err Memory) }
{
    if fields.len() != 7 {
        return Err(LineError::Fields);
    }
    let size = size_at(fields, 4)?;
    let key = bytes_at(alloc, fields, 2)?;
    let origin = bytes_at(alloc, fields, 3)?;
    let root = bytes_at(alloc, fields, 5)?;
    let opt_rand = randomizer_at(alloc, fields, 6)?;
    checkpoint_request::<P>(
        alloc,
        key.as_slice(),
        origin.as_slice(),
        size,
        root.as_slice(),
        opt_rand,
    )
}
