//! Opening checkpoints.
ghost use Rattle.std.specs.Prelude.{◌≡◌, ◌+◌, ◌≤◌, ◌^◌, ◌&&◌, length, true, IfOk, Some};
ghost use Rattle.std.specs.Str.{bytes_eq};
ghost use Rattle.line_serve.specs.Lines.{parts};
ghost use Rattle.slh_trees.specs.Checking.{signature_size};
ghost use Rattle.slh_core.specs.Refusals.{RefusedExactly};
ghost use Rattle.slh_log.specs.Calls.{open_refusal, signature_refusal};
ghost use Rattle.slh_log.specs.Reading.{is_origin as spec_is_origin, own_signature, read_root};
ghost use Rattle.slh_log.specs.Reading.{read_size};
ghost use Rattle.slh_log.specs.Texts.{key_id as spec_key_id};

use crate::error::OpenError;
use crate::making::CONTEXT;
use crate::note::{Checkpoint, read_note};
use crate::origin::{ID_LEN, is_origin, key_id};
use crate::signed::find_signature;
use slh_core::params::{chain_sizes, forest_sizes, layer_sizes};
use slh_dsa::{Message, Mode, SetSizes, VerifyingKey};

/// No id and signature have more bytes.
const MAX_SIGNED: usize = 1 << 18;

// A buffer for an id and a signature.
fn blank() -> [u8; MAX_SIGNED]
    ensures { length result ≡ 2 ^ 18 }
{
    [0; MAX_SIGNED]
}

/// No signature has more than 2^18 bytes, with an id before it.
pub(crate) fn signature_bound<P: SetSizes>()
    ensures { signature_size P.scheme + 4 ≤ 2 ^ 18 }
{
    chain_sizes::<P>();
    layer_sizes::<P>();
    forest_sizes::<P>();
}

// Whether the first line is an origin that a log may have.
fn is_of(first: &[u8], origin: &str) -> bool
    ensures value { result ≡ (spec_is_origin origin.now && bytes_eq first.now origin.now) }
    ensures few { result ≡ true → length origin.now ≤ 255 }
{
    is_origin(origin) && first == origin.as_bytes()
}

// Checks the first signature of a text by the key of an origin, in a buffer.
fn check_signature<P: SetSizes>(
    vk: &VerifyingKey<P>,
    origin: &str,
    text: &[u8],
    signatures: &[u8],
    buffer: &mut [u8],
) -> Result<(), OpenError>
    requires origin { length origin.now ≤ 255 }
    requires text { length text.now ≤ 2 ^ 60 }
    requires room { length buffer.old ≡ 4 + signature_size P.scheme }
    ensures { let id = spec_key_id origin.now P.set_name vk.now in
        RefusedExactly result (signature_refusal P.scheme vk.now text.now
        (own_signature (4 + signature_size P.scheme) origin.now id (parts signatures.now))) }
{
    let id = key_id(origin, vk);
    if !find_signature(signatures, origin.as_bytes(), &id, buffer) {
        return Err(OpenError::Unsigned);
    }
    let message = Message::fitting(Mode::Pure, text, CONTEXT);
    if !vk.is_valid(&message, &buffer[ID_LEN..]) {
        return Err(OpenError::Invalid);
    }
    Ok(())
}

/// What a checkpoint says that is signed by a key under an origin: [`open`] in a buffer of the
/// caller's, of 4 bytes more than a signature of the set has. What the buffer holds afterwards
/// isn't said.
pub fn open_in<P: SetSizes>(
    vk: &VerifyingKey<P>,
    origin: &str,
    bytes: &[u8],
    buffer: &mut [u8],
) -> Result<Checkpoint, OpenError>
    requires { length buffer.old ≡ 4 + signature_size P.scheme }
    ensures refusal { RefusedExactly result
        (open_refusal P.scheme P.set_name vk.now origin.now bytes.now) }
    ensures size { IfOk result (λ head. read_size bytes.now ≡ Some head.size) }
    ensures root { IfOk result (λ head. read_root bytes.now ≡ Some head.root) }
{
    let Some(note) = read_note(bytes) else {
        return Err(OpenError::Form);
    };
    if !is_of(note.origin, origin) {
        return Err(OpenError::Origin);
    }
    match check_signature(vk, origin, note.text, note.signatures, buffer) {
        Ok(()) => Ok(note.checkpoint),
        Err(refusal) => Err(refusal),
    }
}

/// What a checkpoint says that is signed by a key under an origin (C2SP, tlog-checkpoint). `Form`;
/// `Origin`; `Unsigned`; `Invalid`. Signatures by others, and lines of the text after the third,
/// are skipped. Verifies one signature at most, takes no memory, and keeps 256 KiB on the stack;
/// [`open_in`] takes a buffer of the caller's instead.
pub fn open<P: SetSizes>(
    vk: &VerifyingKey<P>,
    origin: &str,
    bytes: &[u8],
) -> Result<Checkpoint, OpenError>
    ensures refusal { RefusedExactly result
        (open_refusal P.scheme P.set_name vk.now origin.now bytes.now) }
    ensures size { IfOk result (λ head. read_size bytes.now ≡ Some head.size) }
    ensures root { IfOk result (λ head. read_root bytes.now ≡ Some head.root) }
{
    signature_bound::<P>();
    let mut buffer = blank();
    let signed = &mut buffer[..ID_LEN + P::SIG_LEN];
    open_in(vk, origin, bytes, signed)
}
