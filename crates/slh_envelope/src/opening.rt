//! Envelopes that are verified.
ghost use Rattle.std.specs.Prelude.{◌≡◌, IfErr, IfOk, map};
ghost use Rattle.std.specs.List.{list_any};
ghost use Rattle.slh_core.specs.Refusals.{RefusedExactly, RefusedOrMemory};
ghost use Rattle.dsse.specs.Said.{said, said_by};
ghost use Rattle.slh_envelope.specs.Opening.{IsOpened, IsRefused, is_accepted, may_be_of};
ghost use Rattle.slh_envelope.specs.Opening.{signature_refusal, type_refusal};
ghost use Rattle.slh_envelope.specs.declared.error.OpenError.TheVariants.{Memory};

use crate::error::OpenError;
use crate::ids::key_id;
use dsse::{Envelope, EnvelopeError, Signature, encoding, read_envelope};
use slh_dsa::{SetSizes, VerifyingKey};
use std::alloc::Global;

/// The payload of an envelope of this type with a good signature of the key, which has the key's id or
/// none. Those of other ids aren't looked at. `Form`; `PayloadType`; `Unsigned`; `Invalid`; `Memory`.
pub fn open<P: SetSizes>(
    alloc: Global,
    vk: &VerifyingKey<P>,
    payload_type: &str,
    text: &[u8],
) -> Result<Vec<u8>, OpenError>
    ensures ok { IfOk result
        (λ payload. IsOpened P.scheme vk.now payload_type.now text.now payload.items) }
    ensures err { IfErr result (IsRefused P.scheme vk.now payload_type.now text.now) }
{
    let envelope = match read_envelope(alloc, text) {
        Ok(envelope) => envelope,
        Err(EnvelopeError::Form) => return Err(OpenError::Form),
        Err(EnvelopeError::Memory) => return Err(OpenError::Memory),
    };
    check_type(&envelope, payload_type)?;
    check_signatures(alloc, vk, &envelope)?;
    Ok(envelope.payload)
}

// Whether the payload is of this type.
fn check_type(envelope: &Envelope, payload_type: &str) -> Result<(), OpenError>
    ensures { RefusedExactly result (type_refusal payload_type.now (said envelope.now)) }
{
    if envelope.payload_type.as_str() != payload_type {
        return Err(OpenError::PayloadType);
    }
    Ok(())
}

// Whether the key accepts one of the signatures.
fn check_signatures<P: SetSizes>(
    alloc: Global,
    vk: &VerifyingKey<P>,
    envelope: &Envelope,
) -> Result<(), OpenError>
    ensures { RefusedOrMemory Memory result
        (signature_refusal P.scheme vk.now (said envelope.now)) }
{
    let signatures = envelope.signatures.as_slice();
    let payload_type = envelope.payload_type.as_bytes();
    let text = encoding(alloc, payload_type, envelope.payload.as_slice())?;
    let id = key_id(alloc, vk)?;
    if accepts_any(vk, id.as_bytes(), &text, signatures) {
        return Ok(());
    }
    if may_have(id.as_bytes(), signatures) {
        return Err(OpenError::Invalid);
    }
    Err(OpenError::Unsigned)
}

// Whether one of these signatures, with the key's id or none, is one of a text.
fn accepts_any<P: SetSizes>(
    vk: &VerifyingKey<P>,
    id: &[u8],
    text: &[u8],
    signatures: &[Signature],
) -> bool
    ensures { result
        ≡ list_any (is_accepted P.scheme vk.now id.now text.now) (map said_by signatures.now) }
{
    for signature in signatures {
        if accepts(vk, id, text, signature) {
            return true;
        }
    }
    false
}

fn accepts<P: SetSizes>(vk: &VerifyingKey<P>, id: &[u8], text: &[u8], signature: &Signature) -> bool
    ensures { result ≡ is_accepted P.scheme vk.now id.now text.now (said_by signature.now) }
{
    may_be(id, signature) && vk.verify_pure(text, b"", &signature.bytes).is_ok()
}

// Whether one of these signatures has this id or none.
fn may_have(id: &[u8], signatures: &[Signature]) -> bool
    ensures { result ≡ list_any (may_be_of id.now) (map said_by signatures.now) }
{
    for signature in signatures {
        if may_be(id, signature) {
            return true;
        }
    }
    false
}

fn may_be(id: &[u8], signature: &Signature) -> bool
    ensures { result ≡ may_be_of id.now (said_by signature.now) }
{
    match &signature.key_id {
        Some(given) => given.is_empty() || given.as_bytes() == id,
        None => true,
    }
}
