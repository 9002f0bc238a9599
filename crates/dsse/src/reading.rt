//! Reading envelopes.
ghost use Rattle.std.specs.Prelude.{◌≡◌, Err, IfOk, None, Some, List, ℕ, codes, map, option_and_then, option_map};
ghost use Rattle.std.specs.String.{string_bytes};
ghost use Rattle.dsse.specs.Forms.{IsFound};
ghost use Rattle.json.specs.Value.{items_view, value_view};
ghost use Rattle.dsse.specs.Reading.{IsEnvelope, bytes_in, decoded as spec_decoded, envelope_in};
ghost use Rattle.dsse.specs.Reading.{key_id_in, signature_in, signatures_in, signatures_of as spec_signatures_of};
ghost use Rattle.dsse.specs.Reading.{text_in};
ghost use Rattle.dsse.specs.Said.{Said, said, said_by};

use crate::envelope::{Envelope, EnvelopeError, Signature};
use base64::DecodeAllocError;
use base64::engine::general_purpose::{STANDARD, STANDARD_NO_PAD, URL_SAFE, URL_SAFE_NO_PAD};
use json::{Scratch, Value};
use std::alloc::{AllocError, Global};

/// What an envelope says, of which nothing is verified: the members of its object may stand in any
/// order and others beside them, bytes are in base64 or URL-safe base64, with padding or without.
/// `Form`, also where an object in it has two members of one name; `Memory`.
pub fn read_envelope(alloc: Global, text: &[u8]) -> Result<Envelope, EnvelopeError>
    ensures ok { IfOk result (λ envelope. IsEnvelope text.now (said envelope)) }
    ensures form { result ≡ Err EnvelopeError.Form → (e : Said) → IsEnvelope text.now e → ⊥ }
{
    let Ok(text) = std::str::from_utf8(text) else {
        return Err(EnvelopeError::Form);
    };
    let mut scratch = Scratch::new(alloc);
    match Value::parse_strict(alloc, text, &mut scratch) {
        Ok(value) => envelope_of(alloc, &value),
        Err(json::Error::OutOfMemory) => Err(EnvelopeError::Memory),
        Err(_) => Err(EnvelopeError::Form),
    }
}

fn envelope_of(alloc: Global, value: &Value<'_>) -> Result<Envelope, EnvelopeError>
    ensures ok { IfOk result
        (λ envelope. envelope_in (value_view value.now) ≡ Some (said envelope)) }
    ensures form { result ≡ Err EnvelopeError.Form → envelope_in (value_view value.now) ≡ None }
{
    let payload_type = string_of(alloc, text_of(value, "payloadType"))?;
    let payload = bytes_of(alloc, value, "payload")?;
    let signatures = signatures_of(alloc, value)?;
    Ok(Envelope {
        payload_type,
        payload,
        signatures,
    })
}

fn signatures_of(alloc: Global, value: &Value<'_>) -> Result<Vec<Signature>, EnvelopeError>
    ensures ok { IfOk result
        (λ found. signatures_in (value_view value.now) ≡ Some (map said_by found.items)) }
    ensures form { result ≡ Err EnvelopeError.Form → signatures_in (value_view value.now) ≡ None }
{
    match value.get("signatures") {
        Some(Value::Array(items)) => each_signature(alloc, items.as_slice()),
        _ => Err(EnvelopeError::Form),
    }
}

fn each_signature(alloc: Global, items: &[Value<'_>]) -> Result<Vec<Signature>, EnvelopeError>
    ensures ok { IfOk result
        (λ found. spec_signatures_of (items_view items.now) ≡ Some (map said_by found.items)) }
    ensures form { result ≡ Err EnvelopeError.Form
        → spec_signatures_of (items_view items.now) ≡ None }
{
    let mut found = Vec::with_capacity(alloc, items.len())?;
    for item in items {
        let signature = signature_of(alloc, item)?;
        if found.push(signature).is_err() {
            return Err(EnvelopeError::Memory);
        }
    }
    Ok(found)
}

fn signature_of(alloc: Global, value: &Value<'_>) -> Result<Signature, EnvelopeError>
    ensures ok { IfOk result
        (λ signature. signature_in (value_view value.now) ≡ Some (said_by signature)) }
    ensures form { result ≡ Err EnvelopeError.Form → signature_in (value_view value.now) ≡ None }
{
    let key_id = key_id_of(alloc, value)?;
    let bytes = bytes_of(alloc, value, "sig")?;
    Ok(Signature { key_id, bytes })
}

fn key_id_of(alloc: Global, value: &Value<'_>) -> Result<Option<String>, EnvelopeError>
    ensures ok { IfOk result
        (λ id. key_id_in (value_view value.now) ≡ Some (option_map string_bytes id)) }
    ensures form { result ≡ Err EnvelopeError.Form → key_id_in (value_view value.now) ≡ None }
{
    match value.get("keyid") {
        None => Ok(None),
        Some(id) => Ok(Some(string_of(alloc, id.as_str())?)),
    }
}

fn text_of<'a>(value: &Value<'a>, name: &str) -> Option<&'a str>
    ensures { option_map (λ text. text.now) result ≡ text_in name.now (value_view value.now) }
{
    value.get(name)?.as_str()
}

// A text that is there, as one of our own.
fn string_of(alloc: Global, text: Option<&str>) -> Result<String, EnvelopeError>
    ensures ok { IfOk result
        (λ string. option_map (λ t. t.now) text.entry ≡ Some (string_bytes string)) }
    ensures form { result ≡ Err EnvelopeError.Form → option_map (λ t. t.now) text.entry ≡ None }
{
    match text {
        Some(text) => Ok(String::from_str(alloc, text)?),
        None => Err(EnvelopeError::Form),
    }
}

fn bytes_of(alloc: Global, value: &Value<'_>, name: &str) -> Result<Vec<u8>, EnvelopeError>
    ensures ok { IfOk result
        (λ bytes. bytes_in name.now (value_view value.now) ≡ Some bytes.items) }
    ensures form { result ≡ Err EnvelopeError.Form
        → bytes_in name.now (value_view value.now) ≡ None }
{
    match text_of(value, name) {
        Some(text) => decoded(alloc, text),
        None => Err(EnvelopeError::Form),
    }
}

// The bytes of a text in base64, of either alphabet, with padding or without.
fn decoded(alloc: Global, text: &str) -> Result<Vec<u8>, EnvelopeError>
    ensures ok { IfOk result (λ bytes. spec_decoded text.now ≡ Some bytes.items) }
    ensures form { result ≡ Err EnvelopeError.Form → spec_decoded text.now ≡ None }
{
    let symbols = text.as_bytes();
    if let Some(bytes) = found(STANDARD.decode(alloc, symbols))? {
        return Ok(bytes);
    }
    if let Some(bytes) = found(STANDARD_NO_PAD.decode(alloc, symbols))? {
        return Ok(bytes);
    }
    if let Some(bytes) = found(URL_SAFE.decode(alloc, symbols))? {
        return Ok(bytes);
    }
    if let Some(bytes) = found(URL_SAFE_NO_PAD.decode(alloc, symbols))? {
        return Ok(bytes);
    }
    Err(EnvelopeError::Form)
}

// The bytes, unless they weren't in this form.
fn found(decoded: Result<Vec<u8>, DecodeAllocError>) -> Result<Option<Vec<u8>>, AllocError>
    ensures { IsFound decoded result }
{
    match decoded {
        Ok(bytes) => Ok(Some(bytes)),
        Err(DecodeAllocError::DecodeError(_)) => Ok(None),
        Err(DecodeAllocError::OutOfMemory) => Err(AllocError),
    }
}
