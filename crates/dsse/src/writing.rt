//! Writing envelopes.
ghost use Rattle.std.specs.Prelude.{◌≡◌, ◌++◌, IfOk, OnOk, map};
ghost use Rattle.json.specs.Json.{array};
ghost use Rattle.json.specs.Tree.{json_tokens};
ghost use Rattle.dsse.specs.Said.{said, said_by};
ghost use Rattle.dsse.specs.Writing.{bytes_json, envelope_json, envelope_text, signature_json, signatures_json};

use crate::envelope::{Envelope, Signature};
use base64::engine::general_purpose::STANDARD;
use json::Writer;
use std::alloc::{AllocError, Global};

/// The text of an envelope: an object of JSON with no space in it, the payload and the signatures
/// in base64 with padding, and a line feed.
pub fn write_envelope(alloc: Global, envelope: &Envelope) -> Result<Vec<u8>, AllocError>
    ensures { IfOk result (λ text. text.items ≡ envelope_text (said envelope.now)) }
{
    let mut writer = Writer::new(Vec::with_capacity(alloc, envelope.payload.len())?);
    write_object(alloc, &mut writer, envelope)?;
    let mut text = writer.into_inner();
    text.push(b'\n')?;
    Ok(text)
}

fn write_object(alloc: Global, writer: &mut Writer, envelope: &Envelope) -> Result<(), AllocError>
    ensures before { writer.new.before ≡ writer.old.before }
    ensures tokens { OnOk result (writer.new.tokens
        ≡ writer.old.tokens ++ json_tokens (envelope_json (said envelope.now))) }
{
    writer.begin_object()?;
    writer.key("payload")?;
    write_bytes(alloc, writer, envelope.payload.as_slice())?;
    writer.key("payloadType")?;
    writer.string(envelope.payload_type.as_str())?;
    writer.key("signatures")?;
    write_signatures(alloc, writer, envelope.signatures.as_slice())?;
    writer.end_object()
}

fn write_signatures(
    alloc: Global,
    writer: &mut Writer,
    signatures: &[Signature],
) -> Result<(), AllocError>
    ensures before { writer.new.before ≡ writer.old.before }
    ensures tokens { OnOk result (writer.new.tokens
        ≡ writer.old.tokens ++ json_tokens (array (signatures_json (map said_by signatures.now)))) }
{
    writer.begin_array()?;
    for signature in signatures {
        write_signature(alloc, writer, signature)?;
    }
    writer.end_array()
}

fn write_signature(
    alloc: Global,
    writer: &mut Writer,
    signature: &Signature,
) -> Result<(), AllocError>
    ensures before { writer.new.before ≡ writer.old.before }
    ensures tokens { OnOk result (writer.new.tokens
        ≡ writer.old.tokens ++ json_tokens (signature_json (said_by signature.now))) }
{
    writer.begin_object()?;
    if let Some(key_id) = &signature.key_id {
        writer.key("keyid")?;
        writer.string(key_id.as_str())?;
    }
    writer.key("sig")?;
    write_bytes(alloc, writer, signature.bytes.as_slice())?;
    writer.end_object()
}

// Bytes as a string, in base64.
fn write_bytes(alloc: Global, writer: &mut Writer, bytes: &[u8]) -> Result<(), AllocError>
    ensures before { writer.new.before ≡ writer.old.before }
    ensures tokens { OnOk result (writer.new.tokens
        ≡ writer.old.tokens ++ json_tokens (bytes_json bytes.now)) }
{
    let symbols = STANDARD.encode(alloc, bytes)?;
    writer.string(symbols.as_str())
}
