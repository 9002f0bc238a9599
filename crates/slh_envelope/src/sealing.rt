//! Envelopes that are signed.
ghost use Rattle.std.specs.Prelude.{◌≡◌, ◌≤◌, ◌^◌, [], length, IfErr, IfOk};
ghost use Rattle.std.specs.Option.{option_copied, ForSome};
ghost use Rattle.dsse.specs.Encoding.{pae};
ghost use Rattle.dsse.specs.Writing.{envelope_text};
ghost use Rattle.slh_envelope.specs.Sealing.{seal_refusal, sealed, text_with_one};
ghost use Rattle.slh_envelope.specs.declared.error.SealError.TheVariants.{Memory};
ghost use Rattle.slh_core.specs.Refusals.{RefusedOrMemory};
ghost use Rattle.slh_frames.specs.Frames.{frame};
ghost use Rattle.slh_trees.specs.Signing.{signature_of};

use crate::error::SealError;
use crate::ids::key_id;
use dsse::{Envelope, Signature, encoding, write_envelope};
use slh_dsa::{Message, Mode, SetSizes, SigningKey, VerifyingKey, check_opt_rand};
use slh_frames::check_message;
use std::alloc::{AllocError, Global};

/// The text of an envelope of a payload, with one signature and its key's id. Where no `opt_rand` is
/// given the public seed stands for it. `Randomizer`; `TooLong`; `Memory`.
pub fn seal<P: SetSizes>(
    alloc: Global,
    key: &SigningKey<P>,
    payload_type: &str,
    payload: &[u8],
    opt_rand: Option<&[u8]>,
) -> Result<Vec<u8>, SealError>
    ensures refusal { let opt_rand = option_copied opt_rand.entry in
        RefusedOrMemory Memory result
        (seal_refusal P.scheme opt_rand (pae payload_type.now payload.now)) }
    ensures value { let opt_rand = option_copied opt_rand.entry in
        IfOk result (λ text. text.items
        ≡ envelope_text (sealed P.scheme key.now opt_rand payload_type.now payload.now)) }
{
    check_opt_rand::<P, SealError>(opt_rand, SealError::Randomizer)?;
    let text = encoding(alloc, payload_type.as_bytes(), payload)?;
    check_message(&text, SealError::TooLong)?;
    let signature = sign(alloc, key, &text, opt_rand)?;
    with_signature(
        alloc,
        &key.verifying_key(),
        payload_type,
        payload,
        &signature,
    )
}

// The signature of a text.
fn sign<P: SetSizes>(
    alloc: Global,
    key: &SigningKey<P>,
    text: &[u8],
    opt_rand: Option<&[u8]>,
) -> Result<Vec<u8>, AllocError>
    requires text { length text.now ≤ 2 ^ 60 }
    requires opt_rand { ForSome (option_copied opt_rand) (λ bytes. length bytes ≡ P.N.USIZE) }
    ensures { let opt_rand = option_copied opt_rand.entry in
        IfOk result (λ signature. signature.items
        ≡ signature_of P.scheme key.now opt_rand (frame [] text.now)) }
{
    let mut signature = vec![in alloc; 0u8; P::SIG_LEN]?;
    let message = Message::fitting(Mode::Pure, text, b"");
    key.sign_checked(&message, opt_rand, &mut signature);
    Ok(signature)
}

/// The text of an envelope with a signature that was made elsewhere, as in a module or on another
/// machine, of the [`encoding`] of type and payload, in mode `Pure` under the empty context; and with
/// the id of its key. Whether it is one isn't checked: who opens the envelope checks it. `Memory`.
pub fn with_signature<P: SetSizes>(
    alloc: Global,
    vk: &VerifyingKey<P>,
    payload_type: &str,
    payload: &[u8],
    signature: &[u8],
) -> Result<Vec<u8>, SealError>
    ensures memory { IfErr result (λ e. e ≡ Memory) }
    ensures value { IfOk result (λ text. text.items
        ≡ text_with_one vk.now payload_type.now payload.now signature.now) }
{
    let mut signatures = Vec::with_capacity(alloc, 1)?;
    let signed = Signature {
        key_id: Some(key_id(alloc, vk)?),
        bytes: signature.to_vec(alloc)?,
    };
    if signatures.push(signed).is_err() {
        return Err(SealError::Memory);
    }
    let envelope = Envelope {
        payload_type: String::from_str(alloc, payload_type)?,
        payload: payload.to_vec(alloc)?,
        signatures,
    };
    Ok(write_envelope(alloc, &envelope)?)
}
