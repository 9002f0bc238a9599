//! Envelopes of DSSE, under the key of a set that is known late.
ghost use Rattle.std.specs.Prelude.{◌≡◌, IfErr, IfOk};
ghost use Rattle.slh_bytes.specs.Envelopes.{IsUnopened};
ghost use Rattle.slh_envelope.specs.Opening.{IsOpened};
ghost use Rattle.slh_envelope.specs.Sealing.{text_with_one};
ghost use Rattle.slh_envelope.specs.declared.error.SealError.TheVariants.{Memory};
ghost use Rattle.slh_sets.specs.Sets.{scheme_for};

use slh_dsa::VerifyingKey;
use slh_envelope::{OpenError, SealError, open, with_signature};
use slh_sets::{OnSet, Set, SetSuite};
use std::alloc::Global;

// A payload with its type, and a signature of both.
#[derive(Drop)]
struct Enveloping<'a> {
    alloc: Global,
    key: &'a [u8],
    payload_type: &'a str,
    payload: &'a [u8],
    signature: &'a [u8],
}

impl<'a> OnSet for Enveloping<'a> {
    type Out = Result<Vec<u8>, SealError>;

    ghost gives = { λ c _ _ result. IfErr result (λ e. e ≡ Memory)
        × IfOk result (λ text. text.items
        ≡ text_with_one c.key.now c.payload_type.now c.payload.now c.signature.now) };

    fn on<P: SetSuite>(self) -> Result<Vec<u8>, SealError> {
        let Ok(key) = VerifyingKey::<P>::try_from(self.key) else {
            return Err(SealError::Memory);
        };
        let (payload_type, payload) = (self.payload_type, self.payload);
        with_signature(self.alloc, &key, payload_type, payload, self.signature)
    }
}

/// The text of an envelope with a signature of a payload and its type, by the key of a set, as
/// [`slh_envelope::with_signature`] writes it. `Memory`, which bytes that are no key of the set are
/// too.
pub fn envelope_of(
    alloc: Global,
    set: Set,
    key: &[u8],
    payload_type: &str,
    payload: &[u8],
    signature: &[u8],
) -> Result<Vec<u8>, SealError>
    ensures memory { IfErr result (λ e. e ≡ Memory) }
    ensures value { IfOk result (λ text. text.items
        ≡ text_with_one key.now payload_type.now payload.now signature.now) }
{
    set.run(Enveloping {
        alloc,
        key,
        payload_type,
        payload,
        signature,
    })
}

// The text of an envelope, and the type that its payload is to have.
#[derive(Drop)]
struct Opening<'a> {
    alloc: Global,
    key: &'a [u8],
    payload_type: &'a str,
    text: &'a [u8],
}

impl<'a> OnSet for Opening<'a> {
    type Out = Result<Vec<u8>, OpenError>;

    ghost gives = { λ c Z _ result.
        IfOk result (λ payload.
        IsOpened Z c.key.now c.payload_type.now c.text.now payload.items)
        × IfErr result (IsUnopened Z c.key.now c.payload_type.now c.text.now) };

    fn on<P: SetSuite>(self) -> Result<Vec<u8>, OpenError> {
        let Ok(key) = VerifyingKey::<P>::try_from(self.key) else {
            return Err(OpenError::Unsigned);
        };
        open(self.alloc, &key, self.payload_type, self.text)
    }
}

/// The payload of an envelope under a verifying key of a set, as [`slh_envelope::open`] opens it.
/// `Form`; `PayloadType`; `Unsigned`; `Invalid`; `Memory`. Under bytes that are no key of the set it
/// is `Unsigned`.
pub fn open_envelope(
    alloc: Global,
    set: Set,
    key: &[u8],
    payload_type: &str,
    text: &[u8],
) -> Result<Vec<u8>, OpenError>
    ensures ok { IfOk result (λ payload.
        IsOpened (scheme_for set) key.now payload_type.now text.now payload.items) }
    ensures err { IfErr result
        (IsUnopened (scheme_for set) key.now payload_type.now text.now) }
{
    set.run(Opening {
        alloc,
        key,
        payload_type,
        text,
    })
}
