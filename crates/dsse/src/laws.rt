//! No two pairs of a type and a payload are signed as one, and what is written is read: as the
//! contracts of functions that do nothing.
ghost use Rattle.std.specs.Prelude.{◌≡◌, ◌^◌, ◌<◌, ℕ, List, Some, length};
ghost use Rattle.dsse.specs.Encoding.{pae};
ghost use Rattle.base64.specs.GeneralPurpose.{IsBytes};
ghost use Rattle.dsse.specs.Forms.{IsBase64};
ghost use Rattle.dsse.specs.Reading.{IsEnvelope, decoded};
ghost use Rattle.dsse.specs.Said.{IsSaid, Said};
ghost use Rattle.dsse.specs.Writing.{envelope_text};

/// Two pairs of a type and a payload with one encoding are equal.
pub fn encodings_differ()
    ensures { (type_a payload_a type_b payload_b : List ℕ)
        → length type_a < 2 ^ 64
        → length payload_a < 2 ^ 64
        → length type_b < 2 ^ 64
        → length payload_b < 2 ^ 64
        → pae type_a payload_a ≡ pae type_b payload_b
        → (type_a ≡ type_b) × (payload_a ≡ payload_b) }
{}

/// What is written of an envelope is read as this envelope.
pub fn written_is_read()
    ensures { (e : Said) → IsSaid e → IsEnvelope (envelope_text e) e }
{}

/// A text is one envelope, or none.
pub fn texts_say_one_thing()
    ensures { (text : List ℕ) (e f : Said) → IsEnvelope text e → IsEnvelope text f → e ≡ f }
{}

/// A text that is read as bytes is one of their four encodings: bytes have four texts at the most.
pub fn bytes_have_four_texts()
    ensures { (text bytes : List ℕ)
        → IsBytes text
        → decoded text ≡ Some bytes
        → IsBase64 text bytes }
{}
