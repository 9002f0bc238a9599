//! What an envelope says, and why a text is none.
use std::alloc::AllocError;

/// A signature, and whose it says it is.
#[derive(Debug, Drop)]
pub struct Signature {
    /// The id of its key, a hint that nothing vouches for.
    pub key_id: Option<String>,
    /// Its bytes.
    pub bytes: Vec<u8>,
}

/// A payload with its type, and signatures of both.
#[derive(Debug, Drop)]
pub struct Envelope {
    /// What the payload is, a media type or a URI.
    pub payload_type: String,
    /// What is said.
    pub payload: Vec<u8>,
    /// Signatures of the [`encoding`](crate::encoding) of the type and the payload.
    pub signatures: Vec<Signature>,
}

/// Why no envelope was read.
#[derive(Clone, Copy, Debug, PartialEq, Eq)]
pub enum EnvelopeError {
    /// The text isn't an envelope.
    Form,
    /// There was no memory.
    Memory,
}

impl From<AllocError> for EnvelopeError {
    ghost use Rattle.std.specs.Prelude.{◌≡◌};
    ghost use Rattle.dsse.specs.declared.envelope.EnvelopeError.TheVariants.{Memory};

    ghost from_gives = { λ _ e. e ≡ Memory };

    fn from(_: AllocError) -> Self {
        EnvelopeError::Memory
    }
}
