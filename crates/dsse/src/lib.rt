//! DSSE 1.0 (Dead Simple Signing Envelope, of in-toto): the text that is signed of a payload and
//! its type, and envelopes in JSON, written and read.
//!
//! Nothing here signs or verifies: an envelope that is read says only what it says.
#![tactic(auto)]

mod envelope;
pub mod laws;
mod reading;
mod signed_text;
mod writing;

pub use envelope::{Envelope, EnvelopeError, Signature};
pub use reading::read_envelope;
pub use signed_text::encoding;
pub use writing::write_envelope;
