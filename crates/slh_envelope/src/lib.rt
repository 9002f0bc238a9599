//! Envelopes of DSSE 1.0 (Dead Simple Signing Envelope, of in-toto), signed with SLH-DSA.
//!
//! What is signed is the [`encoding`](dsse::encoding) of a payload and its type, in mode `Pure` (FIPS
//! 205, algorithm 22) under the empty context, as other tools sign it. The id of a key is the SHA-256
//! of its bytes, in hexadecimal. Nothing vouches for an id: it says which signatures are looked at, and
//! those without one are.
//!
//! ```
//! use slh_dsa::{Sha2_128f, SigningKey, VerifyingKey};
//! use slh_envelope::{OpenError, SealError, open, seal};
//! use std::alloc::Global;
//!
//! const STATEMENT: &str = "application/vnd.in-toto+json";
//!
//! fn attested(
//!     alloc: Global,
//!     key: &SigningKey<Sha2_128f>,
//!     statement: &[u8],
//! ) -> Result<Vec<u8>, SealError> {
//!     seal(alloc, key, STATEMENT, statement, None)
//! }
//!
//! fn statement_of(
//!     alloc: Global,
//!     key: &VerifyingKey<Sha2_128f>,
//!     envelope: &[u8],
//! ) -> Result<Vec<u8>, OpenError> {
//!     open(alloc, key, STATEMENT, envelope)
//! }
//! ```
#![tactic(auto)]

pub mod clones;
mod error;
mod ids;
pub mod laws;
mod opening;
mod sealing;

pub use dsse::encoding;
pub use error::{OpenError, SealError};
pub use ids::key_id;
pub use opening::open;
pub use sealing::{seal, with_signature};
