//! Keys from passphrases: PBKDF2 with HMAC-SHA-256 (RFC 8018). No call takes memory.
//!
//! The blocks of the password are hashed once, so that an iteration is two compressions.
#![tactic(auto)]

mod derivation;
mod keyed;
pub mod laws;

pub use derivation::derive;
