//! SHA-256 (FIPS 180-4) and HMAC with it (RFC 2104), on messages that come piece by piece, and HKDF
//! (RFC 5869). No call takes memory.
//!
//! - [`Hash`] and [`HMAC`] take a message by `update`, and have calls for a message in one piece.
//! - [`HKDF`] derives keys from keying material.
//! - [`WrappedHash`] is SHA-256 by the traits of `digest_core`.
//!
//! A key from a secret, a code of a message under it, and the message's digest. The test
//! `a_code_under_a_derived_key` of `ground_tests` runs these lines:
//!
//! ```
//! let prk = HKDF::extract(b"salt", b"secret");
//! let mut key = [0; 32];
//! HKDF::expand(&mut key, &prk, b"key of codes");
//! let mut mac = HMAC::new(&key);
//! mac.update(b"a message ");
//! mac.update(b"in two pieces");
//! let code = mac.finalize();
//! assert!(HMAC::verify(b"a message in two pieces", &key, &code));
//! let digest = Hash::hash(b"a message in two pieces");
//! ```
//!
//! A port of the Rust crate `hmac-sha256` 1.1.15. What is hashed block by block, and many messages
//! side by side, stand in `sha256_lanes`.
#![tactic(auto)]

mod comparison;
mod hashing;
mod hkdf;
pub mod laws;
mod mac;
mod wrapped;

pub use digest_core;
pub use hashing::{Hash, MAX_BYTES};
pub use hkdf::HKDF;
pub use mac::HMAC;
pub use wrapped::WrappedHash;
