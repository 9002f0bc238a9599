//! The traits of keys that sign and verify, and of signatures that are lists of bytes.
//!
//! A port of the traits of the Rust crate `signature` 2 that `slh-dsa` 0.1.0 implements. What a key
//! answers is said by its ghost members: the signature that a message has, which errors the key may
//! give for it, whether a signature is accepted.
//!
//! For code that takes keys of any scheme, and for schemes whose keys such code takes. Whether a
//! key accepts what it signs, for every type of keys that sign by themselves. In `slh_tests`,
//! `signature_traits::example_of_the_page` runs this on a key of one byte, for which the tests
//! implement the traits:
//!
//! ```
//! use signature_core::{KeypairRef, Signer, Verifier};
//! use std::alloc::Global;
//!
//! fn accepts_own<S: Drop, K: Signer<S> + KeypairRef>(alloc: Global, key: &K, msg: &[u8]) -> bool
//! where
//!     K::Error: Drop,
//!     K::VerifyingKey: Verifier<S> + Drop,
//!     <K::VerifyingKey as Verifier<S>>::Error: Drop,
//! {
//!     match key.try_sign(alloc, msg) {
//!         Ok(signature) => key.verifying_key().verify(msg, &signature).is_ok(),
//!         Err(_) => false,
//!     }
//! }
//! ```
//!
//! The errors are the key's own. A contract here leaves open whether a key signs a message that it
//! may sign, since memory may be wanting; `verify` answers `Ok` exactly where the key accepts.
#![tactic(auto)]

pub mod counter;
mod encoding;
mod keypair;
mod signer;
mod verifier;

pub use encoding::SignatureEncoding;
pub use keypair::KeypairRef;
pub use signer::{RandomizedSigner, Signer};
pub use verifier::Verifier;
