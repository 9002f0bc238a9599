//! SLH-DSA (FIPS 205) over SHA-2: parameter sets, keys and signatures.
//!
//! A port of the Rust crate `slh-dsa` 0.1.0. A key is made of three seeds of n bytes each, which
//! have to be random and secret (the third is public); it signs a message with a context of up to
//! 255 bytes, and what it signs its verifying key accepts with the same message and context. In
//! `slh_tests`, `page_of_keys::example_of_the_page` runs this:
//!
//! ```
//! use slh_dsa::{Error, Sha2_128f, Signature, SigningKey, VerifyingKey};
//! use std::alloc::Global;
//!
//! fn signed(alloc: Global, seeds: &[u8; 48]) -> Result<(Vec<u8>, Vec<u8>), Error> {
//!     let (sk_seed, rest) = seeds.split_at(16);
//!     let (sk_prf, pk_seed) = rest.split_at(16);
//!     let key = SigningKey::<Sha2_128f>::slh_keygen_internal(sk_seed, sk_prf, pk_seed)?;
//!     let signature = key.try_sign_with_context(alloc, b"message", b"context", None)?;
//!     let public = key.verifying_key().to_vec(alloc)?;
//!     Ok((public, signature.to_vec(alloc)?))
//! }
//!
//! fn verified(alloc: Global, public: &[u8], signature: &[u8]) -> Result<(), Error> {
//!     let key = VerifyingKey::<Sha2_128f>::try_from(public)?;
//!     let signature = Signature::try_from(alloc, signature)?;
//!     key.try_verify_with_context(b"message", b"context", &signature)
//! }
//! ```
//!
//! A [`Message`] is what is signed as a value: a mode, a context, and a message or its digest.
//! [`SigningKey::sign_message`] and [`VerifyingKey::verify_message`] take one and slices of the
//! caller, and no memory; the calls whose names end in `_counted` besides count the addressed hash calls
//! on the caller's counter. Each refusal comes for the cause that
//! its variant of [`Error`] names, the first in the order of the variants.
#![tactic(auto)]

mod checks;
pub mod clones;
mod error;
mod halves;
pub mod laws;
mod parameter_set;
mod sets;
mod signature;
mod signing_key;
mod traits;
mod verifying_key;

pub use checks::check_opt_rand;
pub use error::Error;
pub use halves::verifying_half;
pub use parameter_set::{ParameterSet, SetSizes};
pub use signature::Signature;
pub use signing_key::SigningKey;
pub use slh_frames::{Frame, Message, MessageError, Mode};
pub use slh_hash::{Sha2_128f, Sha2_128s, Sha2_192f, Sha2_192s, Sha2_256f, Sha2_256s};
pub use verifying_key::VerifyingKey;
