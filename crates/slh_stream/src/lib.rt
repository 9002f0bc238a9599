//! Messages in pieces (FIPS 205, sections 9 and 10), signed and verified in constant memory.
//!
//! What is verified and signed piece by piece is what the calls of `slh_dsa` verify and sign of the
//! pieces joined, whatever they are cut into. A [`MessageVerifier`] verifies in one pass, in each
//! mode. A message itself is signed in two passes, a [`FirstPass`] and a [`SecondPass`]: R comes
//! from the whole message, and H_msg begins with R. Its digest is signed in one, by a
//! [`DigestSigner`], and where the digest is at hand by [`sign_digest`]. In `slh_tests`,
//! `page_of_pieces::example_of_the_page` runs this:
//!
//! ```
//! use slh_dsa::{Error, Mode, Sha2_128f, SigningKey, VerifyingKey};
//! use slh_stream::{FirstPass, MessageVerifier, PassError};
//!
//! fn signed(
//!     key: &SigningKey<Sha2_128f>,
//!     first: &[u8],
//!     second: &[u8],
//!     out: &mut [u8],
//! ) -> Result<Result<(), PassError>, Error> {
//!     let mut pass = FirstPass::new(key, b"context", None)?;
//!     pass.update(first)?;
//!     pass.update(second)?;
//!     let mut pass = pass.again();
//!     pass.update(first)?;
//!     pass.update(second)?;
//!     Ok(pass.finish_into(out))
//! }
//!
//! fn verified(
//!     key: &VerifyingKey<Sha2_128f>,
//!     sig: &[u8],
//!     first: &[u8],
//!     second: &[u8],
//! ) -> Result<(), Error> {
//!     let mut verifier = MessageVerifier::new(key, Mode::Pure, b"context", sig)?;
//!     verifier.update(first)?;
//!     verifier.update(second)?;
//!     verifier.finish()
//! }
//! ```
//!
//! The second pass makes R again, and signs nothing where it isn't that of the first
//! (`PassError::Changed`). What it signs is what it was given itself. A state stands for the bytes
//! that it has absorbed, which the contracts say by a relation: for each message for which it
//! stood it stands, after a piece, for that message and the piece. A refused piece changes nothing.
//! A verifier may be put aside between two pieces, as a [`SuspendedVerifier`] of numbers alone, and a
//! pass as a [`SuspendedPass`]. Its mode, or which pass it is, is among the numbers, and a call for
//! another one is answered by `None`. No call takes memory.
#![tactic(auto)]

mod by_key;
mod context;
mod digest_signer;
mod digests;
pub mod laws;
mod pass_error;
mod passes;
mod suspended;
mod suspended_pass;
mod verifier;

pub use by_key::{PieceSigning, PieceVerifying};
pub use digest_signer::{DigestSigner, Digesting};
pub use digests::{sign_digest, sign_digest_counted, verify_digest, verify_digest_counted};
pub use pass_error::PassError;
pub use passes::{FirstPass, Passing, SecondPass};
pub use suspended::{SuspendedVerifier, VerifierNumbers};
pub use suspended_pass::{PassNumbers, SuspendedPass};
pub use verifier::{MessageVerifier, Verifying};
