//! Signed logs: lists that only grow, whose heads are signed.
//!
//! A checkpoint says how many entries a log has and what the root of their tree is, under the log's
//! origin. It is a text of three lines, signed as a note (C2SP, `tlog-checkpoint` and
//! `signed-note`): the origin, the size in decimal, and the root in base64, then an empty line and
//! the line of a signature, an em dash, the origin, and the base64 of the key's id and the
//! signature. The text is signed in mode `Pure` (FIPS 205, algorithm 22) with the context
//! `slh-log`. The tree is that of RFC 9162 (2.1), which `merkle_tree` has.
//!
//! A log signs its head, and a client that knows its key and its origin takes a later head after an
//! earlier one:
//!
//! ```
//! use slh_dsa::{Sha2_128f, SigningKey, VerifyingKey};
//! use slh_log::{CheckpointError, OpenError, check_growth, checkpoint, open};
//! use std::alloc::Global;
//!
//! fn head(
//!     alloc: Global,
//!     key: &SigningKey<Sha2_128f>,
//!     size: u64,
//!     root: &[u8; 32],
//! ) -> Result<Vec<u8>, CheckpointError> {
//!     checkpoint(alloc, key, "example.com/log", size, root, None)
//! }
//!
//! fn has_grown(
//!     key: &VerifyingKey<Sha2_128f>,
//!     old: &[u8],
//!     new: &[u8],
//!     proof: &[[u8; 32]],
//! ) -> Result<bool, OpenError> {
//!     let old = open(key, "example.com/log", old)?;
//!     let new = open(key, "example.com/log", new)?;
//!     Ok(check_growth(&old, &new, proof).is_ok())
//! }
//! ```
//!
//! [`open`] and the checks take no memory. Each refusal is the first of its causes that stands.
//! What is bound is in [`laws`]: of heads that are taken one after the other, with growth checked
//! at each step, each list of entries begins the next, or two different inputs with one SHA-256
//! digest are found.
#![tactic(auto)]

mod checking;
pub mod clones;
mod decoding;
mod error;
pub mod laws;
mod lines;
mod making;
mod note;
mod opening;
mod origin;
mod signed;

pub use checking::{check_growth, check_leaf, check_presence};
pub use decoding::decimal_size;
pub use error::{CheckpointError, GrowthError, OpenError, PresenceError};
pub use making::{CONTEXT, checkpoint};
pub use note::{Checkpoint, read_unverified};
pub use opening::{open, open_in};
pub use origin::text_of;
