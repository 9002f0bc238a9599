//! Batches: one signature for many messages, and for each message a receipt that is verified alone.
//!
//! The SHA-256 digests of the messages are the leaves of a binary tree, in their order. A leaf is
//! the digest of the byte 0 and the message, and a node the digest of the byte 1 and the two
//! digests below it. Of several leaves, the left half has as many as the largest power of two below
//! their number: it is the tree of RFC 9162 (2.1), which `merkle_tree` has. The number of messages,
//! in 4 bytes, and the tree's root are signed under the context `slh-batch`. A receipt is the
//! message's index and the number of messages, 4 bytes each with the highest first, the siblings on
//! the way from the leaf to the root, 32 bytes each, and the signature.
//!
//! The receipt of one of several messages, and what a verifying key says of it. The tests of
//! `page_of_batches` of `slh_tests` run this and what follows:
//!
//! ```
//! use slh_batch::{Batch, BatchError, ReceiptError, accept};
//! use slh_dsa::{Sha2_128f, SigningKey, VerifyingKey};
//! use std::alloc::Global;
//!
//! fn receipt_of_second(
//!     alloc: Global,
//!     key: &SigningKey<Sha2_128f>,
//!     messages: &[&[u8]],
//! ) -> Result<Vec<u8>, BatchError> {
//!     let mut batch = Batch::new(alloc);
//!     for message in messages {
//!         batch.push(message)?;
//!     }
//!     let sealed = batch.seal(alloc, key, None)?;
//!     sealed.receipt(alloc, 1)
//! }
//!
//! fn accepted(
//!     key: &VerifyingKey<Sha2_128f>,
//!     message: &[u8],
//!     receipt: &[u8],
//! ) -> Result<(), ReceiptError> {
//!     accept(key, message, receipt)
//! }
//! ```
//!
//! A batch's head is what is signed, the number and the root, and the signature. Who verified it
//! once checks each message of the batch by its index and its path, without the signature:
//!
//! ```
//! use slh_batch::{Head, HeadError, accept_under};
//! use slh_dsa::{Sha2_128f, VerifyingKey};
//!
//! #[derive(Drop)]
//! struct Entry<'a> {
//!     index: u32,
//!     message: &'a [u8],
//!     path: &'a [[u8; 32]],
//! }
//!
//! fn are_accepted(
//!     key: &VerifyingKey<Sha2_128f>,
//!     head: &[u8],
//!     entries: &[Entry<'_>],
//! ) -> Result<bool, HeadError> {
//!     let head = Head::open(key, head)?;
//!     for entry in entries {
//!         if accept_under(&head, entry.message, entry.index, entry.path).is_err() {
//!             return Ok(false);
//!         }
//!     }
//!     Ok(true)
//! }
//! ```
//!
//! What is accepted so, [`accept`] accepts with the whole receipt; [`laws`] says how both answers
//! go together. Where a message comes with its receipt, [`accept_receipt_under`] checks that it is
//! in the head's batch. A message that comes in pieces is hashed by [`MessageHasher`], and pushed
//! and checked by its digest.
//!
//! A batch keeps at most 64 bytes a message and a part that doesn't grow. [`Head::open`], [`clash`]
//! and the calls that accept take no memory. Each refusal comes for the cause that its variant
//! names, the first in the order of the variants. Who has receipts with one index, one number and
//! one root for two messages has two inputs with one SHA-256 digest: [`clash`] says where.
#![tactic(auto)]

mod batch;
mod checking;
mod clashing;
pub mod clones;
mod error;
mod hashing;
mod head;
pub mod laws;
mod parts;
mod sealed;

pub use batch::{Batch, MAX_MESSAGES};
pub use checking::{CONTEXT, Place, accept, accept_digest, accepted_place};
pub use clashing::clash;
pub use error::{BatchError, HeadError, ReceiptError};
pub use hashing::MessageHasher;
pub use head::{Head, accept_digest_under, accept_receipt_under, accept_under};
pub use sealed::Sealed;
