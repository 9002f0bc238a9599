//! What the command `slh` does with bytes: keys, signatures of what is read in pieces, and verdicts.
//!
//! Nothing here opens a file or reads a word. A key file is one PEM block (RFC 7468) with the DER of
//! RFC 9909, as OpenSSL 3.5 writes it, or a line `SET KEY` in hexadecimal. Text around the block and
//! blanks and ends of lines within it don't count, and each other thing has its refusal,
//! [`KeyFileError`]. Signatures are their bytes, or hexadecimal digits of them. What stands in the
//! file of a secret is a [`SecretText`]. A signing key may be encrypted under a
//! [`Passphrase`](passphrase::Passphrase).
//!
//! A key's file:
//!
//! ```
//! use slh_bytes::{KeyFileError, SecretText, made_key, signing_key_file};
//! use slh_sets::Set;
//! use std::alloc::Global;
//!
//! fn key_file(alloc: Global, random: &[u8; 96]) -> Result<SecretText, KeyFileError> {
//!     let Ok(key) = made_key(alloc, Set::Sha2_128f, random) else {
//!         return Err(KeyFileError::Memory);
//!     };
//!     signing_key_file(alloc, &key)
//! }
//! ```
//!
//! The bytes of a file are never whole in memory: [`verify`], [`sign_digest`], [`audit`] and
//! [`check_evidence`] read them once, in pieces of 64 KiB. [`sign_twice`], for the mode in which the
//! message itself is signed, reads them twice, from two inputs, and signs what the second one gives;
//! where that isn't what the first one gave, it is refused as changed. An [`Input`] is bytes in
//! memory, or a reader, which may fail ([`Fallible`]). What is answered is what `slh_jobs` answers to
//! the job with these bytes:
//!
//! ```
//! use slh_bytes::{Key, ReadError, sign_twice, verify};
//! use slh_jobs::{ByteString, Mode};
//! use std::alloc::Global;
//!
//! fn signed(alloc: Global, key: &Key, file: &[u8]) -> Result<ByteString, ReadError> {
//!     sign_twice(alloc, key, b"context", None, file, file)
//! }
//!
//! fn accepted(key: &Key, file: &[u8], signature: &[u8]) -> Result<bool, ReadError> {
//!     verify(key, Mode::Pure, b"context", signature, file)
//! }
//! ```
//!
//! What is done with batches, chains, manifests, rings and logs in a set that is known late takes the
//! set and the bytes of a key, and is one call of the library that it is named after; its clause names
//! that library's definition:
//!
//! ```
//! use slh_bytes::batch::ReceiptError;
//! use slh_bytes::{ByteString, Set, WalkError, accept_receipt, last_key};
//! use std::alloc::Global;
//!
//! fn is_in_batch(key: &[u8], file: &[u8], receipt: &[u8]) -> bool {
//!     accept_receipt(Set::Sha2_128f, key, file, receipt).is_ok()
//! }
//!
//! fn acting_key(alloc: Global, root: &[u8], chain: &[u8]) -> Result<ByteString, WalkError> {
//!     last_key(alloc, Set::Sha2_128f, root, chain)
//! }
//! ```
//!
//! Of logs it opens and signs checkpoints ([`open_head`], [`sign_head`]), reads and writes proofs
//! ([`read_proof`], [`proof_text`]), and says what they show ([`check_entry`], [`check_log`],
//! [`check_head`]). A verdict is an [`Outcome`] and its [`Detail`], and [`tell`] writes its line.
#![tactic(auto)]

mod absorber;
mod absorbing;
mod auditing;
mod batches;
mod blocks;
mod chains;
pub mod clones;
mod encrypted;
mod envelopes;
mod error;
mod evidence;
mod gathering;
mod heads;
mod input;
mod inspection;
mod key;
pub mod laws;
mod lines;
mod log_heads;
mod log_proofs;
mod log_verdicts;
mod making;
mod manifests;
mod outcome;
pub mod passphrase;
mod places;
mod printable;
mod read_error;
mod reading;
mod receipts;
mod rings;
mod secret;
mod signatures;
mod signed_files;
mod signing;
mod verdicts;
mod verifying;
mod writing;

pub use auditing::{audit, check_evidence};
pub use batches::{Receipts, SealError, seal_batch};
pub use chains::{LinkText, WalkError, last_key, links_of, new_link};
pub use encrypted::{encrypted_key_file, read_key_under, read_signing_key_under};
pub use envelopes::{envelope_of, open_envelope};
pub use error::KeyFileError;
pub use evidence::evidence_of;
pub use gathering::gather;
pub use input::{Fallible, Input};
pub use inspection::{inspected, inspected_under};
pub use key::{Key, Kind};
pub use line_serve::{push_hex, push_hex_line, push_number};
pub use lines::has_line;
pub use log_heads::{SignHeadError, open_head, sign_head};
pub use log_proofs::{Proof, ProofError, Purpose, proof_text, read_proof};
pub use log_verdicts::{
    EntryError, HeadError, LogError, Signer, check_entry, check_head, check_log, open_for,
};
pub use making::{has_own_root, made_key, verifying_key};
pub use manifests::{Checked, check_manifest, entry_name, first_unnamed, seal_manifest};
pub use outcome::Outcome;
pub use places::place_of;
pub use printable::{Printable, shown};
pub use read_error::{ReadError, refusal_text};
pub use reading::{read_key, read_signing_key};
pub use receipts::{UnderHeadError, accept_receipt, accept_receipt_under_head};
pub use rings::{RecordError, key_at, record_of, restored_paths};
pub use secret::SecretText;
pub use signatures::{digits_of, read_signature, set_of_signature};
pub use signed_files::{Doubt, SigningTerms, audited, sign_inputs, told_of_audit};
pub use signing::{sign_digest, sign_twice};
pub use slh_batch as batch;
pub use slh_chain as chain;
pub use slh_dsa::verifying_half;
pub use slh_envelope as envelope;
pub use slh_frames::MAX_CONTEXT;
pub use slh_jobs::{ByteString, Error, Evidence, Mode, Verdict, push_evidence};
pub use slh_log as log;
pub use slh_manifest as manifest;
pub use slh_ring as ring;
pub use slh_sets::Set;
pub use verdicts::{Detail, Form, tell, verdict_json};
pub use verifying::verify;
pub use writing::{signing_key_file, verifying_key_file};
