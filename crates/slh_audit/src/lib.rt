//! Audits of signatures: whether the holder of a key made the bytes that it accepts, and evidence
//! where it did not.
//!
//! [`audit`] gives the holder of a signing key a [`Verdict`] on the bytes of a signature, and
//! [`check_evidence`] tells anybody who has the key whether one [`Evidence`] shows. Both take no
//! memory: what is compared is made again on the stack, of which a call takes less than 128 kB. The
//! largest buffer there holds a forest's part of a signature, in 34,816 bytes.
//!
//! The verdict on a signature of a message with an empty context, by a key of the toy suite, and
//! whether evidence shows against it. The test `example_of_the_page_of_audits` of `slh_tests` runs
//! this:
//!
//! ```
//! use slh_audit::{AuditError, Evidence, Verdict, audit, check_evidence};
//! use slh_merkle::toy::Toy;
//!
//! const KEY: [u8; 4] = [5, 7, 3, 0xe1];
//!
//! const MESSAGE: [u8; 1] = [0x48];
//!
//! fn verdict(signature: &[u8]) -> Result<Verdict, AuditError> {
//!     audit::<Toy>(&KEY, &[], &MESSAGE, signature)
//! }
//!
//! fn shows(signature: &[u8], evidence: Evidence) -> Result<bool, AuditError> {
//!     check_evidence::<Toy>(&KEY, &[], &MESSAGE, signature, &evidence)
//! }
//! ```
//!
//! Where byte 9 of the key's own signature is 0x48 in place of 0x49, the key accepts it, and the
//! verdict is `Foreign` with [`Evidence::ChainStep`]: a value that the key doesn't make, from which
//! a step of the chain leads where it leads from the key's. [`hash_audit`] and
//! [`hash_check_evidence`] do the same of what was signed in a mode, [`audit_message`] and
//! [`check_message_evidence`] of a [`Message`] that was made. Each refusal comes for the cause that its variant of [`AuditError`] names, the
//! first in the order of the variants.
#![tactic(auto)]

mod calls;
pub mod clones;
mod dispute;
pub mod evidence;
mod forest;
pub mod laws;
mod layer;
mod made;
mod search;
mod showing;
mod size_checks;

pub use calls::{
    audit, audit_for_digest, audit_framed, audit_message, check_evidence,
    check_evidence_for_digest, check_evidence_framed, check_message_evidence, hash_audit,
    hash_check_evidence,
};
pub use evidence::{AuditError, Evidence, Verdict};
pub use slh_frames::Message;
