//! SLH-DSA (FIPS 205) over SHA-2 for callers in C, and by it for any language that calls C.
//!
//! A static library: its header is `include/slh_dsa.h`, which has the sizes and the statuses. Each
//! export calls the functions of `slh_dsa`, `slh_stream` and `slh_audit`, or of `slh_chain`,
//! `slh_manifest`, `slh_batch` and `slh_log`, on the caller's memory, and answers a status: 0, or the
//! number of the first cause that stands. None takes memory, none keeps anything between calls, and
//! none calls back.
//!
//! The contracts hold where the caller's pointers and lengths describe its memory: no pointer is
//! null, what a call writes is apart from all else that it is given, and the stack has room.
#![tactic(auto)]

mod audit;
mod batches;
mod chains;
mod digests;
mod evidence;
mod keygen;
mod keys;
pub mod laws;
mod logs;
mod manifests;
mod mode;
mod one_by_one;
mod set;
mod sign;
mod sign_pieces;
mod sizes;
mod status;
mod verify;
mod verify_pieces;
mod verify_set;
mod verify_small;
mod version;

pub use audit::{slh_dsa_sha2_audit, slh_dsa_sha2_check_evidence};
pub use batches::{CBatchHead, slh_batch_accept, slh_batch_accept_under, slh_batch_open};
pub use chains::{CEnd, slh_chain_walk};
pub use digests::{
    slh_dsa_sha2_sign_digest, slh_dsa_sha2_sign_digest_deterministic, slh_dsa_sha2_verify_digest,
};
pub use evidence::CEvidence;
pub use keygen::slh_dsa_sha2_keygen;
pub use keys::{slh_dsa_sha2_check_key, slh_dsa_sha2_public};
pub use logs::{CHead, slh_log_check_growth, slh_log_check_presence, slh_log_open};
pub use manifests::{CEntry, slh_manifest_entry, slh_manifest_find, slh_manifest_open};
pub use sign::{slh_dsa_sha2_sign, slh_dsa_sha2_sign_deterministic};
pub use sign_pieces::{
    CSigner, slh_dsa_sha2_sign_again, slh_dsa_sha2_sign_begin,
    slh_dsa_sha2_sign_begin_deterministic, slh_dsa_sha2_sign_finish, slh_dsa_sha2_sign_update,
};
pub use sizes::{slh_dsa_sha2_n, slh_dsa_sha2_signature_bytes};
pub use verify::slh_dsa_sha2_verify;
pub use verify_pieces::{
    CVerifier, slh_dsa_sha2_verify_begin, slh_dsa_sha2_verify_finish, slh_dsa_sha2_verify_update,
};
pub use verify_set::{
    slh_dsa_sha2_128f_verify, slh_dsa_sha2_128s_verify, slh_dsa_sha2_192f_verify,
    slh_dsa_sha2_192s_verify, slh_dsa_sha2_256f_verify, slh_dsa_sha2_256s_verify,
};
pub use verify_small::{
    slh_dsa_sha2_128f_verify_pure_small, slh_dsa_sha2_128f_verify_small,
    slh_dsa_sha2_128s_verify_pure_small, slh_dsa_sha2_128s_verify_small,
    slh_dsa_sha2_192f_verify_pure_small, slh_dsa_sha2_192f_verify_small,
    slh_dsa_sha2_192s_verify_pure_small, slh_dsa_sha2_192s_verify_small,
    slh_dsa_sha2_256f_verify_pure_small, slh_dsa_sha2_256f_verify_small,
    slh_dsa_sha2_256s_verify_pure_small, slh_dsa_sha2_256s_verify_small,
};
pub use version::slh_dsa_version;
