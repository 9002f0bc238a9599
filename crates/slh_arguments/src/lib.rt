//! The words of the command `slh`, in tables, the parser that they make, and what they stand for,
//! which several groups of commands share: the inputs that they name, passphrases, the randomness of
//! signatures, the files of a pair of keys, and what is told of a signature. docs/SLH.md has them.
//!
//! Each row of the tables has a [`Verb`], and [`chosen`] finds that of the words at hand.
#![tactic(auto)]

mod claims;
mod error;
mod group_words;
mod log_words;
pub mod names;
mod pairs;
mod passphrases;
mod randomness;
mod values;
mod verbs;
mod verdicts;
mod words;

pub use claims::{Claim, own_claim};
pub use error::WordError;
pub use pairs::{pair_name, public_file, verifying_file, write_pair};
pub use passphrases::{Encryption, passphrase, secret_file};
pub use randomness::Randomness;
pub use slh_host as host;
pub use slh_host::bytes;
pub use values::{
    RECEIPT_END, SIGNATURE_END, check_inputs, check_output, context, key_of_kind, mode,
    receipt_name, required, required_all, set_of, signature, signing_key, verifying_key,
};
pub use verbs::{FileVerb, GroupVerb, LogVerb, Verb};
pub use verdicts::{report, tell_verdict, told_of_file};
pub use words::{chosen, command};
