//! The commands of `slh` on logs: the files of a signed log below a folder, whose head is signed again
//! as it grows, and proofs for those who watch it. docs/SLH.md has the words, files, statuses and
//! messages.
//!
//! An append writes entries, then tiles, and the checkpoint last, each whole, under a lock, and what it
//! signs is a growth of the head that was signed last; a proof is handed out only where it passes the
//! check against the checkpoint. What is said of bytes alone
//! stands in `slh_bytes`, whose clauses name the definitions of `slh_log`.
#![tactic(auto)]

mod appending;
mod checking;
mod commands;
mod entries;
mod error;
mod file_names;
mod growth;
mod holding;
mod last;
mod leftovers;
mod lock;
mod log_folder;
mod proving;
mod resuming;
mod signing;
mod watching;
mod writing;

pub use commands::run;
