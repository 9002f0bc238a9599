//! The commands of `slh` on many files or keys: batches, chains, manifests and rings. docs/SLH.md has
//! their words, files, statuses and messages.
#![tactic(auto)]

mod batches;
mod chains;
mod commands;
mod manifests;
mod rings;

pub use commands::run;
