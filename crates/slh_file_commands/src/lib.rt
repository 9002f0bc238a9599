//! The commands of `slh` on keys and the signatures of files. docs/SLH.md has their words, files,
//! statuses and messages.
#![tactic(auto)]

mod audits;
mod commands;
mod envelopes;
mod error;
mod inspecting;
mod keys;
mod signatures;

pub use commands::run;
pub use slh_arguments as arguments;
