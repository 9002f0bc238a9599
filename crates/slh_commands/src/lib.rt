//! Which words are which command of `slh`, and the status that comes of it. docs/SLH.md has the
//! words, files, statuses and messages.
#![tactic(auto)]

mod command_line;
mod commands;

pub use command_line::{status, status_of};
