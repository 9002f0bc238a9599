//! Jobs of SLH-DSA and their answers, and evidence in words.
//!
//! [`run`] answers one [`Job`] of a [`Set`], [`run_set`] one of a set that is a type. A job is
//! refused for the first cause in the order of [`Error`]. `slh_run` answers the jobs of lines, and
//! the command `slh` those of files.
//!
//! [`push_evidence`] writes what an audit prints, and [`read_evidence`] reads it for a check.
#![tactic(auto)]

pub mod clones;
mod evidence;
mod job;
mod judge;
pub mod laws;

pub use evidence::{push_evidence, read_evidence};
pub use job::{Answer, Error, Job};
pub use judge::{run, run_set};
pub use line_serve::ByteString;
pub use slh_audit::{Evidence, Verdict};
pub use slh_dsa::Mode;
pub use slh_sets::Set;
