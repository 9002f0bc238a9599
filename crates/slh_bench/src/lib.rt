//! The bench of `slh_cli` (docs/LINES.md): a key and messages that follow from a number, their
//! signatures, each of which is verified, and a report.
//!
//! [`read_bench`] reads what words ask for, and [`run_bench`] writes the report.
#![tactic(auto)]

mod bench;
pub mod laws;

pub use bench::{Bench, read_bench, run_bench};
pub use slh_sets::Set;
