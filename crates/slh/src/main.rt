//! The command `slh`: keys, signatures and verdicts of files by SLH-DSA over SHA-2 (FIPS 205).
//! docs/SLH.md has its words, files, statuses and messages.
#![tactic(auto)]

use std::process::ExitCode;

fn main(rt: HostRuntime) -> ExitCode {
    ExitCode::from(slh_commands::status(&rt))
}
