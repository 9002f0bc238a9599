//! The program of signed logs: lines on standard input, replies on standard output. docs/LINES.md
//! has both.
#![tactic(auto)]

mod checkpoints;
mod digests;
mod growth;
mod opening;
mod presence;
mod serve;

use line_stdio::run;
use serve::LogProgram;
use std::process::ExitCode;

fn main(rt: HostRuntime) -> ExitCode {
    run::<LogProgram>(&rt)
}
