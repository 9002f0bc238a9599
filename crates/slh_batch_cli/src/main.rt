//! The program of batches: lines on standard input, replies on standard output. docs/LINES.md has
//! both.
#![tactic(auto)]

mod accepting;
mod sealing;
mod serve;

use line_stdio::run;
use serve::BatchProgram;
use std::process::ExitCode;

fn main(rt: HostRuntime) -> ExitCode {
    run::<BatchProgram>(&rt)
}
