//! The program of signed manifests: lines on standard input, replies on standard output.
//! docs/LINES.md has both.
#![tactic(auto)]

mod checking;
mod pairs;
mod sealing;
mod serve;

use line_stdio::run;
use serve::ManifestProgram;
use std::process::ExitCode;

fn main(rt: HostRuntime) -> ExitCode {
    run::<ManifestProgram>(&rt)
}
