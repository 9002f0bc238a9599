//! The program of delegation chains: lines on standard input, replies on standard output.
//! docs/LINES.md has both.
#![tactic(auto)]

mod delegating;
mod serve;
mod walking;

use line_stdio::run;
use serve::ChainProgram;
use std::process::ExitCode;

fn main(rt: HostRuntime) -> ExitCode {
    run::<ChainProgram>(&rt)
}
