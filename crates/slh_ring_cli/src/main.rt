//! The program of key rings: lines on standard input, replies on standard output. docs/LINES.md has
//! both.
#![tactic(auto)]

mod keys;
mod path_fields;
mod recording;
mod restoring;
mod serve;

use line_stdio::run;
use serve::RingProgram;
use std::process::ExitCode;

fn main(rt: HostRuntime) -> ExitCode {
    run::<RingProgram>(&rt)
}
