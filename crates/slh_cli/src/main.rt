//! Answers the job lines of its standard input.
#![tactic(auto)]

use line_serve::{Sink, Source, Words};
use line_stdio::{Program, run};
use slh_run::serve;
use std::alloc::Global;
use std::process::ExitCode;

/// The program, for its `main`.
#[derive(Drop)]
struct JobProgram;

impl Program for JobProgram {
    ghost use Rattle.slh_cli.specs.Served.{ServesJobs};

    ghost serves = { ServesJobs };

    fn serve<S: Source, K: Sink>(alloc: Global, words: &Words, source: &mut S, sink: &mut K) -> u8 {
        serve(alloc, words, source, sink)
    }
}

fn main(rt: HostRuntime) -> ExitCode {
    run::<JobProgram>(&rt)
}
