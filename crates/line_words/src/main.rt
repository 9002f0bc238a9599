//! Writes its words, each with a line feed, and ends with their number. Its stored run shows that
//! `run`, the `main` of the programs of lines, hands on each word and the status.
#![tactic(auto)]

ghost use Rattle.std.specs.Prelude.{◌≡◌, ◌⊎◌, ◌%◌, length};

use line_serve::{Sink, Source, Words, write_all};
use line_stdio::{Program, run};
use std::alloc::Global;
use std::process::ExitCode;

/// The program, for its `main`.
#[derive(Drop)]
struct TellWords;

impl Program for TellWords {
    ghost serves = { λ words _ _ _ _ _ _ _ _ status.
        (status ≡ 4) ⊎ (status ≡ length words % 256) };

    fn serve<S: Source, K: Sink>(
        _alloc: Global,
        words: &Words,
        _source: &mut S,
        sink: &mut K,
    ) -> u8 {
        for i in 0..words.len() {
            if let Some(word) = words.get(i) {
                if write_all(sink, word).is_err() || write_all(sink, b"\n").is_err() {
                    return 4;
                }
            }
        }
        (words.len() % 256) as u8
    }
}

fn main(rt: HostRuntime) -> ExitCode {
    run::<TellWords>(&rt)
}
