//! The one `main` of all programs of lines.
use crate::stdio::{StdSink, StdSource};
use crate::words::words_of;
use line_serve::{Sink, Source, Words};
use std::alloc::Global;
use std::io;
use std::process::ExitCode;

/// The status for want of memory.
const NO_MEMORY: u8 = 6;

/// A program of lines, between its words and its status.
pub trait Program {
    ghost use Rattle.std.specs.Prelude.{List, Option, ℕ};

    /// What its call makes of the words: of what is left of the source before and after, what the
    /// sink took, how often the source and the sink failed, and the status.
    ghost serves: { List (List ℕ) → Option (List ℕ) → Option (List ℕ) → Option (List ℕ)
        → Option (List ℕ) → ℕ → ℕ → ℕ → ℕ → ℕ → Type 0 };

    /// Answers the source into the sink, as the words ask for, and gives the status.
    fn serve<S: Source, K: Sink>(alloc: Global, words: &Words, source: &mut S, sink: &mut K) -> u8
        ensures { serves words.now
            (S.left source.old) (S.left source.new) (K.taken sink.old) (K.taken sink.new)
            (S.faults source.old) (S.faults source.new) (K.faults sink.old) (K.faults sink.new)
            result };
}

/// Runs a program over standard input and output with the words of the command line: all that its
/// `main` does.
pub fn run<P: Program>(rt: &HostRuntime) -> ExitCode {
    let Ok(words) = words_of(rt) else {
        return ExitCode::from(NO_MEMORY);
    };
    let mut source = StdSource::new(rt.reader());
    let mut sink = StdSink::new(io::writer(rt));
    ExitCode::from(P::serve(rt.alloc(), &words, &mut source, &mut sink))
}
