//! The top call: job lines where there are no words, the report of a bench for its words, and the
//! usage text for any others.
ghost use Rattle.std.specs.Prelude.{◌≡◌, ◌≢◌, ◌⊎◌, ◌<◌, ◌^◌, [], length, None, IfSome};
ghost use Rattle.std.specs.Prelude.{IsSomeAnd};
ghost use Rattle.line_serve.specs.Causes.{Rose};
ghost use Rattle.line_serve.specs.Served.{AnswersAll, Served};
ghost use Rattle.slh_bench.specs.Bench.{TellsBench, bench_of};
ghost use Rattle.slh_run.specs.Reply.{reply_of_line};
ghost use Rattle.slh_run.specs.Usage.{TellsUsage};

use crate::reply::Jobs;
use line_serve::{Sink, Source, Words, serve_words};
use slh_bench::{read_bench, run_bench};
use slh_line::Lines;
use std::alloc::Global;

const USAGE: &[u8] = b"usage: slh_cli [bench SET NUMBER COUNT]\n";

/// With no words, answers each job line of the source, and writes the replies to the sink. With the
/// words of a bench, writes its report, the first line before anything is signed. With any others,
/// writes the usage text alone and takes no memory. Where there are words nothing is read.
///
/// The status is 0 where the whole input was read and answered, or the report was written, 2 where
/// the usage text was written, 3 where the source failed, 4 where the sink failed, 5 where 2^40
/// bytes were read, and 6 where there was no memory.
pub fn serve<S: Source, K: Sink>(alloc: Global, words: &Words, source: &mut S, sink: &mut K) -> u8
    ensures status { (result ≡ 0) ⊎ (result ≡ 2) ⊎ (result ≡ 3) ⊎ (result ≡ 4)
        ⊎ (result ≡ 5) ⊎ (result ≡ 6) }

    // The headline: with no words and status 0, the whole input is read, and the sink took the
    // reply to each of its lines.
    ensures answered { words.now ≡ [] → result ≡ 0 → AnswersAll reply_of_line
        (S.left source.old) (S.left source.new) (K.taken sink.old) (K.taken sink.new) }

    // What was read and written, at each status, for every source and sink.
    ensures served { words.now ≡ [] → Served reply_of_line
        (S.left source.old) (S.left source.new) (K.taken sink.old) (K.taken sink.new) result }
    ensures completes { words.now ≡ []
        → IsSomeAnd (S.left source.old) (λ input. length input < 2 ^ 40)
        → (Rose (S.faults source.old) (S.faults source.new) → ⊥)
        → (Rose (K.faults sink.old) (K.faults sink.new) → ⊥)
        → (result ≡ 0) ⊎ (result ≡ 6) }

    ensures read_cause { result ≡ 3 → Rose (S.faults source.old) (S.faults source.new) }
    ensures write_cause { result ≡ 4 → Rose (K.faults sink.old) (K.faults sink.new) }

    // With words: the report where they are those of a bench, else the usage text.
    ensures benched { IfSome (bench_of words.now)
        (λ bench. TellsBench (K.taken sink.old) (K.taken sink.new) result bench) }
    ensures usage { words.now ≢ [] → bench_of words.now ≡ None
        → TellsUsage (K.taken sink.old) (K.taken sink.new) result }
    ensures unread { words.now ≢ [] → source.new ≡ source.old }
    ensures usage_only { result ≡ 2 → (words.now ≢ []) × (bench_of words.now ≡ None) }
{
    if let Some(bench) = read_bench(words) {
        return run_bench(alloc, bench, sink);
    }
    serve_words(alloc, &Lines(Jobs), USAGE, words, source, sink)
}
