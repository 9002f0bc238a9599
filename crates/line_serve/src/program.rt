//! A whole program of lines, of whose words only the empty ones are right.
ghost use Rattle.std.specs.Prelude.{◌≡◌, ◌≢◌, []};
ghost use Rattle.line_serve.specs.Program.{ServesLines};

use crate::answer::Replier;
use crate::bytes::Words;
use crate::lines::serve_lines;
use crate::stream::{Sink, Source};
use crate::write::write_all;
use std::alloc::Global;

/// With no words, answers each line of the source; with any, writes the usage text alone, and reads
/// nothing.
pub fn serve_words<R: Replier, S: Source, K: Sink>(
    alloc: Global,
    replier: &R,
    usage: &[u8],
    words: &Words,
    source: &mut S,
    sink: &mut K,
) -> u8
    ensures serves { ServesLines (R.reply_of replier.now) usage.now words.now
        (S.left source.old) (S.left source.new) (K.taken sink.old) (K.taken sink.new)
        (S.faults source.old) (S.faults source.new) (K.faults sink.old) (K.faults sink.new) result }
    ensures unread { words.now ≢ [] → source.new ≡ source.old }
{
    if words.len() == 0 {
        return serve_lines(alloc, replier, source, sink);
    }
    match write_all(sink, usage) {
        Ok(()) => 2,
        Err(_) => 4,
    }
}
