//! The commands of the program.
ghost use Rattle.std.specs.Prelude.{◌≡◌, ◌≢◌, []};
ghost use Rattle.line_serve.specs.Program.{ServesLines};
ghost use Rattle.slh_line.specs.Replies.{reply_by};
ghost use Rattle.slh_batch_cli.specs.Replies.{batch_answers, usage};

use crate::accepting::accept_line;
use crate::sealing::seal_line;
use line_serve::{ByteString, Sink, Source, Words, field_at, serve_words};
use line_stdio::Program;
use slh_dsa::SetSizes;
use slh_line::{Commands, LineError, Lines};
use std::alloc::Global;

// `seal` and `accept`.
#[derive(Drop)]
struct Batches;

impl Commands for Batches {
    ghost answers = { batch_answers };

    fn answer<P: SetSizes>(
        &self,
        alloc: Global,
        fields: &[&[u8]],
    ) -> Result<ByteString, LineError> {
        let command = field_at(fields, 1);
        if command == b"seal".as_slice() {
            seal_line::<P>(alloc, fields)
        } else if command == b"accept".as_slice() {
            accept_line::<P>(alloc, fields)
        } else {
            Err(LineError::Command)
        }
    }
}

/// With no words, answers each line of the source; with any, writes the usage text. The result is
/// the program's status, as docs/LINES.md lists them.
pub fn batch_serve<S: Source, K: Sink>(
    alloc: Global,
    words: &Words,
    source: &mut S,
    sink: &mut K,
) -> u8
    ensures serves { ServesLines (reply_by batch_answers) usage words.now
        (S.left source.old) (S.left source.new) (K.taken sink.old) (K.taken sink.new)
        (S.faults source.old) (S.faults source.new) (K.faults sink.old) (K.faults sink.new) result }
    ensures unread { words.now ≢ [] → source.new ≡ source.old }
{
    let usage = b"usage: slh_batch_cli\n";
    serve_words(alloc, &Lines(Batches), usage, words, source, sink)
}

/// The program, for its `main`.
#[derive(Drop)]
pub struct BatchProgram;

impl Program for BatchProgram {
    ghost serves = { ServesLines (reply_by batch_answers) usage };

    fn serve<S: Source, K: Sink>(alloc: Global, words: &Words, source: &mut S, sink: &mut K) -> u8 {
        batch_serve(alloc, words, source, sink)
    }
}
