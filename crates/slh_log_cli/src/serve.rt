//! The commands of the program.
ghost use Rattle.std.specs.Prelude.{◌≡◌, ◌≢◌, ◌++◌, [], Err, IsErr, OnErr, OnOk};
ghost use Rattle.line_serve.specs.Program.{ServesLines};
ghost use Rattle.slh_line.specs.Replies.{text_of};
ghost use Rattle.slh_line.specs.declared.line_error.LineError.TheVariants.{Memory};
ghost use Rattle.slh_log_cli.specs.Replies.{head_answers, log_reply, usage};

use crate::checkpoints::checkpoint_line;
use crate::growth::growth_line;
use crate::opening::open_line;
use crate::presence::presence_line;
use line_serve::{ByteString, Replier, Sink, Source, Words, all_fields, field_at, serve_words};
use line_stdio::Program;
use slh_dsa::SetSizes;
use slh_line::{Commands, LineError, Lines};
use std::alloc::{AllocError, Global};

// `checkpoint` and `open`, which name a set.
#[derive(Drop)]
struct Heads;

impl Commands for Heads {
    ghost answers = { head_answers };

    fn answer<P: SetSizes>(
        &self,
        alloc: Global,
        fields: &[&[u8]],
    ) -> Result<ByteString, LineError> {
        let command = field_at(fields, 1);
        if command == b"checkpoint".as_slice() {
            checkpoint_line::<P>(alloc, fields)
        } else if command == b"open".as_slice() {
            open_line::<P>(alloc, fields)
        } else {
            Err(LineError::Command)
        }
    }
}

// Puts an answer, or the line that names what is wrong, at the end of `out`.
fn push_answer(
    answer: Result<ByteString, LineError>,
    out: &mut ByteString,
) -> Result<(), AllocError>
    ensures ok { OnOk result (out.new ≡ out.old ++ text_of answer) }
    ensures err { OnErr result (out.new ≡ out.old) }
    ensures memory { answer ≡ Err Memory → IsErr result }
{
    match answer {
        Ok(text) => out.append(text),
        Err(LineError::Memory) => Err(AllocError),
        Err(found) => out.push_slice(found.text()),
    }
}

// All lines: `presence` and `growth`, and those that name a set.
#[derive(Drop)]
struct LogLines;

impl Replier for LogLines {
    ghost reply_of = { λ _ line. log_reply line };

    fn reply(&self, alloc: Global, line: &[u8], out: &mut ByteString) -> Result<(), AllocError> {
        let fields = all_fields(alloc, line)?;
        let command = field_at(&fields, 0);
        if command == b"presence".as_slice() {
            push_answer(presence_line(alloc, &fields), out)
        } else if command == b"growth".as_slice() {
            push_answer(growth_line(alloc, &fields), out)
        } else {
            Lines(Heads).reply(alloc, line, out)
        }
    }
}

/// With no words, answers each line of the source; with any, writes the usage text. The result is
/// the program's status, as docs/LINES.md lists them.
pub fn log_serve<S: Source, K: Sink>(
    alloc: Global,
    words: &Words,
    source: &mut S,
    sink: &mut K,
) -> u8
    ensures serves { ServesLines log_reply usage words.now
        (S.left source.old) (S.left source.new) (K.taken sink.old) (K.taken sink.new)
        (S.faults source.old) (S.faults source.new) (K.faults sink.old) (K.faults sink.new) result }
    ensures unread { words.now ≢ [] → source.new ≡ source.old }
{
    let usage = b"usage: slh_log_cli\n";
    serve_words(alloc, &LogLines, usage, words, source, sink)
}

/// The program, for its `main`.
#[derive(Drop)]
pub struct LogProgram;

impl Program for LogProgram {
    ghost serves = { ServesLines log_reply usage };

    fn serve<S: Source, K: Sink>(alloc: Global, words: &Words, source: &mut S, sink: &mut K) -> u8 {
        log_serve(alloc, words, source, sink)
    }
}
