//! Answers the lines of a source, one after another.
ghost use Rattle.std.specs.Prelude.{◌≡◌, ◌⊎◌, ◌<◌, ◌^◌, length, IsSomeAnd};
ghost use Rattle.line_serve.specs.Causes.{HasCause, Rose};
ghost use Rattle.line_serve.specs.Engine.{Reads};
ghost use Rattle.line_serve.specs.Served.{Served, AnswersAll, code_of};
ghost use Rattle.line_serve.specs.declared.write.Halt.TheVariants.{SinkFault};

use crate::answer::{Replier, feed, finish};
use crate::pending::Pending;
use crate::stream::{Failed, Sink, Source};
use crate::write::Halt;
use std::alloc::Global;

// The most bytes that a run reads.
const MAX_INPUT: u64 = 1 << 40;

// The most bytes that one read asks for.
const MAX_READ: usize = 4096;

// How a run over an input ended.
#[derive(Clone, Copy, Debug, PartialEq, Eq)]
enum Status {
    Whole,
    SourceFailed,
    SinkFailed,
    LimitReached,
    OutOfMemory,
}

impl Status {
    fn code(self) -> u8
        ensures { result ≡ code_of self }
    {
        match self {
            Status::Whole => 0,
            Status::SourceFailed => 3,
            Status::SinkFailed => 4,
            Status::LimitReached => 5,
            Status::OutOfMemory => 6,
        }
    }
}

impl Halt {
    fn status(self) -> Status
        ensures cut { (code_of result ≡ 4) ⊎ (code_of result ≡ 6) }
        ensures sink { code_of result ≡ 4 → self ≡ SinkFault }
    {
        match self {
            Halt::SinkFault => Status::SinkFailed,
            Halt::NoMemory => Status::OutOfMemory,
        }
    }
}

/// Reads the next bytes of a source into the front of a buffer, at most so many, by one call of its
/// `read`. It answers 0 at the end of the source alone.
pub fn read_some<S: Source>(source: &mut S, buffer: &mut [u8], most: u64) -> Result<usize, Failed>
    requires room { 0 < length buffer.old }
    requires some { 0 < most }
    ensures bytes { Reads (S.left source.old) (S.left source.new) most result buffer.new }
    ensures cause { HasCause (S.faults source.old) (S.faults source.new) result }
{
    let room = most.min(buffer.len() as u64) as usize;
    source.read(&mut buffer[..room])
}

// Answers each line of the input, up to its end or to the limit.
fn answer_all<R: Replier, S: Source, K: Sink>(
    alloc: Global,
    replier: &R,
    source: &mut S,
    sink: &mut K,
) -> Status
    ensures served { Served (R.reply_of replier.now) (S.left source.old) (S.left source.new)
        (K.taken sink.old) (K.taken sink.new) (code_of result) }
    ensures source { code_of result ≡ 3 → Rose (S.faults source.old) (S.faults source.new) }
    ensures sink { code_of result ≡ 4 → Rose (K.faults sink.old) (K.faults sink.new) }
{
    let mut pending = Pending::new(alloc);
    let mut buffer = [0; MAX_READ];
    let mut taken = 0;
    while taken < MAX_INPUT {
        let count = match read_some(source, &mut buffer, MAX_INPUT - taken) {
            Ok(count) => count,
            Err(_) => return Status::SourceFailed,
        };
        if count == 0 {
            return match finish(alloc, replier, &pending, sink) {
                Ok(()) => Status::Whole,
                Err(halt) => halt.status(),
            };
        }
        if let Err(halt) = feed(alloc, replier, &mut pending, &buffer[..count], sink) {
            return halt.status();
        }
        taken += count as u64;
    }
    Status::LimitReached
}

/// Answers each line of the source, and writes the replies to the sink, in turn. A line ends before
/// a line feed or at the end of the source; a last piece without bytes is no line. The reply to a
/// line of more than 2^22 bytes, a carriage return counted, is `error line` and a line feed, and
/// its bytes are skipped.
///
/// The status is 0 where the source was read to its end and each line has its reply, 3 where a read
/// failed, 4 where a write failed, 5 where 2^40 bytes were read, and 6 where there was no memory.
/// With 3, 4, 5 and 6 a prefix of the replies is written; with 3 and 5 it has the reply to each
/// line that a line feed ended. A read asks for at most 4096 bytes, and for none past the 2^40.
pub fn serve_lines<R: Replier, S: Source, K: Sink>(
    alloc: Global,
    replier: &R,
    source: &mut S,
    sink: &mut K,
) -> u8
    ensures status { (result ≡ 0) ⊎ (result ≡ 3) ⊎ (result ≡ 4) ⊎ (result ≡ 5) ⊎ (result ≡ 6) }
    ensures served { Served (R.reply_of replier.now) (S.left source.old) (S.left source.new)
        (K.taken sink.old) (K.taken sink.new) result }
    ensures answered { result ≡ 0 → AnswersAll (R.reply_of replier.now) (S.left source.old)
        (S.left source.new) (K.taken sink.old) (K.taken sink.new) }
    ensures read_cause { result ≡ 3 → Rose (S.faults source.old) (S.faults source.new) }
    ensures write_cause { result ≡ 4 → Rose (K.faults sink.old) (K.faults sink.new) }
    ensures completes { IsSomeAnd (S.left source.old) (λ input. length input < 2 ^ 40)
        → (Rose (S.faults source.old) (S.faults source.new) → ⊥)
        → (Rose (K.faults sink.old) (K.faults sink.new) → ⊥)
        → (result ≡ 0) ⊎ (result ≡ 6) }
{
    answer_all(alloc, replier, source, sink).code()
}
