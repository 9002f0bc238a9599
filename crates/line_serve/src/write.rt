//! Writes whole texts to a sink.
ghost use Rattle.std.specs.Prelude.{◌≡◌, [], OnOk, OnErr, length, ◌<◌, ◌^◌};
ghost use Rattle.line_serve.specs.Causes.{HasCause};
ghost use Rattle.line_serve.specs.Engine.{Takes, Moves, Breaks, HaltsFor};
ghost use Rattle.line_serve.specs.declared.write.Halt.TheVariants.{SinkFault, NoMemory};

use crate::bytes::ByteString;
use crate::stream::{Failed, Sink};
use std::alloc::AllocError;

// How many bytes of replies wait, at most, before they are written; the last reply may be longer.
const MAX_WAITING: usize = 1 << 16;

/// Writes the whole text. After [`Failed`] a front of it is written.
pub fn write_all<K: Sink>(sink: &mut K, text: &[u8]) -> Result<(), Failed>
    ensures bytes { Takes (K.taken sink.old) (K.taken sink.new) result text.now }
    ensures cause { HasCause (K.faults sink.old) (K.faults sink.new) result }
{
    let mut written = 0;
    while written < text.len() {
        match sink.write(&text[written..]) {
            Ok(count) => written += count,
            Err(failed) => return Err(failed),
        }
    }
    Ok(())
}

/// Why answering stopped.
#[derive(Clone, Copy, Debug, PartialEq, Eq)]
pub enum Halt {
    SinkFault,
    NoMemory,
}

impl From<AllocError> for Halt {
    ghost from_gives = { λ _ e. e ≡ NoMemory };

    fn from(_: AllocError) -> Self {
        Halt::NoMemory
    }
}

/// Writes the whole text, or says that the sink failed.
pub fn put<K: Sink>(sink: &mut K, text: &[u8]) -> Result<(), Halt>
    ensures bytes { Takes (K.taken sink.old) (K.taken sink.new) result text.now }
    ensures cause { HaltsFor (K.faults sink.old) (K.faults sink.new) result }
{
    match write_all(sink, text) {
        Ok(()) => Ok(()),
        Err(_) => Err(Halt::SinkFault),
    }
}

/// Writes the replies that wait. After a fault they are dropped, since a front of them is written.
pub fn flush<K: Sink>(waiting: &mut ByteString, sink: &mut K) -> Result<(), Halt>
    ensures cleared { waiting.new ≡ [] }
    ensures ok { OnOk result (Moves (K.taken sink.old) waiting.old (K.taken sink.new) waiting.new) }
    ensures err { OnErr result
        (Breaks (K.taken sink.old) waiting.old (K.taken sink.new) waiting.new) }
    ensures cause { HaltsFor (K.faults sink.old) (K.faults sink.new) result }
{
    let written = put(sink, waiting.as_slice());
    waiting.clear();
    written
}

/// Writes the replies that wait once they are many.
pub fn flush_long<K: Sink>(waiting: &mut ByteString, sink: &mut K) -> Result<(), Halt>
    ensures short { OnOk result (length waiting.new < 2 ^ 16) }
    ensures ok { OnOk result (Moves (K.taken sink.old) waiting.old (K.taken sink.new) waiting.new) }
    ensures err { OnErr result
        (Breaks (K.taken sink.old) waiting.old (K.taken sink.new) waiting.new) }
    ensures cause { HaltsFor (K.faults sink.old) (K.faults sink.new) result }
{
    if waiting.len() < MAX_WAITING {
        return Ok(());
    }
    flush(waiting, sink)
}
