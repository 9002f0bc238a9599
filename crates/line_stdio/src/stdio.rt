//! Standard input and output as a source and a sink. They tell no bytes: what the system gives and
//! shows is outside of what is proved. A call that a signal interrupts (`EINTR`) is made again.
ghost use Rattle.std.specs.Prelude.{◌≤◌, length, None, IfOk};

use line_serve::{Failed, Sink, Source};
use std::io::{ErrorKind, Read, Write};

/// How often a call is made that is interrupted each time: more often than any program runs.
const MOST_TRIES: u64 = u64::MAX;

/// A reader, with the number of its errors.
#[derive(Drop)]
pub struct StdSource<R> {
    reader: R,
    faults: u64,
}

impl<R> StdSource<R> {
    /// The source over a reader that had no error yet.
    pub fn new(reader: R) -> Self {
        StdSource { reader, faults: 0 }
    }
}

impl<R: Read> Source for StdSource<R> {
    ghost left = { λ _. None };

    ghost faults = { λ s. s.faults };

    fn read(&mut self, buf: &mut [u8]) -> Result<usize, Failed> {
        if let Ok(count) = read_once(&mut self.reader, buf) {
            return Ok(count);
        }
        self.faults = self.faults.saturating_add(1);
        Err(Failed)
    }
}

// A read that is tried again where a signal came before it gave anything.
fn read_once<R: Read>(reader: &mut R, buf: &mut [u8]) -> Result<usize, Failed>
    ensures { IfOk result (λ count. count ≤ length buf.old) }
{
    for _ in 0..MOST_TRIES {
        match reader.read(buf) {
            Ok(count) => return Ok(count),
            Err(error) if error.kind() == ErrorKind::Interrupted => {}
            Err(_) => break,
        }
    }
    Err(Failed)
}

/// A writer, with the number of its errors. Each write is flushed, and one that takes nothing of a
/// piece that isn't empty is an error.
#[derive(Drop)]
pub struct StdSink<W> {
    writer: W,
    faults: u64,
}

impl<W> StdSink<W> {
    /// The sink over a writer that had no error yet.
    pub fn new(writer: W) -> Self {
        StdSink { writer, faults: 0 }
    }
}

impl<W: Write> Sink for StdSink<W> {
    ghost taken = { λ _. None };

    ghost faults = { λ k. k.faults };

    fn write(&mut self, piece: &[u8]) -> Result<usize, Failed> {
        if let Ok(count) = write_once(&mut self.writer, piece)
            && (count > 0 || piece.is_empty())
            && flush(&mut self.writer).is_ok()
        {
            return Ok(count);
        }
        self.faults = self.faults.saturating_add(1);
        Err(Failed)
    }
}

// A write that is tried again where a signal came before it took anything.
fn write_once<W: Write>(writer: &mut W, piece: &[u8]) -> Result<usize, Failed>
    ensures { IfOk result (λ count. count ≤ length piece.now) }
{
    for _ in 0..MOST_TRIES {
        match writer.write(piece) {
            Ok(count) => return Ok(count),
            Err(error) if error.kind() == ErrorKind::Interrupted => {}
            Err(_) => break,
        }
    }
    Err(Failed)
}

// A flush, likewise.
fn flush<W: Write>(writer: &mut W) -> Result<(), Failed> {
    for _ in 0..MOST_TRIES {
        match writer.flush() {
            Ok(()) => return Ok(()),
            Err(error) if error.kind() == ErrorKind::Interrupted => {}
            Err(_) => break,
        }
    }
    Err(Failed)
}
