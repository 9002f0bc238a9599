//! Ends whose calls fail or that a signal interrupts, and words that are too long.
use crate::shown::shows;
use line_serve::{Sink, Source, Words};
use line_stdio::{StdSink, StdSource, words_of};
use std::alloc::Global;
use std::env::{Env, FillError};
use std::io::{self, Error, ErrorKind, Read, Write};

// Fails so many times before it gives one byte at a time, or takes so many.
#[derive(Drop)]
struct Interrupted {
    failures: u32,
    kind: ErrorKind,
    takes: usize,
}

impl Interrupted {
    fn call(&mut self) -> io::Result<()> {
        if self.failures == 0 {
            return Ok(());
        }
        self.failures -= 1;
        Err(Error::from(self.kind))
    }
}

impl Read for Interrupted {
    fn read(&mut self, buf: &mut [u8]) -> io::Result<usize> {
        self.call()?;
        if buf.is_empty() {
            return Ok(0);
        }
        buf[0] = 7;
        Ok(1)
    }
}

impl Write for Interrupted {
    fn write(&mut self, buf: &[u8]) -> io::Result<usize> {
        self.call()?;
        Ok(buf.len().min(self.takes))
    }

    fn flush(&mut self) -> io::Result<()> {
        self.call()
    }
}

fn failing(failures: u32, kind: ErrorKind) -> Interrupted {
    Interrupted {
        failures,
        kind,
        takes: 1,
    }
}

// Whether one byte is read after so many interruptions.
fn reads_after(failures: u32) -> bool {
    let mut source = StdSource::new(failing(failures, ErrorKind::Interrupted));
    let mut bytes = [0; 2];
    source.read(&mut bytes).ok() == Some(1) && bytes == [7, 0]
}

#[test]
fn an_interrupted_read_is_made_again(rt: HostRuntime) {
    for failures in 0..4 {
        shows(&rt, reads_after(failures));
    }
}

// Whether one byte is written after so many interruptions.
fn writes_after(failures: u32) -> bool {
    let mut sink = StdSink::new(failing(failures, ErrorKind::Interrupted));
    sink.write(&[1, 2]).ok() == Some(1)
}

#[test]
fn an_interrupted_write_or_flush_is_made_again(rt: HostRuntime) {
    for failures in 0..4 {
        shows(&rt, writes_after(failures));
    }
}

fn is_fault_of_read(kind: ErrorKind) -> bool {
    StdSource::new(failing(1, kind)).read(&mut [0; 2]).is_err()
}

fn is_fault_of_write(kind: ErrorKind) -> bool {
    StdSink::new(failing(1, kind)).write(&[1, 2]).is_err()
}

#[test]
fn another_error_is_a_fault(rt: HostRuntime) {
    for kind in [
        ErrorKind::WouldBlock,
        ErrorKind::BrokenPipe,
        ErrorKind::Other,
    ] {
        shows(&rt, is_fault_of_read(kind) && is_fault_of_write(kind));
    }
}

// Whether a write is a fault of what takes nothing, and one of no bytes isn't.
fn is_full() -> bool {
    let mut sink = StdSink::new(Interrupted {
        takes: 0,
        ..failing(0, ErrorKind::Other)
    });
    sink.write(b"a").is_err() && sink.write(b"").ok() == Some(0)
}

#[test]
fn a_write_that_takes_nothing_is_a_fault(rt: HostRuntime) {
    shows(&rt, is_full());
}

// The program's name, the word `a`, and one that is too long.
#[derive(Drop)]
struct TwoWords;

impl Env for TwoWords {
    fn arg(&self, i: usize, buf: &mut [u8]) -> Result<usize, FillError> {
        if i > 2 {
            return Err(FillError::NotPresent);
        }
        if i == 2 || buf.is_empty() {
            return Err(FillError::TooLong);
        }
        buf[0] = b'a';
        Ok(1)
    }

    fn var(&self, _: &str, _: &mut [u8]) -> Result<usize, FillError> {
        Err(FillError::NotPresent)
    }

    fn var_at(&self, _: usize, _: &mut [u8]) -> Result<usize, FillError> {
        Err(FillError::NotPresent)
    }
}

fn are_a_word_and_none(words: &Words) -> bool {
    words.len() == 2
        && words.get(0) == Some(b"a".as_slice())
        && words.get(1) == Some(b"".as_slice())
}

fn reads_two_words(alloc: Global) -> bool {
    match words_of(&(TwoWords, alloc)) {
        Ok(words) => are_a_word_and_none(&words),
        Err(_) => false,
    }
}

#[test]
fn a_word_that_is_too_long_has_no_bytes(rt: HostRuntime) {
    shows(&rt, reads_two_words(rt.alloc()));
}
