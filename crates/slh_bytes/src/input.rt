//! What a message is read from.
ghost use Rattle.std.specs.Prelude.{ℕ, List, Option, Some, Bool, true, false, IfErr, IsTrue};
ghost use Rattle.std.specs.Io.{ReadsAtMost};
ghost use Rattle.std.specs.Io.KnownBytes.{ReadConsumes};

use std::io::{self, Read};

/// What a message is read from: bytes in memory, of which no read fails, or a [`Fallible`] reader.
pub trait Input {
    /// The bytes that are left, where that is known.
    ghost remaining: { Self → Option (List ℕ) };

    /// Whether a read may fail.
    ghost may_fail: { Bool };

    /// Reads into the front of a buffer, and answers how many bytes: none at the end alone, or where
    /// the buffer has none.
    fn read(&mut self, buf: &mut [u8]) -> io::Result<usize>
        ensures bound { ReadsAtMost result buf.new }
        ensures bytes { ReadConsumes (remaining self.old) (remaining self.new) result buf.new }
        ensures fault { IfErr result (λ _. IsTrue may_fail) };
}

impl<'a> Input for &'a [u8] {
    ghost remaining = { λ bytes. Some bytes.now };

    ghost may_fail = { false };

    fn read(&mut self, buf: &mut [u8]) -> io::Result<usize> {
        Read::read(self, buf)
    }
}

/// A reader whose reads may fail.
#[derive(Drop)]
pub struct Fallible<R>(pub R);

impl<R: Read> Input for Fallible<R> {
    ghost remaining = { λ it. R.remaining it.0 };

    ghost may_fail = { true };

    fn read(&mut self, buf: &mut [u8]) -> io::Result<usize> {
        self.0.read(buf)
    }
}
