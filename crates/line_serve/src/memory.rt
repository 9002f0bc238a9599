//! Sources and sinks in memory. Calls of [`MemSource`] and [`MemSink`] fail as a [`Script`] says.
ghost use Rattle.std.specs.Prelude.{◌≡◌, ◌↔◌, [], ◌+◌, ◌<◌, ◌≤◌, ◌^◌, None, Some, length, take};
ghost use Rattle.std.specs.Prelude.{min, Contains, IsErr, is_ok, IsOk, IfOk};
ghost use Rattle.std.specs.Prelude.{OnOk, OnErr, if◌then◌else◌, vec_len};
ghost use Rattle.std.specs.Io.{ReadsAtMost};
ghost use Rattle.std.specs.Io.KnownBytes.{ReadConsumes, WriteAppends};
ghost use Rattle.line_serve.specs.Causes.{HasCause, Rose};

use crate::script::Script;
use crate::stream::{Failed, Sink, Source};
use std::alloc::Global;

// Copies the front of `bytes` into `buf`, as much as fits, and says how much.
fn copy_front(bytes: &[u8], buf: &mut [u8]) -> usize
    ensures count { result ≡ min (length bytes.now) (length buf.old) }
    ensures front { take result buf.new ≡ take result bytes.now }
{
    let count = bytes.len().min(buf.len());
    buf[..count].copy_from_slice(&bytes[..count]);
    count
}

/// A source that never fails. It gives as many bytes as are asked for, while there are any.
#[derive(Drop)]
pub struct QuietSource {
    bytes: Vec<u8>,
    at: usize,
    ghost within: { at ≤ vec_len bytes },
}

impl QuietSource {
    ghost use Rattle.line_serve.specs.Memory.{quiet_left};

    /// A source of these bytes.
    pub fn new(bytes: Vec<u8>) -> Self
        ensures { quiet_left result ≡ bytes.items }
    {
        QuietSource { bytes, at: 0 }
    }
}

impl Source for QuietSource {
    ghost use Rattle.line_serve.specs.Memory.{quiet_left};

    ghost left = { λ s. Some (quiet_left s) };

    ghost faults = { λ s. 0 };

    fn read(&mut self, buf: &mut [u8]) -> Result<usize, Failed>
        ensures bound { ReadsAtMost result buf.new }
        ensures bytes { ReadConsumes (Some (quiet_left self.old)) (Some (quiet_left self.new))
            result buf.new }
        ensures cause { HasCause 0 0 result }
        ensures ok { IsOk result }
    {
        let count = copy_front(&self.bytes[self.at..], buf);
        self.at += count;
        Ok(count)
    }
}

/// A source of which chosen reads fail. The others give as many bytes as are asked for, while there
/// are any.
#[derive(Drop)]
pub struct MemSource {
    quiet: QuietSource,
    script: Script,
}

impl MemSource {
    ghost use Rattle.line_serve.specs.Memory.{source_left, source_fails, source_number};
    ghost use Rattle.line_serve.specs.Memory.{source_faults};

    /// A source of these bytes, of which the reads with the numbers `fails` fail, the first read
    /// being 0.
    pub fn new(bytes: Vec<u8>, fails: Vec<u64>) -> Self
        ensures left { source_left result ≡ bytes.items }
        ensures fails { source_fails result ≡ fails.items }
        ensures number { source_number result ≡ 0 }
        ensures faults { source_faults result ≡ 0 }
    {
        MemSource {
            quiet: QuietSource::new(bytes),
            script: Script::new(fails),
        }
    }
}

impl Source for MemSource {
    ghost use Rattle.line_serve.specs.Memory.{source_left, source_fails, source_number};
    ghost use Rattle.line_serve.specs.Memory.{source_faults};
    ghost use Rattle.line_serve.specs.Scripts.{one_more};

    ghost left = { λ s. Some (source_left s) };

    ghost faults = { λ s. source_faults s };

    fn read(&mut self, buf: &mut [u8]) -> Result<usize, Failed>
        ensures bound { ReadsAtMost result buf.new }
        ensures bytes { ReadConsumes (Some (source_left self.old)) (Some (source_left self.new))
            result buf.new }
        ensures cause { HasCause (source_faults self.old) (source_faults self.new) result }
        ensures listed { IsErr result ↔ Contains (source_fails self.old) (source_number self.old) }
        ensures counted { source_faults self.new ≡ (if is_ok result
            then source_faults self.old else one_more (source_faults self.old)) }
        ensures number { source_number self.new ≡ min (source_number self.old + 1) (2 ^ 64) }
        ensures fails { source_fails self.new ≡ source_fails self.old }
        ensures same { OnErr result (buf.new ≡ buf.old) }
    {
        self.script.next()?;
        self.quiet.read(buf)
    }
}

/// A sink that keeps what is written. Chosen writes fail, and those that find no memory.
#[derive(Drop)]
pub struct MemSink {
    bytes: Vec<u8>,
    script: Script,
    refused: u64,
}

impl MemSink {
    ghost use Rattle.line_serve.specs.Memory.{sink_bytes, sink_fails, sink_number, sink_faults};
    ghost use Rattle.line_serve.specs.Memory.{sink_refused};

    /// A sink of which the writes with the numbers `fails` fail, the first write being 0.
    pub fn new(alloc: Global, fails: Vec<u64>) -> Self
        ensures bytes { sink_bytes result ≡ [] }
        ensures fails { sink_fails result ≡ fails.items }
        ensures number { sink_number result ≡ 0 }
        ensures faults { sink_faults result ≡ 0 }
        ensures refused { sink_refused result ≡ 0 }
    {
        MemSink {
            bytes: Vec::new(alloc),
            script: Script::new(fails),
            refused: 0,
        }
    }

    /// The bytes that were written so far.
    pub fn bytes(&self) -> &[u8]
        ensures { result.now ≡ sink_bytes self.now }
    {
        &self.bytes
    }

    /// How many writes found no memory, up to 2^64 - 1. Each is a fault too.
    pub fn refused(&self) -> u64
        ensures { result ≡ sink_refused self.now }
    {
        self.refused
    }
}

impl Sink for MemSink {
    ghost use Rattle.line_serve.specs.Memory.{sink_bytes, sink_fails, sink_number, sink_faults};
    ghost use Rattle.line_serve.specs.Memory.{sink_refused};
    ghost use Rattle.line_serve.specs.Scripts.{one_more};

    ghost taken = { λ k. Some (sink_bytes k) };

    ghost faults = { λ k. sink_faults k };

    fn write(&mut self, piece: &[u8]) -> Result<usize, Failed>
        ensures bound { IfOk result (λ n. n ≤ length piece.now) }
        ensures progress { IfOk result (λ n. 0 < length piece.now → 0 < n) }
        ensures bytes { WriteAppends (Some (sink_bytes self.old)) (Some (sink_bytes self.new))
            result piece.now }
        ensures cause { HasCause (sink_faults self.old) (sink_faults self.new) result }
        ensures listed { Contains (sink_fails self.old) (sink_number self.old)
            → IsErr result × (sink_refused self.new ≡ sink_refused self.old) }
        ensures refused { OnErr result ((Contains (sink_fails self.old) (sink_number self.old) → ⊥)
            → Rose (sink_refused self.old) (sink_refused self.new)) }
        ensures kept { OnOk result (sink_refused self.new ≡ sink_refused self.old) }
        ensures counted { sink_faults self.new ≡ (if is_ok result
            then sink_faults self.old else one_more (sink_faults self.old)) }
        ensures number { sink_number self.new ≡ min (sink_number self.old + 1) (2 ^ 64) }
        ensures fails { sink_fails self.new ≡ sink_fails self.old }
    {
        self.script.next()?;
        if self.bytes.extend_from_slice(piece).is_err() {
            self.refused = self.refused.saturating_add(1);
            return Err(self.script.fault());
        }
        Ok(piece.len())
    }
}

/// A sink that takes everything, and keeps and tells nothing.
#[derive(Clone, Copy, Debug, Drop)]
pub struct NullSink;

impl Sink for NullSink {
    ghost taken = { λ _. None };

    ghost faults = { λ _. 0 };

    /// Takes all of `piece`.
    fn write(&mut self, piece: &[u8]) -> Result<usize, Failed>
        ensures bound { IfOk result (λ n. n ≤ length piece.now) }
        ensures progress { IfOk result (λ n. 0 < length piece.now → 0 < n) }
        ensures cause { HasCause 0 0 result }
        ensures ok { IsOk result }
        ensures all { IfOk result (λ n. n ≡ length piece.now) }
    {
        let taken = piece.len();
        Ok(taken)
    }
}
