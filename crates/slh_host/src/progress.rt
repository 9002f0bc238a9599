//! How much was read of what takes long, told on a terminal.
ghost use Rattle.std.specs.Prelude.{◌≡◌, ◌+◌, ◌-◌, ◌/◌, ◌^◌, None, Some, if◌then◌else◌, min, nat_le};

use std::io::{self, IsTerminal, Stderr, Write};

const MIB: u64 = 1 << 20;

// How much is read before anything is told, and how much more before it is told again.
const FIRST: u64 = 1 << 28;

const STEP: u64 = 1 << 26;

// How many bytes were read, and from which number on that is told next.
#[derive(Drop)]
struct Count {
    read: u64,
    next: u64,
}

impl Count {
    fn new() -> Self
        ensures read { result.read ≡ 0 }
        ensures next { result.next ≡ 2 ^ 28 }
    {
        Count {
            read: 0,
            next: FIRST,
        }
    }

    // Counts bytes more. How many MiB it has come to, where that is to be told.
    fn add(&mut self, bytes: u64) -> Option<u64>
        ensures read { self.new.read ≡ min (self.old.read + bytes) (2 ^ 64 - 1) }
        ensures told { result ≡ (if nat_le self.old.next self.new.read
            then Some (self.new.read / 2 ^ 20) else None) }
        ensures next { self.new.next ≡ (if nat_le self.old.next self.new.read
            then min (self.new.read + 2 ^ 26) (2 ^ 64 - 1) else self.old.next) }
    {
        self.read = self.read.saturating_add(bytes);
        if self.next > self.read {
            return None;
        }
        self.next = self.read.saturating_add(STEP);
        Some(self.read / MIB)
    }
}

/// How many bytes were read, told on standard error where that is a terminal: from 256 MiB on, and
/// again with each 64 MiB, on a line that is written over. That it can't be written is no failure.
#[derive(Drop)]
pub struct Progress {
    err: Stderr,
    is_terminal: bool,
    is_told: bool,
    counted: Count,
}

impl Progress {
    /// Nothing was read.
    pub fn new(rt: &HostRuntime) -> Self {
        let err = rt.stderr();
        Progress {
            is_terminal: err.is_terminal(),
            err,
            is_told: false,
            counted: Count::new(),
        }
    }

    /// Counts what one read gave. At the end, and where it failed, the line is cleared.
    pub fn count(&mut self, read: &io::Result<usize>) {
        match read {
            Ok(bytes) if *bytes > 0 => self.add(*bytes as u64),
            Ok(_) | Err(_) => self.clear(),
        }
    }

    /// Counts bytes more.
    pub fn add(&mut self, bytes: u64) {
        if let Some(mib) = self.counted.add(bytes)
            && self.is_terminal
        {
            let _ = write!(self.err, "\r{mib} MiB");
            self.is_told = true;
        }
    }

    /// Clears the line, where anything was told, and counts anew.
    pub fn clear(&mut self) {
        if self.is_told {
            let _ = self.err.write_all(b"\r              \r");
        }
        self.is_told = false;
        self.counted = Count::new();
    }
}
