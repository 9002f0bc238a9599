//! A line that is still coming.
ghost use Rattle.std.specs.Prelude.{◌≡◌, ◌==◌, ◌≤◌, ◌^◌, ◌++◌, [], List, ℕ, length, OnOk};

use crate::bytes::ByteString;
use std::alloc::{AllocError, Global};

// The longest line that is kept, in bytes.
const MAX_LINE: usize = 1 << 22;

/// A line that no line feed has ended yet. Once it is too long none of it is kept.
#[derive(Drop)]
pub struct Pending {
    pub line: ByteString,
    pub overlong: bool,
    ghost within: { length line ≤ 2 ^ 22 },
}

impl Pending {
    ghost use Rattle.line_serve.specs.Engine.{StandsFor};

    /// A line without bytes.
    pub fn new(alloc: Global) -> Self
        ensures { StandsFor result [] }
    {
        Pending {
            line: ByteString::new(alloc),
            overlong: false,
        }
    }

    /// Goes on by these bytes, of which there are none or more.
    pub fn extend(&mut self, bytes: &[u8]) -> Result<(), AllocError>
        ensures { (line : List ℕ) → StandsFor self.old line
            → OnOk result (StandsFor self.new (line ++ bytes.now)) }
    {
        if self.overlong {
            return Ok(());
        }
        if self.line.len().saturating_add(bytes.len()) > MAX_LINE {
            self.line.clear();
            self.overlong = true;
            return Ok(());
        }
        self.line.push_slice(bytes)
    }

    /// Whether the line has no bytes.
    pub fn is_empty(&self) -> bool
        ensures { (line : List ℕ) → StandsFor self.now line → result ≡ (length line == 0) }
    {
        !self.overlong && self.line.is_empty()
    }

    /// Begins a new line.
    pub fn clear(&mut self)
        ensures { StandsFor self.new [] }
    {
        self.line.clear();
        self.overlong = false;
    }
}
