//! A sink in memory.

ghost use Rattle.std.specs.Prelude.{◌≡◌, [], ◌++◌, ◌≤◌, OnOk, OnErr, IfOk};
ghost use Rattle.block_buffer.specs.Sink.{Rose};

use crate::sink::{BlockSink, Refused};
use hybrid_array::{ArraySize, Chunks};
use std::alloc::Global;

/// A sink that keeps the bytes of the blocks that it takes, for tests and for callers that want
/// them all.
///
/// It refuses where memory is wanting, and from a given call on.
#[derive(Drop)]
pub struct VecSink {
    bytes: Vec<u8>,
    left: u64,
    refusals: u64,
}

impl VecSink {
    /// An empty sink that refuses only where memory is wanting, within 2^64 - 1 calls.
    pub fn new(alloc: Global) -> Self
        ensures bytes { result.bytes.items ≡ [] }
        ensures refusals { result.refusals ≡ 0 }
    {
        Self::refusing_after(alloc, u64::MAX)
    }

    /// An empty sink that refuses each call after so many.
    pub fn refusing_after(alloc: Global, calls: u64) -> Self
        ensures bytes { result.bytes.items ≡ [] }
        ensures left { result.left ≡ calls }
        ensures refusals { result.refusals ≡ 0 }
    {
        VecSink {
            bytes: Vec::new(alloc),
            left: calls,
            refusals: 0,
        }
    }

    /// The bytes that it took.
    pub fn as_slice(&self) -> &[u8]
        ensures { result.now ≡ self.now.bytes.items }
    {
        &self.bytes
    }

    /// How often it refused, up to 2^64 - 1.
    pub fn refusals(&self) -> u64
        ensures { result ≡ self.now.refusals }
    {
        self.refusals
    }
}

impl<BS: ArraySize> BlockSink<BS> for VecSink {
    ghost use Rattle.std.specs.Prelude.{None};

    ghost state = { λ s. record { stands = λ m. m ≡ s.bytes.items; room = None } };

    ghost refusals = { λ s. s.refusals };

    fn take(&mut self, blocks: &Chunks<'_, u8, BS>) -> Result<(), Refused> {
        if self.left == 0 || self.bytes.extend_from_slice(blocks.as_flattened()).is_err() {
            self.refusals = self.refusals.saturating_add(1);
            return Err(Refused);
        }
        self.left -= 1;
        Ok(())
    }
}
