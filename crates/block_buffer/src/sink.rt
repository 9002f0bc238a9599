//! Where blocks go.

ghost use Rattle.std.specs.Prelude.{ℕ, ◌≤◌, ◌<◌, [], length, OnOk, OnErr};
ghost use Rattle.block_buffer.specs.Sink.{HasRoom, Rose, SinkState, Takes};

use hybrid_array::{ArraySize, Chunks};

/// A sink took nothing of what it was handed.
#[derive(Clone, Copy, Debug, PartialEq, Eq)]
pub struct Refused;

/// Takes blocks of `BS::USIZE` bytes.
///
/// What generic code proves of `stands` says as much as the implementation's `state`: who makes a
/// sink ensures for which lists it stands, as the empty one, and a sink that stands for none has
/// proved nothing of the blocks that it took.
pub trait BlockSink<BS: ArraySize> {
    /// The lists of bytes for which the sink stands, and its room. A new sink stands for the empty
    /// list.
    ghost state: { Self → SinkState };

    /// How often it refused, up to 2^64 - 1.
    ghost refusals: { Self → ℕ };

    /// Takes all of these blocks, of which there is at least one, or none of them.
    fn take(&mut self, blocks: &Chunks<'_, u8, BS>) -> Result<(), Refused>
        requires some { 0 < length blocks.now }
        requires room { HasRoom (state self.old).room (length blocks.now) }
        ensures ok { OnOk result (Takes (state self.old) (state self.new) blocks.now) }
        ensures refused { OnErr result (Takes (state self.old) (state self.new) []) }
        ensures cause { OnErr result (Rose (refusals self.old) (refusals self.new)) }
        ensures never_falls { refusals self.old ≤ refusals self.new };
}
