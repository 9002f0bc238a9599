//! What holds of the buffers' calls together, and of refusals, as contracts.

ghost use Rattle.std.specs.Prelude.{◌≡◌, ℕ, ◌+◌, ◌-◌, ◌≤◌, ◌<◌, List, ◌++◌, length, IfOk};
ghost use Rattle.std.specs.Prelude.{◌↔◌, IsTrue};
ghost use Rattle.block_buffer.specs.Blocks.{IsCut};
ghost use Rattle.block_buffer.specs.Gen.{Reads, blocks_for};
ghost use Rattle.block_buffer.specs.Serial.{IsSerialized, serialized};
ghost use Rattle.block_buffer.specs.Sink.{HasRoom, Rose};

use crate::buffer::{BlockBuffer, Error};
use crate::generator::BlockGen;
use crate::kind::BufferKind;
use crate::read::ReadBuffer;
use crate::serial::SerializedBuffer;
use crate::sink::{BlockSink, Refused};
use hybrid_array::ArraySize;
use std::alloc::{AllocError, Global};

/// Over a sink that doesn't refuse, what it took and what the buffer then holds are what the buffer
/// held and the input; and the buffer holds fewer bytes than a block, or of the lazy kind at most
/// a block.
pub fn unrefused_stream<BS: ArraySize, K: BufferKind, S: BlockSink<BS>>(
    buffer: &mut BlockBuffer<BS, K>,
    input: &[u8],
    sink: &mut S,
)
    requires { HasRoom (S.state sink.old).room (length buffer.old + length input.now) }
    ensures stream { (Rose (S.refusals sink.old) (S.refusals sink.new) → ⊥)
        → IsCut (S.state sink.old) (S.state sink.new) (buffer.old ++ input.now) buffer.new }
    ensures held { (Rose (S.refusals sink.old) (S.refusals sink.new) → ⊥)
        → length buffer.new < BS.USIZE + K.WAITING }
{
    let _ = buffer.digest_blocks(input, sink);
}

/// A buffer's bytes are accepted, and give a buffer that holds the same.
pub fn serialized_buffer<BS: ArraySize, K: BufferKind, S: ArraySize>(
    alloc: Global,
    buffer: &BlockBuffer<BS, K>,
) -> Result<BlockBuffer<BS, K>, AllocError>
    requires { S.USIZE ≡ BS.USIZE + K.WAITING }
    ensures { IfOk result (λ restored. restored ≡ buffer.now) }
{
    // For the bounds of the block size.
    buffer.size();
    let bytes = buffer.serialize::<S>(alloc)?;
    match BlockBuffer::deserialize(&bytes) {
        Ok(restored) => Ok(restored),
        Err(_) => unreachable!(),
    }
}

/// The bytes that are accepted are those that a buffer can give.
pub fn accepted_bytes<S: ArraySize>(bytes: &SerializedBuffer<S>)
    ensures given { IsSerialized S.USIZE bytes.now
        → (held : List ℕ) × (length held < S.USIZE) × (bytes.now ≡ serialized S.USIZE held) }
    ensures accepted { (held : List ℕ) → length held < S.USIZE
        → bytes.now ≡ serialized S.USIZE held → IsSerialized S.USIZE bytes.now }
{
    bytes.as_slice();
}

/// Two pieces that are read one after the other are one piece: they are the same bytes, and need no
/// more blocks.
pub fn read_in_two<BS: ArraySize, G: BlockGen<BS>>(
    buffer: &mut ReadBuffer<BS>,
    first: &mut [u8],
    second: &mut [u8],
    generator: &mut G,
)
    requires { HasRoom (G.state generator.old).room
        (blocks_for BS.USIZE (length first.old + length second.old - length buffer.old)) }
    ensures { Reads BS.USIZE (G.state generator.old) (G.state generator.new)
        buffer.old (first.new ++ second.new) buffer.new }
{
    // For the bounds of the block size and of what is unread.
    buffer.size();
    buffer.read(first, generator);
    buffer.remaining();
    buffer.read(second, generator);
}

/// A clone of a buffer's refusal is that refusal, and all are equal.
pub fn clone_and_equality_of_errors(a: &Error, b: &Error) -> (Error, bool)
    ensures clone { result.0 ≡ a.now }
    ensures equal { IsTrue result.1 ↔ (a.now ≡ b.now) }
{
    (a.clone().unwrap(), a == b)
}

/// A clone of a sink's refusal is that refusal, and all are equal.
pub fn clone_and_equality_of_refusals(a: &Refused, b: &Refused) -> (Refused, bool)
    ensures clone { result.0 ≡ a.now }
    ensures equal { IsTrue result.1 ↔ (a.now ≡ b.now) }
{
    (a.clone().unwrap(), a == b)
}
