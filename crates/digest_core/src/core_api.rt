//! What the core of a hash over blocks does.

ghost use Rattle.std.specs.Prelude.{◌≡◌, ℕ, ◌+◌, ◌≤◌, List, ◌++◌, length};
ghost use Rattle.digest_core.specs.Absorbing.{Absorbs};

use crate::traits::{Absorb, OutputSizeUser};
use block_buffer::array::{ArraySize, Chunks};
use block_buffer::{BufferKind, EagerBuffer};

/// Works on blocks of one size.
pub trait BlockSizeUser {
    /// The block size, in bytes.
    type BlockSize: ArraySize;
}

/// Takes its blocks from buffers of one kind.
pub trait BufferKindUser: BlockSizeUser {
    type BufferKind: BufferKind;
}

/// Absorbs whole blocks.
pub trait UpdateCore: Absorb + BlockSizeUser {
    /// Absorbs the blocks, after what was absorbed before.
    fn update_blocks(&mut self, blocks: &Chunks<'_, u8, Self::BlockSize>)
        requires { Self.count self.old + length blocks.now ≤ Self.MAX_BYTES }
        ensures absorbs { Absorbs (Self.stands self.old) (Self.stands self.new) blocks.now }
        ensures counts { Self.count self.new ≡ Self.count self.old + length blocks.now };
}

/// Gives the digest of what was absorbed and of bytes that fill no block.
pub trait FixedOutputCore: UpdateCore + OutputSizeUser {
    /// Absorbs the buffer's bytes, which stay in the buffer, and writes the digest to `out`, which
    /// has its length.
    fn finalize_fixed_core(&mut self, buffer: &mut EagerBuffer<Self::BlockSize>, out: &mut [u8])
        requires room { Self.count self.old + length buffer.old ≤ Self.MAX_BYTES }
        requires out { length out.old ≡ Self.OutputSize.USIZE }
        ensures digest { (m : List ℕ) → Self.stands self.old m
            → out.new ≡ Self.digest (m ++ buffer.old) }
        ensures buffer { buffer.new ≡ buffer.old }
        ensures absorbs { Absorbs (Self.stands self.old) (Self.stands self.new) buffer.old }
        ensures counts { Self.count self.new ≡ Self.count self.old + length buffer.old };
}

/// Gives the digest of what was absorbed and of a tail, and stays free to go on.
pub trait TailOutputCore: FixedOutputCore {
    /// Writes the digest of what was absorbed, the buffer's bytes and then `tail` to `out`, which
    /// has its length.
    fn finalize_tail_core(&self, buffer: &EagerBuffer<Self::BlockSize>, tail: &[u8], out: &mut [u8])
        requires room { Self.count self.now + length buffer.now + length tail.now
            ≤ Self.MAX_BYTES }
        requires out { length out.old ≡ Self.OutputSize.USIZE }
        ensures { (m : List ℕ) → Self.stands self.now m
            → out.new ≡ Self.digest (m ++ buffer.now ++ tail.now) };
}
