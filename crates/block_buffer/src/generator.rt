//! Where blocks come from.

ghost use Rattle.std.specs.Prelude.{◌≡◌};
ghost use Rattle.block_buffer.specs.Gen.{GenState, Gives};
ghost use Rattle.block_buffer.specs.Sink.{HasRoom};

use hybrid_array::{ArrayMut, ArraySize};

/// Gives blocks of `BS::USIZE` bytes, one after another.
///
/// As with a [`BlockSink`](crate::BlockSink), who makes a generator ensures for which lists it
/// stands, as the empty one; of one that stands for none nothing is said.
pub trait BlockGen<BS: ArraySize> {
    /// The lists of bytes for which the generator stands, and its room. A new generator stands for
    /// the empty list.
    ghost state: { Self → GenState };

    /// Fills `block` with the next bytes.
    fn fill(&mut self, block: &mut ArrayMut<'_, u8, BS>)
        requires { HasRoom (state self.old).room 1 }
        ensures same_reference { block.new.items.ghost_name ≡ block.old.items.ghost_name }
        ensures gives { Gives (state self.old) (state self.new) 1 block.new.items.now };
}
