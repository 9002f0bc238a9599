//! A core with a buffer: a hash of bytes that come piece by piece.

ghost use Rattle.std.specs.Prelude.{◌≡◌, ℕ, ◌+◌, ◌%◌, ◌≤◌, ◌<◌, List, [], ◌++◌, length};
ghost use Rattle.digest_core.specs.Wrapped.{StandsFor};

use crate::core_api::{FixedOutputCore, TailOutputCore, UpdateCore};
use crate::traits::{Absorb, FixedOutput, FixedOutputReset, OutputSizeUser, Reset, Update};
use block_buffer::array::Chunks;
use block_buffer::{BlockSink, EagerBuffer, Refused};
use std::marker::Model;

// A core as a sink of blocks, which never refuses.
#[derive(Drop)]
struct CoreSink<C: UpdateCore> {
    core: C,
    ghost within: { C.count core ≤ C.MAX_BYTES },
}

impl<C: UpdateCore> BlockSink<C::BlockSize> for CoreSink<C> {
    ghost use Rattle.std.specs.Prelude.{◌-◌, Some};

    ghost state = { λ s. record {
      stands = C.stands s.core;
      room = Some (C.MAX_BYTES - C.count s.core);
    } };

    ghost refusals = { λ s. 0 };

    #[inline]
    fn take(&mut self, blocks: &Chunks<'_, u8, C::BlockSize>) -> Result<(), Refused> {
        self.core.update_blocks(blocks);
        Ok(())
    }
}

/// A core with an eager buffer. Contracts see it as the core and the bytes that the buffer holds.
#[derive(Drop)]
pub struct CoreWrapper<C: FixedOutputCore> {
    sink: CoreSink<C>,
    buffer: EagerBuffer<C::BlockSize>,
}

impl<C: FixedOutputCore> Model for CoreWrapper<C> {
    ghost use Rattle.std.specs.Prelude.{length};
    ghost use Rattle.digest_core.specs.Wrapped.{IsWrapped, Wrapped};

    ghost Value = { Wrapped C };

    ghost view = { λ w. record { core = w.sink.core; held = w.buffer } };

    ghost invariant = { λ w. IsWrapped C.MAX_BYTES C.BlockSize.USIZE
        (C.count w.sink.core) (length w.buffer) };
}

impl<C: FixedOutputCore + Drop> CoreWrapper<C> {
    /// A hash that has absorbed nothing, by a core that has absorbed nothing.
    pub fn from_core(core: C) -> Self
        requires low { 1 ≤ C.BlockSize.USIZE }
        requires high { C.BlockSize.USIZE ≤ 255 }
        requires empty { C.stands core [] }
        requires none { C.count core ≡ 0 }
        ensures core { result.core ≡ core }
        ensures held { result.held ≡ [] }
        ensures stands { StandsFor (C.stands result.core) result.held [] }
        ensures counts { C.count result.core + length result.held ≡ 0 }
    {
        CoreWrapper {
            sink: CoreSink { core },
            buffer: EagerBuffer::<C::BlockSize>::default(),
        }
    }

    /// The core, which has absorbed whole blocks. The bytes after these are held.
    #[inline]
    pub fn core(&self) -> &C
        ensures core { result.now ≡ self.now.core }
        ensures whole { C.count self.now.core % C.BlockSize.USIZE ≡ 0 }
        ensures short { length self.now.held < C.BlockSize.USIZE }
    {
        &self.sink.core
    }

    /// A second hash that has absorbed the same bytes, of a core whose clones are equal to it and
    /// can't fail.
    pub fn clone(&self) -> Self
    where
        C: Clone,
        requires equal { (x y : C) → C.is_clone x y → y ≡ x }
        requires infallible { C.is_infallible self.now.core }
        ensures { result ≡ self.now }
    {
        let core = self.sink.core.clone().unwrap();
        CoreWrapper {
            sink: CoreSink { core },
            buffer: self.buffer.clone(),
        }
    }

    /// Writes the digest of what was absorbed and then `tail` to `out`, which has its length. The
    /// hash stays as it is: the digest is that of a clone that absorbs `tail`.
    #[inline]
    pub fn finalize_with(&self, tail: &[u8], out: &mut [u8])
    where
        C: TailOutputCore,
        requires room { C.count self.now.core + length self.now.held + length tail.now
            ≤ C.MAX_BYTES }
        requires out { length out.old ≡ C.OutputSize.USIZE }
        ensures { (m : List ℕ) → StandsFor (C.stands self.now.core) self.now.held m
            → out.new ≡ C.digest (m ++ tail.now) }
    {
        self.sink.core.finalize_tail_core(&self.buffer, tail, out);
    }
}

impl<C: FixedOutputCore + Drop> Absorb for CoreWrapper<C> {
    ghost use Rattle.digest_core.specs.Wrapped.{nothing_StandsFor, nothing_counts};

    const MAX_BYTES: u64 = C::MAX_BYTES;

    ghost MAX_BYTES = { C.MAX_BYTES };

    ghost stands = { λ w. StandsFor (C.stands w.core) w.held };

    ghost count = { λ w. C.count w.core + length w.held };

    ghost digest = { C.digest };

    ghost fresh = { record { core = C.fresh; held = [] } };

    ghost fresh_stands = { nothing_StandsFor C.fresh_stands };

    ghost fresh_counts = { nothing_counts C.fresh_counts };

    fn absorbed(&self) -> u64 {
        // The limit is read so that the sum is known to fit.
        let _limit = C::MAX_BYTES;
        self.sink.core.absorbed() + self.buffer.get_pos() as u64
    }
}

impl<C: FixedOutputCore + Drop> Update for CoreWrapper<C> {
    #[inline]
    fn update(&mut self, input: &[u8]) {
        match self.buffer.digest_blocks(input, &mut self.sink) {
            Ok(()) => {}
            Err(_) => unreachable!(),
        }
    }
}

impl<C: FixedOutputCore + Drop> OutputSizeUser for CoreWrapper<C> {
    type OutputSize = C::OutputSize;
}

impl<C: FixedOutputCore + Drop> FixedOutput for CoreWrapper<C> {
    #[inline]
    fn finalize_into(self, out: &mut [u8]) {
        let CoreWrapper { sink, buffer } = self;
        let CoreSink { core } = sink;
        let mut core = core;
        let mut buffer = buffer;
        core.finalize_fixed_core(&mut buffer, out);
    }
}

impl<C: FixedOutputCore + Reset + Drop> Reset for CoreWrapper<C> {
    fn reset(&mut self) {
        self.sink.core.reset();
        self.buffer.reset();
    }
}

impl<C: FixedOutputCore + Reset + Drop> FixedOutputReset for CoreWrapper<C> {
    fn finalize_into_reset(&mut self, out: &mut [u8]) {
        self.sink.core.finalize_fixed_core(&mut self.buffer, out);
        self.sink.core.reset();
        self.buffer.reset();
    }
}
