//! A buffer of the bytes that don't fill a block yet.

ghost use Rattle.std.specs.Prelude.{◌≡◌, ◌+◌, ◌-◌, ◌*◌, ◌/◌, ◌≤◌, ◌<◌, ◌↔◌, [], ◌++◌, length};
ghost use Rattle.std.specs.Prelude.{IsOk, IfOk, OnOk, OnErr};
ghost use Rattle.block_buffer.specs.Sink.{HasRoom, Rose, Takes, TakesPart};
ghost use Rattle.block_buffer.specs.Blocks.{blocks_of, handed, rest_of};

use crate::kind::{BufferKind, Eager, Lazy, waiting_of};
use crate::sink::{BlockSink, Refused};
use hybrid_array::{Array, ArraySize};
use std::marker::{Model, PhantomData};

/// The most bytes of a block.
pub(crate) const MAX_SIZE: usize = 255;

/// Bytes that no buffer of the kind holds.
#[derive(Clone, Copy, Debug, PartialEq, Eq, thiserror::Error)]
#[error("Block buffer error")]
pub struct Error;

/// Cuts a stream of bytes into blocks of `BS::USIZE` bytes, of which there are 1 to 255, and holds
/// those that fill no block yet. Contracts see it as the list of the bytes held.
#[derive(Drop)]
pub struct BlockBuffer<BS: ArraySize, K: BufferKind> {
    store: [u8; MAX_SIZE],
    pos: K::Pos,
    size: PhantomData<BS>,
}

/// A buffer that hands a block out as soon as it is full.
pub type EagerBuffer<B> = BlockBuffer<B, Eager>;

/// A buffer that hands a full block out once more bytes come.
pub type LazyBuffer<B> = BlockBuffer<B, Lazy>;

impl<BS: ArraySize, K: BufferKind> Model for BlockBuffer<BS, K> {
    ghost use Rattle.std.specs.Prelude.{ℕ, List, take};
    ghost use Rattle.block_buffer.specs.Positions.{IsPosition};

    ghost Value = { List ℕ };

    ghost view = { λ s. take (K.position BS.USIZE s.store s.pos) s.store };

    ghost invariant = { λ s. IsPosition K.WAITING BS.USIZE (K.position BS.USIZE s.store s.pos) };
}

impl<BS: ArraySize, K: BufferKind> BlockBuffer<BS, K> {
    /// An empty buffer.
    #[inline]
    pub fn default() -> Self
        requires low { 1 ≤ BS.USIZE }
        requires high { BS.USIZE ≤ 255 }
        ensures { result ≡ [] }
    {
        let mut store = [0u8; MAX_SIZE];
        let mut pos = K::start();
        K::set_pos(BS::USIZE, &mut store, &mut pos, 0);
        BlockBuffer {
            store,
            pos,
            size: PhantomData,
        }
    }

    /// A buffer that holds the bytes `buf`.
    pub fn new(buf: &[u8]) -> Self
        requires low { 1 ≤ BS.USIZE }
        requires high { BS.USIZE ≤ 255 }
        requires in_range { length buf.now < BS.USIZE + K.WAITING }
        ensures { result ≡ buf.now }
    {
        let mut buffer = Self::default();
        buffer.append(buf);
        buffer
    }

    /// A buffer that holds the bytes `buf`, if the kind has a position after so many.
    pub fn try_new(buf: &[u8]) -> Result<Self, Error>
        requires low { 1 ≤ BS.USIZE }
        requires high { BS.USIZE ≤ 255 }
        ensures ok { IsOk result ↔ (length buf.now < BS.USIZE + K.WAITING) }
        ensures value { IfOk result (λ buffer. buffer ≡ buf.now) }
    {
        if buf.len() >= BS::USIZE + waiting_of::<K>() {
            return Err(Error);
        }
        Ok(Self::new(buf))
    }

    /// Takes `input` in, hands the blocks that it fills to `sink`, and keeps the rest.
    ///
    /// Where the sink refuses, the buffer forgets all of its bytes.
    #[inline]
    pub fn digest_blocks<S: BlockSink<BS>>(
        &mut self,
        input: &[u8],
        sink: &mut S,
    ) -> Result<(), Refused>
        requires room { HasRoom (S.state sink.old).room (length self.old + length input.now) }
        ensures ok { OnOk result (Takes (S.state sink.old) (S.state sink.new)
            (blocks_of K.WAITING BS.USIZE (self.old ++ input.now))) }
        ensures rest { OnOk result (self.new
            ≡ rest_of K.WAITING BS.USIZE (self.old ++ input.now)) }
        ensures short { OnOk result (length self.new < BS.USIZE + K.WAITING) }
        ensures waits { OnOk result (K.WAITING ≤ length self.old + length input.now
            → K.WAITING ≤ length self.new) }
        ensures refused { OnErr result (TakesPart BS.USIZE (S.state sink.old) (S.state sink.new)
            (blocks_of K.WAITING BS.USIZE (self.old ++ input.now))) }
        ensures empty { OnErr result (self.new ≡ []) }
        ensures cause { OnErr result (Rose (S.refusals sink.old) (S.refusals sink.new)) }
        ensures never_falls { S.refusals sink.old ≤ S.refusals sink.new }
    {
        let waiting = waiting_of::<K>();
        let size = self.size();
        let pos = self.get_pos();
        if input.len() < size + waiting - pos {
            self.append(input);
            return Ok(());
        }
        if pos == 0 {
            return self.digest_whole(input, sink);
        }
        let (left, right) = input.split_at(size - pos);
        self.complete(left, sink)?;
        self.digest_whole(right, sink)
    }

    /// Forgets the bytes held.
    #[inline]
    pub fn reset(&mut self)
        ensures { self.new ≡ [] }
    {
        K::set_pos(BS::USIZE, &mut self.store, &mut self.pos, 0);
    }

    /// The number of bytes held.
    #[inline]
    pub fn get_pos(&self) -> usize
        ensures value { result ≡ length self.now }
        ensures in_range { result < BS.USIZE + K.WAITING }
    {
        waiting_of::<K>();
        K::get_pos(BS::USIZE, &self.store, &self.pos)
    }

    /// The bytes held.
    #[inline]
    pub fn get_data(&self) -> &[u8]
        ensures { result.now ≡ self.now }
    {
        waiting_of::<K>();
        let pos = K::get_pos(BS::USIZE, &self.store, &self.pos);
        &self.store[..pos]
    }

    /// The block size.
    #[inline]
    pub fn size(&self) -> usize
        ensures value { result ≡ BS.USIZE }
        ensures low { 1 ≤ result }
        ensures high { result ≤ 255 }
    {
        // A field is read so that the bounds of the block size are known.
        let _ = &self.pos;
        BS::USIZE
    }

    /// How many bytes a block has beside those held.
    #[inline]
    pub fn remaining(&self) -> usize
        ensures { result ≡ BS.USIZE - length self.now }
    {
        waiting_of::<K>();
        self.size() - self.get_pos()
    }

    /// A second buffer that holds the same bytes.
    pub fn clone(&self) -> Self
        ensures { result ≡ self.now }
    {
        BlockBuffer {
            store: self.store,
            pos: self.pos,
            size: PhantomData,
        }
    }

    // Holds more bytes.
    #[inline]
    pub(crate) fn append(&mut self, bytes: &[u8])
        requires { length self.old + length bytes.now < BS.USIZE + K.WAITING }
        ensures { self.new ≡ self.old ++ bytes.now }
    {
        waiting_of::<K>();
        let pos = K::get_pos(BS::USIZE, &self.store, &self.pos);
        let end = pos + bytes.len();
        self.store[pos..end].copy_from_slice(bytes);
        K::set_pos(BS::USIZE, &mut self.store, &mut self.pos, end);
    }

    // Takes `input` into an empty buffer.
    fn digest_whole<S: BlockSink<BS>>(&mut self, input: &[u8], sink: &mut S) -> Result<(), Refused>
        requires nothing_held { self.old ≡ [] }
        requires room { HasRoom (S.state sink.old).room (length input.now) }
        ensures ok { OnOk result (Takes (S.state sink.old) (S.state sink.new)
            (blocks_of K.WAITING BS.USIZE input.now)) }
        ensures rest { OnOk result (self.new ≡ rest_of K.WAITING BS.USIZE input.now) }
        ensures short { OnOk result (length self.new < BS.USIZE + K.WAITING) }
        ensures waits { OnOk result (K.WAITING ≤ length input.now → K.WAITING ≤ length self.new) }
        ensures refused { OnErr result (Takes (S.state sink.old) (S.state sink.new) []) }
        ensures empty { OnErr result (self.new ≡ []) }
        ensures cause { OnErr result (Rose (S.refusals sink.old) (S.refusals sink.new)) }
        ensures never_falls { S.refusals sink.old ≤ S.refusals sink.new }
    {
        let waiting = waiting_of::<K>();
        let size = self.size();
        let count = handed_count(waiting, size, input.len());
        let (blocks, rest) = input.split_at(count);
        if count > 0 {
            hand_out::<BS, S>(blocks, sink)?;
        }
        self.append(rest);
        Ok(())
    }

    // Fills the block and hands it out.
    fn complete<S: BlockSink<BS>>(&mut self, bytes: &[u8], sink: &mut S) -> Result<(), Refused>
        requires full { length self.old + length bytes.now ≡ BS.USIZE }
        requires room { HasRoom (S.state sink.old).room BS.USIZE }
        ensures empty { self.new ≡ [] }
        ensures ok { OnOk result
            (Takes (S.state sink.old) (S.state sink.new) (self.old ++ bytes.now)) }
        ensures refused { OnErr result (Takes (S.state sink.old) (S.state sink.new) []) }
        ensures cause { OnErr result (Rose (S.refusals sink.old) (S.refusals sink.new)) }
        ensures never_falls { S.refusals sink.old ≤ S.refusals sink.new }
    {
        waiting_of::<K>();
        let size = BS::USIZE;
        let pos = K::get_pos(size, &self.store, &self.pos);
        self.store[pos..size].copy_from_slice(bytes);
        let result = hand_out(&self.store[..size], sink);
        K::set_pos(size, &mut self.store, &mut self.pos, 0);
        result
    }
}

// Of `count` bytes, how many are handed out.
#[inline]
#[tactic(auto, using(crate::proofs::Handed::handed_steps))]
fn handed_count(waiting: usize, size: usize, count: usize) -> usize
    requires size { 1 ≤ size }
    ensures value { result ≡ handed waiting size count }
    ensures within { result ≤ count }
    ensures short { count - result < size + waiting }
    ensures waits { waiting ≤ count → waiting ≤ count - result }
    ensures whole { result / size * size ≡ result }
{
    count.saturating_sub(waiting) / size * size
}

/// Hands out bytes that are whole blocks.
#[inline]
pub(crate) fn hand_out<BS: ArraySize, S: BlockSink<BS>>(
    bytes: &[u8],
    sink: &mut S,
) -> Result<(), Refused>
    requires some { 0 < length bytes.now }
    requires size { 1 ≤ BS.USIZE }
    requires whole { length bytes.now / BS.USIZE * BS.USIZE ≡ length bytes.now }
    requires room { HasRoom (S.state sink.old).room (length bytes.now) }
    ensures ok { OnOk result (Takes (S.state sink.old) (S.state sink.new) bytes.now) }
    ensures refused { OnErr result (Takes (S.state sink.old) (S.state sink.new) []) }
    ensures cause { OnErr result (Rose (S.refusals sink.old) (S.refusals sink.new)) }
    ensures never_falls { S.refusals sink.old ≤ S.refusals sink.new }
{
    let (blocks, _) = Array::<u8, BS>::slice_as_chunks(bytes);
    sink.take(&blocks)
}
