//! A buffer for reading blocks that a generator makes.

ghost use Rattle.std.specs.Prelude.{◌≡◌, ◌↔◌, ◌+◌, ◌-◌, ◌≤◌, ◌<◌, [], ◌++◌, length, take, drop};
ghost use Rattle.std.specs.Prelude.{min, IsOk, IfOk};
ghost use Rattle.block_buffer.specs.Gen.{Gives, Reads, blocks_for};
ghost use Rattle.block_buffer.specs.Serial.{IsReadSerialized, read_serialized};
ghost use Rattle.block_buffer.specs.Sink.{HasRoom};

use crate::buffer::{Error, MAX_SIZE};
use crate::generator::BlockGen;
use crate::serial::{all_zero, array_of};
use hybrid_array::{Array, ArrayMut, ArraySize};
use std::alloc::{AllocError, Global};
use std::marker::{Model, PhantomData};

/// What is left to read of a block of `BS::USIZE` bytes, of which there are 1 to 255. Contracts see
/// it as the list of the unread bytes.
#[derive(Drop)]
pub struct ReadBuffer<BS: ArraySize> {
    store: [u8; MAX_SIZE],
    // The unread bytes are those of the block from here on.
    pos: usize,
    size: PhantomData<BS>,
}

impl<BS: ArraySize> Model for ReadBuffer<BS> {
    ghost use Rattle.std.specs.Prelude.{ℕ, List, take, drop};
    ghost use Rattle.block_buffer.specs.Gen.{IsReadPosition};

    ghost Value = { List ℕ };

    ghost view = { λ s. drop s.pos (take BS.USIZE s.store) };

    ghost invariant = { λ s. IsReadPosition BS.USIZE s.pos };
}

impl<BS: ArraySize> ReadBuffer<BS> {
    ghost use Rattle.std.specs.Borrow.{sem};
    ghost use Rattle.block_buffer.specs.Unread.{LeavesUnread};

    /// A buffer with nothing to read.
    pub fn default() -> Self
        requires low { 1 ≤ BS.USIZE }
        requires high { BS.USIZE ≤ 255 }
        ensures { result ≡ [] }
    {
        ReadBuffer {
            store: [0u8; MAX_SIZE],
            pos: BS::USIZE,
            size: PhantomData,
        }
    }

    /// Forgets the unread bytes.
    pub fn reset(&mut self)
        ensures { self.new ≡ [] }
    {
        self.pos = BS::USIZE;
    }

    /// A second buffer with the same unread bytes.
    pub fn clone(&self) -> Self
        ensures { result ≡ self.now }
    {
        ReadBuffer {
            store: self.store,
            pos: self.pos,
            size: PhantomData,
        }
    }

    /// The position in the block, from which on its bytes are unread: at least 1.
    #[inline]
    pub fn get_pos(&self) -> usize
        ensures value { result ≡ BS.USIZE - length self.now }
        ensures low { 1 ≤ result }
        ensures high { result ≤ BS.USIZE }
    {
        self.pos
    }

    /// The block size.
    #[inline]
    pub fn size(&self) -> usize
        ensures value { result ≡ BS.USIZE }
        ensures low { 1 ≤ result }
        ensures high { result ≤ 255 }
    {
        // A field is read so that the bounds of the block size are known.
        let _ = &self.pos;
        BS::USIZE
    }

    /// How many bytes are unread.
    #[inline]
    pub fn remaining(&self) -> usize
        ensures value { result ≡ length self.now }
        ensures high { result < BS.USIZE }
    {
        BS::USIZE - self.pos
    }

    /// The first unread bytes, at most `len`, which are then read.
    pub fn read_cached(&mut self, len: usize) -> &[u8]
        ensures value { result.now ≡ take len self.old }
        ensures* left { sem 𝓛 (LeavesUnread BS.row BS.ArraySize self.entry len) }
    {
        let pos = self.pos;
        let end = pos + len.min(BS::USIZE - pos);
        self.pos = end;
        let store = &self.store;
        &store[pos..end]
    }

    /// Takes a block of the generator in place of what was unread, and reads its first bytes into
    /// `out`, at most a block. Where `out` is empty it takes none.
    pub fn write_block<G: BlockGen<BS>>(&mut self, generator: &mut G, out: &mut [u8])
        requires fits { length out.old ≤ BS.USIZE }
        requires room { 0 < length out.old → HasRoom (G.state generator.old).room 1 }
        ensures gives { 0 < length out.old
            → Gives (G.state generator.old) (G.state generator.new) 1 (out.new ++ self.new) }
        ensures whole { 0 < length out.old → length out.old + length self.new ≡ BS.USIZE }
        ensures unread { length out.old ≡ 0 → self.new ≡ self.old }
        ensures unasked { length out.old ≡ 0 → generator.new ≡ generator.old }
    {
        let count = out.len();
        if count == 0 {
            return;
        }
        fill_slice::<BS, G>(generator, &mut self.store[..BS::USIZE]);
        out.copy_from_slice(&self.store[..count]);
        self.pos = count;
    }

    /// Fills `out` with the unread bytes and then with the generator's, and keeps what is left of
    /// the last block.
    pub fn read<G: BlockGen<BS>>(&mut self, out: &mut [u8], generator: &mut G)
        requires { HasRoom (G.state generator.old).room
            (blocks_for BS.USIZE (length out.old - length self.old)) }
        ensures { Reads BS.USIZE (G.state generator.old) (G.state generator.new)
            self.old out.new self.new }
    {
        let size = self.size();
        let len = out.len();
        let mut at = self.copy_cached(out);
        'each_block: while at < len {
            let end = at + size.min(len - at);
            self.write_block(generator, &mut out[at..end]);
            at = end;
        }
    }

    /// The position, zeros up to it, and the unread bytes.
    pub fn serialize(&self, alloc: Global) -> Result<Array<u8, BS>, AllocError>
        ensures { IfOk result (λ bytes. bytes ≡ read_serialized BS.USIZE self.now) }
    {
        // For the bounds of the block size.
        self.size();
        let pos = self.get_pos();
        let mut items = Vec::with_capacity(alloc, BS::USIZE)?;
        items.push_reserved(pos as u8);
        items.resize(pos, 0)?;
        items.extend_from_slice(self.unread())?;
        Ok(array_of(items))
    }

    /// The buffer that gave these bytes, if one can have given them: their first is a position, 1
    /// to the block size, and those between it and the position are zero.
    pub fn deserialize(buffer: &Array<u8, BS>) -> Result<Self, Error>
        requires low { 1 ≤ BS.USIZE }
        requires high { BS.USIZE ≤ 255 }
        ensures ok { IsOk result ↔ IsReadSerialized BS.USIZE buffer.now }
        ensures value { IfOk result (λ unread. buffer.now ≡ read_serialized BS.USIZE unread) }
    {
        let bytes = buffer.as_slice();
        let pos = bytes[0] as usize;
        if pos == 0 || pos > BS::USIZE || !all_zero(&bytes[1..pos]) {
            return Err(Error);
        }
        Ok(Self::holding(&bytes[pos..]))
    }

    // A buffer with these unread bytes, fewer than a block.
    fn holding(unread: &[u8]) -> Self
        requires short { length unread.now < BS.USIZE }
        requires high { BS.USIZE ≤ 255 }
        ensures { result ≡ unread.now }
    {
        let pos = BS::USIZE - unread.len();
        let mut store = [0u8; MAX_SIZE];
        store[pos..BS::USIZE].copy_from_slice(unread);
        ReadBuffer {
            store,
            pos,
            size: PhantomData,
        }
    }

    // The unread bytes.
    fn unread(&self) -> &[u8]
        ensures { result.now ≡ self.now }
    {
        &self.store[self.pos..BS::USIZE]
    }

    // Reads the first unread bytes into a slice, as many as both have, and says how many.
    fn copy_cached(&mut self, out: &mut [u8]) -> usize
        ensures count { result ≡ min (length self.old) (length out.old) }
        ensures out { out.new ≡ take result self.old ++ drop result out.old }
        ensures left { self.new ≡ drop result self.old }
    {
        let pos = self.pos;
        let unread = &self.store[pos..BS::USIZE];
        let count = out.len().min(unread.len());
        out[..count].copy_from_slice(&unread[..count]);
        self.pos = pos + count;
        count
    }
}

// Fills a slice with one block.
fn fill_slice<BS: ArraySize, G: BlockGen<BS>>(generator: &mut G, block: &mut [u8])
    requires len { length block.old ≡ BS.USIZE }
    requires room { HasRoom (G.state generator.old).room 1 }
    ensures { Gives (G.state generator.old) (G.state generator.new) 1 block.new }
{
    let mut view = ArrayMut::of(block);
    generator.fill(&mut view);
}
