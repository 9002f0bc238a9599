//! The end of a stream: a delimiter, zeros and a suffix after the bytes held.

ghost use Rattle.std.specs.Prelude.{◌≡◌, ◌+◌, ◌*◌, ◌≤◌, [], ◌∷◌, ◌++◌, length, OnOk, OnErr};
ghost use Rattle.std.specs.Int.{to_be_bytes, to_le_bytes, w64, w128};
ghost use Rattle.block_buffer.specs.Sink.{HandsOut, HasRoom, RefusedBy, Rose, Takes};
ghost use Rattle.block_buffer.specs.Blocks.{filled, padded};

use crate::buffer::{BlockBuffer, MAX_SIZE, hand_out};
use crate::kind::Eager;
use crate::sink::{BlockSink, Refused};
use hybrid_array::ArraySize;

/// The byte after a message: the bit 1 and seven bits 0.
const MESSAGE_END: u8 = 0x80;

impl<BS: ArraySize> BlockBuffer<BS, Eager> {
    /// Hands out the bytes held, then `delim`, zeros and `suffix`: one block where these fit one,
    /// else two. The buffer is empty afterwards, whether or not the sink refuses.
    #[inline]
    pub fn digest_pad<S: BlockSink<BS>>(
        &mut self,
        delim: u8,
        suffix: &[u8],
        sink: &mut S,
    ) -> Result<(), Refused>
        requires suffix { length suffix.now ≤ BS.USIZE }
        requires room { HasRoom (S.state sink.old).room (2 * BS.USIZE) }
        ensures empty { self.new ≡ [] }
        ensures padded { HandsOut BS.USIZE result (S.state sink.old) (S.state sink.new)
            (padded BS.USIZE (self.old ++ delim ∷ []) suffix.now) }
        ensures cause { RefusedBy result (S.refusals sink.old) (S.refusals sink.new) }
    {
        self.size();
        let pos = self.get_pos();
        let mut head = [0u8; MAX_SIZE];
        head[..pos].copy_from_slice(self.get_data());
        head[pos] = delim;
        self.reset();
        hand_padded::<BS, S>(&head[..pos + 1], suffix, sink)
    }

    /// Pads with 0x80, zeros and the 64-bit number `data_len`, big-endian. The block size is at
    /// least 8.
    #[inline]
    pub fn len64_padding_be<S: BlockSink<BS>>(
        &mut self,
        data_len: u64,
        sink: &mut S,
    ) -> Result<(), Refused>
        requires size { 8 ≤ BS.USIZE }
        requires room { HasRoom (S.state sink.old).room (2 * BS.USIZE) }
        ensures empty { self.new ≡ [] }
        ensures padded { HandsOut BS.USIZE result (S.state sink.old) (S.state sink.new)
            (padded BS.USIZE (self.old ++ 0x80 ∷ []) (to_be_bytes w64 data_len)) }
        ensures cause { RefusedBy result (S.refusals sink.old) (S.refusals sink.new) }
    {
        self.digest_pad(MESSAGE_END, &data_len.to_be_bytes(), sink)
    }

    /// Pads with 0x80, zeros and the 64-bit number `data_len`, little-endian. The block size is at
    /// least 8.
    #[inline]
    pub fn len64_padding_le<S: BlockSink<BS>>(
        &mut self,
        data_len: u64,
        sink: &mut S,
    ) -> Result<(), Refused>
        requires size { 8 ≤ BS.USIZE }
        requires room { HasRoom (S.state sink.old).room (2 * BS.USIZE) }
        ensures empty { self.new ≡ [] }
        ensures padded { HandsOut BS.USIZE result (S.state sink.old) (S.state sink.new)
            (padded BS.USIZE (self.old ++ 0x80 ∷ []) (to_le_bytes w64 data_len)) }
        ensures cause { RefusedBy result (S.refusals sink.old) (S.refusals sink.new) }
    {
        self.digest_pad(MESSAGE_END, &data_len.to_le_bytes(), sink)
    }

    /// Pads with 0x80, zeros and the 128-bit number `data_len`, big-endian. The block size is at
    /// least 16.
    #[inline]
    pub fn len128_padding_be<S: BlockSink<BS>>(
        &mut self,
        data_len: u128,
        sink: &mut S,
    ) -> Result<(), Refused>
        requires size { 16 ≤ BS.USIZE }
        requires room { HasRoom (S.state sink.old).room (2 * BS.USIZE) }
        ensures empty { self.new ≡ [] }
        ensures padded { HandsOut BS.USIZE result (S.state sink.old) (S.state sink.new)
            (padded BS.USIZE (self.old ++ 0x80 ∷ []) (to_be_bytes w128 data_len)) }
        ensures cause { RefusedBy result (S.refusals sink.old) (S.refusals sink.new) }
    {
        self.digest_pad(MESSAGE_END, &data_len.to_be_bytes(), sink)
    }
}

// Hands out bytes, zeros and a suffix, in one block or in two.
fn hand_padded<BS: ArraySize, S: BlockSink<BS>>(
    head: &[u8],
    suffix: &[u8],
    sink: &mut S,
) -> Result<(), Refused>
    requires low { 1 ≤ BS.USIZE }
    requires high { BS.USIZE ≤ 255 }
    requires head { length head.now ≤ BS.USIZE }
    requires suffix { length suffix.now ≤ BS.USIZE }
    requires room { HasRoom (S.state sink.old).room (2 * BS.USIZE) }
    ensures padded { HandsOut BS.USIZE result (S.state sink.old) (S.state sink.new)
        (padded BS.USIZE head.now suffix.now) }
    ensures cause { RefusedBy result (S.refusals sink.old) (S.refusals sink.new) }
{
    if head.len() + suffix.len() <= BS::USIZE {
        return hand_filled::<BS, S>(head, suffix, sink);
    }
    hand_filled::<BS, S>(head, &[], sink)?;
    hand_filled::<BS, S>(&[], suffix, sink)
}

// Hands out one block: bytes, zeros and a suffix.
fn hand_filled<BS: ArraySize, S: BlockSink<BS>>(
    head: &[u8],
    suffix: &[u8],
    sink: &mut S,
) -> Result<(), Refused>
    requires low { 1 ≤ BS.USIZE }
    requires high { BS.USIZE ≤ 255 }
    requires fits { length head.now + length suffix.now ≤ BS.USIZE }
    requires room { HasRoom (S.state sink.old).room BS.USIZE }
    ensures ok { OnOk result (Takes (S.state sink.old) (S.state sink.new)
        (filled BS.USIZE head.now suffix.now)) }
    ensures refused { OnErr result (Takes (S.state sink.old) (S.state sink.new) []) }
    ensures cause { OnErr result (Rose (S.refusals sink.old) (S.refusals sink.new)) }
    ensures never_falls { S.refusals sink.old ≤ S.refusals sink.new }
{
    let mut block = [0u8; MAX_SIZE];
    fill_block(&mut block[..BS::USIZE], head, suffix);
    hand_out::<BS, S>(&block[..BS::USIZE], sink)
}

// Writes a block: bytes, zeros and a suffix.
#[inline]
fn fill_block(block: &mut [u8], head: &[u8], suffix: &[u8])
    requires { length head.now + length suffix.now ≤ length block.old }
    ensures { block.new ≡ filled (length block.old) head.now suffix.now }
{
    let (front, rest) = block.split_at_mut(head.len());
    front.copy_from_slice(head);
    let count = rest.len() - suffix.len();
    let (zeros, back) = rest.split_at_mut(count);
    zeros.fill(0);
    back.copy_from_slice(suffix);
}
