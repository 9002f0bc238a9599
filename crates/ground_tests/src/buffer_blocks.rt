//! Blocks and paddings on values worked by hand, and sinks that refuse.

ghost use Rattle.std.specs.Prelude.{◌≡◌, ◌+◌, ◌<◌, ◌≤◌, length};

use crate::array_items::holds;
use crate::shown::shows;
use crate::texts::is_text;
use block_buffer::{
    BlockBuffer, BlockSink, BufferKind, Eager, EagerBuffer, Error, Lazy, LazyBuffer, Refused,
    VecSink,
};
use hybrid_array::sizes::{U4, U5, U8};
use hybrid_array::{ArraySize, Chunks};
use std::alloc::Global;

// Records the first 64 bytes that it takes, and refuses from a given call on.
#[derive(Drop)]
struct Recorder {
    bytes: [u8; 64],
    len: usize,
    calls: u64,
    refuses_from: u64,
    refusals: u64,
}

fn refusing_from(call: u64) -> Recorder {
    Recorder {
        bytes: [0; 64],
        len: 0,
        calls: 0,
        refuses_from: call,
        refusals: 0,
    }
}

impl Recorder {
    fn taken(&self) -> &[u8] {
        &self.bytes[..self.len.min(64)]
    }
}

impl<BS: ArraySize> BlockSink<BS> for Recorder {
    ghost use Rattle.std.specs.Prelude.{None, ⊤};

    ghost state = { λ s. record { stands = λ m. ⊤; room = None } };

    ghost refusals = { λ s. s.refusals };

    fn take(&mut self, blocks: &Chunks<'_, u8, BS>) -> Result<(), Refused> {
        if self.calls >= self.refuses_from {
            self.refusals = self.refusals.saturating_add(1);
            return Err(Refused);
        }
        self.calls += 1;
        let bytes = blocks.as_flattened();
        let start = self.len.min(64);
        let end = start + bytes.len().min(64 - start);
        self.bytes[start..end].copy_from_slice(&bytes[..end - start]);
        self.len = end;
        Ok(())
    }
}

fn cut(sink: &mut Recorder) -> Result<EagerBuffer<U4>, Refused> {
    let mut buffer = EagerBuffer::<U4>::default();
    buffer.digest_blocks(&[0, 1, 2, 3, 4, 5, 6, 7, 8, 9], sink)?;
    buffer.digest_blocks(&[10, 11, 12], sink)?;
    Ok(buffer)
}

// Whether the example's sink took these bytes in two calls, and its buffer holds these.
fn is_example_cut(taken: &[u8], held: &[u8]) -> bool {
    let mut sink = refusing_from(9);
    match cut(&mut sink) {
        Ok(buffer) => sink.taken() == taken && sink.calls == 2 && buffer.get_data() == held,
        Err(_) => false,
    }
}

// The blocks are those of the Rust crate's own example.
#[test]
fn example_of_the_page(rt: HostRuntime) {
    shows(
        &rt,
        is_example_cut(&[0, 1, 2, 3, 4, 5, 6, 7, 8, 9, 10, 11], &[12]),
    );
}

// Whether a sink took these bytes once a lazy buffer has taken the input in, and the buffer holds
// these.
fn is_lazily_cut(held: &[u8], input: &[u8], taken: &[u8], rest: &[u8]) -> bool
    requires { length held.now ≤ 4 }
{
    let mut buffer = LazyBuffer::<U4>::new(held);
    let mut sink = refusing_from(9);
    buffer.digest_blocks(input, &mut sink).is_ok()
        && sink.taken() == taken
        && buffer.get_data() == rest
}

#[test]
fn a_lazy_buffer_keeps_a_full_block_until_more_bytes_come(rt: HostRuntime) {
    let bytes = [0, 1, 2, 3, 4, 5, 6, 7, 8];
    shows(
        &rt,
        is_lazily_cut(&bytes[..1], &bytes[1..8], &bytes[..4], &bytes[4..8]),
    );
    shows(
        &rt,
        is_lazily_cut(&bytes[..4], &bytes[4..5], &bytes[..4], &bytes[4..5]),
    );
}

// Whether a buffer of these bytes is padded to this block.
fn pads_to<K: BufferKind>(alloc: Global, held: &[u8], block: &[u8]) -> bool
    requires { length held.now < 4 + K.WAITING }
{
    let made = BlockBuffer::<U4, K>::new(held).pad_with_zeros(alloc);
    holds(made.ok(), block)
}

// Whether a buffer of these bytes is this array.
fn is_serialized_as<K: BufferKind, S: ArraySize>(alloc: Global, held: &[u8], bytes: &[u8]) -> bool
    requires size { S.USIZE ≡ 4 + K.WAITING }
    requires len { length held.now < S.USIZE }
{
    let made = BlockBuffer::<U4, K>::new(held).serialize::<S>(alloc);
    holds(made.ok(), bytes)
}

#[test]
fn an_array_is_made_of_a_buffer(rt: HostRuntime) {
    let alloc = rt.alloc();
    assert!(rt; is_serialized_as::<Eager, U4>(alloc, &[9, 8], &[2, 9, 8, 0]));
    assert!(rt; is_serialized_as::<Lazy, U5>(alloc, &[1, 2, 3, 4], &[4, 1, 2, 3, 4]));
    shows(&rt, pads_to::<Eager>(alloc, &[12], &[12, 0, 0, 0]));
    shows(
        &rt,
        pads_to::<Lazy>(alloc, &[8, 9, 10, 11], &[8, 9, 10, 11]),
    );
}

// Whether a sink that refuses from a call on took these bytes of a padding by 7 and 8, 9 in blocks
// of 8 bytes.
fn is_padded_as(held: &[u8], refuses_from: u64, taken: &[u8], is_ok: bool) -> bool
    requires { length held.now < 8 }
{
    let mut sink = refusing_from(refuses_from);
    let result = EagerBuffer::<U8>::new(held).digest_pad(7, &[8, 9], &mut sink);
    sink.taken() == taken && result.is_ok() == is_ok
}

// One block, and two.
fn are_paddings_cut(blocks: &[u8; 16]) -> bool {
    is_padded_as(&blocks[..5], 0, &[], false)
        && is_padded_as(&[1, 2], 1, &[1, 2, 7, 0, 0, 0, 8, 9], true)
        && is_padded_as(&blocks[..6], 0, &[], false)
        && is_padded_as(&blocks[..6], 1, &blocks[..8], false)
        && is_padded_as(&blocks[..6], 2, blocks, true)
}

// Whether a sink that refuses from a call on took these bytes of a stream of 9. The two bytes held
// make a first block, and a second one is of the input.
fn is_stream_cut(call: u64, taken: &[u8], is_ok: bool) -> bool {
    let mut sink = refusing_from(call);
    let result = EagerBuffer::<U4>::new(&[1, 2]).digest_blocks(&[3, 4, 5, 6, 7, 8, 9], &mut sink);
    sink.taken() == taken && result.is_ok() == is_ok
}

fn are_streams_cut(blocks: &[u8; 8]) -> bool {
    is_stream_cut(0, &[], false)
        && is_stream_cut(1, &blocks[..4], false)
        && is_stream_cut(2, blocks, true)
}

#[test]
fn what_a_sink_took_is_whole_blocks_up_to_its_refusal(rt: HostRuntime) {
    let blocks = [1, 2, 3, 4, 5, 6, 7, 0, 0, 0, 0, 0, 0, 0, 8, 9];
    shows(
        &rt,
        are_streams_cut(&[1, 2, 3, 4, 5, 6, 7, 8]) && are_paddings_cut(&blocks),
    );
}

#[test]
fn the_error_has_a_text(rt: HostRuntime) {
    let made = format!(in rt.alloc(); "{Error}");
    shows(&rt, is_text(made, "Block buffer error"));
}

// Whether a sink in memory took these bytes of two pieces, and refused so often.
fn keeps(mut sink: VecSink, taken: &[u8], refusals: u64) -> bool {
    let mut buffer = EagerBuffer::<U4>::default();
    let _first = buffer.digest_blocks(&[0, 1, 2, 3, 4, 5], &mut sink);
    let _second = buffer.digest_blocks(&[6, 7, 8, 9], &mut sink);
    sink.as_slice() == taken && sink.refusals() == refusals
}

#[test]
fn a_sink_in_memory_keeps_what_it_takes_up_to_its_refusal(rt: HostRuntime) {
    let alloc = rt.alloc();
    shows(
        &rt,
        keeps(VecSink::new(alloc), &[0, 1, 2, 3, 4, 5, 6, 7], 0),
    );
    shows(
        &rt,
        keeps(VecSink::refusing_after(alloc, 1), &[0, 1, 2, 3], 1),
    );
    shows(&rt, keeps(VecSink::refusing_after(alloc, 0), &[], 2));
}
