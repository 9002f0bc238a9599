//! Reading the blocks of a generator, on values worked by hand.

use crate::array_items::holds;
use crate::shown::shows;
use block_buffer::{BlockGen, ReadBuffer};
use hybrid_array::ArrayMut;
use hybrid_array::sizes::U4;
use std::alloc::Global;

// Gives the bytes 0, 1, 2 and so on, and after 255 again 0.
#[derive(Drop)]
struct Counting {
    next: u8,
    blocks: u64,
}

impl BlockGen<U4> for Counting {
    ghost use Rattle.std.specs.Prelude.{None, ⊤};

    ghost state = { λ s. record { stands = λ m. ⊤; room = None } };

    fn fill(&mut self, block: &mut ArrayMut<'_, u8, U4>) {
        let n = self.next;
        block.copy_from_slice(&[n, n.wrapping_add(1), n.wrapping_add(2), n.wrapping_add(3)]);
        self.next = n.wrapping_add(4);
        self.blocks = self.blocks.saturating_add(1);
    }
}

fn from_zero() -> Counting {
    Counting { next: 0, blocks: 0 }
}

// A buffer of which six bytes were read, and the bytes 6 and 7 weren't.
fn with_two_unread() -> ReadBuffer<U4> {
    let mut buffer = ReadBuffer::<U4>::default();
    buffer.read(&mut [0; 6], &mut from_zero());
    buffer
}

fn is_serialized_as(alloc: Global, expected: &[u8]) -> bool {
    holds(with_two_unread().serialize(alloc).ok(), expected)
}

#[test]
fn a_read_buffer_is_its_position_zeros_and_unread_bytes(rt: HostRuntime) {
    shows(&rt, is_serialized_as(rt.alloc(), &[2, 0, 6, 7]));
}

// Whether the bytes count up from the first.
fn is_counting(bytes: &[u8], first: u8) -> bool {
    let mut next = first;
    for byte in bytes {
        if *byte != next {
            return false;
        }
        next = next.wrapping_add(1);
    }
    true
}

// Whether a piece counts up from the first, and so many blocks were made in all.
fn reads_on(
    buffer: &mut ReadBuffer<U4>,
    generator: &mut Counting,
    out: &mut [u8],
    first: u8,
    blocks: u64,
) -> bool {
    buffer.read(out, generator);
    is_counting(out, first) && generator.blocks == blocks
}

// How many bytes are read, the first of them, and how many blocks were made in all.
const READS: [(usize, u8, u64); 8] = [
    (0, 0, 0),
    (1, 0, 1),
    (3, 1, 1),
    (0, 4, 1),
    (4, 4, 2),
    (9, 8, 5),
    (3, 17, 5),
    (8, 20, 7),
];

fn makes_blocks_as_needed() -> bool {
    let mut generator = from_zero();
    let mut buffer = ReadBuffer::<U4>::default();
    let mut all = true;
    for (len, first, blocks) in READS {
        let mut out = [0; 9];
        let out = &mut out[..len.min(9)];
        all = reads_on(&mut buffer, &mut generator, out, first, blocks) && all;
    }
    all
}

#[test]
fn pieces_follow_one_another_and_no_block_is_made_that_is_not_needed(rt: HostRuntime) {
    shows(&rt, makes_blocks_as_needed());
}
