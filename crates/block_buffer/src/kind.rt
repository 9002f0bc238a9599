//! The kinds of buffers: where a buffer's position stands, and which positions it has.

ghost use Rattle.std.specs.Prelude.{◌≡◌, ℕ, ◌+◌, ◌≤◌, ◌<◌, List, length, take};

mod sealed {
    /// What no other crate can implement.
    pub trait Sealed {}
}

/// A kind of buffers. No other crate can add one.
///
/// The calls are for this crate's buffers: `size` is the block size, `store` the places in which a
/// buffer keeps its bytes, and `pos` its field for the position.
pub trait BufferKind: sealed::Sealed {
    /// The field for the position, which takes no room where the position stands in the store.
    type Pos: Drop + Copy;

    /// How many bytes wait for the next ones where they could fill a block: 0 if a full block is
    /// handed out at once, 1 if it is kept until more comes. So the positions are those below the
    /// block size and so many more.
    const WAITING: usize;

    ghost WAITING: { ℕ };

    /// The position: how many bytes at the front of the store are held.
    ghost position: { ℕ → List ℕ → Self.Pos → ℕ };

    /// A field to begin with.
    fn start() -> Self::Pos;

    fn get_pos(size: usize, store: &[u8], pos: &Self::Pos) -> usize
        requires low { 1 ≤ size }
        requires high { size ≤ length store.now }
        ensures { result ≡ position size store.now pos.now };

    /// Makes `value` the position, and keeps the bytes before it.
    fn set_pos(size: usize, store: &mut [u8], pos: &mut Self::Pos, value: usize)
        requires low { 1 ≤ size }
        requires high { size ≤ length store.old }
        requires small { size < 256 }
        requires in_range { value < size + WAITING }
        ensures position { position size store.new pos.new ≡ value }
        ensures data { take value store.new ≡ take value store.old };

    ghost few_wait: { WAITING ≤ 1 };
}

/// Has positions 0 to one less than the block size. The position is the last byte of the block,
/// which no data ever fills.
#[derive(Clone, Copy, Default)]
pub struct Eager;

impl sealed::Sealed for Eager {}

impl BufferKind for Eager {
    ghost use Rattle.std.specs.Prelude.{◌-◌, slice_index};
    ghost use Rattle.std.proofs.Common.{rules};

    type Pos = ();

    const WAITING: usize = 0;

    ghost WAITING = { 0 };

    ghost position = { λ size store pos. slice_index store (size - 1) };

    fn start() {}

    #[inline(always)]
    fn get_pos(size: usize, store: &[u8], _pos: &()) -> usize {
        store[size - 1] as usize
    }

    #[inline(always)]
    fn set_pos(size: usize, store: &mut [u8], _pos: &mut (), value: usize) {
        store[size - 1] = value as u8;
    }

    ghost few_wait = { Prim.search rules };
}

/// Has positions 0 to the block size: a full block is kept until more bytes come. It leaves no byte
/// for the position, which stands in a field.
#[derive(Clone, Copy, Default)]
pub struct Lazy;

impl sealed::Sealed for Lazy {}

impl BufferKind for Lazy {
    ghost use Rattle.std.proofs.Common.{rules};

    type Pos = u8;

    const WAITING: usize = 1;

    ghost WAITING = { 1 };

    ghost position = { λ size store pos. pos };

    fn start() -> u8 {
        0
    }

    #[inline(always)]
    fn get_pos(_size: usize, _store: &[u8], pos: &u8) -> usize {
        *pos as usize
    }

    #[inline(always)]
    fn set_pos(_size: usize, _store: &mut [u8], pos: &mut u8, value: usize) {
        *pos = value as u8;
    }

    ghost few_wait = { Prim.search rules };
}

/// The number of bytes that wait, which the law of a kind says is at most one. Where its value
/// isn't used, the call is there for that bound.
#[inline(always)]
pub(crate) fn waiting_of<K: BufferKind>() -> usize
    ensures value { result ≡ K.WAITING }
    ensures small { result ≤ 1 }
{
    K::WAITING
}
