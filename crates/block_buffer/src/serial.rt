//! Buffers as arrays of bytes, and back.

ghost use Rattle.std.specs.Prelude.{◌≡◌, ◌↔◌, ◌+◌, ◌-◌, ◌≤◌, ◌<◌, ◌++◌, length, take, replicate};
ghost use Rattle.std.specs.Prelude.{[], IsTrue, IsOk, IfOk, OnOk, OnErr, vec_len};
ghost use Rattle.block_buffer.specs.Serial.{IsSerialized, serialized};

use crate::buffer::{BlockBuffer, Error};
use crate::kind::{BufferKind, waiting_of};
use hybrid_array::{Array, ArraySize};
use std::alloc::{AllocError, Global};

/// A buffer as an array. Its size is the block size, and one more for the lazy kind.
pub type SerializedBuffer<S> = Array<u8, S>;

impl<BS: ArraySize, K: BufferKind> BlockBuffer<BS, K> {
    /// A block of the bytes held and zeros. The buffer is then empty.
    pub fn pad_with_zeros(&mut self, alloc: Global) -> Result<Array<u8, BS>, AllocError>
        ensures value { IfOk result (λ block. block
            ≡ self.old ++ replicate (BS.USIZE - length self.old) 0) }
        ensures empty { OnOk result (self.new ≡ []) }
        ensures same { OnErr result (self.new ≡ self.old) }
    {
        waiting_of::<K>();
        // What is held fits the block.
        self.get_pos();
        let mut items = Vec::with_capacity(alloc, BS::USIZE)?;
        items.extend_from_slice(self.get_data())?;
        items.resize(BS::USIZE, 0)?;
        self.reset();
        Ok(array_of(items))
    }

    /// Holds the first `pos` bytes of a block, in place of those that it held.
    pub fn set(&mut self, buf: &Array<u8, BS>, pos: usize)
        requires { pos < BS.USIZE + K.WAITING }
        ensures { self.new ≡ take pos buf.now }
    {
        waiting_of::<K>();
        self.reset();
        self.append(&buf.as_slice()[..pos]);
    }

    /// The position, the bytes held, and zeros.
    pub fn serialize<S: ArraySize>(&self, alloc: Global) -> Result<SerializedBuffer<S>, AllocError>
        requires { S.USIZE ≡ BS.USIZE + K.WAITING }
        ensures { IfOk result (λ bytes. bytes ≡ serialized S.USIZE self.now) }
    {
        // For the bounds of the block size.
        self.size();
        let pos = self.get_pos();
        let mut items = Vec::with_capacity(alloc, S::USIZE)?;
        items.push_reserved(pos as u8);
        items.extend_from_slice(self.get_data())?;
        items.resize(S::USIZE, 0)?;
        Ok(array_of(items))
    }

    /// The buffer that gave these bytes, if one can have given them: their first is a position of
    /// the kind, and the bytes that it doesn't hold are zero.
    pub fn deserialize<S: ArraySize>(buf: &SerializedBuffer<S>) -> Result<Self, Error>
        requires low { 1 ≤ BS.USIZE }
        requires high { BS.USIZE ≤ 255 }
        requires size { S.USIZE ≡ BS.USIZE + K.WAITING }
        ensures ok { IsOk result ↔ IsSerialized (BS.USIZE + K.WAITING) buf.now }
        ensures value { IfOk result (λ buffer. buf.now ≡ serialized S.USIZE buffer) }
    {
        let (first, block) = buf.as_slice().split_at(1);
        let pos = first[0] as usize;
        if pos >= BS::USIZE + waiting_of::<K>() {
            return Err(Error);
        }
        let (data, unused) = block.split_at(pos);
        if !all_zero(unused) {
            return Err(Error);
        }
        Ok(Self::new(data))
    }
}

/// The array of as many bytes as its size.
pub(crate) fn array_of<S: ArraySize>(items: Vec<u8>) -> Array<u8, S>
    requires { vec_len items ≡ S.USIZE }
    ensures { result ≡ items.items }
{
    match Array::from_vec(items) {
        Ok(array) => array,
        Err(_) => unreachable!(),
    }
}

/// Whether all bytes are zero.
pub(crate) fn all_zero(bytes: &[u8]) -> bool
    ensures { IsTrue result ↔ (bytes.now ≡ replicate (length bytes.now) 0) }
{
    bytes.iter().all(|byte| *byte == 0)
}
