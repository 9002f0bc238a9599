//! Signatures as bytes.
ghost use Rattle.std.specs.Prelude.{◌≡◌, ℕ, List, length, IfOk};

use hybrid_array::{Array, ArraySize};
use std::alloc::{AllocError, Global};

/// A signature that stands for a list of `Size` bytes.
pub trait SignatureEncoding {
    /// How many bytes there are.
    type Size: ArraySize;

    // The bytes of a signature.
    ghost encoding: { Self → List ℕ };

    /// The bytes, as an array.
    fn to_bytes(&self, alloc: Global) -> Result<Array<u8, Self::Size>, AllocError>
        ensures { IfOk result (λ bytes. bytes ≡ encoding self.now) };

    /// The bytes, as a vector.
    fn to_vec(&self, alloc: Global) -> Result<Vec<u8>, AllocError>
        ensures { IfOk result (λ bytes. bytes.items ≡ encoding self.now) };

    /// How many bytes there are.
    fn encoded_len(&self) -> usize
        ensures size { result ≡ Self.Size.USIZE }
        ensures len { result ≡ length (encoding self.now) };
}
