//! What a hash does with the bytes that it is given.

ghost use Rattle.std.specs.Prelude.{◌≡◌, ℕ, ◌+◌, ◌≤◌, List, [], length};
ghost use Rattle.digest_core.specs.Absorbing.{Absorbs};

use block_buffer::array::ArraySize;

/// What absorbs bytes and has a digest of them: a hash, or the core of one.
pub trait Absorb {
    /// The most bytes that one object absorbs.
    const MAX_BYTES: u64;

    ghost MAX_BYTES: { ℕ };

    /// Whether the object stands for a list of bytes, all those absorbed.
    ghost stands: { Self → List ℕ → Type 0 };

    /// How many bytes were absorbed.
    ghost count: { Self → ℕ };

    /// The digest of a list of bytes.
    ghost digest: { List ℕ → List ℕ };

    /// An object that has absorbed nothing: it stands for the empty list, so no implementation
    /// stands for none.
    ghost fresh: { Self };

    /// How many bytes were absorbed.
    fn absorbed(&self) -> u64
        ensures { result ≡ count self.now };

    ghost fresh_stands: { stands fresh [] };

    ghost fresh_counts: { count fresh ≡ 0 };
}

/// Absorbs bytes.
pub trait Update: Absorb {
    /// Absorbs `input`, after what was absorbed before.
    fn update(&mut self, input: &[u8])
        requires { Self.count self.old + length input.now ≤ Self.MAX_BYTES }
        ensures absorbs { Absorbs (Self.stands self.old) (Self.stands self.new) input.now }
        ensures counts { Self.count self.new ≡ Self.count self.old + length input.now };
}

/// Begins anew.
pub trait Reset: Absorb {
    /// Makes the object one that has absorbed nothing.
    fn reset(&mut self)
        ensures empty { Self.stands self.new [] }
        ensures none { Self.count self.new ≡ 0 };
}

/// Has digests of one length.
pub trait OutputSizeUser {
    /// The length of a digest, in bytes.
    type OutputSize: ArraySize;
}

/// Gives the digest of what was absorbed.
pub trait FixedOutput: Update + OutputSizeUser {
    /// Writes the digest to `out`, which has its length.
    fn finalize_into(self, out: &mut [u8])
        requires { length out.old ≡ Self.OutputSize.USIZE }
        ensures { (m : List ℕ) → Self.stands self m → out.new ≡ Self.digest m };
}

/// Gives the digest of what was absorbed, and begins anew.
pub trait FixedOutputReset: FixedOutput + Reset {
    /// Writes the digest to `out`, which has its length, and makes the object one that has absorbed
    /// nothing.
    fn finalize_into_reset(&mut self, out: &mut [u8])
        requires { length out.old ≡ Self.OutputSize.USIZE }
        ensures digest { (m : List ℕ) → Self.stands self.old m → out.new ≡ Self.digest m }
        ensures empty { Self.stands self.new [] }
        ensures none { Self.count self.new ≡ 0 };
}

/// Marks hashes that are made for cryptography.
pub trait HashMarker {}

/// Has a name.
pub trait AlgorithmName {
    ghost name: { List ℕ };

    /// The name, as `Sha256`.
    fn alg_name() -> &'static str
        ensures { result.now ≡ name };
}
