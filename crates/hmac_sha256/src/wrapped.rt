//! `Hash` by the traits of hashes over blocks: a core and a hash at once, as in the Rust crate.

ghost use Rattle.std.specs.Prelude.{◌≡◌, ℕ, List, ◌∷◌, [], length, IsOk};

use crate::hashing::{Hash, MAX_BYTES};
use digest_core::block_buffer::array::Chunks;
use digest_core::block_buffer::array::sizes::{U32, U64};
use digest_core::block_buffer::{Eager, EagerBuffer};
use digest_core::{
    Absorb, AlgorithmName, AssociatedOid, BlockSizeUser, BufferKindUser, CoreWrapper, FixedOutput,
    FixedOutputCore, FixedOutputReset, HashMarker, ObjectIdentifier, OutputSizeUser, Reset,
    TailOutputCore, Update, UpdateCore,
};

/// SHA-256 of bytes that come piece by piece, by a buffer before `Hash` as a core.
pub type WrappedHash = CoreWrapper<Hash>;

impl Absorb for Hash {
    ghost use Rattle.std.specs.Prelude.{◌-◌, ◌^◌};
    ghost use Rattle.hmac_sha256.specs.Hash.{StandsFor, absorbed_bytes, new_hash};
    ghost use Rattle.hmac_sha256.specs.Hash.{new_hash-StandsFor, new_hash-counts};
    ghost use Rattle.sha256_lanes.specs.Sha256.{sha256};

    const MAX_BYTES: u64 = MAX_BYTES;

    ghost MAX_BYTES = { 2 ^ 61 - 1 };

    ghost stands = { StandsFor };

    ghost count = { absorbed_bytes };

    ghost digest = { sha256 };

    ghost fresh = { new_hash };

    ghost fresh_stands = { new_hash-StandsFor };

    ghost fresh_counts = { new_hash-counts };

    #[inline]
    fn absorbed(&self) -> u64 {
        Hash::absorbed(self)
    }
}

impl Update for Hash {
    #[inline]
    fn update(&mut self, input: &[u8]) {
        Hash::update(self, input);
    }
}

impl Reset for Hash {
    fn reset(&mut self) {
        *self = Hash::new();
    }
}

impl OutputSizeUser for Hash {
    type OutputSize = U32;
}

impl FixedOutput for Hash {
    #[inline]
    fn finalize_into(self, out: &mut [u8]) {
        out.copy_from_slice(&self.finalize());
    }
}

impl FixedOutputReset for Hash {
    fn finalize_into_reset(&mut self, out: &mut [u8]) {
        out.copy_from_slice(&self.copy().finalize());
        self.reset();
    }
}

impl HashMarker for Hash {}

impl AlgorithmName for Hash {
    ghost name = { 83 ∷ 104 ∷ 97 ∷ 50 ∷ 53 ∷ 54 ∷ [] };

    fn alg_name() -> &'static str {
        "Sha256"
    }
}

impl BlockSizeUser for Hash {
    type BlockSize = U64;
}

impl BufferKindUser for Hash {
    type BufferKind = Eager;
}

impl UpdateCore for Hash {
    #[inline]
    fn update_blocks(&mut self, blocks: &Chunks<'_, u8, U64>) {
        Hash::update(self, blocks.as_flattened());
    }
}

impl FixedOutputCore for Hash {
    #[inline]
    fn finalize_fixed_core(&mut self, buffer: &mut EagerBuffer<U64>, out: &mut [u8]) {
        Hash::update(self, buffer.get_data());
        out.copy_from_slice(&self.copy().finalize());
    }
}

impl TailOutputCore for Hash {
    #[inline]
    fn finalize_tail_core(&self, buffer: &EagerBuffer<U64>, tail: &[u8], out: &mut [u8]) {
        let held = buffer.get_data();
        if held.len() == 0 {
            out.copy_from_slice(&self.finalize_with(tail));
            return;
        }
        let mut whole = self.copy();
        Hash::update(&mut whole, held);
        out.copy_from_slice(&whole.finalize_with(tail));
    }
}

impl AssociatedOid for Hash {
    // joint-iso-itu-t(2) country(16) us(840) organization(1) gov(101) csor(3) nistAlgorithm(4)
    // hashAlgs(2) sha256(1)
    ghost arcs = { 2 ∷ 16 ∷ 840 ∷ 1 ∷ 101 ∷ 3 ∷ 4 ∷ 2 ∷ 1 ∷ [] };

    fn oid() -> ObjectIdentifier {
        match ObjectIdentifier::from_arcs(&[2, 16, 840, 1, 101, 3, 4, 2, 1]) {
            Ok(id) => id,
            Err(_) => unreachable!(),
        }
    }
}
