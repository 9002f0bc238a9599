//! A core of the tests' own under `CoreWrapper`, and object identifiers worked by hand.

ghost use Rattle.std.specs.Prelude.{◌≡◌, ℕ, ◌+◌, ◌%◌, ◌≤◌, ◌<◌, List, length, sum};

use crate::shown::shows;
use block_buffer::EagerBuffer;
use digest_core::{
    Absorb, BlockSizeUser, CoreWrapper, FixedOutput, FixedOutputCore, FixedOutputReset,
    ObjectIdentifier, OutputSizeUser, Reset, TailOutputCore, Update, UpdateCore,
};
use hybrid_array::Chunks;
use hybrid_array::sizes::{U1, U4};

// The sum of bytes modulo 256, in blocks of 4.
#[derive(Drop)]
struct Summing {
    total: u8,
    count: u64,
}

fn sum_on(start: u8, bytes: &[u8]) -> u8
    ensures { result ≡ (start + sum bytes.now) % 256 }
{
    let mut total = start;
    'each_byte: for byte in bytes {
        total = total.wrapping_add(*byte);
    }
    total
}

impl Absorb for Summing {
    ghost use Rattle.std.specs.Prelude.{[], ◌∷◌, refl};

    const MAX_BYTES: u64 = 1000;

    ghost MAX_BYTES = { 1000 };

    ghost stands = { λ s m. (s.total ≡ sum m % 256) × (s.count ≡ length m) };

    ghost count = { λ s. s.count };

    ghost digest = { λ m. (sum m % 256) ∷ [] };

    ghost fresh = { record { total = 0; count = 0 } };

    ghost fresh_stands = { (refl, refl) };

    ghost fresh_counts = { refl };

    fn absorbed(&self) -> u64 {
        self.count
    }
}

impl BlockSizeUser for Summing {
    type BlockSize = U4;
}

impl OutputSizeUser for Summing {
    type OutputSize = U1;
}

impl UpdateCore for Summing {
    fn update_blocks(&mut self, blocks: &Chunks<'_, u8, U4>) {
        let bytes = blocks.as_flattened();
        self.total = sum_on(self.total, bytes);
        self.count += bytes.len() as u64;
    }
}

impl FixedOutputCore for Summing {
    fn finalize_fixed_core(&mut self, buffer: &mut EagerBuffer<U4>, out: &mut [u8]) {
        let bytes = buffer.get_data();
        self.total = sum_on(self.total, bytes);
        self.count += bytes.len() as u64;
        out.copy_from_slice(&[self.total]);
    }
}

impl TailOutputCore for Summing {
    fn finalize_tail_core(&self, buffer: &EagerBuffer<U4>, tail: &[u8], out: &mut [u8]) {
        let held = sum_on(self.total, buffer.get_data());
        out.copy_from_slice(&[sum_on(held, tail)]);
    }
}

impl Reset for Summing {
    fn reset(&mut self) {
        self.total = 0;
        self.count = 0;
    }
}

fn new_sum() -> CoreWrapper<Summing>
    ensures { result.core.count + length result.held ≡ 0 }
{
    CoreWrapper::from_core(Summing { total: 0, count: 0 })
}

fn are_digests_on_the_way() -> bool {
    let mut hash = new_sum();
    hash.update(&[1, 2, 3, 4, 5]);
    hash.update(&[6]);
    let mut digest = [0];
    hash.finalize_with(&[9], &mut digest);
    let is_with_tail = digest == [30];
    hash.finalize_into_reset(&mut digest);
    is_with_tail && digest == [21] && is_digest_after_reset(hash)
}

fn is_digest_after_reset(mut hash: CoreWrapper<Summing>) -> bool
    requires { hash.core.count + length hash.held ≡ 0 }
{
    let mut digest = [0];
    hash.update(&[7]);
    hash.finalize_into(&mut digest);
    digest == [7]
}

// The example of the crate's first page.
#[test]
fn digests_on_the_way_and_after_a_reset(rt: HostRuntime) {
    shows(&rt, are_digests_on_the_way());
}

fn is_der(id: &ObjectIdentifier, expected: &[u8]) -> bool {
    let mut out = [0xee; 41];
    let count = id.der(&mut out);
    &out[..count] == expected
}

// Whether `der` writes these bytes for the arcs.
fn has_der(arcs: &[u32], expected: &[u8]) -> bool {
    match ObjectIdentifier::from_arcs(arcs) {
        Ok(id) => is_der(&id, expected),
        Err(_) => false,
    }
}

fn are_octets_of_hashes() -> bool {
    let of_sha512 = [6, 9, 0x60, 0x86, 0x48, 1, 0x65, 3, 4, 2, 3];
    let of_sha256 = [6, 9, 0x60, 0x86, 0x48, 1, 0x65, 3, 4, 2, 1];
    is_der(&ObjectIdentifier::sha512(), &of_sha512)
        && has_der(&[2, 16, 840, 1, 101, 3, 4, 2, 1], &of_sha256)
}

fn are_octets_of_two_arcs() -> bool {
    has_der(&[0, 0], &[6, 1, 0])
        && has_der(&[0, 39], &[6, 1, 39])
        && has_der(&[1, 0], &[6, 1, 40])
        && has_der(&[1, 39], &[6, 1, 79])
        && has_der(&[2, 0], &[6, 1, 80])
}

fn are_octets_under_joint() -> bool {
    has_der(&[2, 40], &[6, 1, 120])
        && has_der(&[2, 47], &[6, 1, 127])
        && has_der(&[2, 48], &[6, 2, 0x81, 0])
        && has_der(&[2, u32::MAX], &[6, 5, 0x90, 0x80, 0x80, 0x80, 0x4f])
}

fn are_octets_of_third_arcs() -> bool {
    has_der(&[1, 2, 127], &[6, 2, 42, 127])
        && has_der(&[1, 2, 128], &[6, 3, 42, 0x81, 0])
        && has_der(&[1, 2, 16383], &[6, 3, 42, 0xff, 0x7f])
        && has_der(&[1, 2, 16384], &[6, 4, 42, 0x81, 0x80, 0])
        && has_der(&[1, 2, u32::MAX], &[6, 6, 42, 0x8f, 0xff, 0xff, 0xff, 0x7f])
}

// The identifiers of the two hashes, and arcs at the bounds.
#[test]
fn octets_of_object_identifiers(rt: HostRuntime) {
    shows(&rt, are_octets_of_hashes() && are_octets_of_two_arcs());
    shows(&rt, are_octets_under_joint() && are_octets_of_third_arcs());
}
