//! Trees and paths of batches that another program computed.
use crate::digests::{has_digest, is_hex};
use crate::page_of_batches::{batch_of, sealed};
use crate::shown::shows_at;
use slh_batch::Sealed;
use slh_dsa::{Sha2_128f, Signature};
use std::alloc::Global;

const NUMBERS: [&[u8]; 9] = [
    b"\0\0", b"\0\x01", b"\0\x02", b"\0\x03", b"\0\x04", b"\0\x05", b"\0\x06", b"\0\x07", b"\0\x08",
];

// Of 1 to 9 messages, the numbers 0, 1 and so on in two bytes each: the root, and the SHA-256 of all
// receipts without their signatures, one after another. Python's hashlib computed them by the
// recursion that splits at the largest power of two: `examples/hostile_batches rows` prints them.
const ROWS: &str = "\
709e80c88487a2411e1ee4dfb9f22a861492d20c4765150c0c794abd70f8147c cd2662154e6d76b2b2b92e70c0cac3ccf534f9b74eb5b89819ec509083d00a50
319dd25400276a78b435a7c0f87afbdc29b3a8029915a385b6b302c932321e31 05241d22a45ee1856d5f0b1a29e97f12d73ff224ff3c9362b69a13c3d113e2de
f1b9f16464b7d5fd3c6907ba171d1e55a9ed16181e0a135f5e55c934c3cbe40a c10dacc4a8cc63cf7e93d07b3e7ee984bbde5fb58924441c64496231a415bae2
3c81285f889a395556e0be5aa2a184af5d962a80dc094ae43c43c7b26a00f7f4 e48ebafa3cc4f065b3c22d4d9cb70640fb82c8c854c6951b94370672540e8012
b116f9219e3b00af93fe3cf9753c27a2ca113a824168aa9f0667ff59d3b9d79c e78031e9542b0158ff77e2aa0141d625adfdbd08ad8255efd6ebeb5ede702679
7bf624e7c89fcf47a2afbb1c72074a62ab243f63e60b7d3d54713984d6fa2c2c 05928a2482a05f852e245acb5076437add484ce11b84d3f0a9d5bd0f07167a3c
e99dfbbaa8e26d67fcb87503fb6ae10d2f26e422e2121ab676f630e0595bbb95 fe0212468454c324548799f75463b0e52d0b98d10a56831d8d4018c56e215119
0a2a2c470619da672e872dc4b634e54df42f25b7b226baae9546db5ddfac09c7 e7ec86ad77dc6ba3bd07c5ee8d6da30fe66832fd581044a88b112bbf68025255
6e04d937f5bca59055c9230814fe88581fac63a28901f6a19e3657cfc9649ea0 0151dd333a97edbcfe76b333afc99e18efaf0d0c3413d4f7b6d8da757f79a2fe";

// All receipts without their signatures.
fn fronts(alloc: Global, batch: &Sealed<Sha2_128f>) -> Option<Vec<u8>> {
    let mut fronts = Vec::new(alloc);
    for i in 0..batch.len() as u32 {
        let receipt = batch.receipt(alloc, i).ok()?;
        let front = receipt.strip_suffix(batch.signature())?;
        fronts.extend_from_slice(front).ok()?;
    }
    Some(fronts)
}

// Whether a batch has its row.
fn has_row(alloc: Global, batch: &Sealed<Sha2_128f>, row: &str) -> Option<bool> {
    let (root, digest) = row.split_once(' ')?;
    Some(is_hex(batch.root(), root) && has_digest(&fronts(alloc, batch)?, digest))
}

// The batch of these messages, sealed by the signature of an earlier seal.
fn sealed_again(alloc: Global, messages: &[&[u8]]) -> Option<Sealed<Sha2_128f>> {
    let earlier = sealed(alloc, messages).ok()?;
    let signature = Signature::try_from(alloc, earlier.signature()).ok()?;
    batch_of(alloc, messages)
        .ok()?
        .with_signature(signature)
        .ok()
}

// Whether the batch of the numbers up to one has its row, each time that it is sealed.
fn have_row(alloc: Global, last: usize, row: &str) -> Option<bool> {
    let messages = NUMBERS.get(..=last)?;
    let first = sealed(alloc, messages).ok()?;
    let again = sealed_again(alloc, messages)?;
    Some(has_row(alloc, &first, row)? && has_row(alloc, &again, row)?)
}

#[test]
fn roots_and_receipts_are_those_of_another_program(rt: HostRuntime) {
    for (last, row) in ROWS.lines().enumerate() {
        shows_at(&rt, row, have_row(rt.alloc(), last, row) == Some(true));
    }
}
