//! Messages of a batch in pieces.
use crate::digests::is_hex;
use crate::shown::{shows, shows_at};
use slh_batch::{Batch, MessageHasher};
use std::alloc::Global;

// The SHA-256 of the byte 0 and the bytes 0 to 199, by Python's hashlib, and that of the byte 0.
const OF_BYTES: &str = "ecfafa5927ea4003f545cc406064624ac3771525039bde83b5a2d2ec253358ec";

const OF_NOTHING: &str = "6e340b9cffb37a989ca544e6bb780a2c78901d3fb33738768511a30617afa01d";

fn bytes() -> [u8; 200] {
    let mut bytes = [0u8; 200];
    for (i, byte) in bytes.iter_mut().enumerate() {
        *byte = (i % 256) as u8;
    }
    bytes
}

// The digest of the bytes in pieces of this length.
fn digest_by(len: usize) -> Option<[u8; 32]> {
    let mut hasher = MessageHasher::new();
    for piece in bytes().chunks(len.max(1)) {
        hasher.update(piece).ok()?;
    }
    Some(hasher.finish())
}

// Whether the bytes in pieces have the digest of another program, which a batch takes.
fn is_taken(alloc: Global, len: usize) -> Option<bool> {
    let digest = digest_by(len)?;
    let mut batch = Batch::new(alloc);
    batch.push_digest(&digest).ok()?;
    Some(is_hex(&digest, OF_BYTES) && batch.digests() == [digest].as_slice())
}

#[test]
fn digests_of_pieces_are_those_of_another_program(rt: HostRuntime) {
    shows(&rt, is_hex(&MessageHasher::default().finish(), OF_NOTHING));
    for len in [1, 63, 64, 200] {
        shows_at(&rt, len, is_taken(rt.alloc(), len) == Some(true));
    }
}
