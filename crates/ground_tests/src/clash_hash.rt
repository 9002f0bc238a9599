//! A hash function with clashes that are known: the digest tells the second byte alone.
use merkle_tree::{DIGEST_LEN, TreeHash};

/// 32 times the second byte of what is hashed: the first of an entry, or of the digest on the left
/// of a node.
#[derive(Drop)]
pub struct ByteHash;

impl TreeHash for ByteHash {
    ghost use Rattle.ground_tests.specs.ByteHash.{byte_hash};

    ghost hash = { byte_hash };

    fn leaf(entry: &[u8]) -> [u8; DIGEST_LEN] {
        if entry.is_empty() {
            return [0; DIGEST_LEN];
        }
        [entry[0]; DIGEST_LEN]
    }

    fn node(left: &[u8; DIGEST_LEN], _right: &[u8; DIGEST_LEN]) -> [u8; DIGEST_LEN] {
        [left[0]; DIGEST_LEN]
    }

    fn empty() -> [u8; DIGEST_LEN] {
        [0; DIGEST_LEN]
    }
}
