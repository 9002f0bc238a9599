//! The hash function of a tree.
ghost use Rattle.std.specs.Prelude.{◌≡◌, ◌≤◌, ◌^◌, length};
ghost use Rattle.sha256_lanes.specs.Sha256.{sha256};
ghost use Rattle.merkle_tree.specs.Hashes.{HashFunction};
ghost use Rattle.merkle_tree.specs.Tree.{empty_root, leaf_hash, node_hash};

use hmac_sha256::Hash;

/// How many bytes a digest has.
pub const DIGEST_LEN: usize = 32;

/// A hash function whose digests have 32 bytes, as a tree needs it (RFC 9162, 2.1.1).
pub trait TreeHash {
    /// The digest of a byte string.
    ghost hash: { HashFunction };

    /// The digest of an entry, that of the byte 0 and the entry.
    fn leaf(entry: &[u8]) -> [u8; DIGEST_LEN]
        requires { length entry.now ≤ 2 ^ 60 }
        ensures { result ≡ leaf_hash hash entry.now };

    /// The digest of a node, that of the byte 1 and the two digests below it.
    fn node(left: &[u8; DIGEST_LEN], right: &[u8; DIGEST_LEN]) -> [u8; DIGEST_LEN]
        ensures { result ≡ node_hash hash left.now right.now };

    /// The root over no digests, the digest of no bytes.
    fn empty() -> [u8; DIGEST_LEN]
        ensures { result ≡ empty_root hash };
}

/// SHA-256 (FIPS 180-4), the hash function of RFC 9162's trees.
#[derive(Drop)]
pub struct Sha256;

impl TreeHash for Sha256 {
    ghost hash = { sha256 };

    fn leaf(entry: &[u8]) -> [u8; DIGEST_LEN] {
        let mut hash = Hash::new();
        hash.update(&[0]);
        hash.update(entry);
        hash.finalize()
    }

    fn node(left: &[u8; DIGEST_LEN], right: &[u8; DIGEST_LEN]) -> [u8; DIGEST_LEN] {
        let mut hash = Hash::new();
        hash.update(&[1]);
        hash.update(left);
        hash.update(right);
        hash.finalize()
    }

    fn empty() -> [u8; DIGEST_LEN] {
        Hash::new().finalize()
    }
}
