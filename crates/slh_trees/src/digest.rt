//! The parts of a message's digest.
ghost use Rattle.std.specs.Prelude.{◌≡◌, ◌+◌, ◌-◌, ◌*◌, ◌%◌, ◌^◌, ◌≤◌, ◌<◌, length};
ghost use Rattle.slh_core.specs.Bytes.{number_of};
ghost use Rattle.slh_core.specs.Parameters.{bytes_for};
ghost use Rattle.slh_trees.specs.MessageDigest.{digest_number, split_digest as spec_split_digest};

use slh_core::params::{ForsSizes, HypertreeSizes, forest_sizes, layer_sizes};

/// The number of a byte string, the highest byte first.
fn number(bytes: &[u8]) -> u64
    requires { length bytes.now ≤ 8 }
    ensures { result ≡ number_of bytes.now }
{
    let mut total = 0u64;
    for byte in bytes {
        total = total * 256 + u64::from(*byte);
    }
    total
}

/// The last bits of a number.
fn last_bits(value: u64, bits: usize) -> u64
    requires { bits ≤ 64 }
    ensures { result ≡ value % 2 ^ bits }
{
    if bits == 64 {
        value
    } else {
        value % (1 << bits)
    }
}

/// How many bytes hold that many bits.
#[inline]
fn bytes_of(bits: usize) -> usize
    requires { bits ≤ 64 }
    ensures { result ≡ bytes_for bits }
{
    bits.div_ceil(8)
}

/// The number of bytes of a digest from a place on, of which the last bits count.
#[tactic(auto, unfolding(crate::specs::MessageDigest::digest_number))]
fn number_at(digest: &[u8], from: usize, bits: usize) -> u64
    requires bits { bits ≤ 64 }
    requires fits { from + bytes_for bits ≤ length digest.now }
    ensures value { result ≡ digest_number digest.now from bits }
    ensures below { result < 2 ^ bits }
{
    let len = bytes_of(bits);
    last_bits(number(&digest[from..from + len]), bits)
}

/// How many bits of a digest name the tree of the lowest layer.
#[inline]
fn tree_bits<P: HypertreeSizes>() -> usize
    ensures value { result ≡ (P.D - 1) * P.H_PRIME }
    ensures rest { result ≡ P.H - P.H_PRIME }
    ensures small { result ≤ 64 }
{
    layer_sizes::<P>();
    P::H - P::H_PRIME
}

/// Cuts a digest into the bytes that name a leaf in each tree of the forest, the tree and the leaf
/// of the lowest layer (FIPS 205, algorithms 19 and 20).
pub fn split_digest<P: ForsSizes>(digest: &[u8]) -> (&[u8], u64, u32)
    requires { length digest.now ≡ P.M.USIZE }
    ensures md { result.0.now ≡ (spec_split_digest P.scheme digest.now).md }
    ensures tree { result.1 ≡ (spec_split_digest P.scheme digest.now).tree }
    ensures leaf { result.2 ≡ (spec_split_digest P.scheme digest.now).leaf }
    ensures md_len { length result.0.now ≡ P.MD }
    ensures tree_below { result.1 < 2 ^ (P.H - P.H_PRIME) }
    ensures leaf_below { result.2 < 2 ^ P.H_PRIME }
{
    layer_sizes::<P>();
    forest_sizes::<P>();
    let md = P::MD;
    let bits = tree_bits::<P>();
    let tree = number_at(digest, md, bits);
    let leaf = number_at(digest, md + bytes_of(bits), P::H_PRIME);
    (&digest[..md], tree, leaf as u32)
}
