//! The way up by the digests of a path or of a proof.
ghost use Rattle.std.specs.Prelude.{◌≡◌, length};
ghost use Rattle.merkle_tree.specs.Ascent.{climb_left, reaches};
ghost use Rattle.merkle_tree.specs.Climb.{climb_along, node_input};

use crate::hashing::{DIGEST_LEN, TreeHash};
use crate::node_input::{digest_of, input_of};
use crate::sides::Sides;

// The node above `x` and a sibling, which stands on the left or on the right.
fn parent<H: TreeHash>(
    left: bool,
    x: &[u8; DIGEST_LEN],
    sibling: &[u8; DIGEST_LEN],
) -> [u8; DIGEST_LEN]
    ensures { result ≡ H.hash (node_input left x.now sibling.now) }
{
    digest_of::<H>(&input_of(left, x, sibling))
}

/// The root that a path leads to from a leaf.
pub(crate) fn climb<H: TreeHash>(
    leaf: &[u8; DIGEST_LEN],
    sides: &Sides,
    path: &[[u8; DIGEST_LEN]],
) -> [u8; DIGEST_LEN]
    requires { length path.now ≡ length sides.now }
    ensures { result ≡ climb_along H.hash leaf.now sides.now path.now }
{
    let mut node = *leaf;
    'each_sibling: for (h, sibling) in path.iter().enumerate() {
        node = parent::<H>(sides.is_left(h), &node, sibling);
    }
    node
}

// The old root that a proof leads to, which goes by the siblings on the left alone, and the new.
fn climb_both<H: TreeHash>(
    seed: &[u8; DIGEST_LEN],
    sides: &Sides,
    path: &[[u8; DIGEST_LEN]],
) -> ([u8; DIGEST_LEN], [u8; DIGEST_LEN])
    requires { length path.now ≡ length sides.now }
    ensures old_root { result.0 ≡ climb_left H.hash seed.now sides.now path.now }
    ensures new_root { result.1 ≡ climb_along H.hash seed.now sides.now path.now }
{
    let (mut first, mut second) = (*seed, *seed);
    'each_sibling: for (h, sibling) in path.iter().enumerate() {
        let left = sides.is_left(h);
        if left {
            first = H::node(sibling, &first);
        }
        second = parent::<H>(left, &second, sibling);
    }
    (first, second)
}

/// Whether the way up has a digest for each side, and leads to both roots.
pub(crate) fn reaches<H: TreeHash>(
    seed: &[u8; DIGEST_LEN],
    sides: &Sides,
    path: &[[u8; DIGEST_LEN]],
    old_root: &[u8; DIGEST_LEN],
    new_root: &[u8; DIGEST_LEN],
) -> bool
    ensures { result ≡ reaches H.hash seed.now sides.now path.now old_root.now new_root.now }
{
    if path.len() != sides.len() {
        return false;
    }
    let (first, second) = climb_both::<H>(seed, sides, path);
    first == *old_root && second == *new_root
}
