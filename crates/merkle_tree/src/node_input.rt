//! What is hashed into a node.
ghost use Rattle.std.specs.Prelude.{◌≡◌};
ghost use Rattle.merkle_tree.specs.Climb.{node_input};

use crate::hashing::{DIGEST_LEN, TreeHash};
use std::marker::Model;

/// The two digests below a node. Clauses see what is hashed: the byte 1 and both.
#[derive(Drop)]
pub struct NodeInput {
    /// The digest on the left.
    pub left: [u8; DIGEST_LEN],
    /// The digest on the right.
    pub right: [u8; DIGEST_LEN],
}

impl Model for NodeInput {
    ghost use Rattle.std.specs.Prelude.{List, ℕ};
    ghost use Rattle.merkle_tree.specs.Tree.{pair_input};

    ghost Value = { List ℕ };

    ghost view = { λ s. pair_input s.left s.right };
}

/// What is hashed into the node above `x` and a sibling, which stands on the left or on the right.
pub(crate) fn input_of(left: bool, x: &[u8; DIGEST_LEN], sibling: &[u8; DIGEST_LEN]) -> NodeInput
    ensures { result ≡ node_input left x.now sibling.now }
{
    if left {
        NodeInput {
            left: *sibling,
            right: *x,
        }
    } else {
        NodeInput {
            left: *x,
            right: *sibling,
        }
    }
}

/// The digest of what is hashed into a node.
pub(crate) fn digest_of<H: TreeHash>(input: &NodeInput) -> [u8; DIGEST_LEN]
    ensures { result ≡ H.hash input.now }
{
    H::node(&input.left, &input.right)
}
