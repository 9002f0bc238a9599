//! A store that keeps the digests alone.
ghost use Rattle.std.specs.Prelude.{true};

use crate::nodes::Nodes;
use merkle_tree::{DIGEST_LEN, TreeHash, root_of};

/// The digests of a tree, from which the root over a run is made anew each time.
#[derive(Drop)]
pub struct Leaves<'a> {
    /// Of 32 bytes each, in the order of the leaves.
    pub digests: &'a [[u8; DIGEST_LEN]],
}

impl<'a, H: TreeHash> Nodes<H> for Leaves<'a> {
    ghost tells = { true };

    ghost gives = { λ _ _ _. true };

    ghost digests = { λ s. s.digests.now };

    fn node(&self, level: u32, index: u64) -> Option<[u8; DIGEST_LEN]> {
        let len = 2u64.pow(level) as usize;
        let start = index as usize * len;
        Some(root_of::<H>(&self.digests[start..start + len]))
    }
}
