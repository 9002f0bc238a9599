//! The nodes of trees: their addresses, and the hash of two children.
ghost use Rattle.std.specs.Prelude.{◌≡◌, ℕ, ◌+◌, ◌^◌, ◌<◌};
ghost use Rattle.slh_merkle.specs.Fors.{fors_place};
ghost use Rattle.slh_merkle.specs.Merkle.{Place, node_bytes, sibling_of};
ghost use Rattle.slh_merkle.specs.Xmss.{tree_place};

use slh_core::address::{ForsTree, HashTree, RowAddress};
use slh_core::nbytes::NBytes;
use slh_core::params::WotsSizes;
use slh_core::steps::Steps;
use std::sync::ledger::Ledger;

/// The address of a node of a tree.
pub trait NodeAddress: RowAddress {
    ghost place: { Self → Place };

    /// The address of another node of the same tree. The nodes of its height are a row.
    fn at_node(&self, height: u32, index: u32) -> Self
        ensures bytes { Self.bytes result ≡ node_bytes (place self.now) height index }
        ensures row { (i : ℕ) → Self.numbered result i ≡ node_bytes (place self.now) height i };
}

impl NodeAddress for ForsTree {
    ghost place = { λ a. fors_place a.tree_adrs_low a.key_pair_adrs };

    #[inline]
    fn at_node(&self, height: u32, index: u32) -> ForsTree {
        ForsTree {
            tree_adrs_low: self.tree_adrs_low,
            key_pair_adrs: self.key_pair_adrs,
            tree_height: height,
            tree_index: index,
        }
    }
}

impl NodeAddress for HashTree {
    ghost place = { λ a. tree_place a.layer_adrs a.tree_adrs_low };

    #[inline]
    fn at_node(&self, height: u32, index: u32) -> HashTree {
        HashTree {
            layer_adrs: self.layer_adrs,
            tree_adrs_low: self.tree_adrs_low,
            tree_height: height,
            tree_index: index,
        }
    }
}

/// The index of the other child of the same node.
#[inline]
pub fn sibling(index: u32) -> u32
    requires { index + 1 < 2 ^ 32 }
    ensures { result ≡ sibling_of index }
{
    if index % 2 == 0 { index + 1 } else { index - 1 }
}

/// The node with an index at a height, from its left and its right child.
#[inline]
pub(crate) fn parent<P: WotsSizes, A: NodeAddress + Drop, L: Ledger>(
    left: &NBytes<P::N>,
    right: &NBytes<P::N>,
    height: u32,
    index: u32,
    keyed: &P::Keyed,
    adrs: &A,
    steps: &mut Steps<L>,
) -> NBytes<P::N>
    ensures value { let K = P.keyed_suite keyed.now in
        let at = node_bytes (A.place adrs.now) height index in
        result ≡ K.suite.h K.seed at left.now right.now }
    ensures cost { steps.new ≡ steps.old + 1 }
{
    P::h(keyed, &adrs.at_node(height, index), left, right, steps)
}
