//! The way from a leaf to the root of its tree.
ghost use Rattle.std.specs.Prelude.{◌≡◌, ◌+◌, ◌*◌, ◌≤◌, length};
ghost use Rattle.slh_merkle.specs.Merkle.{climb as spec_climb};

use crate::node::{NodeAddress, parent};
use slh_core::equal_parts::part_of;
use slh_core::nbytes::NBytes;
use slh_core::params::{WotsSizes, chain_sizes};
use slh_core::steps::Steps;
use std::sync::ledger::Ledger;

/// The node some heights above `leaf`, whose index is `idx`, by the siblings of a path.
#[tactic(auto, unfolding(crate::specs::Merkle::climb))]
pub fn root_from_auth_path<P: WotsSizes, A: NodeAddress + Drop, L: Ledger>(
    leaf: &NBytes<P::N>,
    idx: u32,
    heights: usize,
    path: &[u8],
    keyed: &P::Keyed,
    adrs: &A,
    steps: &mut Steps<L>,
) -> NBytes<P::N>
    requires few { heights ≤ 31 }
    requires enough { heights * P.N.USIZE ≤ length path.now }
    ensures value { let K = P.keyed_suite keyed.now in
        result ≡ spec_climb K (A.place adrs.now) leaf.now idx path.now heights }
    ensures cost { steps.new ≡ steps.old + heights }
{
    chain_sizes::<P>();
    let mut node = leaf.copy();
    for z in 0..heights {
        let beside = part_of::<P::N>(path, z);
        let height = z as u32 + 1;
        let index = idx >> height;
        node = if (idx >> z) % 2 == 0 {
            parent::<P, A, L>(&node, &beside, height, index, keyed, adrs, steps)
        } else {
            parent::<P, A, L>(&beside, &node, height, index, keyed, adrs, steps)
        };
    }
    node
}
