//! The root of the top tree.
ghost use Rattle.std.specs.Prelude.{◌≡◌, ◌+◌};
ghost use Rattle.slh_core.specs.Costs.{slh_keygen_cost};
ghost use Rattle.slh_trees.specs.Keys.{top_root as spec_top_root};

use slh_core::address::WotsHash;
use slh_core::nbytes::NBytes;
use slh_core::params::{ForsSizes, layer_sizes};
use slh_core::steps::Steps;
use slh_merkle::xmss::xmss_node;
use std::sync::ledger::Ledger;

/// The root of the top tree of a key's seeds (FIPS 205, algorithm 18, line 3).
pub fn top_root<P: ForsSizes, L: Ledger>(
    sk_seed: &NBytes<P::N>,
    pk_seed: &NBytes<P::N>,
    steps: &mut Steps<L>,
) -> NBytes<P::N>
    ensures value { result ≡ spec_top_root P.scheme pk_seed.now sk_seed.now }
    ensures cost { steps.new ≡ steps.old + slh_keygen_cost P.scheme }
{
    layer_sizes::<P>();
    let keyed = P::keyed(pk_seed);
    let top = WotsHash {
        layer_adrs: P::D as u32 - 1,
        ..WotsHash::default()
    };
    xmss_node::<P, L>(sk_seed, 0, P::H_PRIME as u32, &keyed, &top, steps)
}
