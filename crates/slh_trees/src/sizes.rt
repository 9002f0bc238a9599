//! How many bytes a signature has.
ghost use Rattle.std.specs.Prelude.{◌≡◌};
ghost use Rattle.slh_trees.specs.Checking.{signature_size};

use slh_core::array::ArraySize;
use slh_core::params::{ForsSizes, forest_sizes, layer_sizes};
use slh_merkle::fors::forest_len;
use slh_merkle::hypertree::layer_len;

/// How many bytes a signature has (FIPS 205, table 2).
pub fn signature_len<P: ForsSizes>() -> usize
    ensures { result ≡ signature_size P.scheme }
{
    layer_sizes::<P>();
    forest_sizes::<P>();
    P::N::USIZE + forest_len::<P>() + P::D * layer_len::<P>()
}
