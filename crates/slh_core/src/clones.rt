//! Clones and equality of values, as the contracts of functions that do nothing else.
ghost use Rattle.std.specs.Prelude.{◌≡◌, ◌+◌, ◌<◌};

use crate::address::{ForsPrf, ForsRoots, ForsTree, HashTree, WotsHash, WotsPk, WotsPrf};
use crate::nbytes::NBytes;
use hybrid_array::ArraySize;

/// A clone of an address of a key pair of WOTS+ is that address, and can't fail.
pub fn clones_of_wots_addresses(
    hash: &WotsHash,
    pk: &WotsPk,
    prf: &WotsPrf,
) -> (WotsHash, WotsPk, WotsPrf)
    ensures hash { result.0 ≡ hash.now }
    ensures pk { result.1 ≡ pk.now }
    ensures prf { result.2 ≡ prf.now }
{
    (
        hash.clone().unwrap(),
        pk.clone().unwrap(),
        prf.clone().unwrap(),
    )
}

/// A clone of an address of a forest is that address, and can't fail.
pub fn clones_of_fors_addresses(
    tree: &ForsTree,
    roots: &ForsRoots,
    prf: &ForsPrf,
) -> (ForsTree, ForsRoots, ForsPrf)
    ensures tree { result.0 ≡ tree.now }
    ensures roots { result.1 ≡ roots.now }
    ensures prf { result.2 ≡ prf.now }
{
    (
        tree.clone().unwrap(),
        roots.clone().unwrap(),
        prf.clone().unwrap(),
    )
}

/// A clone of an address of a tree is that address, and can't fail.
pub fn clone_of_tree_addresses(adrs: &HashTree) -> HashTree
    ensures { result ≡ adrs.now }
{
    adrs.clone().unwrap()
}

/// A clone of n bytes is those bytes, and can't fail.
pub fn clone_of_bytes<N: ArraySize>(bytes: &NBytes<N>) -> NBytes<N>
    ensures { result ≡ bytes.now }
{
    bytes.clone().unwrap()
}
