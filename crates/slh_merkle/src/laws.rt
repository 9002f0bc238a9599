//! Laws of trees, layers and forests, each the contract of a function that does nothing.
ghost use Rattle.std.specs.Prelude.{◌≡◌, ℕ, suc, ◌/◌, ◌*◌, ◌^◌, ◌<◌, ◌≤◌, List};
ghost use Rattle.slh_core.specs.Wots.{wots_pk};
ghost use Rattle.slh_core.specs.Suite.{seeded};
ghost use Rattle.slh_merkle.specs.Checking.{fors_pk_from_sig, checked_message, checked_node};
ghost use Rattle.slh_merkle.specs.Fors.{fors_pk, fors_sig};
ghost use Rattle.slh_merkle.specs.Hypertree.{ht_sig, layer_message};
ghost use Rattle.slh_merkle.specs.Merkle.{climb};
ghost use Rattle.slh_merkle.specs.Xmss.{tree_place, xmss_node, auth_path, xmss_sig};

pub use slh_core::laws::{chain_continues, digits_are_incomparable, signature_leads_to_leaf};
use slh_core::params::{ForsSizes, HypertreeSizes, XmssSizes};

/// A leaf of a tree and the siblings on the way up from it lead to the tree's root.
pub fn path_leads_to_root<P: XmssSizes>()
    ensures { (s sk : List ℕ) (j t y : ℕ)
        → y < 2 ^ P.H_PRIME
        → let K = seeded P.suite P.N.USIZE s in
        let hp = P.H_PRIME in
        let path = auth_path K sk j t y hp in
        climb K (tree_place j t) (wots_pk K sk j t y) y path hp ≡ xmss_node K sk j t hp 0 }
{}

/// The signature of a message under a leaf of a tree leads to the tree's root.
pub fn signature_leads_to_root<P: XmssSizes>()
    ensures { (s sk m : List ℕ) (j t y : ℕ)
        → y < 2 ^ P.H_PRIME
        → let K = seeded P.suite P.N.USIZE s in
        let hp = P.H_PRIME in
        checked_node K j t y (xmss_sig K sk j t y m hp) m hp ≡ xmss_node K sk j t hp 0 }
{}

/// What the layers of a signature lead to, below any layer, is the message that this layer signs,
/// and that is the root of the tree below.
pub fn layers_sign_roots<P: HypertreeSizes>()
    ensures below { (s sk m : List ℕ) (t l d j : ℕ)
        → l < 2 ^ P.H_PRIME
        → j ≤ d
        → let K = seeded P.suite P.N.USIZE s in
        let hp = P.H_PRIME in
        let sig = ht_sig K hp sk t l m d in
        checked_message K hp t l sig m j ≡ layer_message K hp sk t l m j }
    ensures root { (s sk m : List ℕ) (t l j : ℕ)
        → let K = seeded P.suite P.N.USIZE s in
        let hp = P.H_PRIME in
        layer_message K hp sk t l m (suc j) ≡ xmss_node K sk j (t / 2 ^ (j * hp)) hp 0 }
{}

/// The signature of the digest's first part leads to the forest's own public key.
pub fn forest_leads_to_key<P: ForsSizes>()
    ensures { (s sk md : List ℕ) (t l : ℕ)
        → let K = seeded P.suite P.N.USIZE s in
        let k = P.K in
        let a = P.A in
        let sig = fors_sig K sk t l k a md in
        fors_pk_from_sig K t l k a sig md ≡ fors_pk K sk t l k a }
{}
