//! Laws of signatures, each the contract of a function that does nothing.
ghost use Rattle.std.specs.Prelude.{◌≡◌, ℕ, ◌+◌, ◌*◌, List, length};
ghost use Rattle.slh_core.specs.Bytes.{part};
ghost use Rattle.slh_trees.specs.Checking.{checked_root, digest_root, signature_size};
ghost use Rattle.slh_trees.specs.Keys.{top_root};
ghost use Rattle.slh_trees.specs.Signing.{digest_signature, signature_with};

use slh_core::params::ForsSizes;

/// The signature of a digest with any randomizer leads to the root of the key's top tree.
pub fn signature_leads_to_top<P: ForsSizes>()
    ensures { (s sk rand digest : List ℕ)
        → length rand ≡ P.N.USIZE
        → let sig = digest_signature P.scheme s sk rand digest in
        digest_root P.scheme s digest sig ≡ top_root P.scheme s sk }
{}

/// What a signing key makes of a message with any randomizer leads to the root of the key's top
/// tree, whatever root the key has.
pub fn made_leads_to_top<P: ForsSizes>()
    ensures { (key rand message : List ℕ)
        → length rand ≡ P.N.USIZE
        → let Z = P.scheme in
        let s = part Z.n key 2 in
        let sig = signature_with Z key rand message in
        checked_root Z s (part Z.n key 3) message sig ≡ top_root Z s (part Z.n key 0) }
{}

/// How many bytes a signature has, as the standard counts them: in values of n bytes.
pub fn signature_values<P: ForsSizes>()
    ensures { let forest = P.K * (1 + P.A) in
        let values = 1 + forest + P.H + P.D * P.WOTS_SIG_LEN in
        signature_size P.scheme ≡ values * P.N.USIZE }
{}
