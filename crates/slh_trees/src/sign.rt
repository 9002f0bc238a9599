//! Signatures of digests.
ghost use Rattle.std.specs.Prelude.{◌≡◌, ◌≤◌, ◌+◌, ◌++◌, length};
ghost use Rattle.slh_core.specs.Costs.{slh_sign_cost};
ghost use Rattle.slh_trees.specs.Checking.{signature_size};
ghost use Rattle.slh_trees.specs.Signing.{digest_signature};

use crate::digest::split_digest;
use slh_core::address::ForsTree;
use slh_core::array::ArraySize;
use slh_core::nbytes::NBytes;
use slh_core::params::{ForsSizes, MAX_DIGEST_LEN, MAX_MESSAGE_LEN, forest_sizes, layer_sizes};
use slh_core::steps::Steps;
use slh_merkle::fors::{forest_len, fors_sign_root};
use slh_merkle::hypertree::ht_sign;
use std::sync::ledger::Ledger;

/// Writes the signature of a digest: the randomizer, the forest's part and the layers' parts
/// (FIPS 205, algorithm 19, from line 5 on).
pub fn sign_digest<P: ForsSizes, L: Ledger>(
    sk_seed: &NBytes<P::N>,
    pk_seed: &NBytes<P::N>,
    rand: &NBytes<P::N>,
    digest: &[u8],
    out: &mut [u8],
    steps: &mut Steps<L>,
)
    requires digest { length digest.now ≡ P.M.USIZE }
    requires room { length out.old ≡ signature_size P.scheme }
    ensures value { out.new
        ≡ digest_signature P.scheme pk_seed.now sk_seed.now rand.now digest.now }
    ensures cost { steps.new ≡ steps.old + slh_sign_cost P.scheme }
{
    layer_sizes::<P>();
    forest_sizes::<P>();
    let (md, tree, leaf) = split_digest::<P>(digest);
    let (first, rest) = out.split_at_mut(P::N::USIZE);
    let (forest, layers) = rest.split_at_mut(forest_len::<P>());
    first.copy_from_slice(rand.as_slice());
    let keyed = P::keyed(pk_seed);
    let adrs = ForsTree::new(tree, leaf);
    let key = fors_sign_root::<P, L>(md, sk_seed, &keyed, &adrs, forest, steps);
    ht_sign::<P, L>(&key, sk_seed, &keyed, tree, leaf, layers, steps);
}

/// Writes the signature of the message that the three slices joined are, by the parts of a key and
/// the n bytes of `opt_rand` (FIPS 205, algorithm 19).
pub fn sign_message<P: ForsSizes, L: Ledger>(
    sk_seed: &NBytes<P::N>,
    sk_prf: &NBytes<P::N>,
    pk_seed: &NBytes<P::N>,
    pk_root: &NBytes<P::N>,
    opt_rand: &NBytes<P::N>,
    head: &[u8],
    ctx: &[u8],
    msg: &[u8],
    out: &mut [u8],
    steps: &mut Steps<L>,
)
    requires message { length head.now + length ctx.now + length msg.now ≤ MAX_MESSAGE_LEN }
    requires room { length out.old ≡ signature_size P.scheme }
    ensures value { let Z = P.scheme in
        let message = head.now ++ ctx.now ++ msg.now in
        let rand = Z.suite.prf_msg sk_prf.now opt_rand.now message in
        let digest = Z.suite.h_msg rand pk_seed.now pk_root.now message in
        out.new ≡ digest_signature Z pk_seed.now sk_seed.now rand digest }
    ensures cost { steps.new ≡ steps.old + slh_sign_cost P.scheme }
{
    forest_sizes::<P>();
    let rand = P::prf_msg(sk_prf, opt_rand, head, ctx, msg);
    let mut store = [0u8; MAX_DIGEST_LEN];
    let digest = &mut store[..P::M::USIZE];
    P::h_msg(&rand, pk_seed, pk_root, head, ctx, msg, digest);
    sign_digest::<P, L>(sk_seed, pk_seed, &rand, digest, out, steps);
}
