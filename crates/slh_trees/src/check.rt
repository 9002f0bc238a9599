//! What a signature leads to.
ghost use Rattle.std.specs.Prelude.{◌≡◌, ◌+◌, ◌≤◌, ◌++◌, length, take};
ghost use Rattle.slh_core.specs.Costs.{slh_verify_bound};
ghost use Rattle.slh_trees.specs.Checking.{checked_root, digest_root};

use crate::digest::split_digest;
use crate::sig_view::SigView;
use slh_core::address::ForsTree;
use slh_core::array::ArraySize;
use slh_core::nbytes::NBytes;
use slh_core::params::{ForsSizes, MAX_DIGEST_LEN, MAX_MESSAGE_LEN, forest_sizes, layer_sizes};
use slh_core::steps::Steps;
use slh_merkle::fors::fors_pk_from_sig;
use slh_merkle::hypertree::ht_root;
use std::sync::ledger::Ledger;

/// The root that the bytes of a signature lead to, for a digest.
pub fn root_for_digest<P: ForsSizes, L: Ledger>(
    pk_seed: &NBytes<P::N>,
    digest: &[u8],
    sig: &SigView<'_, P>,
    steps: &mut Steps<L>,
) -> NBytes<P::N>
    requires { length digest.now ≡ P.M.USIZE }
    ensures value { result ≡ digest_root P.scheme pk_seed.now digest.now sig.now }
    ensures bound { steps.new ≤ steps.old + slh_verify_bound P.scheme }
    ensures rises { steps.old ≤ steps.new }
{
    layer_sizes::<P>();
    forest_sizes::<P>();
    let (md, tree, leaf) = split_digest::<P>(digest);
    let keyed = P::keyed(pk_seed);
    let adrs = ForsTree::new(tree, leaf);
    let key = fors_pk_from_sig::<P, L>(sig.fors(), md, &keyed, &adrs, steps);
    ht_root::<P, L>(&key, sig.layers(), &keyed, tree, leaf, steps)
}

/// Writes the digest of the message that the three slices joined are, by the randomizer of a
/// signature (FIPS 205, algorithm 20).
pub fn write_digest<P: ForsSizes>(
    pk_seed: &NBytes<P::N>,
    pk_root: &NBytes<P::N>,
    head: &[u8],
    ctx: &[u8],
    msg: &[u8],
    sig: &SigView<'_, P>,
    out: &mut [u8],
)
    requires message { length head.now + length ctx.now + length msg.now ≤ MAX_MESSAGE_LEN }
    requires room { length out.old ≡ P.M.USIZE }
    ensures { let message = head.now ++ ctx.now ++ msg.now in
        out.new ≡ P.scheme.suite.h_msg (take P.scheme.n sig.now) pk_seed.now pk_root.now message }
{
    forest_sizes::<P>();
    let rand = NBytes::<P::N>::from_view(sig.randomizer());
    P::h_msg(&rand, pk_seed, pk_root, head, ctx, msg, out);
}

/// The root that the bytes of a signature lead to, for the message that the three slices joined are
/// (FIPS 205, algorithm 20). The signature is valid where it is the key's root.
pub fn check_root<P: ForsSizes, L: Ledger>(
    pk_seed: &NBytes<P::N>,
    pk_root: &NBytes<P::N>,
    head: &[u8],
    ctx: &[u8],
    msg: &[u8],
    sig: &SigView<'_, P>,
    steps: &mut Steps<L>,
) -> NBytes<P::N>
    requires { length head.now + length ctx.now + length msg.now ≤ MAX_MESSAGE_LEN }
    ensures value { let message = head.now ++ ctx.now ++ msg.now in
        result ≡ checked_root P.scheme pk_seed.now pk_root.now message sig.now }
    ensures bound { steps.new ≤ steps.old + slh_verify_bound P.scheme }
    ensures rises { steps.old ≤ steps.new }
{
    forest_sizes::<P>();
    let mut store = [0u8; MAX_DIGEST_LEN];
    let digest = &mut store[..P::M::USIZE];
    write_digest::<P>(pk_seed, pk_root, head, ctx, msg, sig, digest);
    root_for_digest::<P, L>(pk_seed, digest, sig, steps)
}
