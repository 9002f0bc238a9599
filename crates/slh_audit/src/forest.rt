//! Whether evidence of the forest shows.
ghost use Rattle.std.specs.Prelude.{◌≡◌, ◌↔◌, ◌+◌, ◌-◌, ◌*◌, ◌/◌, ◌^◌, ◌<◌, ◌≤◌, length, take};
ghost use Rattle.std.specs.Prelude.{drop, slice_index, zero, IsTrue};
ghost use Rattle.slh_audit.specs.Evidence.{dispute_on, shows as spec_shows};
ghost use Rattle.slh_audit.specs.declared.evidence.Evidence.TheVariants.{ForsNode, ForsRoots};
ghost use Rattle.slh_core.specs.Bytes.{joined, part};
ghost use Rattle.slh_core.specs.Digits.{digits};
ghost use Rattle.slh_merkle.specs.Checking.{checked_fors_node};
ghost use Rattle.slh_merkle.specs.Fors.{fors_leaf, fors_node as spec_fors_node, leaf_index};

use crate::dispute::{Dispute, Sizes};
use crate::layer::{hashes_collide, nodes_collide, values_collide};
use slh_core::address::{ForsRoots as ForsRootsAddress, ForsTree};
use slh_core::array::ArraySize;
use slh_core::digits::base_2b;
use slh_core::equal_parts::{part_of, piece};
use slh_core::nbytes::NBytes;
use slh_core::params::{ForsSizes, MAX_FORS_TREES, MAX_ROOTS_LEN, chain_sizes, forest_sizes};
use slh_core::steps::Steps;
use slh_merkle::climb::root_from_auth_path;
use slh_merkle::fors::{climb_all, fors_node, fors_sk_gen, index_of, opened_len, roots_len};
use slh_merkle::node::{NodeAddress, sibling};
use std::sync::ledger::Ledger;

/// The index of the leaf that the digest names in a tree.
fn named_leaf<P: ForsSizes>(md: &[u8], tree: u32) -> u32
    requires tree { tree < P.K }
    requires digest { length md.now ≡ P.MD }
    ensures value { result ≡ leaf_index P.A (digits md.now P.A P.K) tree }
    ensures below { result < P.K * 2 ^ P.A }
{
    forest_sizes::<P>();
    let mut store = [0u16; MAX_FORS_TREES];
    let digits = &mut store[..P::K];
    base_2b(md, P::A as u32, digits);
    index_of::<P>(tree as usize, digits[tree as usize])
}

/// The secret that is opened in a tree and the siblings, in the forest's part of a signature.
fn opened_parts<P: ForsSizes>(sig: &[u8], tree: usize) -> (&[u8], &[u8])
    requires tree { tree < P.K }
    requires whole { length sig.now ≡ P.K * ((1 + P.A) * P.N.USIZE) }
    ensures secret { result.0.now ≡ take P.N.USIZE (part ((1 + P.A) * P.N.USIZE) sig.now tree) }
    ensures path { result.1.now ≡ drop P.N.USIZE (part ((1 + P.A) * P.N.USIZE) sig.now tree) }
    ensures secret_len { length result.0.now ≡ P.N.USIZE }
    ensures path_len { length result.1.now ≡ P.A * P.N.USIZE }
{
    forest_sizes::<P>();
    piece(sig, opened_len::<P>(), tree).split_at(P::N::USIZE)
}

/// The leaf of the key's own forest with an index.
#[tactic(auto, unfolding(slh_merkle::specs::Merkle::merkle))]
fn own_leaf<P: ForsSizes, L: Ledger>(
    sk_seed: &NBytes<P::N>,
    keyed: &P::Keyed,
    adrs: &ForsTree,
    y: u32,
    steps: &mut Steps<L>,
) -> NBytes<P::N>
    requires { y < P.K * 2 ^ P.A }
    ensures { let K = P.keyed_suite keyed.now in
        let a = adrs.now in
        result ≡ fors_leaf K sk_seed.now a.tree_adrs_low a.key_pair_adrs y }
{
    fors_node::<P, L>(sk_seed, y, 0, keyed, adrs, steps)
}

/// Writes the roots that the forest's part of a signature leads to.
fn checked_roots<P: ForsSizes, L: Ledger>(
    keyed: &P::Keyed,
    adrs: &ForsTree,
    sig: &[u8],
    md: &[u8],
    out: &mut [u8],
    steps: &mut Steps<L>,
)
    requires digest { length md.now ≡ P.MD }
    requires whole { length sig.now ≡ P.K * ((1 + P.A) * P.N.USIZE) }
    requires room { length out.old ≡ P.K * P.N.USIZE }
    ensures { let K = P.keyed_suite keyed.now in
        let t = adrs.now.tree_adrs_low in
        let l = adrs.now.key_pair_adrs in
        let a = P.A in
        let x = digits md.now a P.K in
        out.new ≡ joined (λ i. checked_fors_node K t l a sig.now x i a) P.K }
{
    forest_sizes::<P>();
    let mut store = [0u16; MAX_FORS_TREES];
    let digits = &mut store[..P::K];
    base_2b(md, P::A as u32, digits);
    climb_all::<P, L>(digits, sig, keyed, adrs, out, steps);
}

impl<'a, P: ForsSizes> Dispute<'a, P> {
    /// Whether the secret that is opened in a tree of the forest shows.
    fn fors_secret_shows<L: Ledger>(&self, tree: u32, steps: &mut Steps<L>) -> bool
        requires { tree < P.K }
        ensures { let Z = ⟦<P as Sizes>⟧.scheme_now in
            result ≡ spec_shows (dispute_on Z self.now) (ForsNode tree zero) }
    {
        chain_sizes::<P>();
        let adrs = ForsTree::new(self.tree, self.leaf);
        let y = named_leaf::<P>(self.md, tree);
        let (first, _) = opened_parts::<P>(self.forest, tree as usize);
        let secret = NBytes::<P::N>::exact(first);
        let leaf = P::f(&self.keyed, &adrs.at_node(0, y), &secret, steps);
        let own = fors_sk_gen::<P, L>(&self.sk_seed, &self.keyed, &adrs, y, steps);
        let own_leaf = own_leaf::<P, L>(&self.sk_seed, &self.keyed, &adrs, y, steps);
        values_collide(&secret, &own, &leaf, &own_leaf)
    }

    /// Whether the node at a height on the way up in a tree of the forest shows.
    fn fors_node_shows<L: Ledger>(&self, tree: u32, height: u32, steps: &mut Steps<L>) -> bool
        requires tree { tree < P.K }
        requires low { 1 ≤ height }
        requires high { height ≤ P.A }
        ensures { let Z = ⟦<P as Sizes>⟧.scheme_now in
            result ≡ spec_shows (dispute_on Z self.now) (ForsNode tree height) }
    {
        forest_sizes::<P>();
        let sk_seed = &self.sk_seed;
        let keyed = &self.keyed;
        let adrs = ForsTree::new(self.tree, self.leaf);
        let y = named_leaf::<P>(self.md, tree);
        let (first, path) = opened_parts::<P>(self.forest, tree as usize);
        let secret = NBytes::<P::N>::exact(first);
        let leaf = P::f(keyed, &adrs.at_node(0, y), &secret, steps);
        let z = height - 1;
        let low = z as usize;
        let below = root_from_auth_path::<P, ForsTree, L>(&leaf, y, low, path, keyed, &adrs, steps);
        let beside = part_of::<P::N>(path, low);
        let top = height as usize;
        let node = root_from_auth_path::<P, ForsTree, L>(&leaf, y, top, path, keyed, &adrs, steps);
        let own_below = fors_node::<P, L>(sk_seed, y >> z, z, keyed, &adrs, steps);
        let own_beside = fors_node::<P, L>(sk_seed, sibling(y >> z), z, keyed, &adrs, steps);
        let own_node = fors_node::<P, L>(sk_seed, y >> height, height, keyed, &adrs, steps);
        nodes_collide(&below, &own_below, &beside, &own_beside, &node, &own_node)
    }

    /// Whether the roots of the forest show.
    pub(crate) fn fors_roots_show<L: Ledger>(&self, steps: &mut Steps<L>) -> bool
        ensures { let Z = ⟦<P as Sizes>⟧.scheme_now in
            result ≡ spec_shows (dispute_on Z self.now) ForsRoots }
    {
        let adrs = ForsTree::new(self.tree, self.leaf);
        let mut own_store = [0u8; MAX_ROOTS_LEN];
        let own = &mut own_store[..roots_len::<P>()];
        self.own_roots::<L>(own, steps);
        let mut store = [0u8; MAX_ROOTS_LEN];
        let roots = &mut store[..roots_len::<P>()];
        checked_roots::<P, L>(&self.keyed, &adrs, self.forest, self.md, roots, steps);
        hashes_collide::<P, ForsRootsAddress, L>(&self.keyed, &adrs.fors_roots(), roots, own, steps)
    }

    /// Whether a secret or a node of a tree of the forest shows, for any numbers.
    pub(crate) fn any_fors_node_shows<L: Ledger>(
        &self,
        tree: u32,
        height: u32,
        steps: &mut Steps<L>,
    ) -> bool
        ensures { let Z = ⟦<P as Sizes>⟧.scheme_now in
            result ≡ spec_shows (dispute_on Z self.now) (ForsNode tree height) }
    {
        forest_sizes::<P>();
        if tree >= P::K as u32 {
            return false;
        }
        if height == 0 {
            return self.fors_secret_shows::<L>(tree, steps);
        }
        if height > P::A as u32 {
            return false;
        }
        self.fors_node_shows::<L>(tree, height, steps)
    }
}
