//! A key and a signature, set against each other.
ghost use Rattle.std.specs.Prelude.{◌≡◌, ◌+◌, ◌-◌, ◌*◌, ◌^◌, ◌<◌, ◌≤◌, length};
ghost use Rattle.slh_audit.specs.Evidence.{checked_at, dispute_on, own_at};
ghost use Rattle.slh_core.specs.Bytes.{joined, part};
ghost use Rattle.slh_core.specs.Parameters.{Scheme, scheme_of};
ghost use Rattle.slh_trees.specs.Checking.{forest_of, layers_of, signature_size};
ghost use Rattle.slh_trees.specs.MessageDigest.{split_digest as spec_split_digest};
ghost use Rattle.slh_merkle.specs.Checking.{fors_pk_from_sig};
ghost use Rattle.slh_merkle.specs.Fors.{fors_pk, fors_node as spec_fors_node};
ghost use Rattle.slh_merkle.specs.Hypertree.{layer_size, leaf_at, tree_at};

use slh_core::address::{ForsTree, WotsHash};
use slh_core::array::ArraySize;
use slh_core::equal_parts::{piece, put_part};
use slh_core::nbytes::NBytes;
use slh_core::params::{ForsSizes, MAX_ROOTS_LEN, forest_sizes, layer_sizes};
use slh_core::steps::Steps;
use slh_merkle::fors::{fors_node, fors_pk_from_sig, roots_len};
use slh_merkle::hypertree::{layer_len, next_place, tree_adrs_of};
use slh_merkle::xmss::{xmss_node, xmss_pk_from_sig};
use slh_trees::{SigView, split_digest};
use std::marker::Model;
use std::sync::ledger::Ledger;

// The suite and the sizes of a set, as proofs see them.
pub(crate) trait Sizes: ForsSizes {
    ghost scheme_now: { Scheme };
}

impl<P: ForsSizes> Sizes for P {
    ghost scheme_now = { scheme_of P.suite P.N.USIZE
        P.H_PRIME P.D P.A P.K };
}

/// The seeds of a key, the places that a message's digest names, and the two parts of a signature.
#[derive(Drop)]
pub(crate) struct Dispute<'a, P: ForsSizes> {
    pub(crate) sk_seed: NBytes<P::N>,
    pub(crate) pk_seed: NBytes<P::N>,
    pub(crate) keyed: P::Keyed,
    pub(crate) tree: u64,
    pub(crate) leaf: u32,
    pub(crate) md: &'a [u8],
    pub(crate) forest: &'a [u8],
    pub(crate) layers: &'a [u8],
}

impl<'a, P: ForsSizes> Model for Dispute<'a, P> {
    ghost use Rattle.std.specs.Prelude.{◌≡◌, ◌+◌, ◌-◌, ◌*◌, ◌^◌, ◌<◌, length};
    ghost use Rattle.slh_audit.specs.Evidence.{Parts};
    ghost use Rattle.slh_core.specs.Suite.{seeded};
    ghost use Rattle.slh_merkle.specs.Hypertree.{layer_size};

    ghost Value = { Parts };

    ghost view = { λ s. record {
      seed = s.pk_seed;
      sk = s.sk_seed;
      t = s.tree;
      l = s.leaf;
      md = s.md.now;
      forest = s.forest.now;
      layers = s.layers.now;
    } };

    ghost invariant = { λ s.
        (length s.md.now ≡ P.MD)
        × (length s.forest.now ≡ P.K * ((1 + P.A) * P.N.USIZE))
        × (length s.layers.now ≡ P.D * layer_size P.N.USIZE P.H_PRIME)
        × (s.tree < 2 ^ (P.H - P.H_PRIME))
        × (s.leaf < 2 ^ P.H_PRIME)
        × (P.keyed_suite s.keyed ≡ seeded P.suite P.N.USIZE s.pk_seed) };
}

/// Sets the seeds of a key and the bytes of a signature against each other, for a digest.
pub(crate) fn set_against<'a, P: ForsSizes>(
    sk_seed: &NBytes<P::N>,
    pk_seed: &NBytes<P::N>,
    digest: &'a [u8],
    sig: &SigView<'a, P>,
) -> Dispute<'a, P>
    requires { length digest.now ≡ P.M.USIZE }
    ensures whole { length sig.now ≡ signature_size P.scheme }
    ensures value { let parts = spec_split_digest P.scheme digest.now in
        result ≡ record {
          seed = pk_seed.now;
          sk = sk_seed.now;
          t = parts.tree;
          l = parts.leaf;
          md = parts.md;
          forest = forest_of P.scheme sig.now;
          layers = layers_of P.scheme sig.now;
        } }
{
    let (md, tree, leaf) = split_digest::<P>(digest);
    Dispute {
        sk_seed: sk_seed.copy(),
        pk_seed: pk_seed.copy(),
        keyed: P::keyed(pk_seed),
        tree,
        leaf,
        md,
        forest: sig.fors(),
        layers: sig.layers(),
    }
}

impl<'a, P: ForsSizes> Dispute<'a, P> {
    /// A layer's part of the signature.
    pub(crate) fn layer_sig(&self, layer: usize) -> &[u8]
        requires { layer < P.D }
        ensures value { result.now ≡ part (layer_size P.N.USIZE P.H_PRIME) self.now.layers layer }
        ensures len { length result.now ≡ layer_size P.N.USIZE P.H_PRIME }
    {
        layer_sizes::<P>();
        piece(self.layers, layer_len::<P>(), layer)
    }

    /// The forest's public key that the signature leads to.
    pub(crate) fn checked_key<L: Ledger>(&self, steps: &mut Steps<L>) -> NBytes<P::N>
        ensures { let Z = ⟦<P as Sizes>⟧.scheme_now in
            let D = dispute_on Z self.now in
            result ≡ fors_pk_from_sig D.K D.t D.l D.k D.a D.forest D.md }
    {
        let adrs = ForsTree::new(self.tree, self.leaf);
        fors_pk_from_sig::<P, L>(self.forest, self.md, &self.keyed, &adrs, steps)
    }

    /// The address of the key pair of a layer that signs.
    pub(crate) fn adrs_at(&self, layer: u32) -> WotsHash
        requires { layer < P.D }
        ensures value { result ≡ record {
          layer_adrs = layer;
          tree_adrs_low = tree_at P.H_PRIME self.now.t layer;
          key_pair_adrs = leaf_at P.H_PRIME self.now.t self.now.l layer;
          chain_adrs = 0;
          hash_adrs = 0;
        } }
        ensures leaf { result.key_pair_adrs < 2 ^ P.H_PRIME }
    {
        layer_sizes::<P>();
        let height = P::H_PRIME;
        let mut tree = self.tree;
        let mut leaf = self.leaf;
        for _ in 0..layer {
            (tree, leaf) = next_place(tree, height);
        }
        tree_adrs_of(layer, tree).at_key_pair(leaf)
    }

    /// The message that the signature leads to below a layer.
    pub(crate) fn checked_message<L: Ledger>(
        &self,
        layer: usize,
        steps: &mut Steps<L>,
    ) -> NBytes<P::N>
        requires { layer ≤ P.D }
        ensures { let Z = ⟦<P as Sizes>⟧.scheme_now in
            result ≡ checked_at (dispute_on Z self.now) layer }
    {
        layer_sizes::<P>();
        let mut message = self.checked_key::<L>(steps);
        for j in 0..layer {
            let adrs = self.adrs_at(j as u32);
            let sig = self.layer_sig(j);
            let leaf = adrs.key_pair_adrs;
            message = xmss_pk_from_sig::<P, L>(leaf, sig, &message, &self.keyed, &adrs, steps);
        }
        message
    }

    /// Writes the roots of the key's own forest.
    pub(crate) fn own_roots<L: Ledger>(&self, out: &mut [u8], steps: &mut Steps<L>)
        requires { length out.old ≡ P.K * P.N.USIZE }
        ensures { let Z = ⟦<P as Sizes>⟧.scheme_now in
            let D = dispute_on Z self.now in
            out.new ≡ joined (λ i. spec_fors_node D.K D.sk D.t D.l D.a i) D.k }
    {
        forest_sizes::<P>();
        let adrs = ForsTree::new(self.tree, self.leaf);
        let n = P::N::USIZE;
        let height = P::A;
        for i in 0..P::K {
            let index = i as u32;
            let root = fors_node::<P, L>(
                &self.sk_seed,
                index,
                height as u32,
                &self.keyed,
                &adrs,
                steps,
            );
            put_part(out, n, i, root.as_slice());
        }
    }

    /// The public key of the key's own forest.
    #[tactic(auto, unfolding(slh_merkle::specs::Fors::fors_pk))]
    pub(crate) fn own_key<L: Ledger>(&self, steps: &mut Steps<L>) -> NBytes<P::N>
        ensures { let Z = ⟦<P as Sizes>⟧.scheme_now in
            let D = dispute_on Z self.now in
            result ≡ fors_pk D.K D.sk D.t D.l D.k D.a }
    {
        let adrs = ForsTree::new(self.tree, self.leaf);
        let mut store = [0u8; MAX_ROOTS_LEN];
        let roots = &mut store[..roots_len::<P>()];
        self.own_roots::<L>(roots, steps);
        P::t(&self.keyed, &adrs.fors_roots(), roots, steps)
    }

    /// The message that the key signs on a layer.
    pub(crate) fn own_message<L: Ledger>(&self, layer: usize, steps: &mut Steps<L>) -> NBytes<P::N>
        requires { layer ≤ P.D }
        ensures { let Z = ⟦<P as Sizes>⟧.scheme_now in
            result ≡ own_at (dispute_on Z self.now) layer }
    {
        layer_sizes::<P>();
        if layer == 0 {
            return self.own_key::<L>(steps);
        }
        let adrs = self.adrs_at(layer as u32 - 1);
        let height = P::H_PRIME as u32;
        xmss_node::<P, L>(&self.sk_seed, 0, height, &self.keyed, &adrs, steps)
    }
}
