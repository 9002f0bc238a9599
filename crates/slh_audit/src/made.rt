//! How much of a signature is what the key makes.
ghost use Rattle.std.specs.Prelude.{◌≡◌, ◌↔◌, ◌+◌, ◌<◌, ◌≤◌, IsTrue};
ghost use Rattle.std.specs.Str.{bytes_eq};
ghost use Rattle.slh_audit.specs.Evidence.{IsOwnFrom, IsOwnLayer, checked_at, dispute_on, own_at};
ghost use Rattle.slh_merkle.specs.Fors.{fors_pk, fors_sig};

use crate::dispute::{Dispute, Sizes};
use crate::layer::same;
use slh_core::address::ForsTree;
use slh_core::nbytes::NBytes;
use slh_core::params::{ForsSizes, MAX_FORS_TREES, MAX_OPENED_LEN, layer_sizes};
use slh_core::steps::Steps;
use slh_merkle::fors::{forest_len, fors_sign_root};
use slh_merkle::hypertree::layer_len;
use slh_merkle::xmss::{xmss_pk_from_sig, xmss_sign_root};
use std::sync::ledger::Ledger;

// The most bytes of a layer's part, within what `layer_len` promises.
const MAX_LAYER_LEN: usize = 4096;

/// Whether two byte strings are the same, and two others too.
fn both_same(a: &[u8], b: &[u8], c: &[u8], d: &[u8]) -> bool
    ensures { IsTrue result ↔ ((a.now ≡ b.now) × (c.now ≡ d.now)) }
{
    a == b && c == d
}

impl<'a, P: ForsSizes> Dispute<'a, P> {
    /// Whether the forest's part is the one that the key makes, and the public key of the key's
    /// own forest.
    pub(crate) fn compare_forest<L: Ledger>(&self, steps: &mut Steps<L>) -> (bool, NBytes<P::N>)
        ensures made { let Z = ⟦<P as Sizes>⟧.scheme_now in
            let D = dispute_on Z self.now in
            result.0 ≡ bytes_eq D.forest (fors_sig D.K D.sk D.t D.l D.k D.a D.md) }
        ensures key { let Z = ⟦<P as Sizes>⟧.scheme_now in
            let D = dispute_on Z self.now in
            result.1 ≡ fors_pk D.K D.sk D.t D.l D.k D.a }
    {
        let mut store = [0u8; MAX_FORS_TREES * MAX_OPENED_LEN];
        let own = &mut store[..forest_len::<P>()];
        let sk_seed = &self.sk_seed;
        let keyed = &self.keyed;
        let adrs = ForsTree::new(self.tree, self.leaf);
        let key = fors_sign_root::<P, L>(self.md, sk_seed, keyed, &adrs, own, steps);
        (same(self.forest, own), key)
    }

    /// Takes the message that the check has on a layer and the key's own to the layer above.
    /// Answers whether the layer is the key's own, which spares its check.
    fn layer_up<L: Ledger>(
        &self,
        layer: u32,
        checked: &mut NBytes<P::N>,
        own: &mut NBytes<P::N>,
        steps: &mut Steps<L>,
    ) -> bool
        requires layer { layer < P.D }
        requires checked { let Z = ⟦<P as Sizes>⟧.scheme_now in
            checked.old ≡ checked_at (dispute_on Z self.now) layer }
        requires own { let Z = ⟦<P as Sizes>⟧.scheme_now in
            own.old ≡ own_at (dispute_on Z self.now) layer }
        ensures made { let Z = ⟦<P as Sizes>⟧.scheme_now in
            IsTrue result ↔ IsOwnLayer (dispute_on Z self.now) layer }
        ensures checked { let Z = ⟦<P as Sizes>⟧.scheme_now in
            checked.new ≡ checked_at (dispute_on Z self.now) (layer + 1) }
        ensures own { let Z = ⟦<P as Sizes>⟧.scheme_now in
            own.new ≡ own_at (dispute_on Z self.now) (layer + 1) }
    {
        layer_sizes::<P>();
        let mut store = [0u8; MAX_LAYER_LEN];
        let made = &mut store[..layer_len::<P>()];
        let sig = self.layer_sig(layer as usize);
        let adrs = self.adrs_at(layer);
        let leaf = adrs.key_pair_adrs;
        let sk_seed = &self.sk_seed;
        let keyed = &self.keyed;
        let root = xmss_sign_root::<P, L>(own, sk_seed, keyed, leaf, &adrs, made, steps);
        let is_own = both_same(checked.as_slice(), own.as_slice(), sig, made);
        *checked = if is_own {
            root.copy()
        } else {
            xmss_pk_from_sig::<P, L>(leaf, sig, checked, keyed, &adrs, steps)
        };
        *own = root;
        is_own
    }

    /// A layer from which on all layers are the key's own, given the public key of the key's own
    /// forest. Where no lower one would do, the layer below it isn't the key's own. It costs as
    /// much as signing, and a check of the layers that aren't the key's own.
    pub(crate) fn own_from<L: Ledger>(&self, key: &NBytes<P::N>, steps: &mut Steps<L>) -> u32
        requires key { let Z = ⟦<P as Sizes>⟧.scheme_now in
            let D = dispute_on Z self.now in
            key.now ≡ fors_pk D.K D.sk D.t D.l D.k D.a }
        ensures high { result ≤ P.D }
        ensures own { let Z = ⟦<P as Sizes>⟧.scheme_now in
            IsOwnFrom (dispute_on Z self.now) result }
    {
        layer_sizes::<P>();
        let mut checked = self.checked_key::<L>(steps);
        let mut own = key.copy();
        let mut lowest = 0;
        for layer in 0..P::D as u32 {
            if !self.layer_up::<L>(layer, &mut checked, &mut own, steps) {
                lowest = layer + 1;
            }
        }
        lowest
    }
}
