//! The search for the first evidence that shows.
ghost use Rattle.std.specs.Prelude.{◌≡◌, ◌<◌, ◌≤◌};
ghost use Rattle.std.specs.List.{find};
ghost use Rattle.slh_audit.specs.Evidence.{shows as spec_shows, dispute_on, own_at};
ghost use Rattle.slh_audit.specs.Evidence.{IsOwnFrom};
ghost use Rattle.slh_audit.specs.Places.{in_turn, tree_node_places, chain_places, layer_places};
ghost use Rattle.slh_audit.specs.Places.{all_layers_places, fors_tree_places, forest_places};
ghost use Rattle.slh_audit.specs.Places.{first_evidence as spec_first_evidence};
ghost use Rattle.slh_core.specs.Parameters.{chain_count};

use crate::dispute::{Dispute, Sizes};
use crate::evidence::Evidence;
use crate::layer::LayerCheck;
use slh_core::nbytes::NBytes;
use slh_core::params::{ForsSizes, forest_sizes, layer_sizes};
use slh_core::steps::Steps;
use std::sync::ledger::Ledger;

impl<'s, 'a, P: ForsSizes> LayerCheck<'s, 'a, P> {
    /// The first node of the layer's tree that shows.
    fn first_tree_node<L: Ledger>(&self, steps: &mut Steps<L>) -> Option<Evidence>
        ensures { let Z = ⟦<P as Sizes>⟧.scheme_now in
            let D = dispute_on Z self.now.dispute.now in
            result ≡ find (spec_shows D) (tree_node_places D.hp self.now.adrs.layer_adrs) }
    {
        layer_sizes::<P>();
        let top = P::H_PRIME as u32;
        let layer = self.adrs.layer_adrs;
        for down in 0..top {
            let height = top - down;
            if self.tree_node_shows::<L>(height, steps) {
                return Some(Evidence::TreeNode { layer, height });
            }
        }
        None
    }

    /// The first evidence of a chain that shows, where `own` is the message that the key signs on
    /// the layer.
    fn first_in_chain<L: Ledger>(
        &self,
        own: &NBytes<P::N>,
        chain: u32,
        steps: &mut Steps<L>,
    ) -> Option<Evidence>
        requires chain { chain < P.WOTS_SIG_LEN }
        requires own { let Z = ⟦<P as Sizes>⟧.scheme_now in
            own.now ≡ own_at (dispute_on Z self.now.dispute.now) self.now.adrs.layer_adrs }
        ensures { let Z = ⟦<P as Sizes>⟧.scheme_now in
            let D = dispute_on Z self.now.dispute.now in
            result ≡ find (spec_shows D) (chain_places self.now.adrs.layer_adrs chain) }
    {
        let layer = self.adrs.layer_adrs;
        for down in 0..15u32 {
            let step = 14 - down;
            if self.chain_step_shows::<L>(chain, step, steps) {
                return Some(Evidence::ChainStep { layer, chain, step });
            }
        }
        if self.early_shows::<L>(own, chain, steps) {
            return Some(Evidence::Early { layer, chain });
        }
        None
    }

    /// The first evidence of the layer's chains that shows.
    fn first_in_chains<L: Ledger>(
        &self,
        own: &NBytes<P::N>,
        steps: &mut Steps<L>,
    ) -> Option<Evidence>
        requires { let Z = ⟦<P as Sizes>⟧.scheme_now in
            own.now ≡ own_at (dispute_on Z self.now.dispute.now) self.now.adrs.layer_adrs }
        ensures { let Z = ⟦<P as Sizes>⟧.scheme_now in
            let D = dispute_on Z self.now.dispute.now in
            let layer = self.now.adrs.layer_adrs in
            result ≡ find (spec_shows D) (in_turn (chain_places layer) (chain_count D.K.n)) }
    {
        layer_sizes::<P>();
        let len = P::WOTS_SIG_LEN as u32;
        for chain in 0..len {
            let found = self.first_in_chain::<L>(own, chain, steps);
            if found.is_some() {
                return found;
            }
        }
        None
    }
}

impl<'a, P: ForsSizes> Dispute<'a, P> {
    /// The first evidence of a layer that shows.
    fn first_in_layer<L: Ledger>(&self, layer: u32, steps: &mut Steps<L>) -> Option<Evidence>
        requires layer { layer < P.D }
        ensures { let Z = ⟦<P as Sizes>⟧.scheme_now in
            let D = dispute_on Z self.now in
            result ≡ find (spec_shows D) (layer_places D.hp (chain_count D.K.n) layer) }
    {
        let check = &self.layer_check::<L>(layer, steps);
        let found = check.first_tree_node::<L>(steps);
        if found.is_some() {
            return found;
        }
        if check.leaf_shows::<L>(steps) {
            return Some(Evidence::Leaf { layer });
        }
        let own = self.own_message::<L>(layer as usize, steps);
        check.first_in_chains::<L>(&own, steps)
    }

    /// The first evidence of all layers that shows, where the layers from a lowest one on are the
    /// key's own: nothing shows on them.
    fn first_in_layers<L: Ledger>(&self, lowest: u32, steps: &mut Steps<L>) -> Option<Evidence>
        requires lowest { lowest ≤ P.D }
        requires own { let Z = ⟦<P as Sizes>⟧.scheme_now in
            IsOwnFrom (dispute_on Z self.now) lowest }
        ensures { let Z = ⟦<P as Sizes>⟧.scheme_now in
            let D = dispute_on Z self.now in
            result ≡ find (spec_shows D) (all_layers_places D) }
    {
        layer_sizes::<P>();
        let count = P::D as u32;
        for down in count - lowest..count {
            let found = self.first_in_layer::<L>(count - 1 - down, steps);
            if found.is_some() {
                return found;
            }
        }
        None
    }

    /// The first evidence of a tree of the forest that shows.
    fn first_in_fors_tree<L: Ledger>(&self, tree: u32, steps: &mut Steps<L>) -> Option<Evidence>
        requires tree { tree < P.K }
        ensures { let Z = ⟦<P as Sizes>⟧.scheme_now in
            let D = dispute_on Z self.now in
            result ≡ find (spec_shows D) (fors_tree_places D.a tree) }
    {
        forest_sizes::<P>();
        let top = P::A as u32;
        for down in 0..top + 1 {
            let height = top - down;
            if self.any_fors_node_shows::<L>(tree, height, steps) {
                return Some(Evidence::ForsNode { tree, height });
            }
        }
        None
    }

    /// The first evidence of the forest that shows.
    fn first_in_forest<L: Ledger>(&self, steps: &mut Steps<L>) -> Option<Evidence>
        ensures { let Z = ⟦<P as Sizes>⟧.scheme_now in
            let D = dispute_on Z self.now in
            result ≡ find (spec_shows D) (forest_places D.a D.k) }
    {
        forest_sizes::<P>();
        if self.fors_roots_show::<L>(steps) {
            return Some(Evidence::ForsRoots);
        }
        let count = P::K as u32;
        for tree in 0..count {
            let found = self.first_in_fors_tree::<L>(tree, steps);
            if found.is_some() {
                return found;
            }
        }
        None
    }

    /// The first evidence that shows, where the layers from a lowest one on are the key's own.
    pub(crate) fn first_evidence<L: Ledger>(
        &self,
        lowest: u32,
        steps: &mut Steps<L>,
    ) -> Option<Evidence>
        requires lowest { lowest ≤ P.D }
        requires own { let Z = ⟦<P as Sizes>⟧.scheme_now in
            IsOwnFrom (dispute_on Z self.now) lowest }
        ensures { let Z = ⟦<P as Sizes>⟧.scheme_now in
            result ≡ spec_first_evidence (dispute_on Z self.now) }
    {
        let found = self.first_in_layers::<L>(lowest, steps);
        if found.is_some() {
            return found;
        }
        self.first_in_forest::<L>(steps)
    }
}
