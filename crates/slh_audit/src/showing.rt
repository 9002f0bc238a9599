//! Whether evidence shows in a dispute, place by place.
ghost use Rattle.std.specs.Prelude.{◌≡◌, ◌<◌, ◌≤◌};
ghost use Rattle.slh_audit.specs.declared.evidence.Evidence.TheVariants.{ChainStep, Leaf};
ghost use Rattle.slh_audit.specs.declared.evidence.Evidence.TheVariants.{TreeNode, Early};
ghost use Rattle.slh_audit.specs.Evidence.{shows as spec_shows, dispute_on};

use crate::dispute::{Dispute, Sizes};
use crate::evidence::Evidence;
use crate::layer::LayerCheck;
use slh_core::params::{ForsSizes, layer_sizes};
use slh_core::steps::Steps;
use std::sync::ledger::Ledger;

impl<'a, P: ForsSizes> Dispute<'a, P> {
    /// The check of a layer, as far as its message.
    pub(crate) fn layer_check<L: Ledger>(
        &self,
        layer: u32,
        steps: &mut Steps<L>,
    ) -> LayerCheck<'_, 'a, P>
        requires { layer < P.D }
        ensures dispute { result.dispute.now ≡ self.now }
        ensures layer { result.adrs.layer_adrs ≡ layer }
    {
        let adrs = self.adrs_at(layer);
        let sig = self.layer_sig(layer as usize);
        let message = self.checked_message::<L>(layer as usize, steps);
        LayerCheck {
            dispute: self,
            adrs,
            sig,
            message,
        }
    }

    /// Whether a node of a layer's tree shows, for any numbers.
    fn any_tree_node_shows<L: Ledger>(&self, layer: u32, height: u32, steps: &mut Steps<L>) -> bool
        ensures { let Z = ⟦<P as Sizes>⟧.scheme_now in
            result ≡ spec_shows (dispute_on Z self.now) (TreeNode layer height) }
    {
        layer_sizes::<P>();
        if layer >= P::D as u32 {
            return false;
        }
        if height == 0 {
            return false;
        }
        if height > P::H_PRIME as u32 {
            return false;
        }
        let check = self.layer_check::<L>(layer, steps);
        check.tree_node_shows::<L>(height, steps)
    }

    /// Whether a layer's leaf shows, for any number.
    fn any_leaf_shows<L: Ledger>(&self, layer: u32, steps: &mut Steps<L>) -> bool
        ensures { let Z = ⟦<P as Sizes>⟧.scheme_now in
            result ≡ spec_shows (dispute_on Z self.now) (Leaf layer) }
    {
        layer_sizes::<P>();
        if layer >= P::D as u32 {
            return false;
        }
        let check = self.layer_check::<L>(layer, steps);
        check.leaf_shows::<L>(steps)
    }

    /// Whether a chain's value before a step shows, for any numbers.
    fn any_chain_step_shows<L: Ledger>(
        &self,
        layer: u32,
        chain: u32,
        step: u32,
        steps: &mut Steps<L>,
    ) -> bool
        ensures { let Z = ⟦<P as Sizes>⟧.scheme_now in
            result ≡ spec_shows (dispute_on Z self.now) (ChainStep layer chain step) }
    {
        layer_sizes::<P>();
        if layer >= P::D as u32 {
            return false;
        }
        if chain >= P::WOTS_SIG_LEN as u32 {
            return false;
        }
        let check = self.layer_check::<L>(layer, steps);
        check.chain_step_shows::<L>(chain, step, steps)
    }

    /// Whether a chain is opened early, for any numbers.
    fn any_early_shows<L: Ledger>(&self, layer: u32, chain: u32, steps: &mut Steps<L>) -> bool
        ensures { let Z = ⟦<P as Sizes>⟧.scheme_now in
            result ≡ spec_shows (dispute_on Z self.now) (Early layer chain) }
    {
        layer_sizes::<P>();
        if layer >= P::D as u32 {
            return false;
        }
        if chain >= P::WOTS_SIG_LEN as u32 {
            return false;
        }
        let check = self.layer_check::<L>(layer, steps);
        let own = self.own_message::<L>(layer as usize, steps);
        check.early_shows::<L>(&own, chain, steps)
    }

    /// Whether evidence shows.
    pub(crate) fn shows<L: Ledger>(&self, evidence: Evidence, steps: &mut Steps<L>) -> bool
        ensures { let Z = ⟦<P as Sizes>⟧.scheme_now in
            result ≡ spec_shows (dispute_on Z self.now) evidence }
    {
        match evidence {
            Evidence::ForsNode { tree, height } => {
                self.any_fors_node_shows::<L>(tree, height, steps)
            }
            Evidence::ForsRoots => self.fors_roots_show::<L>(steps),
            Evidence::ChainStep { layer, chain, step } => {
                self.any_chain_step_shows::<L>(layer, chain, step, steps)
            }
            Evidence::Leaf { layer } => self.any_leaf_shows::<L>(layer, steps),
            Evidence::TreeNode { layer, height } => {
                self.any_tree_node_shows::<L>(layer, height, steps)
            }
            Evidence::Early { layer, chain } => self.any_early_shows::<L>(layer, chain, steps),
        }
    }
}
