//! A layer under check, and whether its evidence shows.
ghost use Rattle.std.specs.Prelude.{take, drop, ◌≡◌, ◌↔◌, ℕ, ◌+◌, ◌-◌, ◌*◌, ◌/◌, ◌^◌, ◌<◌, ◌≤◌};
ghost use Rattle.std.specs.Prelude.{List, length, slice_index, IsTrue};
ghost use Rattle.std.specs.Str.{bytes_eq};
ghost use Rattle.slh_core.specs.Digits.{wots_digits};
ghost use Rattle.slh_audit.specs.Evidence.{checked_at, collide as spec_collide, dispute_on, own_at};
ghost use Rattle.slh_audit.specs.Evidence.{shows as spec_shows};
ghost use Rattle.slh_audit.specs.declared.evidence.Evidence.TheVariants.{ChainStep, Early, Leaf};
ghost use Rattle.slh_audit.specs.declared.evidence.Evidence.TheVariants.{TreeNode};
ghost use Rattle.slh_core.specs.Bytes.{joined, part};
ghost use Rattle.slh_core.specs.Wots.{chain_value};
ghost use Rattle.slh_core.specs.Parameters.{chain_count, scheme_of};
ghost use Rattle.slh_merkle.specs.Hypertree.{layer_size, leaf_at, tree_at};

use crate::dispute::{Dispute, Sizes};
use slh_core::address::{Address, HashTree, WotsHash, WotsPk};
use slh_core::array::ArraySize;
use slh_core::digits::message_digits;
use slh_core::equal_parts::{part_of, put_part};
use slh_core::nbytes::NBytes;
use slh_core::params::{ForsSizes, MAX_ENDS_LEN, WotsSizes, XmssSizes, chain_sizes, tree_sizes};
use slh_core::steps::Steps;
use slh_core::suite::HashSuite;
use slh_core::wots::{ends_len, own_chain, wots_chain, wots_pk_from_sig};
use slh_merkle::climb::root_from_auth_path;
use slh_merkle::node::sibling;
use slh_merkle::xmss::xmss_node;
use std::sync::ledger::Ledger;

/// Whether two byte strings are the same.
pub(crate) fn same(a: &[u8], b: &[u8]) -> bool
    ensures { result ≡ bytes_eq a.now b.now }
{
    a == b
}

/// Whether two values are the same.
pub(crate) fn same_value<N: ArraySize>(a: &NBytes<N>, b: &NBytes<N>) -> bool
    ensures { result ≡ bytes_eq a.now b.now }
{
    same(a.as_slice(), b.as_slice())
}

/// Whether two inputs differ and two outputs are equal.
fn collide(input: &[u8], own_input: &[u8], output: &[u8], own_output: &[u8]) -> bool
    ensures { result ≡ spec_collide input.now own_input.now output.now own_output.now }
{
    input != own_input && output == own_output
}

/// Whether two values differ and what is made of them is equal.
pub(crate) fn values_collide<N: ArraySize>(
    input: &NBytes<N>,
    own_input: &NBytes<N>,
    output: &NBytes<N>,
    own_output: &NBytes<N>,
) -> bool
    ensures { result ≡ spec_collide input.now own_input.now output.now own_output.now }
{
    !same_value(input, own_input) && same_value(output, own_output)
}

/// Whether two inputs differ and their hashes at an address are equal.
pub(crate) fn hashes_collide<P: HashSuite, A: Address, L: Ledger>(
    keyed: &P::Keyed,
    adrs: &A,
    input: &[u8],
    own_input: &[u8],
    steps: &mut Steps<L>,
) -> bool
    requires input { length input.now ≤ MAX_ENDS_LEN }
    requires own_input { length own_input.now ≤ MAX_ENDS_LEN }
    ensures { let K = P.keyed_suite keyed.now in
        let hash : List ℕ → List ℕ = λ m. K.suite.t K.seed (A.bytes adrs.now) m in
        let own = own_input.now in
        result ≡ spec_collide input.now own (hash input.now) (hash own) }
{
    let output = P::t(keyed, adrs, input, steps);
    let own_output = P::t(keyed, adrs, own_input, steps);
    collide(input, own_input, output.as_slice(), own_output.as_slice())
}

/// Whether a node's children aren't both the key's own, and the node is.
pub(crate) fn nodes_collide<N: ArraySize>(
    below: &NBytes<N>,
    own_below: &NBytes<N>,
    beside: &NBytes<N>,
    own_beside: &NBytes<N>,
    node: &NBytes<N>,
    own_node: &NBytes<N>,
) -> bool
    ensures { IsTrue result ↔ ((¬ ((below.now ≡ own_below.now)
        × (beside.now ≡ own_beside.now))) × (node.now ≡ own_node.now)) }
{
    let same = below.as_slice() == own_below.as_slice()
        && beside.as_slice() == own_beside.as_slice();
    !same && node.as_slice() == own_node.as_slice()
}

/// The values of the chains and the siblings, in a layer's part of a signature.
pub(crate) fn layer_parts<P: XmssSizes>(sig: &[u8]) -> (&[u8], &[u8])
    requires { length sig.now ≡ layer_size P.N.USIZE P.H_PRIME }
    ensures chains { result.0.now ≡ take (chain_count P.N.USIZE * P.N.USIZE) sig.now }
    ensures path { result.1.now ≡ drop (chain_count P.N.USIZE * P.N.USIZE) sig.now }
    ensures chains_len { length result.0.now ≡ P.WOTS_SIG_LEN * P.N.USIZE }
    ensures path_len { length result.1.now ≡ P.H_PRIME * P.N.USIZE }
{
    tree_sizes::<P>();
    sig.split_at(P::WOTS_SIG_LEN * P::N::USIZE)
}

/// Writes the ends of the key's own chains.
#[tactic(auto, unfolding(slh_core::specs::Bytes::joined))]
fn own_ends<P: WotsSizes, L: Ledger>(
    sk_seed: &NBytes<P::N>,
    keyed: &P::Keyed,
    adrs: &WotsHash,
    out: &mut [u8],
    steps: &mut Steps<L>,
)
    requires { length out.old ≡ P.WOTS_SIG_LEN * P.N.USIZE }
    ensures { let K = P.keyed_suite keyed.now in
        let sk = sk_seed.now in
        let a = adrs.now in
        let j = a.layer_adrs in
        let t = a.tree_adrs_low in
        out.new ≡ joined (λ c. chain_value K sk j t a.key_pair_adrs c 15) (chain_count P.N.USIZE) }
{
    chain_sizes::<P>();
    let n = P::N::USIZE;
    for c in 0..P::WOTS_SIG_LEN {
        let end = own_chain::<P, L>(sk_seed, keyed, adrs, c as u32, 15, steps);
        put_part(out, n, c, end.as_slice());
    }
}

/// The digit of a message that belongs to a chain.
#[tactic(auto, using(slh_core::proofs::DigitSteps::wots_digits_below))]
fn digit_of<P: WotsSizes>(message: &NBytes<P::N>, chain: u32) -> u32
    requires { chain < P.WOTS_SIG_LEN }
    ensures value { result ≡ slice_index (wots_digits P.N.USIZE message.now) chain }
    ensures below { result < 16 }
{
    chain_sizes::<P>();
    u32::from(message_digits(message)[chain as usize])
}

/// The address of another chain of the same key pair.
fn at_chain(adrs: &WotsHash, chain: u32) -> WotsHash
    ensures { result ≡ record adrs.now { chain_adrs = chain; hash_adrs = 0 } }
{
    WotsHash {
        layer_adrs: adrs.layer_adrs,
        tree_adrs_low: adrs.tree_adrs_low,
        key_pair_adrs: adrs.key_pair_adrs,
        chain_adrs: chain,
        hash_adrs: 0,
    }
}

/// A layer under check: the dispute, the address of the key pair that signs, the layer's part of the
/// signature, and the message that the check has on the layer.
#[derive(Drop)]
pub(crate) struct LayerCheck<'s, 'a, P: ForsSizes> {
    pub(crate) dispute: &'s Dispute<'a, P>,
    pub(crate) adrs: WotsHash,
    pub(crate) sig: &'s [u8],
    pub(crate) message: NBytes<P::N>,
    ghost layer: { adrs.layer_adrs < P.D },
    ghost tree: { adrs.tree_adrs_low ≡ tree_at P.H_PRIME dispute.now.t adrs.layer_adrs },
    ghost leaf: { adrs.key_pair_adrs
        ≡ leaf_at P.H_PRIME dispute.now.t dispute.now.l adrs.layer_adrs },
    ghost below: { adrs.key_pair_adrs < 2 ^ P.H_PRIME },
    ghost part: { sig.now
        ≡ part (layer_size P.N.USIZE P.H_PRIME) dispute.now.layers adrs.layer_adrs },
    ghost whole: { length sig.now ≡ layer_size P.N.USIZE P.H_PRIME },
    ghost checked: { message ≡ checked_at (dispute_on (scheme_of P.suite P.N.USIZE P.H_PRIME
        P.D P.A P.K) dispute.now) adrs.layer_adrs },
}

impl<'s, 'a, P: ForsSizes> LayerCheck<'s, 'a, P> {
    /// Whether the node at a height on the way up shows.
    pub(crate) fn tree_node_shows<L: Ledger>(&self, height: u32, steps: &mut Steps<L>) -> bool
        requires low { 1 ≤ height }
        requires high { height ≤ P.H_PRIME }
        ensures { let Z = ⟦<P as Sizes>⟧.scheme_now in
            let D = dispute_on Z self.now.dispute.now in
            result ≡ spec_shows D (TreeNode self.now.adrs.layer_adrs height) }
    {
        tree_sizes::<P>();
        let dispute = self.dispute;
        let sk_seed = &dispute.sk_seed;
        let keyed = &dispute.keyed;
        let adrs = &self.adrs;
        let (chains, path) = layer_parts::<P>(self.sig);
        let leaf = wots_pk_from_sig::<P, L>(chains, &self.message, keyed, adrs, steps);
        let y = adrs.key_pair_adrs;
        let z = height - 1;
        let at = adrs.tree_adrs();
        let below = root_from_auth_path::<P, HashTree, L>(
            &leaf, y, z as usize, path, keyed, &at, steps,
        );
        let beside = part_of::<P::N>(path, z as usize);
        let top = height as usize;
        let node = root_from_auth_path::<P, HashTree, L>(&leaf, y, top, path, keyed, &at, steps);
        let own_below = xmss_node::<P, L>(sk_seed, y >> z, z, keyed, adrs, steps);
        let own_beside = xmss_node::<P, L>(sk_seed, sibling(y >> z), z, keyed, adrs, steps);
        let own_node = xmss_node::<P, L>(sk_seed, y >> height, height, keyed, adrs, steps);
        nodes_collide(&below, &own_below, &beside, &own_beside, &node, &own_node)
    }

    /// Whether the ends of the chains show.
    pub(crate) fn leaf_shows<L: Ledger>(&self, steps: &mut Steps<L>) -> bool
        ensures { let Z = ⟦<P as Sizes>⟧.scheme_now in
            let D = dispute_on Z self.now.dispute.now in
            result ≡ spec_shows D (Leaf self.now.adrs.layer_adrs) }
    {
        tree_sizes::<P>();
        let dispute = self.dispute;
        let sk_seed = &dispute.sk_seed;
        let keyed = &dispute.keyed;
        let adrs = &self.adrs;
        let len = P::WOTS_SIG_LEN;
        let size = ends_len::<P>();
        let all = message_digits(&self.message);
        let mut store = [0u8; MAX_ENDS_LEN];
        let ends = &mut store[..size];
        let (chains, _) = layer_parts::<P>(self.sig);
        P::finish_each(keyed, &all[..len], chains, adrs, ends, steps);
        let mut own_store = [0u8; MAX_ENDS_LEN];
        let own = &mut own_store[..size];
        own_ends::<P, L>(sk_seed, keyed, adrs, own, steps);
        hashes_collide::<P, WotsPk, L>(keyed, &adrs.pk_adrs(), ends, own, steps)
    }

    /// Whether a chain's value before a step shows.
    pub(crate) fn chain_step_shows<L: Ledger>(
        &self,
        chain: u32,
        step: u32,
        steps: &mut Steps<L>,
    ) -> bool
        requires { chain < P.WOTS_SIG_LEN }
        ensures { let Z = ⟦<P as Sizes>⟧.scheme_now in
            let D = dispute_on Z self.now.dispute.now in
            result ≡ spec_shows D (ChainStep self.now.adrs.layer_adrs chain step) }
    {
        tree_sizes::<P>();
        let digit = digit_of::<P>(&self.message, chain);
        if step < digit {
            return false;
        }
        if step > 14 {
            return false;
        }
        let dispute = self.dispute;
        let sk_seed = &dispute.sk_seed;
        let keyed = &dispute.keyed;
        let adrs = &self.adrs;
        let (chains, _) = layer_parts::<P>(self.sig);
        let value = part_of::<P::N>(chains, chain as usize);
        let at = at_chain(adrs, chain);
        let before = wots_chain::<P, L>(&value, digit, step - digit, keyed, &at, steps);
        let after = wots_chain::<P, L>(&value, digit, step + 1 - digit, keyed, &at, steps);
        let own_before = own_chain::<P, L>(sk_seed, keyed, adrs, chain, step, steps);
        let own_after = own_chain::<P, L>(sk_seed, keyed, adrs, chain, step + 1, steps);
        values_collide(&before, &own_before, &after, &own_after)
    }

    /// Whether a chain is opened earlier than the key opens it for the message that it signs on the
    /// layer.
    pub(crate) fn early_shows<L: Ledger>(
        &self,
        own: &NBytes<P::N>,
        chain: u32,
        steps: &mut Steps<L>,
    ) -> bool
        requires chain { chain < P.WOTS_SIG_LEN }
        requires own { let Z = ⟦<P as Sizes>⟧.scheme_now in
            own.now ≡ own_at (dispute_on Z self.now.dispute.now) self.now.adrs.layer_adrs }
        ensures { let Z = ⟦<P as Sizes>⟧.scheme_now in
            let D = dispute_on Z self.now.dispute.now in
            result ≡ spec_shows D (Early self.now.adrs.layer_adrs chain) }
    {
        tree_sizes::<P>();
        let digit = digit_of::<P>(&self.message, chain);
        if digit >= digit_of::<P>(own, chain) {
            return false;
        }
        let dispute = self.dispute;
        let sk_seed = &dispute.sk_seed;
        let keyed = &dispute.keyed;
        let adrs = &self.adrs;
        let (chains, _) = layer_parts::<P>(self.sig);
        let value = part_of::<P::N>(chains, chain as usize);
        let own_value = own_chain::<P, L>(sk_seed, keyed, adrs, chain, digit, steps);
        same_value(&value, &own_value)
    }
}
