//! What stands at the leaves of trees.
ghost use Rattle.std.specs.Prelude.{◌≡◌, ℕ, ◌+◌, ◌*◌, ◌^◌, ◌≤◌, ◌<◌, List, length, slice_index};
ghost use Rattle.slh_core.specs.Bytes.{joined, part};
ghost use Rattle.slh_core.specs.Suite.{HasLength, Seeded};

use crate::node::NodeAddress;
use slh_core::array::ArraySize;
use slh_core::nbytes::NBytes;
use slh_core::params::{WotsSizes, chain_sizes};
use slh_core::steps::Steps;
use std::sync::ledger::Ledger;

/// The height of the subtrees whose levels are hashed as rows: high enough that most rows fill the
/// lanes of a suite, and low enough that all leaves stand on the stack (2 KB).
pub(crate) const ROW_HEIGHT: u32 = 6;

/// The most leaves that are made as one row: those of a subtree.
pub(crate) const MAX_ROW: usize = 64;

/// Trees of one height that stand side by side at an address, and the leaves that secrets make for
/// them. Indices run through all of the trees.
pub(crate) trait Leaves<P: WotsSizes>: NodeAddress {
    /// How many trees there are.
    ghost trees: { ℕ };

    /// The height of each of them.
    ghost height: { ℕ };

    /// The leaf with an index, by the suite with its public seed and the secret seed.
    ghost leaf: { Seeded → List ℕ → Self → ℕ → List ℕ };

    /// How many hash calls a leaf takes.
    ghost leaf_cost: { ℕ };

    /// Writes eights of leaves from an index on, one after the other.
    fn write_eights<L: Ledger>(
        &self,
        sk_seed: &NBytes<P::N>,
        first: u32,
        groups: usize,
        keyed: &P::Keyed,
        out: &mut [u8],
        steps: &mut Steps<L>,
    )
        requires inside { first + 8 * groups ≤ 2 ^ 32 }
        requires room { length out.old ≡ groups * (8 * P.N.USIZE) }
        ensures leaves { let K = P.keyed_suite keyed.now in
            out.new ≡ joined (λ k. leaf K sk_seed.now self.now (first + k)) (8 * groups) }
        ensures cost { steps.new ≡ steps.old + 8 * groups * leaf_cost };

    /// Writes fewer than eight leaves from an index on, one after the other.
    fn write_rest<L: Ledger>(
        &self,
        sk_seed: &NBytes<P::N>,
        first: u32,
        count: usize,
        keyed: &P::Keyed,
        out: &mut [u8],
        steps: &mut Steps<L>,
    )
        requires few { count < 8 }
        requires inside { first + count ≤ 2 ^ 32 }
        requires room { length out.old ≡ count * P.N.USIZE }
        ensures leaves { let K = P.keyed_suite keyed.now in
            out.new ≡ joined (λ k. leaf K sk_seed.now self.now (first + k)) count }
        ensures cost { steps.new ≡ steps.old + count * leaf_cost };

    /// A place in a store of nodes for each height.
    ghost height_high: { height ≤ 31 };

    /// Indices are words of an address.
    ghost few: { trees * 2 ^ height < 2 ^ 32 };

    /// A leaf has as many bytes as a value of its suite.
    ghost leaf_length: { (K : Seeded) (sk : List ℕ) (a : Self) (i : ℕ)
        → HasLength K.suite K.n
        → length (leaf K sk a i) ≡ K.n };
}

/// What the laws say of the number of leaves.
pub(crate) fn leaf_numbers<P: WotsSizes, A: Leaves<P>>()
    ensures height { A.height ≤ 31 }
    ensures few { A.trees * 2 ^ A.height < 2 ^ 32 }
{}

/// Writes the leaves from an index on, one after the other: eights, and then the rest.
pub(crate) fn write_leaves<P: WotsSizes, A: Leaves<P> + Drop, L: Ledger>(
    sk_seed: &NBytes<P::N>,
    first: u32,
    count: usize,
    keyed: &P::Keyed,
    adrs: &A,
    out: &mut [u8],
    steps: &mut Steps<L>,
)
    requires few { count ≤ MAX_ROW }
    requires inside { first + count < 2 ^ 32 }
    requires room { length out.old ≡ count * P.N.USIZE }
    ensures each { let K = P.keyed_suite keyed.now in
        (k : ℕ)
        → k < count
        → part P.N.USIZE out.new k ≡ A.leaf K sk_seed.now adrs.now (first + k) }
    ensures cost { steps.new ≡ steps.old + count * A.leaf_cost }
{
    chain_sizes::<P>();
    let groups = count / 8;
    let (eights, rest) = out.split_at_mut(groups * (8 * P::N::USIZE));
    adrs.write_eights(sk_seed, first, groups, keyed, eights, steps);
    let next = first + 8 * groups as u32;
    adrs.write_rest(sk_seed, next, count % 8, keyed, rest, steps);
}

/// Numbers a row: `first`, the number after it, and so on.
pub(crate) fn number_from(first: u32, numbers: &mut [u32])
    requires { first + length numbers.old ≤ 2 ^ 32 }
    ensures { (k : ℕ) → k < length numbers.old → slice_index numbers.new k ≡ first + k }
{
    for k in 0..numbers.len() {
        numbers[k] = first + k as u32;
    }
}
