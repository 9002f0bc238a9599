//! What is read of a store.
ghost use Rattle.std.specs.Prelude.{◌+◌, ◌*◌, ◌^◌, ◌≤◌, ◌≡◌, IsTrue, length, IfErr, IfOk, false};
ghost use Rattle.merkle_store.specs.Nodes.{run_root};
ghost use Rattle.merkle_store.specs.Errors.{IsUngiven};

use merkle_tree::{DIGEST_LEN, TreeHash};

/// A store of the roots over whole runs of the digests of a growing tree.
pub trait Nodes<H: TreeHash> {
    ghost use Rattle.std.specs.Prelude.{◌+◌, ◌*◌, ◌^◌, ◌≤◌, ◌≡◌, Bool, IsTrue, List, ℕ, length};
    ghost use Rattle.std.specs.Prelude.{IfSome, IfNone, false};
    ghost use Rattle.merkle_store.specs.Nodes.{run_root};

    /// Whether it tells the roots. Where it doesn't, nothing is said of what it gives, and of its
    /// digests only their number counts.
    ghost tells: { Bool };

    /// Whether it promises the root over the run of 2^`level` digests that has this index.
    ghost gives: { Self → ℕ → ℕ → Bool };

    /// The digests.
    ghost digests: { Self → List (List ℕ) };

    /// The root over the run of 2^`level` digests that has this index among such runs. `None` where
    /// it can't be read, and no root that it promises.
    fn node(&self, level: u32, index: u64) -> Option<[u8; DIGEST_LEN]>
        requires { (index + 1) * 2 ^ level ≤ length (digests self.now) }
        ensures root { IsTrue tells
            → IfSome result (λ d. d ≡ run_root H.hash level index (digests self.now)) }
        ensures given { IfNone result (gives self.now level index ≡ false) };
}

/// Why nothing was made.
#[derive(Clone, Copy, Debug, PartialEq, Eq)]
pub enum StoreError {
    /// The root over this run couldn't be read: that of 2^`level` digests with this index among
    /// such runs.
    Node { level: u32, index: u64 },
    /// Memory ran out.
    Memory,
}

/// The root over a run, or which one couldn't be read.
pub(crate) fn read<H: TreeHash, N: Nodes<H>>(
    nodes: &N,
    level: u32,
    index: u64,
) -> Result<[u8; DIGEST_LEN], StoreError>
    requires { (index + 1) * 2 ^ level ≤ length (N.digests nodes.now) }
    ensures root { IsTrue N.tells
        → IfOk result (λ d. d ≡ run_root H.hash level index (N.digests nodes.now)) }
    ensures named { IfErr result (λ e. e ≡ StoreError.Node level index) }
    ensures cause { IfErr result
        (IsUngiven (N.gives nodes.now) (length (N.digests nodes.now))) }
{
    match nodes.node(level, index) {
        Some(root) => Ok(root),
        None => Err(StoreError::Node { level, index }),
    }
}
