//! The levels of a tree, one at a time.
ghost use Rattle.std.specs.Prelude.{◌≡◌, ◌+◌, ◌<◌, ◌≤◌, List, ℕ, length, take, drop};
ghost use Rattle.std.specs.Prelude.{IfErr, IfOk, IsTrue};
ghost use Rattle.merkle_tree.specs.Levels.{pair_up};
ghost use Rattle.merkle_store.specs.Errors.{IsUngiven};
ghost use Rattle.merkle_store.specs.Nodes.{IsLevel, full_level, node_list};

use crate::nodes::{Nodes, StoreError, read};
use merkle_tree::{DIGEST_LEN, TreeHash};

/// A level of a tree: how many roots over whole runs of 2^`height` digests it has, and the root over
/// fewer that may stand behind them.
#[derive(Drop)]
pub(crate) struct Level {
    pub(crate) height: u32,
    pub(crate) whole: u64,
    pub(crate) rest: Option<[u8; DIGEST_LEN]>,
}

/// The level above.
pub(crate) fn above<H: TreeHash, N: Nodes<H>>(nodes: &N, level: &Level) -> Result<Level, StoreError>
    requires high { level.now.height < 64 }
    requires within { level.now.whole ≤ length (full_level H.hash level.now.height (N.digests nodes.now)) }
    ensures height { IfOk result (λ up. up.height ≡ level.now.height + 1) }
    ensures within { IfOk result (λ up. up.whole
        ≤ length (full_level H.hash up.height (N.digests nodes.now))) }
    ensures nodes { IsTrue N.tells → IfOk result (λ up. (l : List (List ℕ))
        → IsLevel H.hash level.now.height level.now.whole level.now.rest (N.digests nodes.now) l
        → IsLevel H.hash up.height up.whole up.rest (N.digests nodes.now) (pair_up H.hash l)) }
    ensures cause { IfErr result
        (IsUngiven (N.gives nodes.now) (length (N.digests nodes.now))) }
{
    let height = level.height + 1;
    let whole = level.whole / 2;
    if level.whole % 2 == 0 {
        let rest = level.rest;
        return Ok(Level {
            height,
            whole,
            rest,
        });
    }
    let last = read::<H, N>(nodes, level.height, level.whole - 1)?;
    let rest = match &level.rest {
        Some(rest) => Some(H::node(&last, rest)),
        None => Some(last),
    };
    Ok(Level {
        height,
        whole,
        rest,
    })
}

/// The node at an index of a level, if it has one there.
pub(crate) fn node_at<H: TreeHash, N: Nodes<H>>(
    nodes: &N,
    level: &Level,
    i: u64,
) -> Result<Option<[u8; DIGEST_LEN]>, StoreError>
    requires { level.now.whole ≤ length (full_level H.hash level.now.height (N.digests nodes.now)) }
    ensures node { IsTrue N.tells → IfOk result (λ node. (l : List (List ℕ))
        → IsLevel H.hash level.now.height level.now.whole level.now.rest (N.digests nodes.now) l
        → node_list node ≡ take 1 (drop i l)) }
    ensures cause { IfErr result
        (IsUngiven (N.gives nodes.now) (length (N.digests nodes.now))) }
{
    if i < level.whole {
        let node = read::<H, N>(nodes, level.height, i)?;
        return Ok(Some(node));
    }
    if i == level.whole {
        return Ok(level.rest);
    }
    Ok(None)
}
