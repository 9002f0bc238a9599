//! Whether entries are in a log, and whether it grew.
ghost use Rattle.std.specs.Prelude.{◌≡◌, ◌↔◌, IsTrue, IsOk};
ghost use Rattle.merkle_tree.specs.Climb.{is_included};
ghost use Rattle.merkle_tree.specs.Consistency.{is_consistent};
ghost use Rattle.sha256_lanes.specs.Sha256.{sha256};
ghost use Rattle.slh_core.specs.Refusals.{RefusedExactly};
ghost use Rattle.slh_log.specs.Calls.{growth_refusal, leaf_refusal, presence_refusal};

use crate::error::{GrowthError, PresenceError};
use crate::note::Checkpoint;
use merkle_tree::{
    DIGEST_LEN, Sha256, TreeHash, check_consistency, check_inclusion, path_len, proof_len,
};
use slh_frames::MAX_MESSAGE;

/// Checks by a path that the digest of entry `index` of a log is `leaf` (RFC 9162, 2.1.3.2).
/// `Index`; `Length`; `Invalid`. Takes no memory, and hashes once for each digest of the path.
pub fn check_leaf(
    checkpoint: &Checkpoint,
    index: u64,
    leaf: &[u8; DIGEST_LEN],
    proof: &[[u8; DIGEST_LEN]],
) -> Result<(), PresenceError>
    ensures refusal { RefusedExactly result
        (leaf_refusal checkpoint.now.size checkpoint.now.root index leaf.now proof.now) }
{
    if index >= checkpoint.size {
        return Err(PresenceError::Index);
    }
    if proof.len() != path_len(index, checkpoint.size) {
        return Err(PresenceError::Length);
    }
    if !check_inclusion::<Sha256>(index, checkpoint.size, leaf, &checkpoint.root, proof) {
        return Err(PresenceError::Invalid);
    }
    Ok(())
}

/// Checks by a path that entry `index` of a log is `entry`, which is hashed once. `Index`; `Entry`;
/// `Length`; `Invalid`. Takes no memory.
pub fn check_presence(
    checkpoint: &Checkpoint,
    index: u64,
    entry: &[u8],
    proof: &[[u8; DIGEST_LEN]],
) -> Result<(), PresenceError>
    ensures refusal { RefusedExactly result
        (presence_refusal checkpoint.now.size checkpoint.now.root index entry.now proof.now) }
{
    if index >= checkpoint.size {
        return Err(PresenceError::Index);
    }
    if entry.len() > MAX_MESSAGE {
        return Err(PresenceError::Entry);
    }
    check_leaf(checkpoint, index, &Sha256::leaf(entry), proof)
}

/// Checks by a proof that a log grew from an old head to a new one, and kept all entries
/// (RFC 9162, 2.1.4.2). `Empty`; `Smaller`; `Length`; `Invalid`. Takes no memory, and hashes at
/// most twice for each digest of the proof.
pub fn check_growth(
    old: &Checkpoint,
    new: &Checkpoint,
    proof: &[[u8; DIGEST_LEN]],
) -> Result<(), GrowthError>
    ensures refusal { RefusedExactly result
        (growth_refusal old.now.size old.now.root new.now.size new.now.root proof.now) }
{
    if old.size == 0 {
        return Err(GrowthError::Empty);
    }
    if new.size < old.size {
        return Err(GrowthError::Smaller);
    }
    if proof.len() != proof_len(old.size, new.size) {
        return Err(GrowthError::Length);
    }
    if !check_consistency::<Sha256>(old.size, new.size, &old.root, &new.root, proof) {
        return Err(GrowthError::Invalid);
    }
    Ok(())
}
