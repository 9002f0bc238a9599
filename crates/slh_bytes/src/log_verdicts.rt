//! What is said of an entry, of a growth and of a head, by keys and bytes alone.
ghost use Rattle.std.specs.Prelude.{◌≡◌, IfOk, Some};
ghost use Rattle.slh_core.specs.Refusals.{RefusedExactly};
ghost use Rattle.slh_log.specs.Reading.{read_root};
ghost use Rattle.slh_bytes.specs.LogVerdicts.{IsGrowthVerdict, IsHeadVerdict, IsPresenceVerdict};
ghost use Rattle.slh_bytes.specs.LogVerdicts.{signer_refusal};
ghost use Rattle.slh_sets.specs.Sets.{name_of, scheme_for};

use crate::log_heads::open_head;
use merkle_tree::DIGEST_LEN;
use slh_log::{
    Checkpoint, GrowthError, OpenError, PresenceError, check_growth, check_presence,
    read_unverified,
};
use slh_sets::Set;

/// Whose heads are taken: those of a verifying key under an origin.
#[derive(Clone, Copy)]
pub struct Signer<'a> {
    /// The set of the key.
    pub set: Set,
    /// The bytes of the verifying key.
    pub key: &'a [u8],
    /// The log's name.
    pub origin: &'a str,
}

/// Why an entry isn't shown to be in a log.
#[derive(Clone, Copy, Debug, PartialEq, Eq)]
pub enum EntryError {
    /// The checkpoint isn't opened.
    Head(OpenError),
    /// The path doesn't show it.
    Path(PresenceError),
}

/// Why a checkpoint isn't the head of a log whose entries have been read.
#[derive(Clone, Copy, Debug, PartialEq, Eq)]
pub enum HeadError {
    /// The checkpoint isn't opened.
    Unopened(OpenError),
    /// Its root isn't that of the entries.
    OtherRoot,
}

/// Why a log isn't shown to have grown.
#[derive(Clone, Copy, Debug, PartialEq, Eq)]
pub enum LogError {
    /// The old checkpoint isn't opened.
    Old(OpenError),
    /// The new checkpoint isn't opened.
    New(OpenError),
    /// The proof doesn't show it.
    Proof(GrowthError),
}

/// Whether a checkpoint is opened and a path leads from an entry at an index to its root.
pub fn check_entry(
    signer: Signer<'_>,
    checkpoint: &[u8],
    index: u64,
    entry: &[u8],
    path: &[[u8; DIGEST_LEN]],
) -> Result<(), EntryError>
    ensures { let s = signer.entry in
        IsPresenceVerdict (scheme_for s.set) (name_of s.set) s.key.now s.origin.now
        checkpoint.now index entry.now path.now result }
{
    let head = match open_head(signer.set, signer.key, signer.origin, checkpoint) {
        Ok(head) => head,
        Err(error) => return Err(EntryError::Head(error)),
    };
    match check_presence(&head, index, entry, path) {
        Ok(()) => Ok(()),
        Err(error) => Err(EntryError::Path(error)),
    }
}

/// Whether two checkpoints are opened and a proof leads from the root of the old one to that of the
/// new one.
pub fn check_log(
    signer: Signer<'_>,
    old: &[u8],
    new: &[u8],
    proof: &[[u8; DIGEST_LEN]],
) -> Result<(), LogError>
    ensures { let s = signer.entry in
        IsGrowthVerdict (scheme_for s.set) (name_of s.set) s.key.now s.origin.now
        old.now new.now proof.now result }
{
    let old = match open_head(signer.set, signer.key, signer.origin, old) {
        Ok(head) => head,
        Err(error) => return Err(LogError::Old(error)),
    };
    let new = match open_head(signer.set, signer.key, signer.origin, new) {
        Ok(head) => head,
        Err(error) => return Err(LogError::New(error)),
    };
    match check_growth(&old, &new, proof) {
        Ok(()) => Ok(()),
        Err(error) => Err(LogError::Proof(error)),
    }
}

/// What a checkpoint says that is one of a signer. Without a signer it is one of whoever made it.
pub fn open_for(signer: Option<Signer<'_>>, checkpoint: &[u8]) -> Result<Checkpoint, OpenError>
    ensures refusal { RefusedExactly result (signer_refusal signer.entry checkpoint.now) }
    ensures root { IfOk result (λ head. read_root checkpoint.now ≡ Some head.root) }
{
    let Some(signer) = signer else {
        return match read_unverified(checkpoint) {
            Some((_, head)) => Ok(head),
            None => Err(OpenError::Form),
        };
    };
    open_head(signer.set, signer.key, signer.origin, checkpoint)
}

/// Whether a checkpoint is one of a signer, where there is one, and has the root of the entries.
pub fn check_head(
    signer: Option<Signer<'_>>,
    checkpoint: &[u8],
    root: &[u8; DIGEST_LEN],
) -> Result<(), HeadError>
    ensures { IsHeadVerdict (signer_refusal signer.entry checkpoint.now) checkpoint.now root.now
        result }
{
    let head = match open_for(signer, checkpoint) {
        Ok(head) => head,
        Err(error) => return Err(HeadError::Unopened(error)),
    };
    if head.root == *root {
        Ok(())
    } else {
        Err(HeadError::OtherRoot)
    }
}
