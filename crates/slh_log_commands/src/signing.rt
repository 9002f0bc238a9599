//! Heads that are signed, each of them a growth of the one that was signed last.
ghost use Rattle.std.specs.Prelude.{◌≡◌, ◌⊎◌, IfOk, List, ℕ, Ok, string_bytes};
ghost use Rattle.slh_arguments.specs.Randomness.{random_of};
ghost use Rattle.slh_arguments.specs.Texts.{signed_checkpoint};
ghost use Rattle.slh_arguments.specs.LogHeads.{IsHeadBy, public_half};
ghost use Rattle.slh_arguments.specs.LogVerdicts.{IsGrowthVerdict, OpensTo};
ghost use Rattle.slh_arguments.specs.Sets.{name_of, scheme_for};

use crate::error::Refusal;
use crate::log_folder::{Head, LogFolder};
use crate::watching::refused_head;
use merkle_tree::DIGEST_LEN;
use slh_arguments::bytes::log::{Checkpoint, CheckpointError};
use slh_arguments::bytes::{
    Key, KeyFileError, SignHeadError, Signer, check_log, open_head, sign_head, verifying_half,
};
use slh_arguments::host::Failure;
use slh_arguments::{Randomness, names};

// Why a checkpoint isn't made. The randomizer has as many bytes as its set's have.
fn unsigned(error: CheckpointError) -> Failure<'static> {
    match error {
        CheckpointError::Origin => Failure::option(names::ORIGIN, Refusal::Origin),
        CheckpointError::Randomizer | CheckpointError::Memory => Failure::Memory,
    }
}

/// The checkpoint of a head.
pub fn signed<'a>(
    folder: LogFolder<'_, 'a>,
    key: &Key,
    origin: &str,
    head: Checkpoint,
    randomness: &Randomness,
) -> Result<Vec<u8>, Failure<'a>>
    ensures { let set = key.now.set in let Z = scheme_for set in
        IfOk result (λ note. note.items ≡ signed_checkpoint Z (name_of set) key.now.bytes
        (random_of Z.n randomness.now) origin.now head.size head.root) }
{
    let (bytes, random) = (key.bytes.as_slice(), randomness.of_set(key.set));
    match sign_head(folder.rt.alloc(), key.set, bytes, origin, head, random) {
        Ok(checkpoint) => Ok(checkpoint),
        Err(SignHeadError::Key) => Err(Failure::option(names::KEY, KeyFileError::Length)),
        Err(SignHeadError::Head(error)) => Err(unsigned(error)),
    }
}

/// What a log's head says, where the key signed it.
pub fn own_checkpoint<'a>(
    folder: LogFolder<'_, 'a>,
    key: &Key,
    head: &Head,
) -> Result<Checkpoint, Failure<'a>>
    ensures { let set = key.now.set in
        IfOk result (λ checkpoint. IsHeadBy (scheme_for set) (name_of set)
        (public_half key.now.bytes) (string_bytes head.now.origin) head.now.bytes
        (Ok checkpoint)) }
{
    let (origin, bytes) = (head.origin.as_str(), head.bytes.as_slice());
    match open_head(key.set, verifying_half(key.bytes.as_slice()), origin, bytes) {
        Ok(checkpoint) => Ok(checkpoint),
        Err(error) => Err(refused_head(folder.path, error)),
    }
}

// Refuses a checkpoint that isn't shown to be a growth of the one that was signed last.
fn check_grown<'a>(
    folder: LogFolder<'_, 'a>,
    signer: Signer<'_>,
    last: &[u8],
    proof: &[[u8; DIGEST_LEN]],
    note: &[u8],
) -> Result<(), Failure<'a>>
    ensures { let s = signer.entry in let Z = scheme_for s.set in
        IfOk result (λ _. ((root : List ℕ)
        × OpensTo Z (name_of s.set) s.key.now s.origin.now last.now 0 root)
        ⊎ IsGrowthVerdict Z (name_of s.set) s.key.now s.origin.now last.now note.now proof.now
        (Ok tt)) }
{
    let old = match open_head(signer.set, signer.key, signer.origin, last) {
        Ok(old) => old,
        Err(error) => return Err(refused_head(folder.path, error)),
    };
    if old.size == 0 {
        return Ok(());
    }
    match check_log(signer, last, note, proof) {
        Ok(()) => Ok(()),
        Err(_) => Err(Failure::told(folder.path, Refusal::NotGrown)),
    }
}

/// The checkpoint of a head, which is a growth of the one that was signed last, by a proof.
pub fn sign_after<'a>(
    folder: LogFolder<'_, 'a>,
    key: &Key,
    origin: &str,
    last: &[u8],
    proof: &[[u8; DIGEST_LEN]],
    head: Checkpoint,
    randomness: &Randomness,
) -> Result<Vec<u8>, Failure<'a>>
    ensures value { let set = key.now.set in let Z = scheme_for set in
        IfOk result (λ note. note.items ≡ signed_checkpoint Z (name_of set) key.now.bytes
        (random_of Z.n randomness.now) origin.now head.size head.root) }

    // The key signed what is last under this origin. It has no entries, and every log grew from it,
    // or the proof shows that the log of the new checkpoint kept all of them at their places.
    ensures grown { let set = key.now.set in let Z = scheme_for set in
        let public = public_half key.now.bytes in
        IfOk result (λ note. ((root : List ℕ)
        × OpensTo Z (name_of set) public origin.now last.now 0 root)
        ⊎ IsGrowthVerdict Z (name_of set) public origin.now last.now note.items proof.now
        (Ok tt)) }
{
    let note = signed(folder, key, origin, head, randomness)?;
    let signer = Signer {
        set: key.set,
        key: verifying_half(key.bytes.as_slice()),
        origin,
    };
    check_grown(folder, signer, last, proof, note.as_slice())?;
    Ok(note)
}
