//! `slh log verify` and `slh log growth`: what those who watch a log do.
ghost use Rattle.slh_arguments.specs.LogTold.{IsTold, check_told, entry_told, growth_told, head_told};

use crate::error::Refusal;
use clap::ArgMatches;
use slh_arguments::bytes::log::{GrowthError, OpenError, PresenceError, read_unverified};
use slh_arguments::bytes::{
    Detail, EntryError, HeadError, Key, LogError, Outcome, Proof, ProofError, Purpose, Signer,
    check_entry, check_log, read_proof,
};
use slh_arguments::host::{Failure, files};
use slh_arguments::{check_inputs, names, report, required, verifying_key};
use std::alloc::Global;

/// Why a checkpoint isn't opened, where that is no verdict.
pub fn head_refusal(error: OpenError) -> Refusal {
    match error {
        OpenError::Form => Refusal::NotCheckpoint,
        OpenError::Origin => Refusal::OtherOrigin,
        OpenError::Unsigned => Refusal::Unsigned,
        OpenError::Invalid => Refusal::InvalidHead,
    }
}

/// The same of the checkpoint at a path.
pub fn refused_head<'a>(path: &'a str, error: OpenError) -> Failure<'a> {
    Failure::told(path, head_refusal(error))
}

// What is told of a checkpoint that isn't opened: that it is invalid, or the refusal.
fn outcome_of_head<'a>(path: &'a str, error: OpenError) -> Result<Outcome, Failure<'a>>
    ensures { IsTold (head_told error) result }
{
    match error {
        OpenError::Invalid => Ok(Outcome::Invalid),
        error => Err(refused_head(path, error)),
    }
}

/// What is told of the checkpoint of a log whose entries have been read, by the log's folder.
pub fn outcome_of_check<'a>(
    folder: &'a str,
    checked: Result<(), HeadError>,
) -> Result<Outcome, Failure<'a>>
    ensures { IsTold (check_told checked) result }
{
    match checked {
        Ok(()) => Ok(Outcome::Accepted),
        Err(HeadError::Unopened(error)) => outcome_of_head(folder, error),
        Err(HeadError::OtherRoot) => Ok(Outcome::Invalid),
    }
}

/// The signer with a key and an origin.
pub fn signer_of<'k>(key: &'k Key, origin: &'k str) -> Signer<'k> {
    Signer {
        set: key.set,
        key: key.bytes.as_slice(),
        origin,
    }
}

// The proof that the bytes of a file are.
fn proof_of<'b, 'a>(
    alloc: Global,
    path: &'a str,
    purpose: Purpose,
    bytes: &'b [u8],
) -> Result<Proof<'b>, Failure<'a>> {
    match read_proof(alloc, purpose, bytes) {
        Ok(proof) => Ok(proof),
        Err(ProofError::Memory) => Err(Failure::Memory),
        Err(ProofError::Form) => match purpose {
            Purpose::Presence => Err(Failure::told(path, Refusal::NotPresence)),
            Purpose::Growth => Err(Failure::told(path, Refusal::NotGrowth)),
        },
    }
}

/// Tells whether a file is an entry of a log, by a proof and a checkpoint: that of `--checkpoint`,
/// or the one that stands in the proof.
pub fn verify<'a>(rt: &HostRuntime, words: &ArgMatches<'a>) -> Result<Outcome, Failure<'a>> {
    check_inputs(words, &[])?;
    let key = verifying_key(rt, words)?;
    let signer = signer_of(&key, required(words, names::ORIGIN)?);
    let path = required(words, names::PROOF)?;
    let bytes = files::read_limited(rt, path)?;
    let proof = proof_of(rt.alloc(), path, Purpose::Presence, bytes.as_slice())?;
    let outcome = presence(rt, words, signer, &proof)?;
    report(rt, words, outcome, Detail::Nothing)
}

// What a proof shows of the file that is an entry.
fn presence<'a>(
    rt: &HostRuntime,
    words: &ArgMatches<'a>,
    signer: Signer<'_>,
    proof: &Proof<'_>,
) -> Result<Outcome, Failure<'a>> {
    let (path, file) = (
        required(words, names::PROOF)?,
        required(words, names::FILE)?,
    );
    let entry = files::read_limited(rt, file)?;
    let (number, digests) = (proof.number, proof.digests.as_slice());
    let Some(head) = words.get_str(names::CHECKPOINT) else {
        let checked = check_entry(signer, proof.checkpoint, number, entry.as_slice(), digests);
        return outcome_of_entry(path, path, file, checked);
    };
    let bytes = files::read_limited(rt, head)?;
    let checked = check_entry(signer, bytes.as_slice(), number, entry.as_slice(), digests);
    outcome_of_entry(head, path, file, checked)
}

// What is told of an entry, by the paths of the checkpoint, the proof and the entry.
fn outcome_of_entry<'a>(
    head: &'a str,
    proof: &'a str,
    file: &'a str,
    checked: Result<(), EntryError>,
) -> Result<Outcome, Failure<'a>>
    ensures { IsTold (entry_told checked) result }
{
    match checked {
        Ok(()) => Ok(Outcome::Accepted),
        Err(EntryError::Head(error)) => outcome_of_head(head, error),
        Err(EntryError::Path(PresenceError::Invalid)) => Ok(Outcome::Invalid),
        Err(EntryError::Path(PresenceError::Index)) => Err(Failure::told(
            proof,
            Refusal::OtherIndex,
        )),
        Err(EntryError::Path(PresenceError::Length)) => Err(Failure::told(
            proof,
            Refusal::ProofLength,
        )),
        Err(EntryError::Path(PresenceError::Entry)) => Err(Failure::told(
            file,
            Refusal::MessageTooLong,
        )),
    }
}

/// Tells whether a log grew from an old checkpoint to a new one, and kept all entries.
pub fn growth<'a>(rt: &HostRuntime, words: &ArgMatches<'a>) -> Result<Outcome, Failure<'a>> {
    check_inputs(words, &[])?;
    let key = verifying_key(rt, words)?;
    let signer = signer_of(&key, required(words, names::ORIGIN)?);
    let old = files::read_limited(rt, required(words, names::OLD)?)?;
    let new = files::read_limited(rt, required(words, names::NEW)?)?;
    let outcome = growth_between(rt, words, signer, old.as_slice(), new.as_slice())?;
    report(rt, words, outcome, Detail::Nothing)
}

// Whether a checkpoint says another size.
fn has_other_size(checkpoint: &[u8], size: u64) -> bool {
    match read_unverified(checkpoint) {
        Some((_, head)) => head.size != size,
        None => false,
    }
}

// What the proof shows of the growth between two checkpoints.
fn growth_between<'a>(
    rt: &HostRuntime,
    words: &ArgMatches<'a>,
    signer: Signer<'_>,
    old: &[u8],
    new: &[u8],
) -> Result<Outcome, Failure<'a>> {
    let path = required(words, names::PROOF)?;
    let bytes = files::read_limited(rt, path)?;
    let proof = proof_of(rt.alloc(), path, Purpose::Growth, bytes.as_slice())?;
    let checked = check_log(signer, old, new, proof.digests.as_slice());
    if let Ok(()) | Err(LogError::Proof(_)) = checked
        && has_other_size(old, proof.number)
    {
        return Err(Failure::told(path, Refusal::OtherSize));
    }
    let (old, new) = (required(words, names::OLD)?, required(words, names::NEW)?);
    outcome_of_growth(old, new, path, checked)
}

// What is told of a growth, by the paths of the checkpoints and the proof.
fn outcome_of_growth<'a>(
    old: &'a str,
    new: &'a str,
    proof: &'a str,
    checked: Result<(), LogError>,
) -> Result<Outcome, Failure<'a>>
    ensures { IsTold (growth_told checked) result }
{
    match checked {
        Ok(()) => Ok(Outcome::Accepted),
        Err(LogError::Old(error)) => outcome_of_head(old, error),
        Err(LogError::New(error)) => outcome_of_head(new, error),
        Err(LogError::Proof(GrowthError::Invalid)) => Ok(Outcome::Invalid),
        Err(LogError::Proof(GrowthError::Empty)) => Err(Failure::told(old, Refusal::EmptyOld)),
        Err(LogError::Proof(GrowthError::Smaller)) => Err(Failure::told(new, Refusal::Smaller)),
        Err(LogError::Proof(GrowthError::Length)) => Err(Failure::told(
            proof,
            Refusal::ProofLength,
        )),
    }
}
