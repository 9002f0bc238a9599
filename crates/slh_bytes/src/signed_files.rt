//! Signatures that are handed out, and what is told of audits.
ghost use Rattle.std.specs.Prelude.{IfOk, IsTrue};
ghost use Rattle.std.specs.Option.{option_copied};
ghost use Rattle.slh_bytes.specs.Jobs.{verdict_by};
ghost use Rattle.slh_bytes.specs.SignedFiles.{IsAuditTold, IsAudited, IsSignatureOf};
ghost use Rattle.slh_jobs.specs.Judgement.{judgement};
ghost use Rattle.slh_jobs.specs.declared.job.Job.TheVariants.{Audit};
ghost use Rattle.slh_sets.specs.Sets.{scheme_for};

use crate::auditing::audit;
use crate::input::Input;
use crate::key::Key;
use crate::outcome::Outcome;
use crate::read_error::ReadError;
use crate::signing::{sign_digest, sign_twice};
use slh_jobs::{ByteString, Error, Evidence, Mode, Verdict};
use std::alloc::Global;

/// How a message is signed, whichever it is.
#[derive(Drop)]
pub struct SigningTerms<'s, 'r> {
    pub key: &'s Key,
    pub mode: Mode,
    pub context: &'s [u8],
    pub opt_rand: Option<&'r [u8]>,
}

/// The signature of what two inputs give, which has to be the same. By its digest it is read once.
pub fn sign_inputs<R: Input + Drop, S: Input + Drop>(
    alloc: Global,
    terms: &SigningTerms<'_, '_>,
    first: R,
    second: S,
) -> Result<ByteString, ReadError>
    ensures { let t = terms.now in IfOk result (λ signature.
        IsSignatureOf (scheme_for t.key.now.set) t.mode t.key.now.bytes t.context.now
        (option_copied t.opt_rand) (R.remaining first) (S.remaining second) signature) }
{
    let (key, context, opt_rand) = (terms.key, terms.context, terms.opt_rand);
    match terms.mode {
        Mode::Pure => sign_twice(alloc, key, context, opt_rand, first, second),
        mode => sign_digest(alloc, key, mode, context, opt_rand, first),
    }
}

/// Why a signature that was made isn't handed out.
#[derive(Drop)]
pub enum Doubt {
    /// It isn't the one that the key makes.
    Foreign,
    /// The key doesn't accept it: the signature.
    Invalid(ByteString),
    /// The audit was refused, or a read failed.
    Unread(ReadError),
}

/// A signature, where it is the one that the key makes with its own randomizer of what an input
/// gives.
pub fn audited<R: Input + Drop>(
    terms: &SigningTerms<'_, '_>,
    reader: R,
    signature: ByteString,
) -> Result<ByteString, Doubt>
    ensures { let t = terms.now in IsAudited (IsTrue R.may_fail) (R.remaining reader) (λ m. verdict_by
        (judgement (scheme_for t.key.now.set) (Audit t.mode t.key.now.bytes t.context.now m
        signature))) signature result }
{
    let (key, mode, context) = (terms.key, terms.mode, terms.context);
    match audit(key, mode, context, signature.as_slice(), reader) {
        Ok(Verdict::Genuine) => Ok(signature),
        Ok(Verdict::Foreign(_)) => Err(Doubt::Foreign),
        Err(ReadError::Refused(Error::Invalid)) => Err(Doubt::Invalid(signature)),
        Err(error) => Err(Doubt::Unread(error)),
    }
}

/// What is told of an audit, with its evidence, or why there is none.
pub fn told_of_audit(
    audited: Result<Verdict, ReadError>,
) -> Result<(Outcome, Option<Evidence>), ReadError>
    ensures { IsAuditTold audited result }
{
    match audited {
        Ok(Verdict::Genuine) => Ok((Outcome::Genuine, None)),
        Ok(Verdict::Foreign(evidence)) => Ok((Outcome::Foreign, Some(evidence))),
        Err(ReadError::Refused(Error::Invalid)) => Ok((Outcome::Invalid, None)),
        Err(error) => Err(error),
    }
}
