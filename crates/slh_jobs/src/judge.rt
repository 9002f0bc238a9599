//! Answers single jobs.
ghost use Rattle.std.specs.Prelude.{◌≡◌};
ghost use Rattle.slh_jobs.specs.Errors.{audit_error_of, error_of};
ghost use Rattle.slh_jobs.specs.Judgement.{IsJudged, NeedsMemory, judgement};
ghost use Rattle.slh_sets.specs.Sets.{scheme_for};
ghost use Rattle.slh_jobs.specs.declared.job.Job.TheVariants.{Keygen, Sign, Verify, Audit, Check};

use crate::job::{Answer, Error, Job};
use line_serve::ByteString;
use slh_audit::{AuditError, Evidence, hash_audit, hash_check_evidence};
use slh_core::array::ArraySize;
use slh_core::params::chain_sizes;
use slh_dsa::{Mode, SetSizes, SigningKey, VerifyingKey};
use slh_sets::{OnSet, Set, SetSuite};
use std::alloc::{AllocError, Global};

impl From<slh_dsa::Error> for Error {
    ghost from_gives = { λ e f. f ≡ error_of e };

    fn from(error: slh_dsa::Error) -> Self {
        match error {
            slh_dsa::Error::Length => Error::Length,
            slh_dsa::Error::ContextTooLong => Error::ContextTooLong,
            slh_dsa::Error::RandomizerLength => Error::RandomizerLength,
            slh_dsa::Error::MessageTooLong => Error::MessageTooLong,
            slh_dsa::Error::Invalid => Error::Invalid,
            slh_dsa::Error::Memory => Error::Memory,
        }
    }
}

impl From<AuditError> for Error {
    ghost from_gives = { λ e f. f ≡ audit_error_of e };

    fn from(error: AuditError) -> Self {
        match error {
            AuditError::Length => Error::Length,
            AuditError::ContextTooLong => Error::ContextTooLong,
            AuditError::MessageTooLong => Error::MessageTooLong,
            AuditError::KeyMismatch => Error::KeyMismatch,
            AuditError::Invalid => Error::Invalid,
        }
    }
}

impl From<AllocError> for Error {
    ghost use Rattle.slh_jobs.specs.declared.job.Error.TheVariants.{Memory};

    ghost from_gives = { λ _ e. e ≡ Memory };

    fn from(_: AllocError) -> Self {
        Error::Memory
    }
}

// A key of three seeds. Its bytes are taken once it is made, and nothing after that can fail.
fn keygen<P: SetSizes>(
    alloc: Global,
    sk_seed: &ByteString,
    sk_prf: &ByteString,
    pk_seed: &ByteString,
) -> Result<Answer, Error>
    ensures { IsJudged P.scheme (Keygen sk_seed.now sk_prf.now pk_seed.now) result }
{
    chain_sizes::<P>();
    let (sk_seed, sk_prf, pk_seed) = (sk_seed.as_slice(), sk_prf.as_slice(), pk_seed.as_slice());
    let key = SigningKey::<P>::slh_keygen_internal(sk_seed, sk_prf, pk_seed)?;
    let mut bytes = ByteString::zeroed(alloc, 4 * P::N::USIZE)?;
    key.write_to(bytes.as_mut_slice());
    Ok(Answer::Key(bytes))
}

// A signature. Its bytes are taken after all checks, and nothing after that can fail.
fn sign<P: SetSizes>(
    alloc: Global,
    mode: Mode,
    key: &ByteString,
    context: &ByteString,
    message: &ByteString,
    randomizer: &Option<ByteString>,
) -> Result<Answer, Error>
    ensures { IsJudged P.scheme (Sign mode key.now context.now message.now randomizer.now) result }
{
    let (msg, ctx) = (message.as_slice(), context.as_slice());
    let opt_rand = randomizer.as_ref().map(|bytes| bytes.as_slice());
    let key = SigningKey::<P>::try_from(key.as_slice())?;
    let message = SigningKey::<P>::message(mode, msg, ctx, opt_rand)?;
    let mut bytes = ByteString::zeroed(alloc, P::SIG_LEN)?;
    key.sign_checked(&message, opt_rand, bytes.as_mut_slice());
    Ok(Answer::Signature(bytes))
}

// Whether a signature is accepted.
fn verify<P: SetSizes>(
    mode: Mode,
    key: &ByteString,
    context: &ByteString,
    message: &ByteString,
    signature: &ByteString,
) -> Result<Answer, Error>
    ensures { result ≡ judgement P.scheme
        (Verify mode key.now context.now message.now signature.now) }
{
    let (msg, ctx, sig) = (message.as_slice(), context.as_slice(), signature.as_slice());
    let key = VerifyingKey::<P>::try_from(key.as_slice())?;
    key.hash_verify(mode, msg, ctx, sig)?;
    Ok(Answer::Accepted)
}

// Whether a key made a signature.
fn audit<P: SetSizes>(
    mode: Mode,
    key: &ByteString,
    context: &ByteString,
    message: &ByteString,
    signature: &ByteString,
) -> Result<Answer, Error>
    ensures { result ≡ judgement P.scheme
        (Audit mode key.now context.now message.now signature.now) }
{
    let (key, sig) = (key.as_slice(), signature.as_slice());
    let (msg, ctx) = (message.as_slice(), context.as_slice());
    let verdict = hash_audit::<P>(mode, key, msg, ctx, sig)?;
    Ok(Answer::Verdict(verdict))
}

// Whether evidence shows.
fn check<P: SetSizes>(
    mode: Mode,
    key: &ByteString,
    context: &ByteString,
    message: &ByteString,
    signature: &ByteString,
    evidence: &Evidence,
) -> Result<Answer, Error>
    ensures { result ≡ judgement P.scheme
        (Check mode key.now context.now message.now signature.now evidence.now) }
{
    let (key, sig) = (key.as_slice(), signature.as_slice());
    let (msg, ctx) = (message.as_slice(), context.as_slice());
    let shown = hash_check_evidence::<P>(mode, key, msg, ctx, sig, evidence)?;
    Ok(Answer::Shown(shown))
}

// Answers a job whose answer needs no memory.
fn judge<P: SetSizes>(job: &Job) -> Result<Answer, Error>
    requires { NeedsMemory job.now → ⊥ }
    ensures { result ≡ judgement P.scheme job.now }
{
    match job {
        Job::Verify {
            mode,
            key,
            context,
            message,
            signature,
        } => verify::<P>(*mode, key, context, message, signature),
        Job::Audit {
            mode,
            key,
            context,
            message,
            signature,
        } => audit::<P>(*mode, key, context, message, signature),
        Job::Check {
            mode,
            key,
            context,
            message,
            signature,
            evidence,
        } => check::<P>(*mode, key, context, message, signature, evidence),
        Job::Keygen { .. } | Job::Sign { .. } => unreachable!(),
    }
}

/// Answers a job in a parameter set: what [`run`] answers in that which it is given.
pub fn run_set<P: SetSizes>(alloc: Global, job: &Job) -> Result<Answer, Error>
    ensures { IsJudged P.scheme job.now result }
{
    match job {
        Job::Keygen {
            sk_seed,
            sk_prf,
            pk_seed,
        } => keygen::<P>(alloc, sk_seed, sk_prf, pk_seed),
        Job::Sign {
            mode,
            key,
            context,
            message,
            randomizer,
        } => sign::<P>(alloc, *mode, key, context, message, randomizer),
        _ => judge::<P>(job),
    }
}

// A job of which only the set isn't known.
#[derive(Drop)]
struct OfSet<'a> {
    alloc: Global,
    job: &'a Job,
}

impl<'a> OnSet for OfSet<'a> {
    type Out = Result<Answer, Error>;

    ghost gives = { λ task Z _ result. IsJudged Z task.job.now result };

    fn on<P: SetSuite>(self) -> Result<Answer, Error> {
        run_set::<P>(self.alloc, self.job)
    }
}

/// Answers a job of a parameter set: the answer that is judged, or `Memory`. The job is unchanged.
pub fn run(alloc: Global, set: Set, job: &Job) -> Result<Answer, Error>
    ensures judged { IsJudged (scheme_for set) job.now result }
{
    set.run(OfSet { alloc, job })
}
