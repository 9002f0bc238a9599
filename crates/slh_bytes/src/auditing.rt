//! Auditing a signature of what an input gives.
ghost use Rattle.std.specs.Prelude.{◌≡◌, IsTrue, length};
ghost use Rattle.slh_bytes.specs.Jobs.{shown_by, verdict_by};
ghost use Rattle.slh_bytes.specs.Answers.{IsAnswer};
ghost use Rattle.slh_bytes.specs.Digested.{IsDigested};
ghost use Rattle.slh_jobs.specs.Judgement.{judgement};
ghost use Rattle.slh_jobs.specs.declared.job.Job.TheVariants.{Audit, Check};
ghost use Rattle.slh_sets.specs.Sets.{scheme_for};

use crate::absorbing::absorb_all;
use crate::input::Input;
use crate::key::Key;
use crate::read_error::ReadError;
use crate::verifying::Claim;
use slh_audit::{Evidence, Verdict, audit_for_digest, check_evidence_for_digest};
use slh_core::array::ArraySize;
use slh_core::params::{MAX_DIGEST_LEN, forest_sizes};
use slh_dsa::{Mode, SigningKey};
use slh_sets::{OnSet, SetSuite};
use slh_stream::MessageVerifier;

// Writes the digest of what the input gives, with the signature's randomizer under the key.
fn digest_read<P: SetSuite, R: Input + Drop>(
    claim: Claim<'_, R>,
    out: &mut [u8],
) -> Result<(), ReadError>
    requires { length out.old ≡ P.M.USIZE }
    ensures { let s = claim.entry in
        IsDigested P.scheme s.mode s.key.now s.context.now s.signature.now
        (IsTrue R.may_fail) (R.remaining s.reader) out.new result }
{
    let Claim {
        mode,
        context,
        signature,
        ..
    } = claim;
    let public = SigningKey::<P>::try_from(claim.key)?.verifying_key();
    let mut verifier = MessageVerifier::<P>::new(&public, mode, context, signature)?;
    absorb_all(claim.reader, &mut verifier)?;
    verifier.finish_digest(out);
    Ok(())
}

// An audit.
#[derive(Drop)]
struct Auditing<'a, R> {
    claim: Claim<'a, R>,
}

impl<'a, R: Input + Drop> OnSet for Auditing<'a, R> {
    type Out = Result<Verdict, ReadError>;

    ghost gives = { λ c Z _ result. let d = c.claim in
        IsAnswer (IsTrue R.may_fail) (R.remaining d.reader) (λ m. verdict_by
        (judgement Z (Audit d.mode d.key.now d.context.now m d.signature.now))) result };

    fn on<P: SetSuite>(self) -> Result<Verdict, ReadError> {
        forest_sizes::<P>();
        let (key, signature) = (self.claim.key, self.claim.signature);
        let mut store = [0u8; MAX_DIGEST_LEN];
        let digest = &mut store[..P::M::USIZE];
        digest_read::<P, R>(self.claim, digest)?;
        Ok(audit_for_digest::<P>(key, digest, signature)?)
    }
}

// A check of evidence.
#[derive(Drop)]
struct Checking<'a, R> {
    claim: Claim<'a, R>,
    evidence: Evidence,
}

impl<'a, R: Input + Drop> OnSet for Checking<'a, R> {
    type Out = Result<bool, ReadError>;

    ghost gives = { λ c Z _ result. let d = c.claim in
        IsAnswer (IsTrue R.may_fail) (R.remaining d.reader) (λ m. shown_by
        (judgement Z (Check d.mode d.key.now d.context.now m d.signature.now c.evidence))) result };

    fn on<P: SetSuite>(self) -> Result<bool, ReadError> {
        forest_sizes::<P>();
        let Checking { claim, evidence } = self;
        let (key, signature) = (claim.key, claim.signature);
        let mut store = [0u8; MAX_DIGEST_LEN];
        let digest = &mut store[..P::M::USIZE];
        digest_read::<P, R>(claim, digest)?;
        Ok(check_evidence_for_digest::<P>(key, digest, signature, &evidence)?)
    }
}

/// Whether a signing key made a signature of what an input gives, which it accepts. Reads once.
pub fn audit<R: Input + Drop>(
    key: &Key,
    mode: Mode,
    context: &[u8],
    signature: &[u8],
    reader: R,
) -> Result<Verdict, ReadError>
    ensures { IsAnswer (IsTrue R.may_fail) (R.remaining reader) (λ m. verdict_by (judgement (scheme_for key.now.set)
        (Audit mode key.now.bytes context.now m signature.now))) result }
{
    let claim = Claim {
        mode,
        key: key.bytes.as_slice(),
        context,
        signature,
        reader,
    };
    key.set.run(Auditing { claim })
}

/// Whether evidence shows against a signature of what an input gives. Reads once.
pub fn check_evidence<R: Input + Drop>(
    key: &Key,
    mode: Mode,
    context: &[u8],
    signature: &[u8],
    evidence: Evidence,
    reader: R,
) -> Result<bool, ReadError>
    ensures { IsAnswer (IsTrue R.may_fail) (R.remaining reader) (λ m. shown_by (judgement (scheme_for key.now.set)
        (Check mode key.now.bytes context.now m signature.now evidence))) result }
{
    let claim = Claim {
        mode,
        key: key.bytes.as_slice(),
        context,
        signature,
        reader,
    };
    key.set.run(Checking { claim, evidence })
}
