//! The replies to job lines.
ghost use Rattle.std.specs.Prelude.{◌≡◌, ◌⊎◌, Ok, Err, IfOk};
ghost use Rattle.slh_line.specs.declared.line_error.LineError.TheVariants.{Memory};
ghost use Rattle.slh_jobs.specs.Judgement.{judgement};
ghost use Rattle.slh_run.specs.Reply.{answer_text, error_text, job_answers, key_text};
ghost use Rattle.slh_run.specs.Reply.{signature_text, verdict_text};
ghost use Rattle.slh_audit.specs.declared.evidence.Verdict.TheVariants.{Foreign};

use crate::request::read_job;
use line_serve::{ByteString, push_hex, push_hex_line};
use slh_audit::{Evidence, Verdict};
use slh_dsa::{SetSizes, verifying_half};
use slh_jobs::{Answer, Error, Job, push_evidence, run_set};
use slh_line::{Commands, LineError};
use std::alloc::{AllocError, Global};

/// The commands of job lines.
#[derive(Drop)]
pub(crate) struct Jobs;

fn key_line(alloc: Global, key: &[u8]) -> Result<ByteString, AllocError>
    ensures { IfOk result (λ text. text ≡ key_text key.now) }
{
    let mut text = ByteString::new(alloc);
    text.reserve(key.len().saturating_mul(3).saturating_add(7))?;
    text.push_slice(b"key ")?;
    push_hex(&mut text, key)?;
    push_hex_line(&mut text, b" ", verifying_half(key))?;
    Ok(text)
}

fn signature_line(alloc: Global, signature: &[u8]) -> Result<ByteString, AllocError>
    ensures { IfOk result (λ text. text ≡ signature_text signature.now) }
{
    let mut text = ByteString::new(alloc);
    text.reserve(signature.len().saturating_mul(2).saturating_add(5))?;
    push_hex_line(&mut text, b"sig ", signature)?;
    Ok(text)
}

fn foreign_line(alloc: Global, evidence: Evidence) -> Result<ByteString, AllocError>
    ensures { IfOk result (λ text. text ≡ verdict_text (Foreign evidence)) }
{
    let mut text = ByteString::new(alloc);
    text.push_slice(b"foreign ")?;
    push_evidence(&mut text, evidence)?;
    text.push_slice(b"\n")?;
    Ok(text)
}

// The reply that names a refusal. `Memory` has none: it ends a run.
fn refusal_line(error: Error) -> &'static [u8]
    ensures { result.now ≡ error_text error }
{
    match error {
        Error::Length => b"error length\n",
        Error::ContextTooLong => b"error context\n",
        Error::RandomizerLength => b"error randomizer\n",
        Error::MessageTooLong => b"error message\n",
        Error::KeyMismatch => b"error key\n",
        Error::Invalid => b"error invalid\n",
        Error::Memory => b"",
    }
}

fn answer_line(alloc: Global, answer: Answer) -> Result<ByteString, AllocError>
    ensures { IfOk result (λ text. text ≡ answer_text (Ok answer)) }
{
    match answer {
        Answer::Key(key) => key_line(alloc, key.as_slice()),
        Answer::Signature(signature) => signature_line(alloc, signature.as_slice()),
        Answer::Accepted => ByteString::from_slice(alloc, b"accepted\n"),
        Answer::Verdict(Verdict::Genuine) => ByteString::from_slice(alloc, b"genuine\n"),
        Answer::Verdict(Verdict::Foreign(evidence)) => foreign_line(alloc, evidence),
        Answer::Shown(true) => ByteString::from_slice(alloc, b"shown\n"),
        Answer::Shown(false) => ByteString::from_slice(alloc, b"not shown\n"),
    }
}

// The reply to a job.
fn job_line<P: SetSizes>(alloc: Global, job: &Job) -> Result<ByteString, LineError>
    ensures { (result ≡ Ok (answer_text (judgement P.scheme job.now))) ⊎ (result ≡ Err Memory) }
{
    match run_set::<P>(alloc, job) {
        Ok(answer) => Ok(answer_line(alloc, answer)?),
        Err(Error::Memory) => Err(LineError::Memory),
        Err(refusal) => Ok(ByteString::from_slice(alloc, refusal_line(refusal))?),
    }
}

impl Commands for Jobs {
    ghost answers = { job_answers };

    fn answer<P: SetSizes>(
        &self,
        alloc: Global,
        fields: &[&[u8]],
    ) -> Result<ByteString, LineError> {
        let job = read_job(alloc, fields)?;
        job_line::<P>(alloc, &job)
    }
}
