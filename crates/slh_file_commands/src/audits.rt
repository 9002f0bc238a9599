//! `slh audit` and `slh evidence`.
use crate::error::FileError;
use clap::ArgMatches;
use slh_arguments::bytes::{
    self, ByteString, Detail, Evidence, Fallible, Outcome, check_evidence, evidence_of,
    push_evidence, told_of_audit,
};
use slh_arguments::host::Failure;
use slh_arguments::{Claim, check_inputs, names, own_claim, report, required};

/// Tells whether the holder of a key made a signature that the key accepts.
pub fn audit<'a>(rt: &HostRuntime, words: &ArgMatches<'a>) -> Result<Outcome, Failure<'a>> {
    check_inputs(words, &[])?;
    let path = required(words, names::FILE)?;
    let Claim {
        key,
        mode,
        context,
        signature,
        reader,
    } = own_claim(rt, words)?;
    let (context, signature) = (context.as_slice(), signature.as_slice());
    match told_of_audit(bytes::audit(&key, mode, context, signature, Fallible(reader))) {
        Ok((outcome, None)) => report(rt, words, outcome, Detail::Nothing),
        Ok((outcome, Some(evidence))) => tell_with(rt, words, outcome, evidence),
        Err(error) => Err(Failure::told(path, error)),
    }
}

// Tells a verdict and its evidence.
fn tell_with(
    rt: &HostRuntime,
    words: &ArgMatches<'_>,
    outcome: Outcome,
    evidence: Evidence,
) -> Result<Outcome, Failure<'static>> {
    let mut told = ByteString::new(rt.alloc());
    push_evidence(&mut told, evidence)?;
    report(rt, words, outcome, Detail::Evidence(told.as_slice()))
}

/// Tells whether evidence shows against a signature.
pub fn evidence<'a>(rt: &HostRuntime, words: &ArgMatches<'a>) -> Result<Outcome, Failure<'a>> {
    check_inputs(words, &[])?;
    let Some(evidence) = evidence_of(rt.alloc(), required(words, names::EVIDENCE)?.as_bytes())?
    else {
        return Err(Failure::option(names::EVIDENCE, FileError::NotAudit));
    };
    let path = required(words, names::FILE)?;
    let Claim {
        key,
        mode,
        context,
        signature,
        reader,
    } = own_claim(rt, words)?;
    let (context, signature) = (context.as_slice(), signature.as_slice());
    match check_evidence(&key, mode, context, signature, evidence, Fallible(reader)) {
        Ok(is_shown) => report(rt, words, Outcome::of_evidence(is_shown), Detail::Nothing),
        Err(error) => Err(Failure::told(path, error)),
    }
}
