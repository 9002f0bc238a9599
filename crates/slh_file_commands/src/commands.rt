//! Which command is which function.
use crate::audits::{audit, evidence};
use crate::inspecting::inspect;
use crate::keys::{key, keygen, public};
use crate::signatures::{sign, verify};
use clap::ArgMatches;
use slh_arguments::FileVerb;
use slh_arguments::bytes::Outcome;
use slh_arguments::host::Failure;

/// Does what the words ask for.
pub fn run<'a>(
    rt: &HostRuntime,
    verb: FileVerb,
    words: &ArgMatches<'a>,
) -> Result<Outcome, Failure<'a>> {
    match verb {
        FileVerb::Keygen => keygen(rt, words),
        FileVerb::Key => key(rt, words),
        FileVerb::Public => public(rt, words),
        FileVerb::Sign => sign(rt, words),
        FileVerb::Verify => verify(rt, words),
        FileVerb::Audit => audit(rt, words),
        FileVerb::Evidence => evidence(rt, words),
        FileVerb::Inspect => inspect(rt, words),
    }
}
