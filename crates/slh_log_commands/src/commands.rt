//! Which command is which function.
use crate::appending::{append, init};
use crate::checking::check;
use crate::leftovers::prune;
use crate::proving::prove;
use crate::watching::{growth, verify};
use clap::ArgMatches;
use slh_arguments::LogVerb;
use slh_arguments::bytes::Outcome;
use slh_arguments::host::Failure;

/// Does what the words ask for.
pub fn run<'a>(
    rt: &HostRuntime,
    verb: LogVerb,
    words: &ArgMatches<'a>,
) -> Result<Outcome, Failure<'a>> {
    match verb {
        LogVerb::Init => init(rt, words),
        LogVerb::Append => append(rt, words),
        LogVerb::Prune => prune(rt, words),
        LogVerb::Prove => prove(rt, words),
        LogVerb::Check => check(rt, words),
        LogVerb::Verify => verify(rt, words),
        LogVerb::Growth => growth(rt, words),
    }
}
