//! Which command is which function.
use crate::{batches, chains, manifests, rings};
use clap::ArgMatches;
use slh_arguments::GroupVerb;
use slh_arguments::bytes::Outcome;
use slh_arguments::host::Failure;

/// Does what the words ask for.
pub fn run<'a>(
    rt: &HostRuntime,
    verb: GroupVerb,
    words: &ArgMatches<'a>,
) -> Result<Outcome, Failure<'a>> {
    match verb {
        GroupVerb::BatchSign => batches::sign(rt, words),
        GroupVerb::BatchVerify => batches::verify(rt, words),
        GroupVerb::ManifestSeal => manifests::seal(rt, words),
        GroupVerb::ManifestCheck => manifests::check(rt, words),
        GroupVerb::ChainDelegate => chains::delegate(rt, words),
        GroupVerb::ChainWalk => chains::walk(rt, words),
        GroupVerb::ChainShow => chains::show(rt, words),
        GroupVerb::ChainVerify => chains::verify(rt, words),
        GroupVerb::RingMaster => rings::make_master(rt, words),
        GroupVerb::RingKey => rings::key(rt, words),
        GroupVerb::RingRecord => rings::record(rt, words),
        GroupVerb::RingRestore => rings::restore(rt, words),
    }
}
