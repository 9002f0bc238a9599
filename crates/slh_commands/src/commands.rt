//! The one place that knows every command.
use clap::ArgMatches;
use slh_file_commands::arguments::bytes::Outcome;
use slh_file_commands::arguments::host::Failure;
use slh_file_commands::arguments::{Verb, WordError, chosen};

/// Does what the words ask for.
pub fn outcome_of<'a>(rt: &HostRuntime, matches: &ArgMatches<'a>) -> Result<Outcome, Failure<'a>> {
    match chosen(matches) {
        Some((Verb::File(verb), words)) => slh_file_commands::run(rt, verb, words),
        Some((Verb::Group(verb), words)) => slh_group_commands::run(rt, verb, words),
        Some((Verb::Log(verb), words)) => slh_log_commands::run(rt, verb, words),
        None => Err(Failure::alone(WordError::NoCommand)),
    }
}
