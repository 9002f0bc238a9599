//! What signatures are made random by.
ghost use Rattle.std.specs.Prelude.{◌≡◌};
ghost use Rattle.std.specs.Option.{option_copied};
ghost use Rattle.slh_arguments.specs.Randomness.{random_of};
ghost use Rattle.slh_host.specs.Sets.{scheme_for};

use crate::names;
use clap::ArgMatches;
use slh_host::bytes::Set;
use slh_host::{Failure, random};

/// What randomizers are made from: nothing for `--deterministic`.
#[derive(Drop)]
pub struct Randomness(Option<[u8; 32]>);

impl Randomness {
    /// Fresh bytes, unless the words say otherwise.
    pub fn new(rt: &HostRuntime, words: &ArgMatches<'_>) -> Result<Self, Failure<'static>> {
        if words.get_flag(names::DETERMINISTIC) {
            return Ok(Randomness(None));
        }
        Ok(Randomness(Some(random::<32>(rt)?)))
    }

    /// As many as a randomizer of a set is made from.
    pub fn of_set(&self, set: Set) -> Option<&[u8]>
        ensures { option_copied result ≡ random_of (scheme_for set).n self.now }
    {
        match &self.0 {
            Some(bytes) => Some(&bytes[..set.n()]),
            None => None,
        }
    }
}
