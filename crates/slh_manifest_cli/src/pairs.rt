//! Pairs of a name and its bytes, and a store of them.
ghost use Rattle.std.specs.Prelude.{◌≡◌, [], Some, IfOk, OnOk, OnErr};
ghost use Rattle.std.specs.FinMap as map;
ghost use Rattle.line_serve.specs.Causes.{HasCause};
ghost use Rattle.line_serve.specs.Fields.{contents};
ghost use Rattle.slh_manifest.specs.Files.{Reads, ReadsWithin};
ghost use Rattle.slh_manifest.specs.Memory.{store_files, store_fails};
ghost use Rattle.slh_manifest_cli.specs.Replies.{files_with, has_pairs as spec_has_pairs};

use line_serve::Words;
use slh_line::word_at;
use slh_manifest::{Failed, MemStore, Store};
use std::alloc::{AllocError, Global};

/// The field with the first name: before it stand a set, a command, and two fields more.
pub(crate) const FIRST_NAME: usize = 4;

const MAX_FIELDS: usize = FIRST_NAME + 2 * 4096;

/// Whether a line has so many fields at least and at most those of 4096 pairs, each name with its
/// bytes.
pub(crate) fn has_pairs(fields: &[&[u8]], least: usize) -> bool
    ensures { result ≡ spec_has_pairs least (contents fields.now) }
{
    least <= fields.len() && fields.len() <= MAX_FIELDS && fields.len() % 2 == 0
}

/// A store in memory of which no read fails.
#[derive(Drop)]
pub(crate) struct PairStore {
    inner: MemStore,
    ghost quiet: { store_fails inner ≡ [] },
}

impl PairStore {
    /// A store without names.
    pub(crate) fn new(alloc: Global) -> Self
        ensures { store_files result.inner ≡ map.empty }
    {
        PairStore {
            inner: MemStore::new(alloc, Vec::new(alloc)),
        }
    }

    /// Gives a name these bytes, in place of any that it had.
    pub(crate) fn put(&mut self, name: &[u8], bytes: &[u8]) -> Result<(), AllocError>
        ensures { OnOk result (store_files self.new.inner
            ≡ map.insert (store_files self.old.inner) name.now bytes.now) }
    {
        self.inner.put(name, bytes)
    }
}

impl Store for PairStore {
    ghost files = { λ s. Some (store_files s.inner) };

    ghost faults = { λ _. 0 };

    fn read(&mut self, name: &[u8], at: u64, buf: &mut [u8]) -> Result<Option<usize>, Failed> {
        match self.inner.read(name, at, buf) {
            Ok(answer) => Ok(answer),
            Err(_) => unreachable!(),
        }
    }
}

/// The store of pairs, of which a later one counts.
pub(crate) fn store_of(alloc: Global, pairs: &Words) -> Result<PairStore, AllocError>
    ensures { IfOk result (λ store. store_files store.inner ≡ files_with map.empty pairs.now) }
{
    let mut store = PairStore::new(alloc);
    'each_pair: for i in 0..pairs.len() / 2 {
        store.put(word_at(pairs, 2 * i), word_at(pairs, 2 * i + 1))?;
    }
    Ok(store)
}
