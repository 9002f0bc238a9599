//! A store in memory, whose reads fail as a script says.
ghost use Rattle.std.specs.Prelude.{◌≡◌, ◌↔◌, ◌+◌, ◌^◌, Some, min, Contains, IsErr, is_ok};
ghost use Rattle.std.specs.Prelude.{IfOk, OnOk, OnErr, if◌then◌else◌, length};
ghost use Rattle.std.specs.Option.{option_map};
ghost use Rattle.std.specs.FinMap as map;
ghost use Rattle.line_serve.specs.Causes.{HasCause};
ghost use Rattle.line_serve.specs.Scripts.{one_more};
ghost use Rattle.slh_manifest.specs.Files.{Reads, ReadsWithin, bytes_of, read_count};
ghost use Rattle.slh_manifest.specs.Memory.{store_faults, store_files, store_fails, store_number};

use crate::store::{Store, copy_from};
use line_serve::{ByteString, Failed, Script};
use std::alloc::{AllocError, Global};
use std::collections::BTreeMap;

/// A store of which chosen reads fail. The others give as many bytes as are asked for, while there
/// are any. Names are kept in their order: one is found in a time that grows with the logarithm of
/// their number.
#[derive(Drop)]
pub struct MemStore {
    alloc: Global,
    files: BTreeMap<Vec<u8>, ByteString>,
    script: Script,
}

impl MemStore {
    /// A store without names, of which the reads with the numbers `fails` fail, the first read
    /// being 0. Takes no memory.
    pub fn new(alloc: Global, fails: Vec<u64>) -> Self
        ensures files { store_files result ≡ map.empty }
        ensures fails { store_fails result ≡ fails.items }
        ensures number { store_number result ≡ 0 }
        ensures faults { store_faults result ≡ 0 }
    {
        MemStore {
            alloc,
            files: BTreeMap::new(alloc),
            script: Script::new(fails),
        }
    }

    /// Gives a name these bytes, in place of any that it had.
    pub fn put(&mut self, name: &[u8], bytes: &[u8]) -> Result<(), AllocError>
        ensures ok { OnOk result
            (store_files self.new ≡ map.insert (store_files self.old) name.now bytes.now) }
        ensures err { OnErr result (store_files self.new ≡ store_files self.old) }
        ensures fails { store_fails self.new ≡ store_fails self.old }
        ensures number { store_number self.new ≡ store_number self.old }
        ensures faults { store_faults self.new ≡ store_faults self.old }
    {
        let name = Vec::from_slice(self.alloc, name)?;
        let bytes = ByteString::from_slice(self.alloc, bytes)?;
        match self.files.insert(name, bytes) {
            Ok(_) => Ok(()),
            Err(_) => Err(AllocError),
        }
    }
}

impl Store for MemStore {
    ghost files = { λ s. Some (store_files s) };

    ghost faults = { λ s. store_faults s };

    fn read(&mut self, name: &[u8], at: u64, buf: &mut [u8]) -> Result<Option<usize>, Failed>
        ensures bound { ReadsWithin result buf.new }
        ensures bytes { Reads (Some (store_files self.old)) name.now at result buf.new }
        ensures whole { IfOk result (λ answer. answer ≡ option_map
            (read_count at (length buf.new)) (bytes_of (store_files self.old) name.now)) }
        ensures kept { Some (store_files self.new) ≡ Some (store_files self.old) }
        ensures cause { HasCause (store_faults self.old) (store_faults self.new) result }
        ensures listed { IsErr result ↔ Contains (store_fails self.old) (store_number self.old) }
        ensures counted { store_faults self.new ≡ (if is_ok result
            then store_faults self.old else one_more (store_faults self.old)) }
        ensures number { store_number self.new ≡ min (store_number self.old + 1) (2 ^ 64) }
        ensures fails { store_fails self.new ≡ store_fails self.old }
        ensures same { OnErr result (buf.new ≡ buf.old) }
    {
        self.script.next()?;
        match self.files.get(name) {
            Some(bytes) => Ok(Some(copy_from(bytes.as_slice(), at, buf))),
            None => Ok(None),
        }
    }
}
