//! The first bytes of files in memory, for outputs of `slh_host`.
ghost use Rattle.std.specs.Prelude.{◌≡◌, ◌≤◌, IfOk, take};
ghost use Rattle.whole_files.specs.Causes.{RoseBy};

use slh_host::Fronts;
use slh_jobs::ByteString;
use std::alloc::Global;
use whole_files::{Failed, MemFiles};

const FRONT: usize = 1 << 16;

/// The first bytes of files in memory.
#[derive(Drop)]
pub(crate) struct MemFronts {
    alloc: Global,
    faults: u64,
}

impl MemFronts {
    pub(crate) fn new(alloc: Global) -> Self {
        MemFronts { alloc, faults: 0 }
    }

    // Counts a look that failed.
    fn fail(&mut self) -> Failed
        ensures rose { RoseBy 1 self.old.faults self.new.faults }
        ensures later { self.old.faults ≤ self.new.faults }
    {
        self.faults = self.faults.saturating_add(1);
        Failed
    }
}

// The first bytes, or all.
fn front_of(bytes: &[u8]) -> &[u8]
    ensures { result.now ≡ take 65536 bytes.now }
{
    if bytes.len() > FRONT {
        &bytes[..FRONT]
    } else {
        bytes
    }
}

impl Fronts<MemFiles> for MemFronts {
    ghost faults = { λ s. s.faults };

    fn front(&mut self, files: &MemFiles, path: &str) -> Result<ByteString, Failed> {
        let Some(bytes) = files.bytes(path) else {
            return Err(self.fail());
        };
        match ByteString::from_slice(self.alloc, front_of(bytes)) {
            Ok(front) => Ok(front),
            Err(_) => Err(self.fail()),
        }
    }
}
