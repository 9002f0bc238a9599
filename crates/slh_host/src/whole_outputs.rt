//! Outputs that are written whole, over any file system. What stands at the place decides.
ghost use Rattle.std.specs.Prelude.{◌≡◌, ◌≢◌, ◌≤◌, ℕ, IfErr, IfOk, IsErrOf, IsTrue};
ghost use Rattle.slh_host.specs.Outputs.{IsBefore, IsFront, IsPutting, IsRegular, Puts, Spares};
ghost use Rattle.slh_host.specs.declared.whole_outputs.PutError.TheVariants.{Unread, Write};
ghost use Rattle.whole_files.specs.Causes.{HasCause, RoseBy};
ghost use Rattle.whole_files.specs.Files.{Files, Same};
ghost use Rattle.whole_files.specs.declared.error.WriteError.TheVariants.{Failed as NothingLeft, Left};
ghost use Rattle.whole_files.specs.declared.error.Written.TheVariants.{Settled, Unsettled};

use crate::secrets::{Kept, holds_other, holds_secret};
use slh_bytes::ByteString;
use std::alloc::Global;
use whole_files::{Failed, FileSystem, Kind, WriteError, Written, write_whole};

/// The first bytes of files, which a [`FileSystem`] doesn't tell.
pub trait Fronts<F: FileSystem> {
    /// How many looks failed, up to 2^64 - 1.
    ghost faults: { Self → ℕ };

    /// The first 2^16 bytes of the regular file at a path, or all of them. What is there can't be
    /// read, or there is no memory: `Failed`.
    fn front(&mut self, files: &F, path: &str) -> Result<ByteString, Failed>
        ensures front { IsTrue F.tells
            → IfOk result (λ front. IsFront (F.files files.now path.now) front) }
        ensures cause { HasCause (faults self.old) (faults self.new) result };
}

/// Why an output isn't written.
#[derive(Clone, Copy, Debug, PartialEq, Eq)]
pub enum PutError {
    /// The regular file that stands at the path may hold a secret.
    Secret,
    /// It may hold a verifying key, and those are kept.
    Key,
    /// The first bytes of the regular file that stands there can't be read.
    Unread,
    /// There was no memory to look into them.
    Memory,
    /// It can't be written whole.
    Write(WriteError),
}

// Refuses to replace a regular file that may hold what is kept.
fn check_front<F: FileSystem, R: Fronts<F>>(
    alloc: Global,
    kept: Kept,
    files: &F,
    fronts: &mut R,
    path: &str,
) -> Result<(), PutError>
    requires { IsTrue F.tells → IsRegular (F.files files.now path.now) }
    ensures spares { IsTrue F.tells → Spares kept (F.files files.now path.now) result }
    ensures before { IfErr result IsBefore }
    ensures unread { IsErrOf result Unread
        → RoseBy 1 (R.faults fronts.old) (R.faults fronts.new) }
    ensures looks { R.faults fronts.old ≤ R.faults fronts.new }
{
    let Ok(front) = fronts.front(files, path) else {
        return Err(PutError::Unread);
    };
    match holds_secret(alloc, front.as_slice()) {
        Ok(true) => return Err(PutError::Secret),
        Ok(false) => (),
        Err(_) => return Err(PutError::Memory),
    }
    match holds_other(alloc, kept, front.as_slice()) {
        Ok(true) => Err(PutError::Key),
        Ok(false) => Ok(()),
        Err(_) => Err(PutError::Memory),
    }
}

// Refuses to replace what may hold what is kept. A link, a folder and the like hold nothing.
fn check_kept<F: FileSystem, R: Fronts<F>>(
    alloc: Global,
    kept: Kept,
    files: &mut F,
    fronts: &mut R,
    path: &str,
) -> Result<(), PutError>
    ensures spares { IsTrue F.tells → Spares kept (F.files files.old path.now) result }
    ensures same { IsTrue F.tells → Same (F.files files.old) (F.files files.new) }
    ensures failed { IsErrOf result (Write NothingLeft)
        → RoseBy 1 (F.faults files.old) (F.faults files.new) }
    ensures left { IsErrOf result (Write Left) → ⊥ }
    ensures later { F.faults files.old ≤ F.faults files.new }
    ensures unread { IsErrOf result Unread
        → RoseBy 1 (R.faults fronts.old) (R.faults fronts.new) }
    ensures looks { R.faults fronts.old ≤ R.faults fronts.new }
{
    match files.stat(path) {
        Err(_) => Err(PutError::Write(WriteError::Failed)),
        Ok(None) => Ok(()),
        Ok(Some(stat)) => {
            if stat.kind == Kind::Regular {
                check_front(alloc, kept, files, fronts, path)
            } else {
                Ok(())
            }
        }
    }
}

/// Writes a file whole, in place of nothing or of a regular file that holds nothing which is kept:
/// beside its place under the part's name first, where nothing may stand. No link is followed.
pub fn put_whole<F: FileSystem, R: Fronts<F>>(
    alloc: Global,
    kept: Kept,
    files: &mut F,
    fronts: &mut R,
    path: &str,
    part: &str,
    bytes: &[u8],
) -> Result<Written, PutError>
    requires apart { part.now ≢ path.now }

    // Wherever everything stops, the path has what it had or the new bytes, all of them, and what is
    // kept and stood there stands there.
    requires permitted { IsTrue F.tells → (n : Files)
        → IsPutting kept (F.files files.old) path.now part.now bytes.now n → F.permits n }

    ensures files { IsTrue F.tells
        → Puts kept (F.files files.old) path.now part.now bytes.now result (F.files files.new) }
    ensures kept { IsTrue F.tells → IfOk result (λ written. written ≡ Settled
        → IsTrue (F.is_kept files.new path.now)) }
    ensures unsettled { IfOk result (λ written. written ≡ Unsettled
        → RoseBy 1 (F.faults files.old) (F.faults files.new)) }
    ensures failed { IsErrOf result (Write NothingLeft)
        → RoseBy 1 (F.faults files.old) (F.faults files.new) }
    ensures left { IsErrOf result (Write Left)
        → RoseBy 2 (F.faults files.old) (F.faults files.new) }
    ensures later { F.faults files.old ≤ F.faults files.new }

    // `Unread` is told only where a look failed.
    ensures unread { IsErrOf result Unread
        → RoseBy 1 (R.faults fronts.old) (R.faults fronts.new) }
    ensures looks { R.faults fronts.old ≤ R.faults fronts.new }
{
    check_kept(alloc, kept, files, fronts, path)?;
    match write_whole(files, path, part, bytes) {
        Ok(written) => Ok(written),
        Err(error) => Err(PutError::Write(error)),
    }
}
