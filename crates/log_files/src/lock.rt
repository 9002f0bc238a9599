//! The file that says who writes.
ghost use Rattle.std.specs.Prelude.{◌≤◌, IsTrue, Result, IsErrOf};
ghost use Rattle.log_files.specs.Publishing.{IsSeparate};
ghost use Rattle.whole_files.specs.Causes.{HasCause, RoseBy};
ghost use Rattle.whole_files.specs.Files.{Files, Removes};
ghost use Rattle.whole_files.specs.Whole.{IsMaking, MakesNew};
ghost use Rattle.whole_files.specs.declared.error.WriteError.TheVariants.{Failed as NothingLeft, Left};
ghost use Rattle.whole_files.specs.declared.file.Failed as call;
ghost use Rattle.whole_files.specs.declared.file.Mode.TheVariants.{Masked};

use crate::publishing::Piece;
use whole_files::{Failed, FileSystem, Mode, WriteError, make_new};

/// Takes a lock: makes its file, with a text that tells who holds it, where nothing stands. It is
/// `Taken` where something stands there. A lock needn't outlive a loss of power.
pub fn take_lock<F: FileSystem>(fs: &mut F, lock: &Piece<'_>) -> Result<(), WriteError>
    requires apart { IsSeparate lock.now }
    requires permitted { IsTrue F.tells → (n : Files)
        → IsMaking (F.files fs.old) lock.now.path.now lock.now.part.now Masked
        lock.now.bytes.now n → F.permits n }
    ensures files { IsTrue F.tells
        → MakesNew (F.files fs.old) lock.now.path.now lock.now.part.now Masked
        lock.now.bytes.now result (F.files fs.new) }
    ensures failed { IsErrOf result NothingLeft → RoseBy 1 (F.faults fs.old) (F.faults fs.new) }
    ensures left { IsErrOf result Left → RoseBy 1 (F.faults fs.old) (F.faults fs.new) }
    ensures later { F.faults fs.old ≤ F.faults fs.new }
{
    match make_new(fs, lock.path, lock.part, Mode::Masked, lock.bytes) {
        Ok(_) => Ok(()),
        Err(error) => Err(error),
    }
}

/// Frees a lock: takes its file away.
pub fn free_lock<F: FileSystem>(fs: &mut F, path: &str) -> Result<(), Failed>
    requires { IsTrue F.tells → (n : Files) (r : Result (Unit {0}) call.Failed)
        → Removes (F.files fs.old) path.now r n → F.permits n }
    ensures files { IsTrue F.tells → Removes (F.files fs.old) path.now result (F.files fs.new) }
    ensures cause { HasCause (F.faults fs.old) (F.faults fs.new) result }
{
    fs.remove(path)
}
