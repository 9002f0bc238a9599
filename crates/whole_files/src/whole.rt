//! Files that are written whole or not at all.
ghost use Rattle.std.specs.Prelude.{◌≡◌, ◌≢◌, ◌≤◌, ℕ, List, IsTrue, IfOk, Result, IsErrOf};
ghost use Rattle.whole_files.specs.declared.file.Failed.{Failed};
ghost use Rattle.whole_files.specs.declared.error.WriteError.TheVariants.{Failed as NothingLeft, Left};
ghost use Rattle.whole_files.specs.declared.error.Written.TheVariants.{Settled, Unsettled};
ghost use Rattle.whole_files.specs.Causes.{HasCause, RoseBy};
ghost use Rattle.whole_files.specs.Files.{Files, Removes, Same};
ghost use Rattle.whole_files.specs.Modes.{secret_mode};
ghost use Rattle.whole_files.specs.Whole.{Fills, FindsMode, IsFilling, IsPlacing, IsWriting, Places};
ghost use Rattle.whole_files.specs.Whole.{IsMaking, MakesNew, TakesAway, Writes};

use crate::error::{WriteError, Written};
use crate::file::{Failed, Kind, Mode};
use crate::file_system::FileSystem;

/// The mode of a secret.
pub const SECRET_MODE: Mode = Mode::Exact(0o600);

// Writes bytes at the end of a file, and brings them to the disk.
fn fill<F: FileSystem>(fs: &mut F, part: &str, bytes: &[u8]) -> Result<(), Failed>
    requires there { IsTrue F.tells → F.files fs.old part.now ≢ None }
    requires permitted { IsTrue F.tells → (n : Files)
        → IsFilling (F.files fs.old) part.now bytes.now n → F.permits n }
    ensures files { IsTrue F.tells
        → Fills (F.files fs.old) part.now bytes.now result (F.files fs.new) }
    ensures cause { HasCause (F.faults fs.old) (F.faults fs.new) result }
{
    fs.append(part, bytes)?;
    fs.sync(part)
}

// Takes away what was begun, and says what is left after a call that failed.
fn take_away<F: FileSystem>(fs: &mut F, part: &str) -> WriteError
    requires { IsTrue F.tells → (n : Files) (r : Result (Unit {0}) Failed)
        → Removes (F.files fs.old) part.now r n → F.permits n }
    ensures files { IsTrue F.tells → TakesAway (F.files fs.old) part.now result (F.files fs.new) }
    ensures left { result ≡ Left → RoseBy 1 (F.faults fs.old) (F.faults fs.new) }
    ensures later { F.faults fs.old ≤ F.faults fs.new }
{
    match fs.remove(part) {
        Ok(()) => WriteError::Failed,
        Err(_) => WriteError::Left,
    }
}

// Makes a file where nothing stands, writes it and brings it to the disk, or takes it away again.
fn place<F: FileSystem>(fs: &mut F, part: &str, mode: Mode, bytes: &[u8]) -> Result<(), WriteError>
    requires { IsTrue F.tells → (n : Files)
        → IsPlacing (F.files fs.old) part.now mode bytes.now n → F.permits n }
    ensures files { IsTrue F.tells
        → Places (F.files fs.old) part.now mode bytes.now result (F.files fs.new) }
    ensures failed { IsErrOf result NothingLeft → RoseBy 1 (F.faults fs.old) (F.faults fs.new) }
    ensures left { IsErrOf result Left → RoseBy 2 (F.faults fs.old) (F.faults fs.new) }
    ensures later { F.faults fs.old ≤ F.faults fs.new }
{
    match fs.create_new(part, mode) {
        Err(_) => Err(WriteError::Failed),
        Ok(false) => Err(WriteError::Taken),
        Ok(true) => match fill(fs, part, bytes) {
            Ok(()) => Ok(()),
            Err(_) => Err(take_away(fs, part)),
        },
    }
}

// The mode that a file is to have which is written at a path.
fn mode_for<F: FileSystem>(fs: &mut F, path: &str) -> Result<Mode, WriteError>
    ensures mode { IsTrue F.tells → FindsMode (F.files fs.old) path.now result }
    ensures same { IsTrue F.tells → Same (F.files fs.old) (F.files fs.new) }
    ensures failed { IsErrOf result NothingLeft → RoseBy 1 (F.faults fs.old) (F.faults fs.new) }
    ensures left { IsErrOf result Left → ⊥ }
    ensures later { F.faults fs.old ≤ F.faults fs.new }
{
    match fs.stat(path) {
        Err(_) => Err(WriteError::Failed),
        Ok(None) => Ok(Mode::Masked),
        Ok(Some(stat)) => {
            if stat.kind == Kind::Regular {
                Ok(Mode::Exact(stat.mode))
            } else {
                Err(WriteError::NotRegular)
            }
        }
    }
}

// Brings the name at a path to the disk.
pub(crate) fn settle<F: FileSystem>(fs: &mut F, path: &str) -> Written
    ensures kept { IsTrue F.tells → result ≡ Settled → IsTrue (F.is_kept fs.new path.now) }
    ensures keeps { IsTrue F.tells → (q : List ℕ)
        → IsTrue (F.is_kept fs.old q) → IsTrue (F.is_kept fs.new q) }
    ensures same { IsTrue F.tells → Same (F.files fs.old) (F.files fs.new) }
    ensures unsettled { result ≡ Unsettled → RoseBy 1 (F.faults fs.old) (F.faults fs.new) }
    ensures later { F.faults fs.old ≤ F.faults fs.new }
{
    match fs.sync_name(path) {
        Ok(()) => Written::Settled,
        Err(_) => Written::Unsettled,
    }
}

/// Writes a file in place of a regular file, whose very mode it takes, or of nothing. It is written
/// whole as `part` first, where nothing may stand, and brought to the disk; then it takes the place
/// of what is at the path, and the folder is brought to the disk.
pub fn write_whole<F: FileSystem>(
    fs: &mut F,
    path: &str,
    part: &str,
    bytes: &[u8],
) -> Result<Written, WriteError>
    requires apart { part.now ≢ path.now }

    // Wherever everything stops, the path has what it had or the new bytes, all of them.
    requires permitted { IsTrue F.tells → (n : Files)
        → IsWriting (F.files fs.old) path.now part.now bytes.now n → F.permits n }

    ensures files { IsTrue F.tells
        → Writes (F.files fs.old) path.now part.now bytes.now result (F.files fs.new) }
    ensures kept { IsTrue F.tells → IfOk result (λ written. written ≡ Settled
        → IsTrue (F.is_kept fs.new path.now)) }
    ensures unsettled { IfOk result (λ written. written ≡ Unsettled
        → RoseBy 1 (F.faults fs.old) (F.faults fs.new)) }
    ensures failed { IsErrOf result NothingLeft → RoseBy 1 (F.faults fs.old) (F.faults fs.new) }
    ensures left { IsErrOf result Left → RoseBy 2 (F.faults fs.old) (F.faults fs.new) }
    ensures later { F.faults fs.old ≤ F.faults fs.new }
{
    let mode = mode_for(fs, path)?;
    place(fs, part, mode, bytes)?;
    match fs.rename(part, path) {
        Ok(()) => Ok(settle(fs, path)),
        Err(_) => Err(take_away(fs, part)),
    }
}

/// Makes a file where nothing stands, without the folder's sync. After `Left` it may be there,
/// whole.
pub(crate) fn link_new<F: FileSystem>(
    fs: &mut F,
    path: &str,
    part: &str,
    mode: Mode,
    bytes: &[u8],
) -> Result<(), WriteError>
    requires apart { part.now ≢ path.now }
    requires permitted { IsTrue F.tells → (n : Files)
        → IsMaking (F.files fs.old) path.now part.now mode bytes.now n → F.permits n }
    ensures files { IsTrue F.tells
        → MakesNew (F.files fs.old) path.now part.now mode bytes.now result (F.files fs.new) }
    ensures failed { IsErrOf result NothingLeft → RoseBy 1 (F.faults fs.old) (F.faults fs.new) }
    ensures left { IsErrOf result Left → RoseBy 1 (F.faults fs.old) (F.faults fs.new) }
    ensures later { F.faults fs.old ≤ F.faults fs.new }
{
    place(fs, part, mode, bytes)?;
    match fs.link(part, path) {
        Ok(true) => match fs.remove(part) {
            Ok(()) => Ok(()),
            Err(_) => Err(WriteError::Left),
        },
        Ok(false) => match fs.remove(part) {
            Ok(()) => Err(WriteError::Taken),
            Err(_) => Err(WriteError::Left),
        },
        Err(_) => Err(take_away(fs, part)),
    }
}

/// Makes a file where nothing stands. It is written whole as `part` first, with its mode from the
/// first byte on, and brought to the disk; then it gets the path as its name, in place of nothing,
/// loses the other one, and the folder is brought to the disk. After `Left` it may stand at the
/// path, whole.
pub fn make_new<F: FileSystem>(
    fs: &mut F,
    path: &str,
    part: &str,
    mode: Mode,
    bytes: &[u8],
) -> Result<Written, WriteError>
    requires apart { part.now ≢ path.now }

    // Wherever everything stops, nothing that stood at the path is replaced.
    requires permitted { IsTrue F.tells → (n : Files)
        → IsMaking (F.files fs.old) path.now part.now mode bytes.now n → F.permits n }

    ensures files { IsTrue F.tells
        → MakesNew (F.files fs.old) path.now part.now mode bytes.now result (F.files fs.new) }
    ensures kept { IsTrue F.tells → IfOk result (λ written. written ≡ Settled
        → IsTrue (F.is_kept fs.new path.now)) }
    ensures unsettled { IfOk result (λ written. written ≡ Unsettled
        → RoseBy 1 (F.faults fs.old) (F.faults fs.new)) }
    ensures failed { IsErrOf result NothingLeft → RoseBy 1 (F.faults fs.old) (F.faults fs.new) }
    ensures left { IsErrOf result Left → RoseBy 1 (F.faults fs.old) (F.faults fs.new) }
    ensures later { F.faults fs.old ≤ F.faults fs.new }
{
    link_new(fs, path, part, mode, bytes)?;
    Ok(settle(fs, path))
}

/// Makes a secret: a new file with the mode 600 from its first byte on.
pub fn make_secret<F: FileSystem>(
    fs: &mut F,
    path: &str,
    part: &str,
    bytes: &[u8],
) -> Result<Written, WriteError>
    requires apart { part.now ≢ path.now }
    requires permitted { IsTrue F.tells → (n : Files)
        → IsMaking (F.files fs.old) path.now part.now secret_mode bytes.now n → F.permits n }
    ensures files { IsTrue F.tells
        → MakesNew (F.files fs.old) path.now part.now secret_mode bytes.now result
        (F.files fs.new) }
    ensures kept { IsTrue F.tells → IfOk result (λ written. written ≡ Settled
        → IsTrue (F.is_kept fs.new path.now)) }
    ensures unsettled { IfOk result (λ written. written ≡ Unsettled
        → RoseBy 1 (F.faults fs.old) (F.faults fs.new)) }
    ensures failed { IsErrOf result NothingLeft → RoseBy 1 (F.faults fs.old) (F.faults fs.new) }
    ensures left { IsErrOf result Left → RoseBy 1 (F.faults fs.old) (F.faults fs.new) }
    ensures later { F.faults fs.old ≤ F.faults fs.new }
{
    make_new(fs, path, part, SECRET_MODE, bytes)
}
