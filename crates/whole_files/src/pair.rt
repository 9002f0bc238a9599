//! A secret and a public file that are made together.
ghost use Rattle.std.specs.Prelude.{◌≡◌, ◌≢◌, ◌≤◌, ◌↔◌, IsTrue, IfOk, Result, IsErrOf};
ghost use Rattle.whole_files.specs.declared.file.Failed.{Failed};
ghost use Rattle.whole_files.specs.declared.error.WriteError.TheVariants.{Failed as NothingLeft, Left};
ghost use Rattle.whole_files.specs.declared.error.Written.TheVariants.{Settled, Unsettled};
ghost use Rattle.whole_files.specs.Causes.{RoseBy};
ghost use Rattle.whole_files.specs.Files.{Files, Removes, Same};
ghost use Rattle.whole_files.specs.Pair.{AreApart, IsPairing, Pairs, TakesBack};

use crate::error::{WriteError, Written};
use crate::file::Mode;
use crate::file_system::FileSystem;
use crate::whole::{SECRET_MODE, link_new, settle};

/// Whether the paths of a secret and its part, and of a public file and its part, are four.
pub fn are_apart(key_path: &str, key_part: &str, public_path: &str, public_part: &str) -> bool
    ensures { IsTrue result
        ↔ AreApart key_path.now key_part.now public_path.now public_part.now }
{
    key_part != key_path
        && public_part != public_path
        && key_path != public_path
        && key_path != public_part
        && key_part != public_path
        && key_part != public_part
}

// Takes away a file that was made, after an error that left nothing, and says what is left.
fn take_back<F: FileSystem>(fs: &mut F, path: &str, error: WriteError) -> WriteError
    requires { IsTrue F.tells → (n : Files) (r : Result (Unit {0}) Failed)
        → Removes (F.files fs.old) path.now r n → F.permits n }
    ensures files { IsTrue F.tells
        → TakesBack (F.files fs.old) path.now error result (F.files fs.new) }
    ensures failed { result ≡ NothingLeft → error ≡ NothingLeft }
    ensures left { result ≡ Left → error ≢ Left → RoseBy 1 (F.faults fs.old) (F.faults fs.new) }
    ensures later { F.faults fs.old ≤ F.faults fs.new }
{
    if let WriteError::Left = error {
        return WriteError::Left;
    }
    match fs.remove(path) {
        Ok(()) => error,
        Err(_) => WriteError::Left,
    }
}

// Brings the names at two paths to the disk.
fn settle_both<F: FileSystem>(fs: &mut F, one: &str, other: &str) -> Written
    ensures kept { IsTrue F.tells → result ≡ Settled
        → IsTrue (F.is_kept fs.new one.now) × IsTrue (F.is_kept fs.new other.now) }
    ensures same { IsTrue F.tells → Same (F.files fs.old) (F.files fs.new) }
    ensures unsettled { result ≡ Unsettled → RoseBy 1 (F.faults fs.old) (F.faults fs.new) }
    ensures later { F.faults fs.old ≤ F.faults fs.new }
{
    match settle(fs, one) {
        Written::Settled => settle(fs, other),
        Written::Unsettled => Written::Unsettled,
    }
}

/// Makes a secret, with the mode 600 from its first byte on, and a public file, both or neither,
/// where nothing stands. After `Left` one or both may stand there, each whole.
pub fn make_pair<F: FileSystem>(
    fs: &mut F,
    key_path: &str,
    key_part: &str,
    key: &[u8],
    public_path: &str,
    public_part: &str,
    public: &[u8],
) -> Result<Written, WriteError>
    requires apart { AreApart key_path.now key_part.now public_path.now public_part.now }

    // Wherever everything stops, each path has what it had, or its file, whole, where nothing
    // stood.
    requires permitted { IsTrue F.tells → (n : Files)
        → IsPairing (F.files fs.old) key_path.now key_part.now key.now
        public_path.now public_part.now public.now n → F.permits n }

    ensures files { IsTrue F.tells
        → Pairs (F.files fs.old) key_path.now key_part.now key.now
        public_path.now public_part.now public.now result (F.files fs.new) }
    ensures kept { IsTrue F.tells → IfOk result (λ written. written ≡ Settled
        → IsTrue (F.is_kept fs.new key_path.now) × IsTrue (F.is_kept fs.new public_path.now)) }
    ensures unsettled { IfOk result (λ written. written ≡ Unsettled
        → RoseBy 1 (F.faults fs.old) (F.faults fs.new)) }
    ensures failed { IsErrOf result NothingLeft → RoseBy 1 (F.faults fs.old) (F.faults fs.new) }
    ensures left { IsErrOf result Left → RoseBy 1 (F.faults fs.old) (F.faults fs.new) }
    ensures later { F.faults fs.old ≤ F.faults fs.new }
{
    link_new(fs, key_path, key_part, SECRET_MODE, key)?;
    match link_new(fs, public_path, public_part, Mode::Masked, public) {
        Ok(()) => Ok(settle_both(fs, key_path, public_path)),
        Err(error) => Err(take_back(fs, key_path, error)),
    }
}
