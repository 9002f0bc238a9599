//! Folders, made where nothing stands.
ghost use Rattle.std.specs.Prelude.{◌≡◌, ◌≢◌, ◌≤◌, IsTrue, IfErr, OnOk, None};
ghost use Rattle.log_files.specs.Folders.{Folders, HasFolderFaults, IsFolderMade};
ghost use Rattle.log_files.specs.declared.error.FolderError.TheVariants.{Unsettled};
ghost use Rattle.whole_files.specs.Files.{Files, Same};

use crate::error::FolderError;
use whole_files::{FileSystem, Kind};

// Whether a folder stands at a path where something does.
fn stands<F: FileSystem>(fs: &mut F, path: &str) -> Result<(), FolderError>
    requires { IsTrue F.tells → F.files fs.old path.now ≢ None }
    ensures files { IsTrue F.tells
        → Folders (F.files fs.old) path.now result (F.files fs.new) }
    ensures cause { HasFolderFaults result (F.faults fs.old) (F.faults fs.new) }
    ensures later { F.faults fs.old ≤ F.faults fs.new }
{
    match fs.stat(path) {
        Err(_) => Err(FolderError::Failed),
        Ok(Some(stat)) if stat.kind == Kind::Folder => Ok(()),
        Ok(_) => Err(FolderError::NoFolder),
    }
}

// Brings the name of a folder that is there to the disk.
fn settle<F: FileSystem>(fs: &mut F, path: &str) -> Result<(), FolderError>
    ensures same { IsTrue F.tells → Same (F.files fs.old) (F.files fs.new) }
    ensures kept { IsTrue F.tells → OnOk result (IsTrue (F.is_kept fs.new path.now)) }
    ensures only { IfErr result (λ e. e ≡ Unsettled) }
    ensures cause { HasFolderFaults result (F.faults fs.old) (F.faults fs.new) }
    ensures later { F.faults fs.old ≤ F.faults fs.new }
{
    match fs.sync_name(path) {
        Ok(()) => Ok(()),
        Err(_) => Err(FolderError::Unsettled),
    }
}

/// Makes a folder where nothing stands, and brings its name to the disk, whoever made it. No link
/// is followed.
pub fn make_folder<F: FileSystem>(fs: &mut F, path: &str) -> Result<(), FolderError>
    // Wherever everything stops, nothing is changed, or an empty folder stands where nothing stood.
    requires permitted { IsTrue F.tells → (n : Files)
        → IsFolderMade (F.files fs.old) path.now n → F.permits n }

    ensures files { IsTrue F.tells
        → Folders (F.files fs.old) path.now result (F.files fs.new) }
    ensures kept { IsTrue F.tells → OnOk result (IsTrue (F.is_kept fs.new path.now)) }
    ensures cause { HasFolderFaults result (F.faults fs.old) (F.faults fs.new) }
    ensures later { F.faults fs.old ≤ F.faults fs.new }
{
    match fs.make_folder(path) {
        Err(_) => return Err(FolderError::Failed),
        Ok(true) => (),
        Ok(false) => stands(fs, path)?,
    }
    settle(fs, path)
}
