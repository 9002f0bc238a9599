//! What a program does to files.
ghost use Rattle.std.specs.Prelude.{◌≡◌, ◌≢◌, ℕ, Bool, List, IsTrue, OnOk, Result, None};
ghost use Rattle.whole_files.specs.declared.file.Failed.{Failed};
ghost use Rattle.whole_files.specs.Causes.{HasCause};
ghost use Rattle.whole_files.specs.Files.{Files, Same, Shows, Creates, Appends, Syncs, Renames, Links, Removes};
ghost use Rattle.whole_files.specs.Files.{CreatesFolder};

use crate::file::{Failed, Mode, Stat};

/// What a program does to files. Each call that changes something asks first that every outcome of
/// it is permitted, also where it fails or is cut short. So a function that is proved for every
/// `permits` makes of the files, wherever everything stops, what it requires to be permitted and
/// nothing else.
pub trait FileSystem {
    /// Whether it tells what stands at paths. Where it doesn't, nothing is said of that.
    ghost tells: { Bool };

    /// What stands at each path.
    ghost files: { Self → Files };

    /// What may be made of the files at any moment.
    ghost permits: { Files → Type 0 };

    /// Whether the name at a path is on the disk, with what it leads to. A change of names may lose
    /// it.
    ghost is_kept: { Self → List ℕ → Bool };

    /// How many calls failed, up to 2^64 - 1.
    ghost faults: { Self → ℕ };

    /// What stands at a path. No link is followed.
    fn stat(&mut self, path: &str) -> Result<Option<Stat>, Failed>
        ensures found { IsTrue tells → Shows (files self.old) path.now result }
        ensures same { IsTrue tells → Same (files self.old) (files self.new) }
        ensures cause { HasCause (faults self.old) (faults self.new) result };

    /// Makes a file without bytes, and says whether it did: not where something stands at the path.
    fn create_new(&mut self, path: &str, mode: Mode) -> Result<bool, Failed>
        requires { IsTrue tells → (n : Files) (r : Result Bool Failed)
            → Creates (files self.old) path.now mode r n → permits n }
        ensures files { IsTrue tells → Creates (files self.old) path.now mode result (files self.new) }
        ensures cause { HasCause (faults self.old) (faults self.new) result };

    /// Writes bytes at the end of the file that it made last. Where that fails, some may be
    /// written.
    fn append(&mut self, path: &str, piece: &[u8]) -> Result<(), Failed>
        requires there { IsTrue tells → files self.old path.now ≢ None }
        requires permitted { IsTrue tells → (n : Files) (r : Result (Unit {0}) Failed)
            → Appends (files self.old) path.now piece.now r n → permits n }
        ensures files { IsTrue tells → Appends (files self.old) path.now piece.now result (files self.new) }
        ensures cause { HasCause (faults self.old) (faults self.new) result };

    /// Brings the bytes of the file that it made last to the disk.
    fn sync(&mut self, path: &str) -> Result<(), Failed>
        requires there { IsTrue tells → files self.old path.now ≢ None }
        requires permitted { IsTrue tells → (n : Files) (r : Result (Unit {0}) Failed)
            → Syncs (files self.old) path.now r n → permits n }
        ensures files { IsTrue tells → Syncs (files self.old) path.now result (files self.new) }
        ensures cause { HasCause (faults self.old) (faults self.new) result };

    /// Gives what stands at a path another one, in place of what is there.
    fn rename(&mut self, from: &str, to: &str) -> Result<(), Failed>
        requires apart { from.now ≢ to.now }
        requires permitted { IsTrue tells → (n : Files) (r : Result (Unit {0}) Failed)
            → Renames (files self.old) from.now to.now r n → permits n }
        ensures files { IsTrue tells → Renames (files self.old) from.now to.now result (files self.new) }
        ensures cause { HasCause (faults self.old) (faults self.new) result };

    /// Gives a file one more name, and says whether it did: not where something stands there.
    fn link(&mut self, from: &str, to: &str) -> Result<bool, Failed>
        requires { IsTrue tells → (n : Files) (r : Result Bool Failed)
            → Links (files self.old) from.now to.now r n → permits n }
        ensures files { IsTrue tells → Links (files self.old) from.now to.now result (files self.new) }
        ensures cause { HasCause (faults self.old) (faults self.new) result };

    /// Takes a path away.
    fn remove(&mut self, path: &str) -> Result<(), Failed>
        requires { IsTrue tells → (n : Files) (r : Result (Unit {0}) Failed)
            → Removes (files self.old) path.now r n → permits n }
        ensures files { IsTrue tells → Removes (files self.old) path.now result (files self.new) }
        ensures cause { HasCause (faults self.old) (faults self.new) result };

    /// Makes a folder that is empty, and says whether it did: not where something stands at the
    /// path.
    fn make_folder(&mut self, path: &str) -> Result<bool, Failed>
        requires { IsTrue tells → (n : Files) (r : Result Bool Failed)
            → CreatesFolder (files self.old) path.now r n → permits n }
        ensures files { IsTrue tells → CreatesFolder (files self.old) path.now result (files self.new) }
        ensures cause { HasCause (faults self.old) (faults self.new) result };

    /// Brings the names in the folder of a path to the disk.
    fn sync_name(&mut self, path: &str) -> Result<(), Failed>
        ensures kept { IsTrue tells → OnOk result (IsTrue (is_kept self.new path.now)) }
        ensures keeps { IsTrue tells → (q : List ℕ)
            → IsTrue (is_kept self.old q) → IsTrue (is_kept self.new q) }
        ensures same { IsTrue tells → Same (files self.old) (files self.new) }
        ensures cause { HasCause (faults self.old) (faults self.new) result };
}
