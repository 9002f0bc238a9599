//! Files in memory.
ghost use Rattle.std.specs.Prelude.{◌≡◌, ◌≢◌, ◌<◌, ◌≤◌, ℕ, List, length, IfSome, OnOk, OnErr, IsErr, vec_len, true, false, []};
ghost use Rattle.whole_files.specs.NameTable.{ArePlaces, place_of};

use crate::file::{Failed, FileId, Kind, Mode, Stat};
use crate::file_system::FileSystem;
use crate::inode::{self, Inode};
use crate::names::{self, Names};
use crate::script::Script;
use std::alloc::{AllocError, Global};
use std::collections::BTreeMap;

/// Files in memory, of which chosen calls fail, and all from some call on. All names are in one
/// folder.
#[derive(Drop)]
pub struct MemFiles {
    alloc: Global,
    // whether the names are on the disk
    settled: bool,
    names: Names,
    inodes: Vec<Inode>,
    script: Script,
    ghost within: { ArePlaces names.entries (length inodes.items) },
}

impl MemFiles {
    ghost use Rattle.whole_files.specs.Files.{IsFresh, Moves, Node, Puts, Same};
    ghost use Rattle.std.specs.Option.{option_copied};
    ghost use Rattle.whole_files.specs.declared.file.Mode.TheVariants.{Exact};
    ghost use Rattle.std.specs.Prelude.{option_map};
    ghost use Rattle.whole_files.specs.Inodes.{node_of};
    ghost use Rattle.whole_files.specs.Memory.{mem_files};
    ghost use Rattle.std.specs.Prelude.{Some, None, if◌then◌else◌};
    ghost use Rattle.std.specs.Str.{bytes_eq};

    /// No files. The calls with these numbers fail, and all from `stop` on.
    pub fn new(alloc: Global, fails: Vec<u64>, stop: u64) -> Self
        ensures { (q : List ℕ) → mem_files result q ≡ None }
    {
        MemFiles {
            alloc,
            settled: true,
            names: BTreeMap::new(alloc),
            inodes: Vec::new(alloc),
            script: Script::new(fails, stop),
        }
    }

    /// Puts a file with these bits for its mode at a path, instead of what stands there. All of it
    /// is on the disk.
    pub fn put(&mut self, path: &str, kind: Kind, bits: u32, bytes: &[u8]) -> Result<(), AllocError>
        ensures ok { OnOk result ((node : Node)
            × Puts (mem_files self.old) path.now (Some node) (mem_files self.new)
            × (node.kind ≡ kind) × (node.mode ≡ Exact bits) × (node.bytes ≡ bytes.now)) }
        ensures err { OnErr result (Same (mem_files self.old) (mem_files self.new)) }
    {
        let bytes = Vec::from_slice(self.alloc, bytes)?;
        let inode = Inode {
            kind,
            mode: Mode::Exact(bits),
            synced: true,
            bytes,
        };
        self.make(path, inode)?;
        Ok(())
    }

    /// The bytes of what stands at a path.
    pub fn bytes(&self, path: &str) -> Option<&[u8]>
        ensures { option_copied result ≡ option_map (λ node. node.bytes) (mem_files self.now path.now) }
    {
        match self.find(path) {
            Some(place) => {
                let inode = &self.inodes[place];
                Some(inode.bytes.as_slice())
            }
            None => None,
        }
    }

    /// The mode that what stands at a path was made with.
    pub fn mode(&self, path: &str) -> Option<Mode>
        ensures { result ≡ option_map (λ node. node.mode) (mem_files self.now path.now) }
    {
        match self.find(path) {
            Some(place) => {
                let inode = &self.inodes[place];
                Some(inode.mode)
            }
            None => None,
        }
    }

    /// Whether the names are on the disk.
    pub fn is_settled(&self) -> bool
        ensures { result ≡ self.now.settled }
    {
        self.settled
    }

    /// How many calls there were.
    pub fn calls(&self) -> u64 {
        self.script.number()
    }

    /// How many paths there are.
    pub fn count(&self) -> usize {
        self.names.values().filter(|place| place.is_some()).count()
    }

    // The place of the file that a path leads to.
    fn find(&self, path: &str) -> Option<usize>
        ensures place { result ≡ place_of self.now.names.entries path.now }
        ensures within { IfSome result (λ i. i < vec_len self.now.inodes) }
    {
        names::find(&self.names, path)
    }

    // Gives a path a place, or none.
    fn name(&mut self, path: &str, place: Option<usize>) -> Result<(), AllocError>
        requires { IfSome place (λ i. i < vec_len self.old.inodes) }
        ensures ok { OnOk result ((q : List ℕ) → place_of self.new.names.entries q
            ≡ (if bytes_eq q path.now then place else place_of self.old.names.entries q)) }
        ensures err { OnErr result (self.new.names.entries ≡ self.old.names.entries) }
        ensures inodes { self.new.inodes ≡ self.old.inodes }
        ensures script { self.new.script ≡ self.old.script }
        ensures unsettled { self.new.settled ≡ false }
    {
        self.settled = false;
        let key = Vec::from_slice(self.alloc, path.as_bytes())?;
        names::put(&mut self.names, key, place)
    }

    // Gives the place of a path to another one.
    fn exchange(&mut self, from: &str, to: &str, place: usize) -> Result<(), AllocError>
        requires apart { from.now ≢ to.now }
        requires place { place_of self.old.names.entries from.now ≡ Some place }
        ensures ok { OnOk result (Moves (mem_files self.old) from.now to.now (mem_files self.new)) }
        ensures err { OnErr result (Same (mem_files self.old) (mem_files self.new)) }
        ensures script { self.new.script ≡ self.old.script }
        ensures unsettled { self.new.settled ≡ false }
    {
        self.settled = false;
        let from = Vec::from_slice(self.alloc, from.as_bytes())?;
        let to = Vec::from_slice(self.alloc, to.as_bytes())?;
        names::put(&mut self.names, to, Some(place))?;
        // It is there, and takes no memory.
        names::put(&mut self.names, from, None)?;
        Ok(())
    }

    // Makes a file with one name.
    fn make(&mut self, path: &str, inode: Inode) -> Result<(), AllocError>
        ensures ok { OnOk result (Puts (mem_files self.old) path.now
            (Some (node_of (vec_len self.old.inodes) inode)) (mem_files self.new)) }
        ensures fresh { IsFresh (mem_files self.old)
            (record { device = 0; number = vec_len self.old.inodes }) }
        ensures err { OnErr result (Same (mem_files self.old) (mem_files self.new)) }
        ensures script { self.new.script ≡ self.old.script }
        ensures unsettled { self.new.settled ≡ false }
    {
        self.settled = false;
        let key = Vec::from_slice(self.alloc, path.as_bytes())?;
        let place = self.inodes.len();
        inode::add(&mut self.inodes, inode)?;
        names::put(&mut self.names, key, Some(place))
    }
}

impl FileSystem for MemFiles {
    ghost use Rattle.std.specs.Prelude.{true};
    ghost use Rattle.whole_files.specs.Memory.{mem_faults, mem_files};

    ghost tells = { true };

    ghost files = { mem_files };

    ghost permits = { λ _. Unit {0} };

    ghost is_kept = { λ fs _. fs.settled };

    ghost faults = { mem_faults };

    fn stat(&mut self, path: &str) -> Result<Option<Stat>, Failed> {
        self.script.next()?;
        let Some(place) = self.find(path) else {
            return Ok(None);
        };
        let inode = &self.inodes[place];
        Ok(Some(Stat {
            kind: inode.kind,
            mode: inode.mode.bits(),
            id: FileId {
                device: 0,
                number: place as u64,
            },
        }))
    }

    fn create_new(&mut self, path: &str, mode: Mode) -> Result<bool, Failed> {
        self.script.next()?;
        if self.find(path).is_some() {
            return Ok(false);
        }
        let inode = Inode {
            kind: Kind::Regular,
            mode,
            synced: false,
            bytes: Vec::new(self.alloc),
        };
        match self.make(path, inode) {
            Ok(()) => Ok(true),
            Err(_) => Err(self.script.fault()),
        }
    }

    fn append(&mut self, path: &str, piece: &[u8]) -> Result<(), Failed> {
        let stopped = self.script.is_stopped();
        let counted = self.script.next();
        let Some(place) = self.find(path) else {
            return Err(self.script.fault());
        };
        if stopped {
            return Err(self.script.fault());
        }
        if counted.is_err() {
            // What a call that fails, or in which all stops, has written.
            let _ = inode::extend(&mut self.inodes, place, &piece[..piece.len() / 2]);
            return Err(Failed);
        }
        match inode::extend(&mut self.inodes, place, piece) {
            Ok(()) => Ok(()),
            Err(_) => Err(self.script.fault()),
        }
    }

    fn sync(&mut self, path: &str) -> Result<(), Failed> {
        self.script.next()?;
        match self.find(path) {
            Some(place) => {
                inode::settle(&mut self.inodes, place);
                Ok(())
            }
            None => Err(self.script.fault()),
        }
    }

    fn rename(&mut self, from: &str, to: &str) -> Result<(), Failed> {
        self.script.next()?;
        let Some(place) = self.find(from) else {
            return Err(self.script.fault());
        };
        match self.exchange(from, to, place) {
            Ok(()) => Ok(()),
            Err(_) => Err(self.script.fault()),
        }
    }

    fn link(&mut self, from: &str, to: &str) -> Result<bool, Failed> {
        self.script.next()?;
        let Some(place) = self.find(from) else {
            return Err(self.script.fault());
        };
        if self.find(to).is_some() {
            return Ok(false);
        }
        match self.name(to, Some(place)) {
            Ok(()) => Ok(true),
            Err(_) => Err(self.script.fault()),
        }
    }

    fn remove(&mut self, path: &str) -> Result<(), Failed> {
        self.script.next()?;
        if self.find(path).is_none() {
            return Err(self.script.fault());
        }
        match self.name(path, None) {
            Ok(()) => Ok(()),
            Err(_) => Err(self.script.fault()),
        }
    }

    fn make_folder(&mut self, path: &str) -> Result<bool, Failed> {
        self.script.next()?;
        if self.find(path).is_some() {
            return Ok(false);
        }
        let inode = Inode {
            kind: Kind::Folder,
            mode: Mode::Exact(0o755),
            synced: true,
            bytes: Vec::new(self.alloc),
        };
        match self.make(path, inode) {
            Ok(()) => Ok(true),
            Err(_) => Err(self.script.fault()),
        }
    }

    fn sync_name(&mut self, path: &str) -> Result<(), Failed> {
        self.script.next()?;
        self.settled = true;
        Ok(())
    }
}
