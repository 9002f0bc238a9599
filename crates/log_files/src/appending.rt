//! The files that an append adds to a log.
ghost use Rattle.std.specs.Prelude.{◌≡◌, ◌≢◌, ◌↔◌, ◌+◌, ◌-◌, ◌^◌, ◌<◌, ◌≤◌, ◌++◌, ◌∷◌, [], List, ℕ};
ghost use Rattle.std.specs.Prelude.{IfErr, IfOk, OnOk, length, map};
ghost use Rattle.log_files.specs.Appending.{bundle_file, full_bundle, named, of_levels};
ghost use Rattle.log_files.specs.Appending.{open_bundle};
ghost use Rattle.log_files.specs.declared.appending.AppendError.TheVariants.{Memory};
ghost use Rattle.log_files.specs.Names.{AreSuch, HaveFullNames, IsName, PutNames};
ghost use Rattle.log_files.specs.Appending.{partial_bundle, partial_files, tile_files};
ghost use Rattle.log_tiles.specs.Entries.{entry_bytes};
ghost use Rattle.log_tiles.specs.Tiles.{AreTilesOf, full_levels};
ghost use Rattle.merkle_tree.specs.Tree.{leaf_hash, tree_root};

use log_tiles::{
    EntryError, FULL, GrowingTiles, LEVELS, hash_count, last_bundle, last_tile, push_entry,
};
use merkle_tree::{DIGEST_LEN, TreeHash};
use std::alloc::{AllocError, Global};
use std::mem;

/// A file of a log.
#[derive(Drop)]
pub struct LogFile {
    /// Its name below the log's folder.
    pub name: String,
    /// All of its bytes.
    pub bytes: Vec<u8>,
}

/// Why an entry isn't added.
#[derive(Clone, Copy, Debug, PartialEq, Eq)]
pub enum AppendError {
    /// The log has 2^64 - 1 entries.
    Full,
    /// The entry has more than 65,535 bytes.
    TooLong,
    /// Memory ran out. What was added is not to be used.
    Memory,
}

impl From<AllocError> for AppendError {
    ghost use Rattle.std.specs.Prelude.{◌≡◌};
    ghost use Rattle.log_files.specs.declared.appending.AppendError.TheVariants.{Memory};

    ghost from_gives = { λ _ e. e ≡ Memory };

    fn from(_error: AllocError) -> Self {
        AppendError::Memory
    }
}

// Puts a file at the end.
fn put_file(files: &mut Vec<LogFile>, file: LogFile) -> Result<(), AppendError>
    ensures put { OnOk result (files.new.items ≡ files.old.items ++ file ∷ []) }
    ensures cause { IfErr result (λ e. e ≡ Memory) }
{
    match files.push(file) {
        Ok(()) => Ok(()),
        Err(_) => Err(AppendError::Memory),
    }
}

/// A log that entries are added to, and the files that this makes. It holds what was added, and of
/// the rest the last tiles and the last bundle.
#[derive(Drop)]
pub struct Appending<H: TreeHash> {
    alloc: Global,
    tiles: GrowingTiles<H>,
    // the bytes of the last bundle, where it isn't full
    bundle: Vec<u8>,
    // the bundles and the tiles that became full
    bundles: Vec<LogFile>,
    full_tiles: Vec<LogFile>,
}

impl<H: TreeHash> Appending<H> {
    /// Goes on from the last tiles of a log, and from the bytes of its last bundle, or no bytes
    /// where that is full. They are believed.
    pub fn new(alloc: Global, tiles: GrowingTiles<H>, bundle: Vec<u8>) -> Self
        ensures tiles { result.tiles ≡ tiles }
        ensures bundle { result.bundle ≡ bundle }
        ensures bundles { result.bundles.items ≡ [] }
        ensures full { result.full_tiles.items ≡ [] }
        ensures names { HaveFullNames result.tiles.count result.bundles.items
            result.full_tiles.items }
    {
        Appending {
            alloc,
            tiles,
            bundle,
            bundles: Vec::new(alloc),
            full_tiles: Vec::new(alloc),
        }
    }

    /// How many entries the log has.
    pub fn len(&self) -> u64
        ensures { result ≡ self.now.tiles.count }
    {
        self.tiles.len()
    }

    /// The root over its entries.
    pub fn root(&self) -> [u8; DIGEST_LEN]
        ensures { (q : List (List ℕ)) → AreTilesOf H.hash self.now.tiles q
            → result ≡ tree_root H.hash q }
    {
        self.tiles.root()
    }

    // Puts the file of the bundle that ends with the last entry.
    fn put_bundle(&mut self) -> Result<(), AppendError>
        ensures put { OnOk result (map named self.new.bundles.items
            ≡ map named self.old.bundles.items
            ++ bundle_file self.old.tiles.count self.old.bundle.items ∷ []) }
        ensures next { OnOk result (self.new.bundle.items ≡ []) }
        ensures tiles { self.new.tiles ≡ self.old.tiles }
        ensures full { self.new.full_tiles ≡ self.old.full_tiles }
        ensures cause { IfErr result (λ e. e ≡ Memory) }
    {
        let Some(bundle) = last_bundle(self.tiles.len()) else {
            return Err(AppendError::Memory);
        };
        let Ok(name) = bundle.path(self.alloc) else {
            return Err(AppendError::Memory);
        };
        let bytes = mem::replace(&mut self.bundle, Vec::new(self.alloc));
        put_file(&mut self.bundles, LogFile { name, bytes })
    }

    // The same where the last entry made it full.
    fn put_full_bundle(&mut self) -> Result<(), AppendError>
        ensures put { OnOk result (map named self.new.bundles.items
            ≡ map named self.old.bundles.items
            ++ full_bundle self.old.tiles.count self.old.bundle.items) }
        ensures next { OnOk result (self.new.bundle.items
            ≡ open_bundle self.old.tiles.count self.old.bundle.items) }
        ensures tiles { self.new.tiles ≡ self.old.tiles }
        ensures full { self.new.full_tiles ≡ self.old.full_tiles }
        ensures cause { IfErr result (λ e. e ≡ Memory) }
    {
        if self.tiles.len() % FULL as u64 != 0 {
            return Ok(());
        }
        self.put_bundle()
    }

    // The same where it isn't full.
    fn put_partial_bundle(&mut self) -> Result<(), AppendError>
        ensures put { OnOk result (map named self.new.bundles.items
            ≡ map named self.old.bundles.items
            ++ partial_bundle self.old.tiles.count self.old.bundle.items) }
        ensures count { self.old.tiles.count < 2 ^ 64 }
        ensures tiles { self.new.tiles ≡ self.old.tiles }
        ensures full { self.new.full_tiles ≡ self.old.full_tiles }
        ensures cause { IfErr result (λ e. e ≡ Memory) }
    {
        if self.tiles.len() % FULL as u64 == 0 {
            return Ok(());
        }
        self.put_bundle()
    }

    // Puts the file of the last tile of a level, where it has a hash.
    fn put_tile(&mut self, level: u32) -> Result<(), AppendError>
        requires { level < 8 }
        ensures put { OnOk result ((q : List (List ℕ)) → AreTilesOf H.hash self.old.tiles q
            → map named self.new.full_tiles.items
            ≡ map named self.old.full_tiles.items
            ++ tile_files H.hash self.old.tiles.count q level) }
        ensures names { OnOk result ((q : List (List ℕ)) → PutNames self.old.full_tiles.items
            (tile_files H.hash self.old.tiles.count q level) self.new.full_tiles.items) }
        ensures tiles { self.new.tiles ≡ self.old.tiles }
        ensures bundle { self.new.bundle ≡ self.old.bundle }
        ensures bundles { self.new.bundles ≡ self.old.bundles }
        ensures cause { IfErr result (λ e. e ≡ Memory) }
    {
        let Some(tile) = last_tile(level, self.tiles.len()) else {
            return Ok(());
        };
        let Ok(name) = tile.path(self.alloc) else {
            return Err(AppendError::Memory);
        };
        let bytes = Vec::from_slice(self.alloc, self.tiles.last_bytes(level))?;
        put_file(&mut self.full_tiles, LogFile { name, bytes })
    }

    // Puts the files of the last tiles of the lowest levels.
    fn put_tiles(&mut self, levels: usize) -> Result<(), AppendError>
        requires { levels ≤ 8 }
        ensures put { OnOk result ((q : List (List ℕ)) → AreTilesOf H.hash self.old.tiles q
            → map named self.new.full_tiles.items
            ≡ map named self.old.full_tiles.items
            ++ of_levels (tile_files H.hash self.old.tiles.count q) levels) }
        ensures names { OnOk result ((q : List (List ℕ)) → PutNames self.old.full_tiles.items
            (of_levels (tile_files H.hash self.old.tiles.count q) levels)
            self.new.full_tiles.items) }
        ensures tiles { self.new.tiles ≡ self.old.tiles }
        ensures bundle { self.new.bundle ≡ self.old.bundle }
        ensures bundles { self.new.bundles ≡ self.old.bundles }
        ensures cause { IfErr result (λ e. e ≡ Memory) }
    {
        for level in 0..levels {
            self.put_tile(level as u32)?;
        }
        Ok(())
    }

    /// Adds an entry at the end.
    pub fn push(&mut self, entry: &[u8]) -> Result<(), AppendError>
        ensures tiles { OnOk result ((q : List (List ℕ)) → AreTilesOf H.hash self.old.tiles q
            → AreTilesOf H.hash self.new.tiles (q ++ leaf_hash H.hash entry.now ∷ [])) }
        ensures bundle { OnOk result (self.new.bundle.items ≡ open_bundle self.new.tiles.count
            (self.old.bundle.items ++ entry_bytes entry.now)) }
        ensures bundles { OnOk result (map named self.new.bundles.items
            ≡ map named self.old.bundles.items ++ full_bundle self.new.tiles.count
            (self.old.bundle.items ++ entry_bytes entry.now)) }
        ensures full { OnOk result ((q : List (List ℕ)) → AreTilesOf H.hash self.old.tiles q
            → map named self.new.full_tiles.items ≡ map named self.old.full_tiles.items
            ++ of_levels (tile_files H.hash self.new.tiles.count
            (q ++ leaf_hash H.hash entry.now ∷ []))
            (full_levels (self.old.tiles.count + 1))) }

        // Whatever the tiles are, what becomes full has a name of its own.
        ensures names { OnOk result (
            HaveFullNames self.old.tiles.count self.old.bundles.items self.old.full_tiles.items
            → HaveFullNames self.new.tiles.count self.new.bundles.items
            self.new.full_tiles.items) }
        ensures count { (result ≡ Err AppendError.Full)
            ↔ (self.old.tiles.count ≡ 2 ^ 64 - 1) }
        ensures long { (result ≡ Err AppendError.TooLong)
            ↔ ((self.old.tiles.count ≢ 2 ^ 64 - 1) × (65535 < length entry.now)) }

        // What isn't added for its length, or since the log is full, changes nothing.
        ensures same { IfErr result (λ e. e ≢ Memory
            → (self.new.tiles ≡ self.old.tiles)
            × (self.new.bundle.items ≡ self.old.bundle.items)
            × (self.new.bundles ≡ self.old.bundles)
            × (self.new.full_tiles ≡ self.old.full_tiles)) }
    {
        if self.tiles.len() == u64::MAX {
            return Err(AppendError::Full);
        }
        match push_entry(&mut self.bundle, entry) {
            Ok(()) => (),
            Err(EntryError::TooLong) => return Err(AppendError::TooLong),
            Err(EntryError::Memory) => return Err(AppendError::Memory),
        }
        let full = self.tiles.push(&H::leaf(entry));
        self.put_full_bundle()?;
        self.put_tiles(full)
    }

    // Puts the file of the last tile of a level, where it isn't full.
    fn put_partial_tile(&mut self, level: u32) -> Result<(), AppendError>
        requires { level < 8 }
        ensures put { OnOk result ((q : List (List ℕ)) → AreTilesOf H.hash self.old.tiles q
            → map named self.new.full_tiles.items ≡ map named self.old.full_tiles.items
            ++ partial_files H.hash self.old.tiles.count q level) }
        ensures names { OnOk result ((q : List (List ℕ)) → PutNames self.old.full_tiles.items
            (partial_files H.hash self.old.tiles.count q level) self.new.full_tiles.items) }
        ensures tiles { self.new.tiles ≡ self.old.tiles }
        ensures bundles { self.new.bundles ≡ self.old.bundles }
        ensures cause { IfErr result (λ e. e ≡ Memory) }
    {
        if hash_count(level, self.tiles.len()) % FULL as u64 == 0 {
            return Ok(());
        }
        self.put_tile(level)
    }

    // Puts the files of the last tiles that aren't full.
    fn put_partial_tiles(&mut self) -> Result<(), AppendError>
        ensures put { OnOk result ((q : List (List ℕ)) → AreTilesOf H.hash self.old.tiles q
            → map named self.new.full_tiles.items
            ≡ map named self.old.full_tiles.items
            ++ of_levels (partial_files H.hash self.old.tiles.count q) 8) }
        ensures names { OnOk result ((q : List (List ℕ)) → PutNames self.old.full_tiles.items
            (of_levels (partial_files H.hash self.old.tiles.count q) 8)
            self.new.full_tiles.items) }
        ensures bundles { self.new.bundles ≡ self.old.bundles }
        ensures cause { IfErr result (λ e. e ≡ Memory) }
    {
        for level in 0..LEVELS {
            self.put_partial_tile(level as u32)?;
        }
        Ok(())
    }

    /// The files that were made, and those of the last bundle and the last tiles that aren't full:
    /// bundles before tiles, as they are to be written.
    pub fn finish(self) -> Result<Vec<LogFile>, AppendError>
        ensures files { IfOk result (λ files. (q : List (List ℕ)) → AreTilesOf H.hash self.tiles q
            → map named files.items ≡ (map named self.bundles.items
            ++ partial_bundle self.tiles.count self.bundle.items)
            ++ (map named self.full_tiles.items
            ++ of_levels (partial_files H.hash self.tiles.count q) 8)) }
        ensures names { IfOk result (λ files.
            HaveFullNames self.tiles.count self.bundles.items self.full_tiles.items
            → AreSuch IsName (map named files.items)) }
        ensures cause { IfErr result (λ e. e ≡ Memory) }
    {
        let mut last = self;
        last.put_partial_bundle()?;
        last.put_partial_tiles()?;
        let Appending {
            mut bundles,
            mut full_tiles,
            ..
        } = last;
        match bundles.append(&mut full_tiles) {
            Ok(()) => Ok(bundles),
            Err(_) => Err(AppendError::Memory),
        }
    }
}
