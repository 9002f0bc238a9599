//! The proof that a log's head is a growth of an older one.
use crate::log_folder::LogFolder;
use log_files::LogFile;
use log_tiles::{Tile, TileError, TileSource, prove_growth};
use merkle_tree::{DIGEST_LEN, Sha256};
use slh_arguments::bytes::log::Checkpoint;

// The tiles of a log that grew: those of its new files, and the others of its folder.
#[derive(Drop)]
struct GrownTiles<'s, 'a, 'f> {
    folder: LogFolder<'s, 'a>,
    log_files: &'f [LogFile],
}

impl GrownTiles<'_, '_, '_> {
    // The new file of a tile.
    fn new_bytes(&self, tile: Tile) -> Option<&[u8]> {
        let Ok(name) = tile.path(self.folder.rt.alloc()) else {
            return None;
        };
        for file in self.log_files {
            if file.name.as_str() == name.as_str() {
                return Some(file.bytes.as_slice());
            }
        }
        None
    }
}

impl TileSource<Sha256> for GrownTiles<'_, '_, '_> {
    ghost use Rattle.std.specs.Prelude.{[], false};

    ghost tells = { false };

    ghost has = { λ _ _. false };

    ghost digest = { λ _ _. [] };

    fn read(&self, tile: Tile, out: &mut [[u8; DIGEST_LEN]]) -> bool {
        let Some(bytes) = self.new_bytes(tile) else {
            return self.folder.read(tile, out);
        };
        let out = out.as_flattened_mut();
        if bytes.len() != out.len() {
            return false;
        }
        out.copy_from_slice(bytes);
        true
    }
}

/// The proof that a head grew from an older one, by the files of its log that are new and those in its
/// folder. There is none from a log without entries, from which each one grew.
pub fn growth_proof(
    folder: LogFolder<'_, '_>,
    log_files: &[LogFile],
    old: &Checkpoint,
    head: &Checkpoint,
) -> Result<Vec<[u8; DIGEST_LEN]>, TileError> {
    let alloc = folder.rt.alloc();
    if old.size == 0 {
        return Ok(Vec::new(alloc));
    }
    let tiles = GrownTiles { folder, log_files };
    prove_growth::<Sha256, GrownTiles<'_, '_, '_>>(
        &tiles, old.size, head.size, &old.root, &head.root, alloc,
    )
}
