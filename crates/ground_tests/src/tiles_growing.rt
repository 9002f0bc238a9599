ghost use Rattle.std.specs.Prelude.{◌<◌};

use crate::hexadecimal::digest;
use crate::shown::shows;
use log_tiles::GrowingTiles;
use merkle_tree::{Sha256, TreeHash};

// A digest with that of the bytes of a level's last tile.
fn with_tile(before: &[u8; 32], tiles: &GrowingTiles<Sha256>, level: u32) -> [u8; 32]
    requires { level < 8 }
{
    let bytes = tiles.last_bytes(level);
    if bytes.len() > 8192 {
        return [0; 32];
    }
    Sha256::node(before, &Sha256::leaf(bytes))
}

const SIZES: [u64; 5] = [1, 255, 256, 257, 300];

// The tiles of the two lowest levels and the roots over so many of the entries 0, 1 and so on, of
// one byte each, hashed into one digest.
fn all_sizes() -> [u8; 32] {
    let mut tiles = GrowingTiles::<Sha256>::new();
    let mut all = [0; 32];
    for k in 0..300u64 {
        if tiles.len() < 300 {
            let _ = tiles.push(&Sha256::leaf(&[(k % 256) as u8]));
        }
        if SIZES.contains(&(k + 1)) {
            all = with_tile(&all, &tiles, 0);
            all = with_tile(&all, &tiles, 1);
            all = Sha256::node(&all, &tiles.root());
        }
    }
    all
}

#[test]
fn tiles_and_roots_of_sizes_up_to_300(rt: HostRuntime) {
    let expected = digest("b2755349d4d11de1c48fd997e0e4da4582d1b6a25922099ff622af02e4e2c771");
    shows(&rt, all_sizes() == expected);
}
