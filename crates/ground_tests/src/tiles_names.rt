use crate::shown::shows;
use crate::texts::is_text;
use log_tiles::{Bundle, Tile, last_bundle, last_tile};
use std::alloc::Global;

fn is_tile_at(alloc: Global, level: u32, index: u64, width: u32, path: &str) -> bool {
    let tile = Tile {
        level,
        index,
        width,
    };
    is_text(tile.path(alloc), path)
}

fn is_bundle_at(alloc: Global, index: u64, width: u32, path: &str) -> bool {
    is_text(Bundle { index, width }.path(alloc), path)
}

#[test]
fn tiles_and_bundles_have_their_names(rt: HostRuntime) {
    let alloc = rt.alloc();
    let last = "tile/0/x018/x446/x744/x073/x709/x551/615.p/17";
    shows(
        &rt,
        is_tile_at(alloc, 0, 0, 256, "tile/0/000")
            && is_tile_at(alloc, 1, 67, 1, "tile/1/067.p/1")
            && is_tile_at(alloc, 0, 1_234_067, 256, "tile/0/x001/x234/067")
            && is_tile_at(alloc, 2, 1_000, 255, "tile/2/x001/000.p/255")
            && is_tile_at(alloc, 63, 0, 1, "tile/63/000.p/1")
            && is_tile_at(alloc, 0, u64::MAX, 17, last)
            && is_bundle_at(alloc, 0, 256, "tile/entries/000")
            && is_bundle_at(alloc, 999, 8, "tile/entries/999.p/8")
            && is_bundle_at(alloc, 1_000_000, 256, "tile/entries/x001/x000/000"),
    );
}

// A log of 70,000 entries, as tlog-tiles has it: 273 full tiles and one of 112 on level 0, one full
// tile and one of 17 on level 1, and one of 1 on level 2.
#[test]
fn a_log_of_70000_entries_has_its_tiles(rt: HostRuntime) {
    shows(
        &rt,
        last_tile(0, 70_000)
            == Some(Tile {
                level: 0,
                index: 273,
                width: 112,
            })
            && last_tile(1, 70_000)
                == Some(Tile {
                    level: 1,
                    index: 1,
                    width: 17,
                })
            && last_tile(2, 70_000)
                == Some(Tile {
                    level: 2,
                    index: 0,
                    width: 1,
                })
            && last_tile(3, 70_000).is_none()
            && last_bundle(70_000)
                == Some(Bundle {
                    index: 273,
                    width: 112,
                }),
    );
}
