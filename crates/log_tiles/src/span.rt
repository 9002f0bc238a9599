//! The hashes of a tile that a node between two levels of tiles stands over.
ghost use Rattle.std.specs.Prelude.{◌≡◌, ◌+◌, ◌*◌, ◌%◌, ◌^◌, ◌<◌, ◌≤◌};

/// A run of hashes of a tile.
#[derive(Clone, Copy)]
pub(crate) struct Span {
    pub(crate) start: usize,
    pub(crate) len: usize,
}

/// The hashes under the node with an index that is so many levels above those of a tile.
pub(crate) fn span_under(above: u32, index: u64) -> Span
    requires { above < 8 }
    ensures len { result.len ≡ 2 ^ above }
    ensures start { result.start ≡ index * 2 ^ above % 256 }
    ensures fits { result.start + result.len ≤ 256 }
    ensures some { 0 < result.len }
{
    let len = 1usize << above;
    let nodes = 256 / len;
    Span {
        start: (index % nodes as u64) as usize * len,
        len,
    }
}
