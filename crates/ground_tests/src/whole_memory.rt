//! Files in memory, which the tests share.
use whole_files::{Kind, MemFiles};

/// A number that no call has.
pub(crate) const NEVER: u64 = u64::MAX;

/// How many paths the files have.
pub(crate) const COUNT: usize = 4;

/// Puts there a file, and what is none, if there is memory.
pub(crate) fn are_put(files: &mut MemFiles) -> bool {
    files.put("at", Kind::Regular, 0o640, b"old").is_ok()
        && files.put("link", Kind::Link, 0o777, b"at").is_ok()
        && files.put("folder", Kind::Folder, 0o755, b"").is_ok()
        && files.put("pipe", Kind::Other, 0o644, b"").is_ok()
}

/// Whether these bytes stand at a path.
pub(crate) fn has(files: &MemFiles, path: &str, bytes: &[u8]) -> bool {
    match files.bytes(path) {
        Some(found) => found == bytes,
        None => false,
    }
}

/// Whether nothing stands at a path.
pub(crate) fn is_free(files: &MemFiles, path: &str) -> bool {
    files.bytes(path).is_none()
}
