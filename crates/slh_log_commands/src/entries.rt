//! Entries in bundles.
ghost use Rattle.std.specs.Prelude.{◌≤◌, IfOk, length};

use crate::error::Refusal;
use crate::log_folder::LogFolder;
use log_tiles::{Bundle, Entries, FULL, MAX_ENTRY_LEN};
use merkle_tree::{DIGEST_LEN, Sha256, TreeHash};
use slh_arguments::host::Failure;

/// The digests of the entries of a bundle.
#[derive(Drop)]
pub struct Leaves {
    hashes: [[u8; DIGEST_LEN]; FULL as usize],
    len: usize,
}

impl Leaves {
    /// The digests, in order.
    pub fn as_slice(&self) -> &[[u8; DIGEST_LEN]] {
        if self.len <= self.hashes.len() {
            &self.hashes[..self.len]
        } else {
            &self.hashes
        }
    }
}

/// The digests of the entries that the bytes of a bundle have.
pub fn leaves_of<'a>(
    folder: LogFolder<'_, 'a>,
    bundle: Bundle,
    bytes: &[u8],
) -> Result<Leaves, Failure<'a>> {
    let mut leaves = Leaves {
        hashes: [[0; DIGEST_LEN]; FULL as usize],
        len: 0,
    };
    let mut entries = Entries::of(bytes, bundle.width);
    for i in 0..=FULL as usize {
        match entries.next_entry() {
            Ok(Some(entry)) if i < leaves.hashes.len() && entry.len() <= MAX_ENTRY_LEN => {
                leaves.hashes[i] = Sha256::leaf(entry);
                leaves.len = i + 1;
            }
            Ok(None) => return Ok(leaves),
            _ => break,
        }
    }
    Err(folder.bad_bundle(bundle, Refusal::OtherEntries))
}

/// The bundle with an index of a log of `size` entries; behind the last full one it may have none.
pub fn bundle_at(index: u64, size: u64) -> Bundle {
    let width = if index < size / 256 {
        FULL
    } else {
        (size % 256) as u32
    };
    Bundle { index, width }
}

/// The bundle with the entry at an index of a log of `size` entries.
pub fn bundle_of(entry: u64, size: u64) -> Bundle {
    bundle_at(entry / 256, size)
}

/// The entry at a place of a bundle.
pub fn entry_at<'b, 'a>(
    folder: LogFolder<'_, 'a>,
    bundle: Bundle,
    bytes: &'b [u8],
    place: u64,
) -> Result<&'b [u8], Failure<'a>>
    ensures { IfOk result (λ entry. length entry.now ≤ 65535) }
{
    let mut entries = Entries::of(bytes, bundle.width);
    for _ in 0..place {
        if entries.next_entry().is_err() {
            break;
        }
    }
    match entries.next_entry() {
        Ok(Some(entry)) if entry.len() <= MAX_ENTRY_LEN => Ok(entry),
        _ => Err(folder.bad_bundle(bundle, Refusal::OtherEntries)),
    }
}

/// The bytes of a bundle, whose entries have these digests.
pub fn checked_bundle<'a>(
    folder: LogFolder<'_, 'a>,
    bundle: Bundle,
    hashes: &[u8],
) -> Result<Vec<u8>, Failure<'a>> {
    let bytes = folder.bundle(bundle)?;
    let leaves = leaves_of(folder, bundle, bytes.as_slice())?;
    if leaves.as_slice().as_flattened() != hashes {
        return Err(folder.bad_bundle(bundle, Refusal::OtherEntries));
    }
    Ok(Vec::from_slice(folder.rt.alloc(), bytes.as_slice())?)
}
