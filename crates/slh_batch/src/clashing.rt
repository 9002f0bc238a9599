//! Where two receipts clash.
ghost use Rattle.std.specs.Prelude.{◌≡◌, ◌&&◌};
ghost use Rattle.std.specs.Str.{bytes_eq};
ghost use Rattle.slh_batch.specs.Calls.{clash_height};

use crate::parts::parts_of;
use merkle_tree::{DIGEST_LEN, Sha256, TreeHash, paths_clash};
use slh_dsa::SetSizes;
use slh_frames::MAX_MESSAGE;

// Whether messages that differ or not have these digests in a clash.
fn is_clash(differ: bool, a: &[u8; DIGEST_LEN], b: &[u8; DIGEST_LEN]) -> bool
    ensures { result ≡ (differ && bytes_eq a.now b.now) }
{
    differ && a == b
}

/// The least height at which the ways of two receipts hash different inputs to one digest: 0 for
/// the leaf, and one more for each digest of the path. `None` where there is none, a form isn't
/// right, the receipts are for different numbers, or a message has more than 2^60 bytes.
pub fn clash<P: SetSizes>(msg_a: &[u8], a: &[u8], msg_b: &[u8], b: &[u8]) -> Option<u32>
    ensures { result ≡ clash_height P.scheme msg_a.now a.now msg_b.now b.now }
{
    let parts_a = parts_of::<P>(a)?;
    let parts_b = parts_of::<P>(b)?;
    if parts_a.index != parts_b.index || parts_a.count != parts_b.count {
        return None;
    }
    if msg_a.len() > MAX_MESSAGE || msg_b.len() > MAX_MESSAGE {
        return None;
    }
    let leaf_a = Sha256::leaf(msg_a);
    let leaf_b = Sha256::leaf(msg_b);
    if is_clash(msg_a != msg_b, &leaf_a, &leaf_b) {
        return Some(0);
    }
    let (index, count) = (u64::from(parts_a.index), u64::from(parts_a.count));
    let (path_a, path_b) = (parts_a.path, parts_b.path);
    match paths_clash::<Sha256>(index, count, &leaf_a, path_a, &leaf_b, path_b) {
        Some(found) => Some(found.height + 1),
        None => None,
    }
}
