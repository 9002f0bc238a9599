//! The parts of a receipt.
ghost use Rattle.std.specs.Prelude.{◌≡◌, ◌+◌, ◌*◌, ◌≤◌, length, take, drop};
ghost use Rattle.std.specs.Prelude.{IsTrue, IfSome, is_some};
ghost use Rattle.slh_core.specs.Bytes.{number_of};
ghost use Rattle.slh_batch.specs.Parts.{ArePartsOf};
ghost use Rattle.slh_batch.specs.Receipts.{has_right_form};

use crate::batch::MAX_MESSAGES;
use merkle_tree::{DIGEST_LEN, path_len};
use slh_dsa::SetSizes;

/// How many bytes stand before the path.
pub(crate) const NUMBERS_LEN: usize = 8;

/// What a receipt of right form has.
#[derive(Drop)]
pub(crate) struct Parts<'a> {
    pub(crate) index: u32,
    pub(crate) count: u32,
    pub(crate) path: &'a [[u8; DIGEST_LEN]],
    pub(crate) sig: &'a [u8],
}

/// The number of the four bytes at a place.
pub(crate) fn number_at(bytes: &[u8], at: usize) -> u32
    requires { at + 4 ≤ length bytes.now }
    ensures { result ≡ number_of (take 4 (drop at bytes.now)) }
{
    u32::from_be_bytes([bytes[at], bytes[at + 1], bytes[at + 2], bytes[at + 3]])
}

/// The parts of a receipt, `None` where its form isn't right.
pub(crate) fn parts_of<P: SetSizes>(receipt: &[u8]) -> Option<Parts<'_>>
    ensures form { is_some result ≡ has_right_form P.scheme receipt.now }
    ensures parts { IfSome result (λ parts. ArePartsOf P.scheme receipt.now parts) }
{
    if receipt.len() < NUMBERS_LEN {
        return None;
    }
    let index = number_at(receipt, 0);
    let count = number_at(receipt, 4);
    if count > MAX_MESSAGES || index >= count {
        return None;
    }
    let path_len = DIGEST_LEN * path_len(u64::from(index), u64::from(count));
    let rest = &receipt[NUMBERS_LEN..];
    if rest.len() < path_len {
        return None;
    }
    let (path, sig) = rest.split_at(path_len);
    if sig.len() != P::SIG_LEN {
        return None;
    }
    Some(Parts {
        index,
        count,
        path: path.as_chunks().0,
        sig,
    })
}
