//! The PEM block of a text (RFC 7468).
ghost use Rattle.std.specs.Prelude.{◌≡◌, Ok, Err, MatchResult};
ghost use Rattle.slh_bytes.specs.Blocks.{block_in};

use crate::error::KeyFileError;
use crate::places::{cut, place_of};

/// What a first line begins with.
pub(crate) const BEGIN: &[u8] = b"-----BEGIN ";

const END: &[u8] = b"-----END ";

const DASHES: &[u8] = b"-----";

/// A block: the label of its lines, and what stands between them.
#[derive(Clone, Copy)]
pub(crate) struct Block<'a> {
    pub(crate) label: &'a [u8],
    pub(crate) body: &'a [u8],
}

/// The one block of a text, around which other text may stand.
pub(crate) fn block_of(text: &[u8]) -> Result<Block<'_>, KeyFileError>
    ensures { MatchResult result
        (λ block. block_in text.now ≡ Ok (block.label.now, block.body.now))
        (λ e. block_in text.now ≡ Err e) }
{
    let Some((_, rest)) = cut(text, BEGIN) else {
        return Err(KeyFileError::NoKey);
    };
    let Some((label, rest)) = cut(rest, DASHES) else {
        return Err(KeyFileError::NoEnd);
    };
    let Some((body, rest)) = cut(rest, END) else {
        return Err(KeyFileError::NoEnd);
    };
    let Some((last, behind)) = cut(rest, DASHES) else {
        return Err(KeyFileError::NoEnd);
    };
    if last != label {
        return Err(KeyFileError::NoEnd);
    }
    if place_of(behind, BEGIN).is_some() {
        return Err(KeyFileError::SecondBlock);
    }
    Ok(Block { label, body })
}
