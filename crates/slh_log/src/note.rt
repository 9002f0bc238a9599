//! What a note is cut into.
ghost use Rattle.std.specs.Prelude.{◌≡◌, false, MatchOption};
ghost use Rattle.slh_log.specs.Notes.{IsFront, IsNote, IsReading};
ghost use Rattle.slh_log.specs.Reading.{has_form};

use crate::decoding::{decimal_size, decode_into};
use crate::lines::{are_signatures, cut_line, cut_text};
use merkle_tree::DIGEST_LEN;

/// The most bytes of a checkpoint, 2^60: no longer text is signed.
const MAX_LEN: usize = 1 << 60;

/// What the head of a log says.
#[derive(Clone, Copy, Debug, PartialEq, Eq)]
pub struct Checkpoint {
    /// How many entries the log has.
    pub size: u64,
    /// The root of the tree over them.
    pub root: [u8; DIGEST_LEN],
}

/// What a note of right form has.
#[derive(Drop)]
pub(crate) struct Note<'a> {
    pub(crate) origin: &'a [u8],
    pub(crate) checkpoint: Checkpoint,
    pub(crate) text: &'a [u8],
    pub(crate) signatures: &'a [u8],
}

// The first line, and what the next two say. `None`: the form isn't right.
fn read_front(bytes: &[u8]) -> Option<(&[u8], Checkpoint)>
    ensures { MatchOption result (has_form bytes.now ≡ false)
        (λ front. IsFront bytes.now front.0.now front.1) }
{
    let (origin, rest) = cut_line(bytes)?;
    let (size, rest) = cut_line(rest)?;
    let Some((symbols, _)) = cut_line(rest) else {
        return None;
    };
    if origin.is_empty() {
        return None;
    }
    let size = decimal_size(size)?;
    let mut root = [0u8; DIGEST_LEN];
    if !decode_into(symbols, &mut root) {
        return None;
    }
    Some((origin, Checkpoint { size, root }))
}

/// What a note has. `None`: the form isn't right.
pub(crate) fn read_note(bytes: &[u8]) -> Option<Note<'_>>
    ensures { MatchOption result (has_form bytes.now ≡ false) (λ note. IsNote bytes.now note) }
{
    if bytes.len() > MAX_LEN {
        return None;
    }
    let (origin, checkpoint) = read_front(bytes)?;
    let (text, signatures) = cut_text(bytes)?;
    if !are_signatures(signatures) {
        return None;
    }
    Some(Note {
        origin,
        checkpoint,
        text,
        signatures,
    })
}

/// The origin of a checkpoint and what it says, whoever signed it: nothing of it is to be believed.
/// `None`: the form isn't right. Takes no memory.
pub fn read_unverified(bytes: &[u8]) -> Option<(&[u8], Checkpoint)>
    ensures { MatchOption result (has_form bytes.now ≡ false)
        (λ read. IsReading bytes.now read.0.now read.1) }
{
    let note = read_note(bytes)?;
    Some((note.origin, note.checkpoint))
}
