//! Files that are written whole, and then the one that speaks of them.
ghost use Rattle.std.specs.Prelude.{◌≡◌, ◌↔◌, ◌<◌, ◌≤◌, ℕ, Some, IfErr, IfOk, IsTrue, length, slice_get};
ghost use Rattle.log_files.specs.Publishing.{FirstWritten, IsPublishing, IsSeparate, Publishes};
ghost use Rattle.log_files.specs.Publishing.{HasFaults, HasFaultsAt, IsWritingPiece, PutsPiece};
ghost use Rattle.log_files.specs.declared.publishing.Piece.{Piece};
ghost use Rattle.whole_files.specs.Files.{Files};
ghost use Rattle.whole_files.specs.declared.error.Written.TheVariants.{Settled};

use crate::error::PublishError;
use whole_files::{FileSystem, Written, write_whole};

/// A file to be written.
#[derive(Clone, Copy, Debug)]
pub struct Piece<'a> {
    /// Where it is to stand.
    pub path: &'a str,
    /// The name that it has until it is whole, in the same folder.
    pub part: &'a str,
    /// All of its bytes.
    pub bytes: &'a [u8],
}

// Writes the piece with this index.
fn put_piece<F: FileSystem>(fs: &mut F, pieces: &[Piece<'_>], i: usize) -> Result<(), PublishError>
    requires there { i < length pieces.now }
    requires apart { (p : Piece) → slice_get pieces.now i ≡ Some p → IsSeparate p }
    requires permitted { IsTrue F.tells → (n : Files) (p : Piece) → slice_get pieces.now i ≡ Some p
        → IsWritingPiece (F.files fs.old) p n → F.permits n }
    ensures files { IsTrue F.tells
        → PutsPiece (F.files fs.old) pieces.now i result (F.files fs.new) }
    ensures cause { IfErr result (λ error.
        HasFaultsAt error (F.faults fs.old) (F.faults fs.new)) }
    ensures later { F.faults fs.old ≤ F.faults fs.new }
{
    let piece = &pieces[i];
    match write_whole(fs, piece.path, piece.part, piece.bytes) {
        Ok(Written::Settled) => Ok(()),
        Ok(Written::Unsettled) => Err(PublishError::Unsettled(i)),
        Err(error) => Err(PublishError::AtPiece(i, error)),
    }
}

/// Whether each of these files has another name while it is written, as [`publish`] needs it.
pub fn are_separate(pieces: &[Piece<'_>]) -> bool
    ensures { IsTrue result
        ↔ ((i : ℕ) (p : Piece) → slice_get pieces.now i ≡ Some p → IsSeparate p) }
{
    for i in 0usize..pieces.len() {
        if pieces[i].part == pieces[i].path {
            return false;
        }
    }
    true
}

/// Writes the pieces whole, in their order, each brought to the disk with its name, and then the head.
/// What stands at their paths is replaced, where it is a regular file.
pub fn publish<F: FileSystem>(
    fs: &mut F,
    pieces: &[Piece<'_>],
    head: &Piece<'_>,
) -> Result<Written, PublishError>
    requires apart { (i : ℕ) (p : Piece) → slice_get pieces.now i ≡ Some p → IsSeparate p }
    requires head_apart { IsSeparate head.now }

    // Wherever everything stops, some first pieces are written, the next one or the head is being
    // written, and all else is the same.
    requires permitted { IsTrue F.tells → (n : Files)
        → IsPublishing (F.files fs.old) pieces.now head.now n → F.permits n }

    ensures files { IsTrue F.tells
        → Publishes (F.files fs.old) pieces.now head.now result (F.files fs.new) }
    ensures kept { IsTrue F.tells → IfOk result (λ written. written ≡ Settled
        → IsTrue (F.is_kept fs.new head.now.path.now)) }

    // A fault is told only where calls failed.
    ensures cause { HasFaults result (F.faults fs.old) (F.faults fs.new) }
    ensures later { F.faults fs.old ≤ F.faults fs.new }
{
    for i in 0..pieces.len() {
        put_piece(fs, pieces, i)?;
    }
    match write_whole(fs, head.path, head.part, head.bytes) {
        Ok(written) => Ok(written),
        Err(error) => Err(PublishError::AtHead(error)),
    }
}
