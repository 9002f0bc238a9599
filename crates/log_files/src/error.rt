//! Why files aren't published, and folders aren't made.
use whole_files::WriteError;

/// Why the head isn't written.
#[derive(Clone, Copy, Debug, PartialEq, Eq)]
pub enum PublishError {
    /// The piece with this index isn't written. Those before it are.
    AtPiece(usize, WriteError),
    /// The piece with this index is written, as those before it are, but its folder wasn't brought to
    /// the disk.
    Unsettled(usize),
    /// The pieces are written, and the head isn't.
    AtHead(WriteError),
}

/// Why a folder isn't there.
#[derive(Clone, Copy, Debug, PartialEq, Eq)]
pub enum FolderError {
    /// A file, a link or another thing stands at the path.
    NoFolder,
    /// A call failed. Nothing is changed.
    Failed,
    /// The folder is there, but the one that it is in wasn't brought to the disk.
    Unsettled,
}
