//! What came of a write.

/// How surely a file that was written stays.
#[derive(Clone, Copy, Debug, PartialEq, Eq)]
pub enum Written {
    /// Its bytes and its name are on the disk.
    Settled,
    /// Its bytes are on the disk, and it has its name; but the folder couldn't be brought to the
    /// disk, so that after a loss of power what was there may be back.
    Unsettled,
}

/// Why a file wasn't written.
#[derive(Clone, Copy, Debug, PartialEq, Eq)]
pub enum WriteError {
    /// What stands at the path is no regular file.
    NotRegular,
    /// A name that was to be made is there already.
    Taken,
    /// A call failed. Nothing is left of what was begun.
    Failed,
    /// A call failed, and so did the removal of what was begun.
    Left,
}
