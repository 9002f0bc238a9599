//! What is wrong with an input or an output, and how that is told.
use std::io;

/// What is wrong with an input or an output, or what the system doesn't give.
#[derive(Debug, Drop, thiserror::Error)]
pub enum HostError {
    #[error("more than 2^24 bytes, which no such file has")]
    TooLong,
    #[error("a secret, which is not replaced")]
    Secret,
    #[error("a verifying key, which is not replaced")]
    Key,
    #[error("a link or no regular file, which is not replaced")]
    NotRegular,
    #[error("File exists, and stays")]
    Exists,
    #[error("the name of a file that is being written")]
    BeingWritten,
    /// A file can't be read, made or written.
    #[error("{0}")]
    System(io::Error),
    /// A file couldn't be made, and what was begun couldn't be removed.
    #[error("{0}; a file of 16 digits and .part may stay beside it")]
    Left(io::Error),
    /// A file was written whole, but its folder wasn't brought to the disk.
    #[error("it is written, but its folder can't be brought to the disk: {0}")]
    Unsettled(io::Error),
    #[error("no random bytes: {0}")]
    Random(io::Error),
}
