//! What is wrong with the words of a command, and how that is told.

/// What is wrong with the words of a command, or with what they name.
#[derive(Clone, Copy, Debug, PartialEq, Eq, thiserror::Error)]
pub enum WordError {
    #[error("no such command: see slh --help")]
    NoCommand,
    #[error("only one file can be standard input")]
    TwoInputs,
    #[error("it is missing")]
    Missing,
    #[error("it is missing, and so is --key-text")]
    KeyMissing,
    #[error("no such set")]
    NoSet,
    #[error("the name of a set, which --set takes")]
    SetAsName,
    #[error("no name of files")]
    NotName,
    #[error("no such hash")]
    NoHash,
    #[error("the context has more than 255 bytes")]
    ContextTooLong,
    #[error("the contexts slh-batch, slh-chain, slh-log and slh-manifest are for what they name alone")]
    ReservedContext,
    #[error("not hexadecimal")]
    NotHexadecimal,
    #[error("the output would be written over it")]
    OverInput,
    #[error("standard input has none beside it")]
    NothingBeside,
    #[error("it is of one file")]
    OneFile,
    #[error("not a number from 1 to 10000000")]
    Iterations,
    #[error("there is no passphrase that it goes with")]
    NoPassphrase,
    #[error("not all files were verified")]
    Unverified,
    #[error("a word of the command line has control characters")]
    Unprintable,
    /// A file is no signature of a set: its name, and how many bytes its signatures have.
    #[error("not a signature of {0}, which has {1} bytes")]
    NotSignature(&'static str, usize),
}
