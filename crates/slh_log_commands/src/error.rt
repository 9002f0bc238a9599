//! Why a command on a log is refused, and how that is told.

/// What is wrong with a log, a checkpoint or a proof.
#[derive(Clone, Copy, Debug, PartialEq, Eq, thiserror::Error)]
pub enum Refusal {
    #[error("not 1 to 255 bytes without spaces, plus signs and control characters")]
    Origin,
    #[error("an entry of more than 65535 bytes")]
    EntryTooLong,
    #[error("it has more than 2^60 bytes")]
    MessageTooLong,
    #[error("the log is full")]
    Full,
    #[error("there is a log already")]
    Exists,
    #[error("a head with entries was signed of this log, which goes on by append")]
    Begun,
    #[error("another run signs after it")]
    InUse,
    #[error("it is below the folder, with which it would be restored")]
    InFolder,
    #[error("no place for the head that was signed last")]
    NoPlace,
    #[error("the head that was signed last has entries that the folder lacks: an old copy of the log")]
    OldCopy,
    #[error("the head that was signed last is none of this log, which is a fork of its own")]
    Fork,
    #[error("the new head isn't a growth of the one that was signed last")]
    NotGrown,
    #[error("no log: it has no checkpoint")]
    NoLog,
    #[error("a link or no folder")]
    NoFolder,
    #[error("writes to this log; if it doesn't run any more, remove this file")]
    Held,
    #[error("it runs, and writes to this log")]
    Runs,
    #[error("not known to be of this host, where alone it is seen whether it runs")]
    OtherHost,
    #[error("not a number in decimal")]
    NotDecimal,
    #[error("the log has no such entry or size")]
    NoEntryOrSize,
    #[error("the log has no such entry")]
    NoEntry,
    #[error("not a size from 1 to the log's")]
    NoSize,
    #[error("it or --from is needed, and not both")]
    IndexOrSize,
    #[error("its tiles and entries don't give the root of its checkpoint: one is bent")]
    BentLog,
    #[error("its tiles don't give the root of its checkpoint: one of them is bent")]
    BentTiles,
    #[error("not a tile of this log: cut or bent")]
    CutTile,
    #[error("no tile of this log: missing or cut")]
    NoTile,
    #[error("not the tile of these entries: missing, cut or bent")]
    OtherTile,
    #[error("not the entries of this log: cut or bent")]
    OtherEntries,
    #[error("not a checkpoint")]
    NotCheckpoint,
    #[error("its origin is not UTF-8")]
    OriginText,
    #[error("a checkpoint of another origin")]
    OtherOrigin,
    #[error("not signed by this key under this origin")]
    Unsigned,
    #[error("the signature of its checkpoint is invalid")]
    InvalidHead,
    #[error("not the proof of an entry")]
    NotPresence,
    #[error("not a proof of growth")]
    NotGrowth,
    #[error("its index is none of the log's")]
    OtherIndex,
    #[error("too long or too short for these sizes")]
    ProofLength,
    #[error("a proof from another size than the old checkpoint's")]
    OtherSize,
    #[error("it has no entries, and every log grew from it")]
    EmptyOld,
    #[error("it has fewer entries than the old checkpoint")]
    Smaller,
}
