//! What each row of the tables of words asks for.

/// What a command does: each row of the tables has one, and each one has its code, in the crate of
/// its commands.
#[derive(Clone, Copy, Debug, PartialEq, Eq)]
pub enum Verb {
    File(FileVerb),
    Group(GroupVerb),
    Log(LogVerb),
}

/// What is done with a key or the signature of a file.
#[derive(Clone, Copy, Debug, PartialEq, Eq)]
pub enum FileVerb {
    Keygen,
    Key,
    Public,
    Sign,
    Verify,
    Audit,
    Evidence,
    Inspect,
}

/// What is done with batches, manifests, chains and rings.
#[derive(Clone, Copy, Debug, PartialEq, Eq)]
pub enum GroupVerb {
    BatchSign,
    BatchVerify,
    ManifestSeal,
    ManifestCheck,
    ChainDelegate,
    ChainWalk,
    ChainShow,
    ChainVerify,
    RingMaster,
    RingKey,
    RingRecord,
    RingRestore,
}

/// What is done with logs.
#[derive(Clone, Copy, Debug, PartialEq, Eq)]
pub enum LogVerb {
    Init,
    Append,
    Prune,
    Prove,
    Check,
    Verify,
    Growth,
}
