//! Why a command on a key or the signature of a file is refused, and how that is told.

/// What is wrong with a file of such a command, or what it says.
#[derive(Clone, Copy, Debug, PartialEq, Eq, thiserror::Error)]
pub enum FileError {
    #[error("not what an audit prints")]
    NotAudit,
    #[error("not an envelope of DSSE")]
    NotEnvelope,
    #[error("an envelope of another type than --dsse asks for")]
    OtherType,
    #[error("neither a key nor a signature")]
    NoKeyOrSignature,
    #[error("the machine computed wrongly, and no signature is written")]
    Fault,
    #[error("a signing key goes to a file of mode 600")]
    KeyNeedsFile,
    #[error("no regular file: --output says where its signature goes")]
    NowhereBeside,
}
