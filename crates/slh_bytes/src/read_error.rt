//! Why what an input gives isn't signed, verified or audited, and how that is told.
ghost use Rattle.std.specs.Prelude.{◌≡◌};
ghost use Rattle.slh_bytes.specs.declared.read_error.ReadError.TheVariants.{Read, Refused};
ghost use Rattle.slh_jobs.specs.Errors.{audit_error_of, error_of};
ghost use Rattle.slh_jobs.specs.declared.job.Error.TheVariants.{Memory};

use slh_audit::AuditError;
use slh_jobs::Error;
use std::alloc::AllocError;
use std::{fmt, io};

/// Why what an input gives isn't signed, verified or audited.
#[derive(Debug, Drop)]
pub enum ReadError {
    /// The reader failed.
    Read(io::Error),
    /// The job was refused, for the first cause in the order of `slh_jobs::Error`.
    Refused(Error),
    /// The second input gave other bytes than the first.
    Changed,
}

impl From<io::Error> for ReadError {
    ghost from_gives = { λ e f. f ≡ Read e };

    fn from(error: io::Error) -> Self {
        ReadError::Read(error)
    }
}

impl From<slh_dsa::Error> for ReadError {
    ghost from_gives = { λ e f. f ≡ Refused (error_of e) };

    fn from(error: slh_dsa::Error) -> Self {
        ReadError::Refused(Error::from(error))
    }
}

impl From<AuditError> for ReadError {
    ghost from_gives = { λ e f. f ≡ Refused (audit_error_of e) };

    fn from(error: AuditError) -> Self {
        ReadError::Refused(Error::from(error))
    }
}

impl From<AllocError> for ReadError {
    ghost from_gives = { λ _ f. f ≡ Refused Memory };

    fn from(_: AllocError) -> Self {
        ReadError::Refused(Error::Memory)
    }
}

impl fmt::Display for ReadError {
    fn fmt<W: fmt::Write>(&self, f: &mut fmt::Formatter<W>) -> fmt::Result {
        match self {
            ReadError::Read(error) => write!(f, "{error}"),
            ReadError::Refused(error) => f.write_str(refusal_text(*error)),
            ReadError::Changed => f.write_str("changed while it was read"),
        }
    }
}

impl std::error::Error for ReadError {}

/// How the refusal of a job with a file is told.
pub fn refusal_text(error: Error) -> &'static str {
    match error {
        Error::Length => "a key or a signature has a wrong length",
        Error::ContextTooLong => "the context has more than 255 bytes",
        Error::RandomizerLength => "the randomizer has a wrong length",
        Error::MessageTooLong => "the file has more than 2^60 bytes",
        Error::KeyMismatch => "the key's root is not that of its seeds",
        Error::Invalid => "the signature is invalid",
        Error::Memory => "out of memory",
    }
}
