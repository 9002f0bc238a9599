//! What becomes of a command.
ghost use Rattle.std.specs.Prelude.{◌≡◌};
ghost use Rattle.slh_bytes.specs.Outcomes.{outcome_of_evidence, outcome_of_manifest};
ghost use Rattle.slh_bytes.specs.Outcomes.{outcome_of_receipt, outcome_of_receipt_under_head};
ghost use Rattle.slh_bytes.specs.Outcomes.{outcome_of_signature, outcome_of_unopened, status_of, word_of};

use crate::receipts::UnderHeadError;
use slh_batch::{HeadError, Place, ReceiptError};
use slh_envelope::OpenError;
use slh_manifest::CheckError;

/// What became of a command that wasn't refused.
#[derive(Clone, Copy, Debug, PartialEq, Eq)]
pub enum Outcome {
    /// What was asked for is written.
    Done,
    /// The signature is one of the file.
    Accepted,
    /// The signature is none of the file.
    Invalid,
    /// The key made the signature.
    Genuine,
    /// The key accepts the signature and didn't make it.
    Foreign,
    /// The evidence shows.
    Shown,
    /// The evidence doesn't show.
    NotShown,
    /// A file of a manifest is missing.
    Missing,
    /// A file of a manifest is another one.
    Differs,
    /// A manifest doesn't name a file.
    Unnamed,
    /// An envelope has no signature of the key.
    Unsigned,
}

impl Outcome {
    /// What is told of a signature that is or isn't accepted.
    pub fn of_signature(is_accepted: bool) -> Outcome
        ensures { result ≡ outcome_of_signature is_accepted }
    {
        if is_accepted {
            Outcome::Accepted
        } else {
            Outcome::Invalid
        }
    }

    /// What is told of evidence that shows or doesn't.
    pub fn of_evidence(is_shown: bool) -> Outcome
        ensures { result ≡ outcome_of_evidence is_shown }
    {
        if is_shown {
            Outcome::Shown
        } else {
            Outcome::NotShown
        }
    }

    /// What is told of a receipt that was checked: `None`, why there is no verdict.
    pub fn of_receipt(accepted: Result<Place, ReceiptError>) -> Option<Outcome>
        ensures { result ≡ outcome_of_receipt accepted }
    {
        match accepted {
            Ok(_) => Some(Outcome::Accepted),
            Err(ReceiptError::Invalid) => Some(Outcome::Invalid),
            Err(ReceiptError::Form | ReceiptError::Message) => None,
        }
    }

    /// The same of a receipt under the head of a batch.
    pub fn of_receipt_under_head(accepted: Result<Place, UnderHeadError>) -> Option<Outcome>
        ensures { result ≡ outcome_of_receipt_under_head accepted }
    {
        match accepted {
            Ok(place) => Outcome::of_receipt(Ok(place)),
            Err(UnderHeadError::Receipt(error)) => Outcome::of_receipt(Err(error)),
            Err(UnderHeadError::Head(HeadError::Invalid)) => Some(Outcome::Invalid),
            Err(UnderHeadError::Head(HeadError::Form)) => None,
        }
    }

    /// What is told of a manifest that was checked over a folder, in which something may stand that it
    /// doesn't name: `None`, why there is no verdict.
    pub fn of_manifest(checked: Result<(), CheckError>, has_unnamed: bool) -> Option<Outcome>
        ensures { result ≡ outcome_of_manifest checked has_unnamed }
    {
        match checked {
            Ok(()) if has_unnamed => Some(Outcome::Unnamed),
            Ok(()) => Some(Outcome::Accepted),
            Err(CheckError::Invalid) => Some(Outcome::Invalid),
            Err(CheckError::Missing(_)) => Some(Outcome::Missing),
            Err(CheckError::Differs(_)) => Some(Outcome::Differs),
            Err(CheckError::Form | CheckError::Fault) => None,
        }
    }

    /// What is told of an envelope that wasn't opened: `None`, why there is no verdict.
    pub fn of_unopened(error: OpenError) -> Option<Outcome>
        ensures { result ≡ outcome_of_unopened error }
    {
        match error {
            OpenError::Unsigned => Some(Outcome::Unsigned),
            OpenError::Invalid => Some(Outcome::Invalid),
            OpenError::Form | OpenError::PayloadType | OpenError::Memory => None,
        }
    }

    /// The exit status: 0, or 1 for a verdict that says no.
    pub fn status(self) -> u8
        ensures { result ≡ status_of self }
    {
        match self {
            Outcome::Done | Outcome::Accepted | Outcome::Genuine | Outcome::Shown => 0,
            Outcome::Invalid
            | Outcome::Foreign
            | Outcome::NotShown
            | Outcome::Missing
            | Outcome::Differs
            | Outcome::Unnamed
            | Outcome::Unsigned => 1,
        }
    }

    /// What is printed for a verdict.
    pub fn word(self) -> &'static str
        ensures { result.now ≡ word_of self }
    {
        match self {
            Outcome::Done => "",
            Outcome::Accepted => "accepted",
            Outcome::Invalid => "invalid",
            Outcome::Genuine => "genuine",
            Outcome::Foreign => "foreign",
            Outcome::Shown => "shown",
            Outcome::NotShown => "not shown",
            Outcome::Missing => "missing",
            Outcome::Differs => "differs",
            Outcome::Unnamed => "unnamed",
            Outcome::Unsigned => "unsigned",
        }
    }
}
