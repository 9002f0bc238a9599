//! Evidence in words, as audits print it.
ghost use Rattle.std.specs.Prelude.{◌≡◌, IfOk};
ghost use Rattle.slh_bytes.specs.Lines.{words_of};
ghost use Rattle.slh_jobs.specs.EvidenceWords.{evidence_in};

use crate::lines::words;
use slh_jobs::{Evidence, read_evidence};
use std::alloc::{AllocError, Global};

/// The evidence of a text such as `early 0 1`: a kind, and its numbers.
pub fn evidence_of(alloc: Global, text: &[u8]) -> Result<Option<Evidence>, AllocError>
    ensures { IfOk result (λ found. found ≡ evidence_in (words_of text.now)) }
{
    let words = words(alloc, text)?;
    Ok(read_evidence(&words))
}
