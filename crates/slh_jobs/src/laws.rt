//! How evidence is read back, as a contract.
ghost use Rattle.std.specs.Prelude.{◌≡◌, Some};
ghost use Rattle.line_serve.specs.Fields.{fields};
ghost use Rattle.slh_audit.specs.declared.evidence.Evidence.{Evidence};
ghost use Rattle.slh_jobs.specs.EvidenceNumbers.{HasNumbers};
ghost use Rattle.slh_jobs.specs.EvidenceWords.{evidence_in, evidence_text};

/// The evidence that is printed is read back from the words of its text, whose numbers are those of
/// the code: who has what an audit printed can send it to a check.
pub fn evidence_is_read_back()
    ensures { (evidence : Evidence) → HasNumbers evidence
        → evidence_in (fields (evidence_text evidence)) ≡ Some evidence }
{}
