//! Clones and equality of values, as the contracts of functions that do nothing else.
ghost use Rattle.std.specs.Prelude.{◌≡◌, ◌↔◌};
ghost use Rattle.std.specs.Prelude.{IsTrue};
ghost use Rattle.slh_audit.specs.declared.evidence.Evidence.{Evidence};
ghost use Rattle.slh_audit.specs.declared.evidence.Verdict.{Verdict};

use crate::evidence::{AuditError, Evidence, Verdict};

/// A clone of evidence is that evidence, and `==` holds exactly where kind and numbers are equal.
pub fn clone_and_equality_of_evidence(a: &Evidence, b: &Evidence) -> (Evidence, bool)
    ensures clone { result.0 ≡ a.now }
    ensures equal { IsTrue result.1 ↔ (a.now ≡ b.now) }
{
    (a.clone().unwrap(), a == b)
}

/// A clone of a verdict is that verdict, and `==` holds exactly where both are the same, with equal
/// evidence.
pub fn clone_and_equality_of_verdicts(a: &Verdict, b: &Verdict) -> (Verdict, bool)
    ensures clone { result.0 ≡ a.now }
    ensures equal { IsTrue result.1 ↔ (a.now ≡ b.now) }
{
    (a.clone().unwrap(), a == b)
}

/// A clone of a refusal is that refusal, and `==` holds exactly where both are the same.
pub fn clone_and_equality_of_errors(a: &AuditError, b: &AuditError) -> (AuditError, bool)
    ensures clone { result.0 ≡ a.now }
    ensures equal { IsTrue result.1 ↔ (a.now ≡ b.now) }
{
    (a.clone().unwrap(), a == b)
}
