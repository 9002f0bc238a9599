//! The example of the page of `slh_audit`.
use crate::shown;
use crate::worked::{SIGNATURE, changed};
use slh_audit::{AuditError, Evidence, Verdict, audit, check_evidence};
use slh_merkle::toy::Toy;

const KEY: [u8; 4] = [5, 7, 3, 0xe1];

const MESSAGE: [u8; 1] = [0x48];

pub(crate) fn verdict(signature: &[u8]) -> Result<Verdict, AuditError> {
    audit::<Toy>(&KEY, &[], &MESSAGE, signature)
}

fn shows(signature: &[u8], evidence: Evidence) -> Result<bool, AuditError> {
    check_evidence::<Toy>(&KEY, &[], &MESSAGE, signature, &evidence)
}

// Step 0 of chain 2 takes 72 and 73 both to 39.
fn is_foreign(sig: &[u8; 21]) -> bool {
    let evidence = Evidence::ChainStep {
        layer: 0,
        chain: 2,
        step: 0,
    };
    verdict(sig) == Ok(Verdict::Foreign(evidence))
        && shows(sig, evidence) == Ok(true)
        && shows(&SIGNATURE, evidence) == Ok(false)
}

#[test]
fn example_of_the_page_of_audits(rt: HostRuntime) {
    shown::shows(&rt, verdict(&SIGNATURE) == Ok(Verdict::Genuine));
    shown::shows(&rt, is_foreign(&changed(&[(9, 0x48)])));
}
