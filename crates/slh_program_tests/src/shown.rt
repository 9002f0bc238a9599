//! What tests assert. An assertion is dear to prove, and a call of these is less so.
use std::fmt::Display;
use std::process::Abort;

/// Ends the test where a fact doesn't hold.
pub(crate) fn shows(rt: &impl Abort, fact: bool) {
    assert!(rt; fact);
}

/// The same of one row of a table, which is told.
pub(crate) fn shows_at<D: Display + Drop>(rt: &impl Abort, row: D, fact: bool) {
    assert!(rt; fact, "{row}");
}
