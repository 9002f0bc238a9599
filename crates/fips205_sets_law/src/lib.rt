//! The laws of `fips205_law` at the six parameter sets over SHA-2, with nothing left to assume, and
//! against the calls of `slh_dsa` (docs/STANDARD.md). Each law is the contract of a function that
//! does nothing.
#![tactic(auto)]

pub mod names;

ghost use Rattle.fips205_sets_law.specs.Law.{TablesAgree, SetsAgree};

/// Does nothing: its clause says that the six sets have the sizes of table 2 and the functions of
/// section 11.2.
pub fn tables_agree()
    ensures { TablesAgree }
{}

/// Does nothing: its clause is the law of algorithms 18 to 25 at the six sets.
pub fn sets_agree()
    ensures { SetsAgree }
{}
