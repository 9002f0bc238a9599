//! The parameter sets of SLH-DSA over SHA-2 (FIPS 205, section 11, table 2), where which is meant
//! is known only when the program runs: by name, by number, and what to do in one.
//!
//! A [`Set`] is one of six. What is to be done in it is a task over any [`SetSuite`]: an
//! [`OnSet`] answers a value, a [`WriteOnSet`] writes into a slice of the caller's besides.
//! [`Set::run`] and [`Set::run_into`] are the one place where a set becomes a type. In `slh_tests`,
//! `sets::example_of_the_page` runs this:
//!
//! ```
//! use slh_sets::Set;
//!
//! fn signature_len_of(name: &[u8]) -> Option<usize> {
//!     Some(Set::from_name(name)?.signature_len())
//! }
//! ```
//!
//! No call takes memory, and none can fail but to find a set.
#![tactic(auto)]

mod dispatch;
pub mod laws;
mod set;
mod sizes;

pub use dispatch::{OnSet, OnSetInScratch, SetSuite, WriteOnSet};
pub use set::Set;
