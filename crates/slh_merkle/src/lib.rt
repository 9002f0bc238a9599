//! XMSS trees, the hypertree and FORS (FIPS 205, sections 6 to 8), over any hash suite.
//!
//! The crate below, `slh_core`, has suites, addresses, sizes, digits and key pairs. Their names
//! stand here too. The functions of section 9, over these trees, stand in `slh_trees`.
//! [`toy::Toy`] is a suite of one byte for tests, whose values can be computed by hand; it hides
//! nothing. No call takes memory, and none but [`NBytes::from_slice`] refuses: what the others need
//! of lengths and places stands in their `requires`. Their contracts give the exact bytes, by the
//! definitions in `specs/`, and how many hash calls are made, exactly or at most.
#![tactic(auto)]

pub mod climb;
mod climb_rows;
pub mod fors;
pub mod hypertree;
pub mod laws;
mod leaves;
pub mod node;
mod subtree;
pub mod toy;
mod toy_sum;
mod treehash;
pub mod xmss;

pub use fors::{fors_node, fors_pk_from_sig, fors_sign, fors_sign_root, fors_sk_gen};
pub use hypertree::{ht_sign, ht_verify};
pub use slh_core::address::{
    Address, ForsPrf, ForsRoots, ForsTree, HashTree, WotsHash, WotsPk, WotsPrf,
};
pub use slh_core::digits::base_2b;
pub use slh_core::nbytes::NBytes;
pub use slh_core::params::{ForsParams, HypertreeParams, WotsParams, XmssParams};
pub use slh_core::steps::Steps;
pub use slh_core::suite::HashSuite;
pub use slh_core::wots::{wots_chain, wots_pk_from_sig, wots_pk_gen, wots_sign};
pub use toy_sum::ToySum;
pub use xmss::{xmss_node, xmss_pk_from_sig, xmss_sign, xmss_sign_root};
