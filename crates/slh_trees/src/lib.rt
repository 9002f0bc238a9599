//! The internal functions of SLH-DSA (FIPS 205, section 9), over any hash suite: what a message's
//! digest names, the signature of a message, the root that a signature leads to, and that of a key.
//!
//! The crates below, whose names stand here too, have the trees of sections 6 to 8 (`slh_merkle`),
//! and suites, addresses, sizes, digits and key pairs (`slh_core`). [`uncounted`] has the roots for
//! callers that count no hash calls. No call takes memory.
//!
//! Whether a verifying key of the toy suite, the bytes 0x03 and 0xe1, accepts a signature of the
//! message 0x48 with an empty context (FIPS 205, algorithms 20 and 24). The test
//! `example_of_the_page_of_trees` of `slh_tests` runs this:
//!
//! ```
//! use slh_core::nbytes::NBytes;
//! use slh_trees::SigView;
//! use slh_trees::uncounted::check_root;
//! use slh_merkle::toy::Toy;
//!
//! // what stands before an empty context (FIPS 205, algorithm 22)
//! const HEAD: [u8; 2] = [0, 0];
//!
//! fn accepts(signature: &[u8]) -> bool {
//!     let Some(view) = SigView::<Toy>::new(signature) else {
//!         return false;
//!     };
//!     let (seed, root) = (NBytes::exact(&[3]), NBytes::exact(&[0xe1]));
//!     let found = check_root::<Toy>(&seed, &root, &HEAD, &[], &[0x48], &view);
//!     found == root
//! }
//! ```
//!
//! [`SigView::new`] refuses a wrong number of bytes, and no other call refuses: what the others need
//! of lengths stands in their `requires`. Their contracts give the exact bytes, by the definitions in
//! `specs/`, and how many hash calls are made, exactly or at most.
#![tactic(auto)]

pub mod check;
pub mod digest;
pub mod laws;
pub mod root;
pub mod sig_view;
pub mod sign;
pub mod sizes;
pub mod uncounted;

pub use check::check_root;
pub use digest::split_digest;
pub use root::top_root;
pub use sig_view::SigView;
pub use slh_merkle as merkle;
pub use slh_merkle::{
    Address, ForsParams, ForsPrf, ForsRoots, ForsTree, HashSuite, HashTree, HypertreeParams,
    NBytes, Steps, ToySum, WotsHash, WotsParams, WotsPk, WotsPrf, XmssParams, base_2b, fors_node,
    fors_pk_from_sig, fors_sign, fors_sign_root, fors_sk_gen, ht_sign, ht_verify, toy, wots_chain,
    wots_pk_from_sig, wots_pk_gen, wots_sign, xmss_node, xmss_pk_from_sig, xmss_sign,
    xmss_sign_root,
};
