//! Delegation chains: keys that sign keys.
//!
//! A link says that a key lets another one act: under which name, and how deep that one may
//! delegate in turn. Its body is the depth, 0 to 15, and the length of the name, a byte each, then
//! the name, 1 to 64 bytes, and the subject's verifying key, 2n bytes. The body and its signature
//! under the context `slh-chain` are the link. A chain is its links joined. Its first link is
//! signed by the root key, and each further one by the subject of the link before, with a depth
//! below that link's. So a link of depth 0 lets its subject sign and delegate no further, and a
//! good chain has at most 16 links.
//!
//! A root key lets a release key act, and who knows the root key alone learns that key from the
//! chain. `example_of_the_page_of_chains` of `slh_tests` runs this:
//!
//! ```
//! use slh_chain::{ChainError, LinkError, delegate, walk};
//! use slh_dsa::{Sha2_128f, SigningKey, VerifyingKey};
//! use std::alloc::Global;
//!
//! fn release_link(
//!     alloc: Global,
//!     root: &SigningKey<Sha2_128f>,
//!     release: &VerifyingKey<Sha2_128f>,
//! ) -> Result<Vec<u8>, LinkError> {
//!     delegate(alloc, root, b"release", 0, release, None)
//! }
//!
//! fn release_key(
//!     root: &VerifyingKey<Sha2_128f>,
//!     chain: &[u8],
//! ) -> Result<VerifyingKey<Sha2_128f>, ChainError> {
//!     let end = walk(root, chain)?;
//!     Ok(end.key)
//! }
//! ```
//!
//! [`delegate`] takes the memory of its link in one piece, and [`walk`] takes none and verifies
//! each link at most once. Each refusal is the first of its causes that stands. Names are signed,
//! and for people: no key is chosen by them, and [`walk`] answers none.
#![tactic(auto)]

mod chain;
pub mod clones;
mod error;
pub mod laws;
mod link;
mod links;
mod walking;

pub use chain::{Chain, verify_under};
pub use error::{ChainError, ExtendError, LinkError, UnderError};
pub use link::{CONTEXT, delegate};
pub use links::{LinkRef, Links, last_link};
pub use walking::{End, walk};
