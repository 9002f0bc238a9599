//! Hashes over blocks: the traits of a hash and of its core, a core with a buffer, and object
//! identifiers. No call takes memory.
//!
//! - [`Update`], [`FixedOutput`], [`FixedOutputReset`] and [`Reset`] are what a hash does,
//!   [`UpdateCore`] and [`FixedOutputCore`] what its core does with whole blocks. All of them stand
//!   on [`Absorb`], which says what was absorbed and what the digest of it is.
//! - [`CoreWrapper`] makes a hash of a core.
//! - [`ObjectIdentifier`] names an algorithm, [`AssociatedOid`] gives that of a type.
//!
//! A hash of a core of one's own, `Summing`, which adds the bytes of blocks of 4. The test
//! `digests_on_the_way_and_after_a_reset` of `ground_tests` runs these lines, and has that core, in
//! some forty:
//!
//! ```
//! let mut hash = CoreWrapper::from_core(Summing { total: 0, count: 0 });
//! hash.update(&[1, 2, 3, 4, 5]);
//! hash.update(&[6]);
//! let mut digest = [0];
//! hash.finalize_with(&[9], &mut digest); // of what was absorbed and 9: 30
//! hash.finalize_into_reset(&mut digest); // 21, and the hash begins anew
//! hash.update(&[7]);
//! hash.finalize_into(&mut digest); // 7
//! ```
//!
//! The parts of the Rust crates `digest` and `const-oid` that a hash over blocks needs.
#![tactic(auto)]

mod core_api;
pub mod laws;
mod oid;
mod traits;
mod wrapper;

pub use block_buffer;
pub use core_api::{BlockSizeUser, BufferKindUser, FixedOutputCore, TailOutputCore, UpdateCore};
pub use oid::{Arcs, AssociatedOid, ObjectIdentifier, OidError};
pub use traits::{
    Absorb, AlgorithmName, FixedOutput, FixedOutputReset, HashMarker, OutputSizeUser, Reset, Update,
};
pub use wrapper::CoreWrapper;
