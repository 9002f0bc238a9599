//! Key rings: keys that one master secret and their paths give.
//!
//! A path is 0 to 8 numbers, as of a product, a year and a device. The three seeds of the key at a
//! path are HKDF-SHA-256 (RFC 5869) of the master under the salt `slh-ring`, expanded with the word
//! `key`, the parameter set's name after its length, and the path: how many numbers it has and then
//! each in 4 bytes, the highest first. Who has the master has every key.
//!
//! A ring is up to 64 paths, in the order of their lists. Its record is made of them and of
//! verifying keys, and may be kept in the open: the letters `SLHR`, the version 1, the set's name
//! after its length, the number of paths in 2 bytes, and then each path as above and the first 8
//! bytes of the SHA-256 of its verifying key. With the same master a record gives its ring again.
//! Another set is noticed by its name, and another master by the first of these 8 bytes that
//! differ; the record of a ring without paths is the same under every master.
//!
//! The record of two products' keys, and the second key found again. The test
//! `example_of_the_page_of_rings` of `slh_tests` runs this:
//!
//! ```
//! use slh_dsa::{Sha2_128f, SigningKey};
//! use slh_ring::{Path, RestoreError, Ring, RingError, derive};
//! use std::alloc::Global;
//!
//! fn path_of(product: u32) -> Path {
//!     Path::from_slice(&[product, 2026]).unwrap()
//! }
//!
//! fn record_of_two(alloc: Global, master: &[u8; 32]) -> Result<Vec<u8>, RingError> {
//!     let mut ring = Ring::<Sha2_128f>::new(alloc);
//!     ring.add(path_of(2))?;
//!     ring.add(path_of(1))?;
//!     Ok(ring.to_record(alloc, master)?)
//! }
//!
//! fn second_key(
//!     alloc: Global,
//!     master: &[u8; 32],
//!     record: &[u8],
//! ) -> Result<Option<SigningKey<Sha2_128f>>, RestoreError> {
//!     let ring = Ring::<Sha2_128f>::restore(alloc, master, record)?;
//!     match ring.get(1) {
//!         Some(path) => Ok(Some(derive(master, path))),
//!         None => Ok(None),
//!     }
//! }
//! ```
//!
//! [`Ring::to_record`] and [`Ring::restore`] make the key of each path once, which is what they
//! cost, and `restore` stops at the first that isn't the recorded one. [`derive`] takes no memory.
//! The 8 bytes are there to notice a mistake: who may write a record can leave paths out of it, or
//! put paths in whose verifying keys are known. A master has at most [`MAX_MASTER`] bytes, and should have at
//! least n that nobody can guess.
#![tactic(auto)]

pub mod clones;
mod derived;
mod entry;
mod error;
pub mod laws;
mod path;
mod recorded;
mod records;
mod ring;
mod text;

pub use derived::{MAX_MASTER, derive, derive_counted};
pub use entry::TAG_LEN;
pub use error::{RestoreError, RingError};
pub use path::{MAX_NUMBERS, Path};
pub use recorded::{Record, RecordEntry, recorded_set};
pub use ring::{MAX_PATHS, Ring};
