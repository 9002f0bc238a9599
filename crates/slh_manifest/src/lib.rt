//! Signed manifests: which names a store has, with how many bytes and which digest of them, under
//! one signature.
//!
//! A manifest is its body and the signature of the body under the context `slh-manifest`. The body
//! is the number of entries, in 4 bytes with the highest first, and then for each entry the number
//! of the name's bytes, in one byte, the name, how many bytes stand under it, in 8 bytes, and their
//! SHA-256. There are 1 to 4096 entries. Their names have 1 to 255 bytes and rise in the order of
//! bytes, so that none stands twice, and each has at most 2^32 bytes.
//!
//! A [`Store`] has bytes under names, as files have; [`MemStore`] is one in memory. Many of its
//! names are signed together, and who has the verifying key learns which is the first that is
//! missing or differs. The test `example_of_the_page_of_manifests` of `slh_tests` runs
//! this:
//!
//! ```
//! use slh_dsa::{Sha2_128f, SigningKey, VerifyingKey};
//! use slh_manifest::{BuildError, Builder, CheckError, Store, check};
//! use std::alloc::Global;
//!
//! fn manifest_of<T: Store>(
//!     alloc: Global,
//!     key: &SigningKey<Sha2_128f>,
//!     names: &[&[u8]],
//!     store: &mut T,
//! ) -> Result<Vec<u8>, BuildError> {
//!     let mut builder = Builder::new(alloc);
//!     for name in names {
//!         builder.add(name, store)?;
//!     }
//!     builder.seal(alloc, key, None)
//! }
//!
//! fn checked<T: Store>(
//!     key: &VerifyingKey<Sha2_128f>,
//!     manifest: &[u8],
//!     store: &mut T,
//! ) -> Result<(), CheckError> {
//!     check(key, manifest, store)
//! }
//! ```
//!
//! A manifest is read by [`Manifest::open`], which verifies it once. [`EntryRef::check`] checks one of
//! its entries, so that all that aren't right are told, and an [`EntryChecker`] takes an entry's bytes
//! in pieces as they come, so that they are used only where they match, without reading them twice.
//!
//! Bytes are hashed as they are read, through a buffer of 4096 bytes, whatever there is of them.
//! [`Builder::add`] keeps an entry alone, and [`check`] and [`Manifest`] take no memory. Each refusal
//! comes for the cause that its variant names, the first in the order of the variants, but for a read
//! that fails, which ends the call.
#![tactic(auto)]

mod builder;
mod checker;
mod checking;
pub mod clones;
mod entry;
mod entry_ref;
mod error;
pub mod laws;
mod manifest;
mod measure;
mod memory;
mod parts;
mod store;

pub use builder::{Builder, CONTEXT};
pub use checker::EntryChecker;
pub use checking::check;
pub use entry::{Entry, MAX_ENTRIES, MAX_LEN, MAX_NAME};
pub use entry_ref::EntryRef;
pub use error::{BuildError, CheckError, EntryError};
pub use line_serve::Failed;
pub use manifest::{Entries, Manifest};
pub use memory::MemStore;
pub use store::{Store, copy_from};
