//! Hash suites, addresses, digits and WOTS+ key pairs (FIPS 205, sections 4 and 5), over any suite.
//!
//! For trees above them, as those of `slh_merkle`, and hash functions below, as those of `slh_hash`.
//! A [`suite::HashSuite`] has the hash functions of a parameter set, `params` its sizes, and `wots`
//! chains and key pairs with them. Values of n bytes are [`nbytes::NBytes`], the place of a hash is
//! an [`address::Address`], and [`steps::Steps`] counts hash calls. No call takes memory.
//!
//! The address of the first step that a verifier takes on chain 1 of a key pair that signed a
//! message, as the suites over SHA-2 hash it. In `slh_tests`,
//! `core_values::example_of_the_page` runs this:
//!
//! ```
//! use hybrid_array::TryFromSliceError;
//! use hybrid_array::sizes::U16;
//! use slh_core::address::{Address, WotsHash};
//! use slh_core::digits::message_digits;
//! use slh_core::nbytes::NBytes;
//!
//! fn first_step(message: &[u8]) -> Result<[u8; 22], TryFromSliceError> {
//!     let message = NBytes::<U16>::from_slice(message)?;
//!     let digits = message_digits(&message);
//!     let adrs = WotsHash {
//!         layer_adrs: 0,
//!         tree_adrs_low: 2,
//!         key_pair_adrs: 3,
//!         chain_adrs: 1,
//!         hash_adrs: u32::from(digits[1]),
//!     };
//!     Ok(adrs.compressed())
//! }
//! ```
//!
//! `from_slice` refuses a slice that hasn't n bytes; no other call here can fail. What the others
//! need of lengths and numbers stands in their `requires`. Chains and key pairs say in `cost` how
//! many steps they count.
#![tactic(auto)]

pub mod active_chains;
pub mod address;
mod chain_rows;
pub mod clones;
pub mod digits;
pub mod equal_parts;
pub mod laws;
pub mod nbytes;
pub mod params;
pub mod pieces;
pub mod steps;
pub mod suite;
pub mod wots;

pub use hybrid_array as array;
