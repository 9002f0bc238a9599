//! The SHA-2 hash functions of SLH-DSA (FIPS 205, section 11.2), and the rows of the six parameter
//! sets over them (section 11, table 2).
//!
//! A port of the SHA-2 half of the Rust crate `slh-dsa` 0.1.0, `hashes::sha2`. [`Sha2_128f`] and
//! its kin have `HashSuite` and the traits of sizes of `slh_core`, so that what stands above them
//! is written for any set. No call takes memory.
//!
//! F of a value at a step of a chain, under a public seed. In `slh_tests`,
//! `hash_l1::example_of_the_page` runs this, with `Brand` for the ledger and `Blank::new(1)` for
//! the count of hash calls:
//!
//! ```
//! ghost use Rattle.slh_core.specs.Steps.{IsFresh};
//!
//! use slh_core::array::sizes::U16;
//! use slh_core::address::WotsHash;
//! use slh_core::nbytes::NBytes;
//! use slh_core::steps::Steps;
//! use slh_core::suite::HashSuite;
//! use slh_hash::Sha2_128f;
//! use std::sync::ledger::{Blank, Ledger};
//!
//! fn next_value<L: Ledger>(pk_seed: &[u8; 16], value: &[u8; 16], blank: Blank) -> NBytes<U16>
//!     requires fresh { IsFresh blank L.name L.parts }
//! {
//!     let mut steps = Steps::<L>::new(blank);
//!     let keyed = Sha2_128f::keyed(&NBytes::exact(pk_seed));
//!     let adrs = WotsHash {
//!         layer_adrs: 1,
//!         tree_adrs_low: 0x0203,
//!         key_pair_adrs: 4,
//!         chain_adrs: 5,
//!         hash_adrs: 6,
//!     };
//!     Sha2_128f::f(&keyed, &adrs, &NBytes::exact(value), &mut steps)
//! }
//! ```
//!
//! The state `keyed` has hashed the seed and its padding once, and each call with it goes on from
//! there. No call can fail. What the functions compute is said by the definitions
//! `sha2_category_1` and `sha2_category_3_5`, by those of SHA-256, SHA-512, HMAC and MGF1.
#![tactic(auto)]

mod chain_ends;
mod join;
mod keyed;
mod mac;
mod messages;
mod mgf1;
mod pairs;
mod pairs_512;
mod pieces_l1;
mod pieces_l35;
mod resumable;
mod rows_256;
mod rows_512;
mod sets;
mod sha2_l1;
mod sha2_l35;
mod small;
mod small_l1;
mod small_l35;
mod tweaked;

pub use keyed::{Sha2Keyed, Sha2Keyed512};
pub use mac::{Hmac512, hmac_sha512};
pub use mgf1::{mgf1_256, mgf1_512};
pub use pieces_l1::{Digest256, Mac256};
pub use pieces_l35::{Digest512, Mac512};
pub use resumable::{Hashes, ResumableSuite};
pub use sets::{Sha2_128f, Sha2_128s, Sha2_192f, Sha2_192s, Sha2_256f, Sha2_256s};
pub use sha2_l1::Sha2L1;
pub use sha2_l35::Sha2L35;
pub use small::SmallSuite;
pub use small_l1::SmallKeyed;
pub use small_l35::SmallKeyed512;
