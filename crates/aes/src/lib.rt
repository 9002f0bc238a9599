//! AES (FIPS 197) in cipher block chaining (SP 800-38A), for keys of 16, 24 and 32 bytes: for the
//! few blocks of a key's file, and not for bulk.
//!
//! The cipher and the key's schedule index no table by a secret and branch on none: the
//! substitution box is computed in GF(2^8). `unpadded_len` branches on the padding that it finds.
#![tactic(auto)]

mod block;
mod cbc;
mod cipher;
mod field;
pub mod laws;
mod schedule;

pub use block::{BLOCK_BYTES, Block};
pub use cbc::{padded, unpadded_len};
pub use schedule::RoundKeys;
