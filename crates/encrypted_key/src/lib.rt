//! Private keys under a passphrase: PKCS #8's EncryptedPrivateKeyInfo (RFC 5958) in DER, with PBES2
//! (RFC 8018), which is PBKDF2 with HMAC-SHA-256 and AES in CBC.
//!
//! What is encrypted is a private key in PKCS #8 of any algorithm. Nothing authenticates a file: who
//! decrypts one compares what the key says of itself.
#![tactic(auto)]

mod cipher;
pub mod clones;
mod der;
mod error;
pub mod laws;
mod parts;
mod reading;
mod writing;

pub use error::EncryptedKeyError;
pub use parts::MAX_ITERATIONS;
pub use reading::decrypt;
pub use writing::{MAX_KEY, encrypt};
