//! What the command `slh` has of the host: its inputs, its outputs, the files below a folder, random
//! bytes, a progress line, and what it tells of what can't be read or written.
//!
//! An input is read whole or in pieces ([`files`]), an output is written whole or not at all and
//! never in the place of a secret ([`put_whole`] over any file system, [`outputs`] on the system),
//! and the files below a folder are a store that follows no link ([`folder`]).
#![tactic(auto)]

mod error;
mod failure;
pub mod files;
pub mod folder;
pub mod outputs;
mod progress;
mod randomness;
mod secrets;
mod whole_outputs;

pub use error::HostError;
pub use failure::Failure;
pub use progress::Progress;
pub use randomness::random;
pub use secrets::Kept;
pub use slh_bytes as bytes;
pub use whole_files;
pub use whole_outputs::{Fronts, PutError, put_whole};
