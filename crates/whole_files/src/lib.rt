//! Files that are written whole or not at all, over a trait for what a program does to files.
//!
//! [`FileSystem`] has the calls, each with what it makes of the files whether it succeeds, fails or
//! is cut short. Over it stand [`write_whole`], which takes the place of a regular file or of
//! nothing, [`make_new`] and [`make_secret`], which replace nothing, and [`make_pair`], which makes
//! a secret and a public file or neither. What they require to be permitted says what the files are
//! wherever everything stops. [`MemFiles`] are files in memory of which chosen calls fail, and
//! [`HostFiles`] are those of the system, of which nothing is told.
#![tactic(auto)]

mod error;
mod file;
mod file_system;
mod host;
mod inode;
mod inputs;
mod memory;
mod names;
mod pair;
mod parts;
mod script;
mod whole;

pub use error::{WriteError, Written};
pub use file::{Failed, FileId, Kind, MASKED_BITS, Mode, Stat};
pub use file_system::FileSystem;
pub use host::HostFiles;
pub use inputs::is_input;
pub use memory::MemFiles;
pub use pair::{are_apart, make_pair};
pub use parts::{is_part, part_name};
pub use whole::{SECRET_MODE, make_new, make_secret, write_whole};
