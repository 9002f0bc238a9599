//! The files of a signed log, written so that its last checkpoint is true wherever everything stops.
//!
//! [`Appending`] adds entries to a log, and has the files that this makes: bundles and tiles.
//! [`publish`] writes files whole, one after the other, and then the head that speaks of them: a
//! log's entries, its tiles, and the checkpoint. [`make_folder`] makes the folders that they stand
//! in, and [`take_lock`] and [`free_lock`] are for one writer at a time. [`is_ahead`] and
//! [`is_superseded`] say which files no checkpoint needs.
#![tactic(auto)]

mod appending;
mod error;
mod folders;
pub mod laws;
mod leftovers;
mod lock;
mod publishing;

pub use appending::{AppendError, Appending, LogFile};
pub use error::{FolderError, PublishError};
pub use folders::make_folder;
pub use leftovers::{is_ahead, is_superseded};
pub use lock::{free_lock, take_lock};
pub use publishing::{Piece, are_separate, publish};
