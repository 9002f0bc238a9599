//! Standard input, output and words for programs of lines, and their one `main`, [`run`].
#![tactic(auto)]

mod program;
mod stdio;
mod words;

pub use program::{Program, run};
pub use stdio::{StdSink, StdSource};
pub use words::words_of;
