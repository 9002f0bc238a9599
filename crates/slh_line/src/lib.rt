//! The grammar of lines `SET command fields..`.
#![tactic(auto)]

mod fields;
pub mod laws;
mod line_error;
mod replier;

pub use fields::{
    all_bytes_at, as_bytes, bytes_at, checked_randomizer, field_bytes, randomizer_at, signing_key,
    verifying_key, word_at,
};
pub use line_error::LineError;
pub use replier::{Commands, Lines};
