//! Lines in, replies out: an engine that answers the lines of a source, one after another, and
//! writes the replies to a sink.
//!
//! - [`ByteString`] and [`Words`] are bytes, and a list of them.
//! - [`Source`] and [`Sink`] are where bytes come from and where they go. [`QuietSource`],
//!   [`MemSource`], [`MemSink`] and [`NullSink`] are such ends in memory; a [`Script`] says which
//!   calls fail.
//! - [`Replier`] answers one line, and [`serve_lines`] the lines of a whole source.
//! - [`all_fields`], [`cut_fields`], [`count_fields`] and [`field`] cut a line into its fields;
//!   [`field_at`], [`hex_field`], [`decimal_value`] and [`number_at`] read one.
//! - [`read_some`] reads from a source up to a limit, [`write_all`] writes a text to a sink.
//! - [`push_number`], [`push_hex`] and their lines put text together.
//! - [`serve_words`] is a whole program of lines, with its usage text.
//!
//! A replier of one's own, and its replies to the lines of an input. Its ghost member says what it
//! replies, and the prover checks that it does. The test `example_of_the_page` of `ground_tests` runs
//! this:
//!
//! ```
//! use line_serve::{ByteString, MemSink, QuietSource, Replier, count_fields, serve_lines};
//! use std::alloc::{AllocError, Global};
//!
//! struct Pairs;
//!
//! impl Replier for Pairs {
//!     ghost use Rattle.std.specs.Prelude.{◌==◌, if◌then◌else◌, codes, length};
//!     ghost use Rattle.line_serve.specs.Fields.{fields};
//!
//!     ghost reply_of = { λ _ line.
//!         if length (fields line) == 2 then codes "pair\n" else codes "other\n" };
//!
//!     fn reply(&self, _: Global, line: &[u8], out: &mut ByteString) -> Result<(), AllocError> {
//!         if count_fields(line) == 2 {
//!             return out.push_slice(b"pair\n");
//!         }
//!         out.push_slice(b"other\n")
//!     }
//! }
//!
//! fn replies(alloc: Global, input: &[u8]) -> Result<(u8, Vec<u8>), AllocError> {
//!     let mut source = QuietSource::new(input.to_vec(alloc)?);
//!     let mut sink = MemSink::new(alloc, Vec::new(alloc));
//!     let status = serve_lines(alloc, &Pairs, &mut source, &mut sink);
//!     Ok((status, sink.bytes().to_vec(alloc)?))
//! }
//! ```
//!
//! The status is 0 where each line has its reply, 3 where a read failed, 4 where a write failed, 5
//! where the input has 2^40 bytes or more, and 6 where there was no memory; what was written is a
//! front of the replies in any case. A line of more than 2^22 bytes has the reply `error line`.
#![tactic(auto)]

mod answer;
mod bytes;
mod decimals;
mod digits;
mod fields;
pub mod laws;
mod lines;
mod memory;
mod pending;
mod place;
mod program;
mod script;
mod stream;
mod text;
mod write;

pub use answer::Replier;
pub use bytes::{ByteString, Words};
pub use decimals::{decimal_value, number_at};
pub use fields::{all_fields, count_fields, cut_fields, field, field_at, hex_field};
pub use lines::{read_some, serve_lines};
pub use memory::{MemSink, MemSource, NullSink, QuietSource};
pub use program::serve_words;
pub use script::Script;
pub use stream::{Failed, Sink, Source};
pub use text::{push_hex, push_hex_line, push_number, push_number_line};
pub use write::write_all;
