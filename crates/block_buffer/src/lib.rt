//! Buffers that cut a stream of bytes into blocks, and a buffer for reading blocks as a stream.
//!
//! - [`EagerBuffer`] hands a block out as soon as it is full, [`LazyBuffer`] once more bytes come.
//!   Blocks go to a [`BlockSink`], which may refuse them.
//! - [`ReadBuffer`] reads the blocks of a [`BlockGen`] in any pieces.
//! - [`SerializedBuffer`] is a buffer as an array of bytes.
//! - [`VecSink`] is a sink that keeps what it takes, and refuses after so many calls.
//!
//! The buffers keep their bytes in places of their own, of which there are 255. Only the calls that
//! are given an allocator take memory: those that answer an array.
//!
//! What two pieces make, over a sink that keeps what it takes: 0 to 11 went there, and the buffer
//! holds 12. The test `example_of_the_page` of `ground_tests` runs this, and has the sink,
//! `Recorder`:
//!
//! ```
//! fn cut(sink: &mut Recorder) -> Result<EagerBuffer<U4>, Refused> {
//!     let mut buffer = EagerBuffer::<U4>::default();
//!     buffer.digest_blocks(&[0, 1, 2, 3, 4, 5, 6, 7, 8, 9], sink)?;
//!     buffer.digest_blocks(&[10, 11, 12], sink)?;
//!     Ok(buffer)
//! }
//! ```
//!
//! A port of the Rust crate `block-buffer` 0.12.1.
#![tactic(auto)]

mod buffer;
mod generator;
mod kind;
pub mod laws;
mod padding;
mod read;
mod serial;
mod sink;
mod vec_sink;

pub use buffer::{BlockBuffer, EagerBuffer, Error, LazyBuffer};
pub use generator::BlockGen;
pub use hybrid_array as array;
pub use kind::{BufferKind, Eager, Lazy};
pub use read::ReadBuffer;
pub use serial::SerializedBuffer;
pub use sink::{BlockSink, Refused};
pub use vec_sink::VecSink;
