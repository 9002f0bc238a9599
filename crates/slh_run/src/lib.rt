//! The program that answers jobs of SLH-DSA line by line (docs/LINES.md).
//!
//! [`serve`] answers the job lines of a whole source. What a [`Job`] is and how [`run`] answers it
//! stands in `slh_jobs`; that, and the ends and the engine for lines of `line_serve`, are handed on
//! by name.
//!
//! The status of a run over some lines, and the replies. The test `example_of_the_page_of_lines` of
//! `slh_tests` runs this on a line that asks for a key, `SLH-DSA-SHA2-128f keygen` and three
//! seeds of 32 hexadecimal digits each, whose reply is `key`, the signing key and the verifying
//! key:
//!
//! ```
//! use slh_run::{MemSink, MemSource, Words, serve};
//! use std::alloc::{AllocError, Global};
//!
//! fn replies(alloc: Global, lines: &[u8]) -> Result<(u8, Vec<u8>), AllocError> {
//!     let mut source = MemSource::new(lines.to_vec(alloc)?, Vec::new(alloc));
//!     let mut sink = MemSink::new(alloc, Vec::new(alloc));
//!     let status = serve(alloc, &Words::new(alloc), &mut source, &mut sink);
//!     Ok((status, sink.bytes().to_vec(alloc)?))
//! }
//! ```
//!
//! The second argument of `MemSource::new` and `MemSink::new` lists the calls that are to fail;
//! here none. A line that isn't answered has a reply of `error` and the cause, and the run goes on.
//! The status is 0 where each line has its reply; [`serve`] has the others.
#![tactic(auto)]

mod program;
mod reply;
mod request;

pub use line_serve::{
    ByteString, Failed, MemSink, MemSource, NullSink, QuietSource, Replier, Sink, Source, Words,
    count_fields, cut_fields, field, hex_field, serve_lines, write_all,
};
pub use program::serve;
pub use slh_audit::{Evidence, Verdict};
pub use slh_dsa::Mode;
pub use slh_jobs::{Answer, Error, Job, push_evidence, read_evidence, run};
pub use slh_sets::Set;
