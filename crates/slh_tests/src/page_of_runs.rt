//! The example of the page of `slh_run`.
use crate::shown::shows;
use slh_run::{MemSink, MemSource, Words, serve};
use std::alloc::{AllocError, Global};

fn replies(alloc: Global, lines: &[u8]) -> Result<(u8, Vec<u8>), AllocError> {
    let mut source = MemSource::new(lines.to_vec(alloc)?, Vec::new(alloc));
    let mut sink = MemSink::new(alloc, Vec::new(alloc));
    let status = serve(alloc, &Words::new(alloc), &mut source, &mut sink);
    Ok((status, sink.bytes().to_vec(alloc)?))
}

// A line with three seeds, and the key that the Rust crate `slh-dsa` makes of them.
pub(crate) const LINE: &[u8] =
    b"SLH-DSA-SHA2-128f keygen 01010101010101010101010101010101 02020202020202020202020202020202 03030303030303030303030303030303\n";

pub(crate) const REPLY: &[u8] =
    b"key 0101010101010101010101010101010102020202020202020202020202020202030303030303030303030303030303034052e0733e69e78739d6e67c77f9a37d 030303030303030303030303030303034052e0733e69e78739d6e67c77f9a37d\n";

fn is_answered(alloc: Global) -> bool {
    match replies(alloc, LINE) {
        Ok((status, written)) => status == 0 && written.as_slice() == REPLY,
        Err(_) => false,
    }
}

#[test]
fn example_of_the_page_of_lines(rt: HostRuntime) {
    shows(&rt, is_answered(rt.alloc()));
}
