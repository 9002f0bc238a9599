//! The status of a run where a call of an end fails, and what is written then. Clauses of `serve`
//! say what a status means, not that a fault gives it.
use crate::page_of_runs::{LINE, REPLY};
use slh_run::{MemSink, MemSource, Words, serve};
use std::alloc::{AllocError, Global};

const BENCH: &[&[u8]] = &[b"bench", b"SLH-DSA-SHA2-128f", b"7", b"1"];

// The first line of its report, which is written before anything is signed.
const HEAD: &[u8] = b"bench SLH-DSA-SHA2-128f 7 1\n";

// A number that no call has.
const NEVER: u64 = u64::MAX;

// The words, the read and the write that fail, the status, and what is written. The first read gives
// the line, whose reply is written before the next read, and that one finds the end.
const ROWS: [(&[&[u8]], u64, u64, u8, &[u8]); 9] = [
    (&[], 0, NEVER, 3, b""),
    (&[], 1, NEVER, 3, REPLY),
    (&[], 2, NEVER, 0, REPLY),
    (&[], NEVER, 0, 4, b""),
    (&[], 0, 0, 3, b""),
    (&[], 1, 0, 4, b""),
    (&[b"help"], NEVER, 0, 4, b""),
    (BENCH, NEVER, 0, 4, b""),
    (BENCH, NEVER, 1, 4, HEAD),
];

fn words_of(alloc: Global, texts: &[&[u8]]) -> Result<Words, AllocError> {
    let mut words = Words::new(alloc);
    for text in texts {
        words.push(*text)?;
    }
    Ok(words)
}

fn is_told(alloc: Global, row: &(&[&[u8]], u64, u64, u8, &[u8])) -> Result<bool, AllocError> {
    let (texts, read, write, status, written) = *row;
    let words = words_of(alloc, texts)?;
    let mut source = MemSource::new(LINE.to_vec(alloc)?, vec![in alloc; read]?);
    let mut sink = MemSink::new(alloc, vec![in alloc; write]?);
    Ok(serve(alloc, &words, &mut source, &mut sink) == status && sink.bytes() == written)
}

#[test]
fn each_fault_is_told(rt: HostRuntime) {
    for row in &ROWS {
        assert!(rt;
            is_told(rt.alloc(), row) == Ok(true),
            "{} {} {}",
            row.1,
            row.2,
            row.3
        );
    }
}
