//! The words of a command line.
use line_serve::Words;
use std::alloc::AllocError;
use std::env::{Env, FillError};

// No word of a program is longer. A longer one is put as a word of no bytes, which is no word of any
// program either.
const MAX_WORD: usize = 256;

/// The words after the program's name.
pub fn words_of(rt: &(impl Env + AllocGlobal)) -> Result<Words, AllocError> {
    let mut words = Words::new(rt.alloc());
    let mut buffer = [0; MAX_WORD];
    for i in 1..usize::MAX {
        match rt.arg(i, &mut buffer) {
            Ok(len) => words.push(&buffer[..len])?,
            Err(FillError::TooLong) => words.push(b"")?,
            Err(FillError::NotPresent) => break,
        }
    }
    Ok(words)
}
