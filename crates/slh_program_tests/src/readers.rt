//! Readers in memory, and a key.
use slh_bytes::{Fallible, Key, ReadError, made_key, verifying_key};
use slh_jobs::Error;
use slh_sets::Set;
use std::alloc::Global;
use std::io::{self, ErrorKind, Read};

/// Gives 1 byte, then 2, and so on, and is interrupted before each piece.
#[derive(Drop)]
pub(crate) struct Slow<'a> {
    rest: &'a [u8],
    most: usize,
    interrupted: bool,
}

/// The bytes, slowly.
pub(crate) fn slowly(bytes: &[u8]) -> Fallible<Slow<'_>> {
    Fallible(Slow {
        rest: bytes,
        most: 0,
        interrupted: false,
    })
}

impl<'a> Read for Slow<'a> {
    fn read(&mut self, buf: &mut [u8]) -> io::Result<usize> {
        self.interrupted = !self.interrupted;
        if self.interrupted {
            return Err(io::Error::from(ErrorKind::Interrupted));
        }
        self.most = self.most.saturating_add(1);
        let count = self.most.min(self.rest.len()).min(buf.len());
        let (piece, rest) = self.rest.split_at(count);
        buf[..count].copy_from_slice(piece);
        self.rest = rest;
        Ok(count)
    }
}

/// Gives nothing but a fault.
#[derive(Drop)]
pub(crate) struct Broken;

impl Read for Broken {
    fn read(&mut self, _buf: &mut [u8]) -> io::Result<usize> {
        Err(io::Error::from(ErrorKind::BrokenPipe))
    }
}

/// The signing key of SLH-DSA-SHA2-128f of three seeds, which repeat 1, 2 and 3.
pub(crate) fn signing(alloc: Global) -> Result<Key, Error> {
    let mut seeds = [0; 96];
    seeds[..16].fill(1);
    seeds[16..32].fill(2);
    seeds[32..48].fill(3);
    made_key(alloc, Set::Sha2_128f, &seeds)
}

/// Its verifying key.
pub(crate) fn public(alloc: Global) -> Result<Key, Error> {
    Ok(verifying_key(alloc, &signing(alloc)?)?)
}

/// Whether a job was refused for this cause.
pub(crate) fn is_refused<T: Drop>(answer: Result<T, ReadError>, cause: Error) -> bool {
    match answer {
        Err(ReadError::Refused(error)) => error == cause,
        _ => false,
    }
}

/// Whether the reader's own fault is told.
pub(crate) fn is_broken<T: Drop>(answer: Result<T, ReadError>) -> bool {
    match answer {
        Err(ReadError::Read(error)) => error.kind() == ErrorKind::BrokenPipe,
        _ => false,
    }
}

/// Whether the second reader is told to have given other bytes.
pub(crate) fn is_changed<T: Drop>(answer: Result<T, ReadError>) -> bool {
    match answer {
        Err(ReadError::Changed) => true,
        _ => false,
    }
}
