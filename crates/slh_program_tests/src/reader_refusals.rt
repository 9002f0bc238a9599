//! What `slh_bytes` refuses, and faults of readers.
use crate::readers::{Broken, is_broken, is_refused, public, signing};
use crate::shown::shows;
use slh_bytes::{Fallible, sign_digest, sign_twice, verify};
use slh_jobs::{Error, Mode};
use std::alloc::Global;
use std::io::Read;

const LONG: [u8; 256] = [b'a'; 256];

// Each before a byte is read.
fn are_refused(alloc: Global) -> Result<bool, Error> {
    let (key, public) = (signing(alloc)?, public(alloc)?);
    let short = Some(&LONG[..15]);
    let pure = sign_digest(alloc, &key, Mode::Pure, b"", None, Fallible(Broken));
    let other = sign_digest(alloc, &public, Mode::Sha256, b"", None, Fallible(Broken));
    let context = sign_twice(alloc, &key, &LONG, None, Fallible(Broken), Fallible(Broken));
    let rand = sign_twice(alloc, &key, b"", short, Fallible(Broken), Fallible(Broken));
    let cut = verify(&public, Mode::Pure, b"", &LONG, Fallible(Broken));
    Ok(
        is_refused(pure, Error::Length)
            && is_refused(other, Error::Length)
            && is_refused(context, Error::ContextTooLong)
            && is_refused(rand, Error::RandomizerLength)
            && is_refused(cut, Error::Length),
    )
}

#[test]
fn sizes_are_refused(rt: HostRuntime) {
    shows(&rt, are_refused(rt.alloc()) == Ok(true));
}

fn are_told(alloc: Global) -> Result<bool, Error> {
    let (key, public) = (signing(alloc)?, public(alloc)?);
    let signature = [0; 17_088];
    let text = b"Hello".as_slice();
    let digest = sign_digest(
        alloc,
        &key,
        Mode::Sha512,
        b"",
        None,
        Fallible(text.chain(Broken)),
    );
    let first = sign_twice(alloc, &key, b"", None, Fallible(text.chain(Broken)), text);
    let second = sign_twice(alloc, &key, b"", None, text, Fallible(text.chain(Broken)));
    let verified = verify(
        &public,
        Mode::Pure,
        b"",
        &signature,
        Fallible(text.chain(Broken)),
    );
    Ok(is_broken(digest) && is_broken(first) && is_broken(second) && is_broken(verified))
}

#[test]
fn faults_of_readers_are_told(rt: HostRuntime) {
    shows(&rt, are_told(rt.alloc()) == Ok(true));
}
