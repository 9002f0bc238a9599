//! The example of the page of `slh_bytes`.
use crate::readers::{public, signing};
use crate::shown::shows;
use slh_bytes::{Key, ReadError, sign_twice, verify};
use slh_jobs::{ByteString, Error, Mode};
use std::alloc::Global;

fn signed(alloc: Global, key: &Key, file: &[u8]) -> Result<ByteString, ReadError> {
    sign_twice(alloc, key, b"context", None, file, file)
}

fn accepted(key: &Key, file: &[u8], signature: &[u8]) -> Result<bool, ReadError> {
    verify(key, Mode::Pure, b"context", signature, file)
}

fn is_signed_and_accepted(alloc: Global) -> Result<bool, Error> {
    let file = b"the bytes of a file";
    match signed(alloc, &signing(alloc)?, file) {
        Ok(signature) => {
            let accepted = accepted(&public(alloc)?, file, signature.as_slice());
            Ok(matches!(accepted, Ok(true)))
        }
        Err(_) => Ok(false),
    }
}

#[test]
fn example_of_the_page(rt: HostRuntime) {
    shows(&rt, is_signed_and_accepted(rt.alloc()) == Ok(true));
}
