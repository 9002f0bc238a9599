//! Signatures that another program made of what readers give: the SHA-256 of each. And messages
//! that change meanwhile.
use crate::readers::{is_changed, public, signing, slowly};
use crate::shown::shows;
use hmac_sha256::Hash;
use slh_bytes::{
    Key, ReadError, audit, check_evidence, evidence_of, sign_digest, sign_twice, verify,
};
use slh_jobs::{ByteString, Error, Mode, Verdict};
use std::alloc::Global;

// The numbers from 0 on, which are a randomizer.
const NUMBERS: [u8; 16] = [0, 1, 2, 3, 4, 5, 6, 7, 8, 9, 10, 11, 12, 13, 14, 15];

fn has_digest(bytes: &[u8], wanted: &str) -> bool {
    let mut digest = [0; 32];
    bytes.len() < 65_536
        && hex::decode_to_slice(wanted, &mut digest).is_ok()
        && Hash::hash(bytes) == digest
}

fn signed(
    alloc: Global,
    key: &Key,
    mode: Mode,
    context: &[u8],
    opt_rand: Option<&[u8]>,
    message: &[u8],
) -> Result<ByteString, ReadError> {
    if mode == Mode::Pure {
        return sign_twice(alloc, key, context, opt_rand, message, slowly(message));
    }
    sign_digest(alloc, key, mode, context, opt_rand, slowly(message))
}

fn is_accepted(public: &Key, mode: Mode, context: &[u8], signature: &[u8], message: &[u8]) -> bool {
    let whole = verify(public, mode, context, signature, message);
    let in_pieces = verify(public, mode, context, signature, slowly(message));
    matches!(whole, Ok(true)) && matches!(in_pieces, Ok(true))
}

// Whether it is the key's own, and is refused for another message.
fn is_genuine(key: &Key, mode: Mode, context: &[u8], signature: &[u8], message: &[u8]) -> bool {
    let own = audit(key, mode, context, signature, slowly(message));
    let other = audit(key, mode, context, signature, slowly(b"another"));
    matches!(own, Ok(Verdict::Genuine)) && matches!(other, Err(ReadError::Refused(Error::Invalid)))
}

fn is_known(
    alloc: Global,
    mode: Mode,
    context: &[u8],
    opt_rand: Option<&[u8]>,
    message: &[u8],
    wanted: &str,
) -> Result<bool, Error> {
    let (key, public) = (signing(alloc)?, public(alloc)?);
    match signed(alloc, &key, mode, context, opt_rand, message) {
        Ok(signature) => {
            let signature = signature.as_slice();
            Ok(
                has_digest(signature, wanted)
                    && is_accepted(&public, mode, context, signature, message)
                    && is_genuine(&key, mode, context, signature, message),
            )
        }
        Err(_) => Ok(false),
    }
}

#[test]
fn known_signature_of_a_message(rt: HostRuntime) {
    let wanted = "2349cc54f79b5c1b7d51f2352cf6872bb947ebeb165d1c9f808e7e5a6163df44";
    shows(
        &rt,
        is_known(rt.alloc(), Mode::Pure, b"", None, b"Hello", wanted) == Ok(true),
    );
}

#[test]
fn known_signatures_of_digests(rt: HostRuntime) {
    let wanted = "6ede90ccaf41b9fb616a9d264d2f3098bc6ebe374c12ea86c5c89b85084bef74";
    let (context, hello) = (b"Test context!", b"Hello, world!");
    shows(
        &rt,
        is_known(rt.alloc(), Mode::Sha256, context, None, hello, wanted) == Ok(true),
    );
    let wanted = "cf156a3cbbea4b6726a994fbc1b5d11c2ec56d661a230319163b0a1333b99d65";
    let rand = Some(NUMBERS.as_slice());
    shows(
        &rt,
        is_known(rt.alloc(), Mode::Sha512, b"", rand, b"abc", wanted) == Ok(true),
    );
}

// Some 200 pieces, each of which has a byte more than the one before.
const LONG: [u8; 20_000] = [b'a'; 20_000];

#[test]
fn known_signature_of_a_long_message(rt: HostRuntime) {
    let wanted = "166ef1f8f7ce80555372b5d2d214587d7a448aea213f6113fbe225ac9ceb938c";
    shows(
        &rt,
        is_known(rt.alloc(), Mode::Pure, b"", None, &LONG, wanted) == Ok(true),
    );
}

fn is_undisputed(alloc: Global) -> Result<bool, Error> {
    let key = signing(alloc)?;
    let evidence = evidence_of(alloc, b"early 0 1")?;
    match (
        signed(alloc, &key, Mode::Pure, b"", None, b"Hello"),
        evidence,
    ) {
        (Ok(signature), Some(evidence)) => {
            let (signature, message) = (signature.as_slice(), slowly(b"Hello"));
            let shown = check_evidence(&key, Mode::Pure, b"", signature, evidence, message);
            Ok(matches!(shown, Ok(false)))
        }
        _ => Ok(false),
    }
}

#[test]
fn evidence_shows_nothing_against_an_own_signature(rt: HostRuntime) {
    shows(&rt, is_undisputed(rt.alloc()) == Ok(true));
}

// Two readings of a message, which differ.
const CHANGED: &str = "\
Hello Hallo
Hello Hell
Hello Hello!
Hello\u{20}
 Hello";

fn is_seen(alloc: Global, key: &Key, row: &str) -> bool {
    match row.split_once(' ') {
        Some((first, second)) => {
            let second = slowly(second.as_bytes());
            is_changed(sign_twice(alloc, key, b"", None, first.as_bytes(), second))
        }
        None => false,
    }
}

fn are_seen(alloc: Global) -> Result<bool, Error> {
    let key = signing(alloc)?;
    let mut all = true;
    for row in CHANGED.lines() {
        all = is_seen(alloc, &key, row) && all;
    }
    Ok(all)
}

#[test]
fn other_bytes_are_seen(rt: HostRuntime) {
    shows(&rt, are_seen(rt.alloc()) == Ok(true));
}
