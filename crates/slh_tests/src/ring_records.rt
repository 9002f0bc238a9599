//! A record that other programs made: its ring is copied, and its entry is read without the master.
use crate::page_of_rings::is_derived;
use crate::shown::shows;
use slh_dsa::Sha2_128f;
use slh_ring::{Path, Record, RecordEntry, Ring, recorded_set};
use std::alloc::Global;

// The record of the path 0 under the master 00: the letters, the version, the name, the number of
// paths, the path, and 8 bytes. Python's hmac and hashlib and the Rust crate `slh-dsa` 0.1.0 made
// these.
const WORKED: &[u8; 38] =
    b"SLHR\x01\x11SLH-DSA-SHA2-128f\0\x01\x01\0\0\0\0\x4a\x2b\xa0\xb1\x64\x59\xa7\xb9";

fn is_copied(alloc: Global) -> Option<bool> {
    let ring = Ring::<Sha2_128f>::restore(alloc, &[0], WORKED).ok()?;
    Some(ring.clone().ok()? == ring)
}

fn entry() -> Option<RecordEntry<'static, Sha2_128f>> {
    Record::<Sha2_128f>::read(WORKED)?.entry(0)
}

// Whether the entry gives its key under a master of one byte.
fn gives_its_key(master: u8) -> Option<bool> {
    let key = entry()?.key(&[master])?;
    Some(is_derived(&key, &[master], &Path::from_slice(&[0])?))
}

#[test]
fn a_record_gives_its_ring_and_its_key(rt: HostRuntime) {
    shows(
        &rt,
        recorded_set(WORKED) == Some(b"SLH-DSA-SHA2-128f".as_slice()),
    );
    shows(&rt, is_copied(rt.alloc()) == Some(true));
    shows(
        &rt,
        gives_its_key(0) == Some(true) && gives_its_key(1).is_none(),
    );
}
