//! The example of the page of `slh_ring`. A call that found no memory is made again, so that it
//! holds with each allocation failing in turn, too (`rt try --test --fail-alloc`).
ghost use Rattle.std.specs.Prelude.{◌^◌, ◌≤◌, length};

use crate::shown::shows;
use slh_dsa::{Sha2_128f, SigningKey};
use slh_ring::{Path, RestoreError, Ring, RingError, derive};
use std::alloc::Global;

fn path_of(product: u32) -> Path {
    Path::from_slice(&[product, 2026]).unwrap()
}

fn record_of_two(alloc: Global, master: &[u8; 32]) -> Result<Vec<u8>, RingError> {
    let mut ring = Ring::<Sha2_128f>::new(alloc);
    ring.add(path_of(2))?;
    ring.add(path_of(1))?;
    Ok(ring.to_record(alloc, master)?)
}

fn second_key(
    alloc: Global,
    master: &[u8; 32],
    record: &[u8],
) -> Result<Option<SigningKey<Sha2_128f>>, RestoreError> {
    let ring = Ring::<Sha2_128f>::restore(alloc, master, record)?;
    match ring.get(1) {
        Some(path) => Ok(Some(derive(master, path))),
        None => Ok(None),
    }
}

fn record_at_last(alloc: Global) -> Option<Vec<u8>> {
    match record_of_two(alloc, &[7; 32]) {
        Ok(record) => Some(record),
        Err(_) => record_of_two(alloc, &[7; 32]).ok(),
    }
}

fn key_at_last(
    alloc: Global,
    master: &[u8; 32],
    record: &[u8],
) -> Result<Option<SigningKey<Sha2_128f>>, RestoreError> {
    match second_key(alloc, master, record) {
        Err(RestoreError::Memory) => second_key(alloc, master, record),
        answer => answer,
    }
}

/// Whether a key is the one at a path under a master.
pub(crate) fn is_derived(key: &SigningKey<Sha2_128f>, master: &[u8], path: &Path) -> bool
    requires { length master.now ≤ 2 ^ 60 }
{
    *key == derive(master, path)
}

// Whether the second key is that of product 2.
fn gives_second(alloc: Global, record: &[u8]) -> bool {
    match key_at_last(alloc, &[7; 32], record) {
        Ok(Some(key)) => is_derived(&key, &[7; 32], &path_of(2)),
        _ => false,
    }
}

fn is_mismatch(alloc: Global, record: &[u8]) -> bool {
    match key_at_last(alloc, &[8; 32], record) {
        Err(refusal) => refusal == RestoreError::Mismatch(0),
        Ok(_) => false,
    }
}

// Whether the second key is given again, and another master is noticed.
fn runs(alloc: Global) -> bool {
    match record_at_last(alloc) {
        Some(record) => gives_second(alloc, &record) && is_mismatch(alloc, &record),
        None => false,
    }
}

#[test]
fn example_of_the_page_of_rings(rt: HostRuntime) {
    shows(&rt, runs(rt.alloc()));
}
