//! Chains, manifests and records that `slh_bytes` makes are taken by it, and keys of a ring.
use crate::keys::{SET, signing, verifying};
use crate::shown::shows;
use slh_bytes::{
    RecordError, check_manifest, key_at, last_key, new_link, record_of, restored_paths,
    seal_manifest,
};
use slh_manifest::{Builder, MemStore};
use slh_ring::{Path, RestoreError, RingError};
use std::alloc::Global;

fn leads_to_its_subject(alloc: Global) -> Option<bool> {
    let chain = new_link(alloc, SET, &signing()?, b"release", 0, &[7; 32], None).ok()?;
    let end = last_key(alloc, SET, &verifying()?, &chain).ok()?;
    Some(end.as_slice() == [7; 32].as_slice())
}

#[test]
fn a_chain_ends_with_its_last_subject(rt: HostRuntime) {
    shows(&rt, leads_to_its_subject(rt.alloc()) == Some(true));
}

fn is_of_its_files(alloc: Global) -> Option<bool> {
    let mut files = MemStore::new(alloc, Vec::new(alloc));
    files.put(b"a", b"one").ok()?;
    let mut entries = Builder::new(alloc);
    entries.add(b"a", &mut files).ok()?;
    let manifest = seal_manifest(alloc, SET, &signing()?, entries, None).ok()?;
    Some(check_manifest(SET, &verifying()?, &manifest, files).answer == Ok(()))
}

#[test]
fn a_manifest_is_of_its_files(rt: HostRuntime) {
    shows(&rt, is_of_its_files(rt.alloc()) == Some(true));
}

const MASTER: [u8; 32] = [1; 32];

fn is_of_its_master(alloc: Global) -> Option<bool> {
    let record = record_of(alloc, SET, &MASTER, &["1/2", "."]).ok()?;
    let paths = restored_paths(alloc, SET, &MASTER, &record).ok()?;
    let other = restored_paths(alloc, SET, &[2; 32], &record).err()?;
    let cut = restored_paths(alloc, SET, &MASTER, record.get(1..)?).err()?;
    Some(
        paths.as_slice() == b".\n1/2\n".as_slice()
            && other == RestoreError::Mismatch(0)
            && cut == RestoreError::Form,
    )
}

#[test]
fn a_record_gives_its_paths_under_its_own_master_alone(rt: HostRuntime) {
    shows(&rt, is_of_its_master(rt.alloc()) == Some(true));
}

fn record_error(alloc: Global, texts: &[&str]) -> Option<RecordError> {
    record_of(alloc, SET, &MASTER, texts).err()
}

fn are_refused(alloc: Global) -> bool {
    record_error(alloc, &["1/2", "1//2", "x"]) == Some(RecordError::Text(1))
        && record_error(alloc, &["1", "2", "1"]) == Some(RecordError::Ring(2, RingError::Present))
}

#[test]
fn a_text_that_is_no_path_or_stands_twice_is_refused_by_its_number(rt: HostRuntime) {
    shows(&rt, are_refused(rt.alloc()));
}

// The key at 1/2026/7 under 32 bytes from 0 on, by examples/python/second_reading.py.
const DERIVED: &str = "905e89cbfe603212164e3725c40b2744deef75d494f564b6eff1d535f785181a\
    46b6e9ed28a48f646e7d3109dff1fbfd761a10b7b2c5e3065678548a30353f48";

fn is_derived(alloc: Global) -> Option<bool> {
    let (mut master, mut known) = ([0u8; 32], [0u8; 64]);
    let digits = "000102030405060708090a0b0c0d0e0f101112131415161718191a1b1c1d1e1f";
    hex::decode_to_slice(digits, &mut master).ok()?;
    hex::decode_to_slice(DERIVED, &mut known).ok()?;
    let key = key_at(alloc, SET, &master, &Path::from_text(b"1/2026/7")?).ok()?;
    Some(key.as_slice() == known.as_slice())
}

#[test]
fn known_key_of_a_ring(rt: HostRuntime) {
    shows(&rt, is_derived(rt.alloc()) == Some(true));
}
