//! The example of the page of `slh_manifest`. A call that found no memory is made again, so that it
//! holds with each allocation failing in turn, too (`rt try --test --fail-alloc`).
use crate::keys_128f::{key, public};
use crate::shown::shows;
use slh_dsa::{Sha2_128f, SigningKey, VerifyingKey};
use slh_manifest::{BuildError, Builder, CheckError, MemStore, Store, check};
use std::alloc::Global;

pub(crate) fn manifest_of<T: Store>(
    alloc: Global,
    key: &SigningKey<Sha2_128f>,
    names: &[&[u8]],
    store: &mut T,
) -> Result<Vec<u8>, BuildError> {
    let mut builder = Builder::new(alloc);
    for name in names {
        builder.add(name, store)?;
    }
    builder.seal(alloc, key, None)
}

pub(crate) fn checked<T: Store>(
    key: &VerifyingKey<Sha2_128f>,
    manifest: &[u8],
    store: &mut T,
) -> Result<(), CheckError> {
    check(key, manifest, store)
}

fn put(files: &mut MemStore, name: &[u8], bytes: &[u8]) -> Option<()> {
    if files.put(name, bytes).is_err() {
        files.put(name, bytes).ok()?;
    }
    Some(())
}

fn manifest_of_two(alloc: Global, files: &mut MemStore) -> Option<Vec<u8>> {
    let (key, names): (_, [&[u8]; 2]) = (key(3), [b"boot", b"image"]);
    match manifest_of(alloc, &key, &names, files) {
        Ok(manifest) => Some(manifest),
        Err(_) => manifest_of(alloc, &key, &names, files).ok(),
    }
}

// Whether the manifest of two files is accepted until the second changes.
fn is_accepted_until(manifest: &[u8], files: &mut MemStore) -> Option<bool> {
    let key = public(3);
    let is_accepted = checked(&key, manifest, files) == Ok(());
    put(files, b"image", b"third")?;
    Some(is_accepted && checked(&key, manifest, files) == Err(CheckError::Differs(1)))
}

fn holds_for_two_files(alloc: Global) -> Option<bool> {
    let mut files = MemStore::new(alloc, Vec::new(alloc));
    put(&mut files, b"boot", b"first")?;
    put(&mut files, b"image", b"second")?;
    let manifest = manifest_of_two(alloc, &mut files)?;
    is_accepted_until(&manifest, &mut files)
}

#[test]
fn example_of_the_page_of_manifests(rt: HostRuntime) {
    shows(&rt, holds_for_two_files(rt.alloc()) == Some(true));
}
