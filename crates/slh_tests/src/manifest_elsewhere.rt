//! Entries of a manifest by their digests, and bodies that are signed elsewhere.
use crate::keys_128f::{key, public};
use crate::page_of_manifests::checked;
use crate::shown::shows;
use slh_dsa::Sha2_128f;
use slh_manifest::{Builder, CONTEXT, MemStore};
use std::alloc::Global;

// The number of entries, and then for each the number of the name's bytes, the name, the number of
// bytes under it, and their SHA-256: of `abc` (FIPS 180-2, B.1) and of no bytes (NIST's examples).
const BODY: &str = "00000002\
    01610000000000000003ba7816bf8f01cfea414140de5dae2223b00361a396177a9cb410ff61f20015ad\
    01620000000000000000e3b0c44298fc1c149afbf4c8996fb92427ae41e4649b934ca495991b7852b855";

fn add_digest(builder: &mut Builder, name: &[u8], len: u64, digest: &[u8]) -> Option<()> {
    builder.add_digest(name, len, digest.first_chunk()?).ok()
}

// The manifest of this body, signed by the plain call.
fn signed_elsewhere(alloc: Global, body: &[u8; 88]) -> Option<Vec<u8>> {
    let mut builder = Builder::new(alloc);
    add_digest(&mut builder, b"a", 3, &body[14..46])?;
    add_digest(&mut builder, b"b", 0, &body[56..])?;
    let body = builder.body(alloc).ok()?;
    let signature = key(3)
        .try_sign_with_context(alloc, &body, CONTEXT, None)
        .ok()?;
    builder.with_signature::<Sha2_128f>(alloc, &signature).ok()
}

fn files(alloc: Global) -> Option<MemStore> {
    let mut files = MemStore::new(alloc, Vec::new(alloc));
    files.put(b"a", b"abc").ok()?;
    files.put(b"b", b"").ok()?;
    Some(files)
}

fn is_accepted(alloc: Global) -> Option<bool> {
    let mut body = [0u8; 88];
    hex::decode_to_slice(BODY, &mut body).ok()?;
    let manifest = signed_elsewhere(alloc, &body)?;
    let answer = checked(&public(3), &manifest, &mut files(alloc)?);
    Some(manifest.starts_with(&body) && answer == Ok(()))
}

#[test]
fn a_body_of_digests_that_is_signed_elsewhere_is_accepted(rt: HostRuntime) {
    shows(&rt, is_accepted(rt.alloc()) == Some(true));
}
