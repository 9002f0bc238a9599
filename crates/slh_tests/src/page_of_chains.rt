//! The example of the page of `slh_chain`.
use crate::keys_128f::{key, public};
use crate::shown::shows;
use slh_chain::{ChainError, LinkError, delegate, walk};
use slh_dsa::{Sha2_128f, SigningKey, VerifyingKey};
use std::alloc::Global;

fn release_link(
    alloc: Global,
    root: &SigningKey<Sha2_128f>,
    release: &VerifyingKey<Sha2_128f>,
) -> Result<Vec<u8>, LinkError> {
    delegate(alloc, root, b"release", 0, release, None)
}

fn release_key(
    root: &VerifyingKey<Sha2_128f>,
    chain: &[u8],
) -> Result<VerifyingKey<Sha2_128f>, ChainError> {
    let end = walk(root, chain)?;
    Ok(end.key)
}

// Whether the root key leads to the release key, and the release key nowhere.
fn leads_to_release(alloc: Global) -> Option<bool> {
    let release = public(6);
    let chain = release_link(alloc, &key(3), &release).ok()?;
    let is_found = release_key(&public(3), &chain).ok()? == release;
    let error = release_key(&release, &chain).err()?;
    Some(is_found && error == ChainError::Invalid(0))
}

#[test]
fn example_of_the_page_of_chains(rt: HostRuntime) {
    shows(&rt, leads_to_release(rt.alloc()) == Some(true));
}
