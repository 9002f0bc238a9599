//! The example of the page of `slh_log`: a client that has a head of six entries takes one of
//! eight.
use crate::log_heads::digest;
use crate::shown::shows;
use slh_dsa::{Sha2_128f, SigningKey, VerifyingKey};
use slh_log::{CheckpointError, OpenError, check_growth, checkpoint, open};
use std::alloc::Global;

fn head(
    alloc: Global,
    key: &SigningKey<Sha2_128f>,
    size: u64,
    root: &[u8; 32],
) -> Result<Vec<u8>, CheckpointError> {
    checkpoint(alloc, key, "example.com/log", size, root, None)
}

fn has_grown(
    key: &VerifyingKey<Sha2_128f>,
    old: &[u8],
    new: &[u8],
    proof: &[[u8; 32]],
) -> Result<bool, OpenError> {
    let old = open(key, "example.com/log", old)?;
    let new = open(key, "example.com/log", new)?;
    Ok(check_growth(&old, &new, proof).is_ok())
}

// Whether the head of eight is taken after that of six, and not the other way round.
fn is_taken(alloc: Global) -> Option<bool> {
    let key = SigningKey::slh_keygen_internal(&[1; 16], &[2; 16], &[3; 16]).ok()?;
    let root_of_6 = digest("76e67dadbcdf1e10e1b74ddc608abd2f98dfb16fbce75277b5232a127f2087ef");
    let root_of_8 = digest("5dc9da79a70659a9ad559cb701ded9a2ab9d823aad2f4960cfe370eff4604328");
    let old = head(alloc, &key, 6, &root_of_6).ok()?;
    let new = head(alloc, &key, 8, &root_of_8).ok()?;
    let proof = [
        digest("0ebc5d3437fbe2db158b9f126a1d118e308181031d0a949f8dededebc558ef6a"),
        digest("ca854ea128ed050b41b35ffc1b87b8eb2bde461e9e3b5596ece6b9d5975a0ae0"),
        digest("d37ee418976dd95753c1c73862b9398fa2a2cf9b4ff0fdfe8b30cd95209614b7"),
    ];
    let key = key.verifying_key();
    let forth = has_grown(&key, &old, &new, &proof) == Ok(true);
    let back = has_grown(&key, &new, &old, &proof) == Ok(false);
    Some(forth && back)
}

#[test]
fn example_of_the_page_of_logs(rt: HostRuntime) {
    shows(&rt, is_taken(rt.alloc()) == Some(true));
}
