//! Files that aren't replaced, for what they hold.
ghost use Rattle.std.specs.Prelude.{◌≡◌, IfOk};
ghost use Rattle.slh_host.specs.Secrets.{is_key as spec_is_key, is_master as spec_is_master};
ghost use Rattle.slh_host.specs.Secrets.{is_other, is_public, is_secret};

use slh_bytes::{KeyFileError, Kind, digits_of, has_line, place_of, read_key};
use std::alloc::{AllocError, Global};

/// How many of a file's first bytes are looked into.
pub(crate) const FRONT: u64 = 1 << 16;

// The most bytes of a master's file.
const MOST_MASTER: usize = 1 << 12;

// What stands in each PEM label of a secret key, whatever its kind and form.
const LABEL: &[u8] = b"PRIVATE KEY";

/// Which files no output replaces.
#[derive(Clone, Copy, Debug, PartialEq, Eq)]
pub enum Kept {
    /// Those that hold a secret.
    Secrets,
    /// These, and those that hold a verifying key.
    Keys,
}

// What stands in each PEM label of a verifying key.
const PUBLIC_LABEL: &[u8] = b"PUBLIC KEY";

/// Whether bytes may be a secret key in PEM, have a line `SET KEY` of a signing key among other
/// words, or be a master secret: up to 4096 bytes of nothing but hexadecimal digits and blanks.
#[tactic(auto, unfolding(crate::specs::Secrets::is_secret))]
pub(crate) fn holds_secret(alloc: Global, bytes: &[u8]) -> Result<bool, AllocError>
    ensures { IfOk result (λ is. is ≡ is_secret bytes.now) }
{
    if place_of(bytes, LABEL).is_some() {
        return Ok(true);
    }
    if is_key(alloc, bytes)? {
        return Ok(true);
    }
    if has_line(alloc, Kind::Signing, bytes)? {
        return Ok(true);
    }
    is_master(alloc, bytes)
}

fn is_key(alloc: Global, bytes: &[u8]) -> Result<bool, AllocError>
    ensures { IfOk result (λ is. is ≡ spec_is_key bytes.now) }
{
    match read_key(alloc, Kind::Signing, bytes) {
        Ok(_) => Ok(true),
        Err(KeyFileError::Memory) => Err(AllocError),
        Err(_) => Ok(false),
    }
}

fn is_master(alloc: Global, bytes: &[u8]) -> Result<bool, AllocError>
    ensures { IfOk result (λ is. is ≡ spec_is_master bytes.now) }
{
    if bytes.len() > MOST_MASTER {
        return Ok(false);
    }
    match digits_of(alloc, bytes)? {
        Some(master) => Ok(!master.is_empty()),
        None => Ok(false),
    }
}

/// Whether bytes may be a verifying key in PEM, or have a line `SET KEY` of one among other words,
/// where those are kept.
#[tactic(auto, unfolding(crate::specs::Secrets::is_public))]
pub(crate) fn holds_other(alloc: Global, kept: Kept, bytes: &[u8]) -> Result<bool, AllocError>
    ensures { IfOk result (λ is. is ≡ is_other kept bytes.now) }
{
    match kept {
        Kept::Secrets => Ok(false),
        Kept::Keys => {
            if place_of(bytes, PUBLIC_LABEL).is_some() {
                return Ok(true);
            }
            has_line(alloc, Kind::Verifying, bytes)
        }
    }
}
