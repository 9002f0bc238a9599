//! Manifests taken apart.
ghost use Rattle.std.specs.Prelude.{◌≡◌, ◌≤◌, ◌^◌, None, Some, IfSome, is_some};
ghost use Rattle.std.specs.Prelude.{drop, length, if◌then◌else◌};
ghost use Rattle.slh_trees.specs.Checking.{signature_size};
ghost use Rattle.slh_manifest.specs.Checking.{body_part, count_of as spec_count_of, has_count};
ghost use Rattle.slh_manifest.specs.Checking.{has_entries, is_manifest, signature_part};

use crate::entry::{MAX_ENTRIES, skip_entries};
use slh_dsa::SetSizes;

/// The parts of a manifest where they stand.
#[derive(Drop)]
pub(crate) struct Parts<'a> {
    /// How many entries there are.
    pub count: u32,
    /// The entries, and what follows them.
    pub entries: &'a [u8],
    /// What is signed.
    pub body: &'a [u8],
    pub signature: &'a [u8],
}

// The number of entries. `None`: there is none at the front, or it isn't in range.
fn count_of(manifest: &[u8]) -> Option<u32>
    ensures value { result ≡ (if has_count manifest.now
        then Some (spec_count_of manifest.now) else None) }
    ensures few { IfSome result (λ count. count ≤ MAX_ENTRIES) }
{
    if manifest.len() < 4 {
        return None;
    }
    let count = u32::from_be_bytes([manifest[0], manifest[1], manifest[2], manifest[3]]);
    if count == 0 || count as usize > MAX_ENTRIES {
        return None;
    }
    Some(count)
}

/// The parts of a manifest of whatever signature. `None`: the bytes don't have the form of one.
pub(crate) fn any_parts_of(manifest: &[u8]) -> Option<Parts<'_>>
    ensures form { is_some result ≡ has_entries manifest.now }
    ensures count { IfSome result (λ parts. parts.count ≡ spec_count_of manifest.now) }
    ensures entries { IfSome result (λ parts. parts.entries.now ≡ drop 4 manifest.now) }
    ensures body { IfSome result (λ parts. parts.body.now ≡ body_part manifest.now) }
    ensures signature { IfSome result
        (λ parts. parts.signature.now ≡ signature_part manifest.now) }
    ensures body_len { IfSome result (λ parts. length parts.body.now ≤ 2 ^ 60) }
{
    let count = count_of(manifest)?;
    let entries = &manifest[4..];
    let signature = skip_entries(count, entries)?;
    Some(Parts {
        count,
        entries,
        body: &manifest[..manifest.len() - signature.len()],
        signature,
    })
}

/// The parts of a manifest. `None`: the bytes don't have the form of one.
pub(crate) fn parts_of<P: SetSizes>(manifest: &[u8]) -> Option<Parts<'_>>
    ensures form { is_some result ≡ is_manifest P.scheme manifest.now }
    ensures count { IfSome result (λ parts. parts.count ≡ spec_count_of manifest.now) }
    ensures entries { IfSome result (λ parts. parts.entries.now ≡ drop 4 manifest.now) }
    ensures body { IfSome result (λ parts. parts.body.now ≡ body_part manifest.now) }
    ensures signature { IfSome result
        (λ parts. parts.signature.now ≡ signature_part manifest.now) }
    ensures body_len { IfSome result (λ parts. length parts.body.now ≤ 2 ^ 60) }
    ensures signature_len { IfSome result
        (λ parts. length parts.signature.now ≡ signature_size P.scheme) }
{
    let parts = any_parts_of(manifest)?;
    if parts.signature.len() != P::SIG_LEN {
        return None;
    }
    Some(parts)
}
