//! The entries of a manifest, and the places of their parts.
ghost use Rattle.std.specs.Prelude.{◌≡◌, ◌<◌, ◌≤◌, ◌+◌, ◌*◌, MatchOption, length};
ghost use Rattle.std.specs.Prelude.{[], Some, None, IfSome, if◌then◌else◌};
ghost use Rattle.std.specs.Option.{option_copied};
ghost use Rattle.std.specs.Int.{w64, from_be_bytes};
ghost use Rattle.slh_manifest.specs.Manifest.{may_follow as spec_may_follow};
ghost use Rattle.slh_manifest.specs.Reading.{IsFrontView, front_size};
ghost use Rattle.slh_manifest.specs.Reading.{are_entries, rest_after};

use line_serve::ByteString;

/// The most bytes of a name.
pub const MAX_NAME: usize = 255;

/// The most bytes that stand under a name.
pub const MAX_LEN: u64 = 1 << 32;

/// The most entries of a manifest.
pub const MAX_ENTRIES: usize = 4096;

/// What a manifest says of a name: how many bytes stand under it, and their SHA-256.
#[derive(Drop)]
pub struct Entry {
    pub name: ByteString,
    pub len: u64,
    pub digest: [u8; 32],
}

/// An entry where it stands in a manifest, and what follows it.
#[derive(Clone, Copy)]
pub(crate) struct EntryView<'a> {
    pub name: &'a [u8],
    pub len: u64,
    pub digest: &'a [u8; 32],
    pub rest: &'a [u8],
}

/// Whether a name may stand after another one, or, after the empty one, at the front.
pub(crate) fn may_follow(last: &[u8], name: &[u8]) -> bool
    ensures { result ≡ spec_may_follow last.now name.now }
{
    last < name && name.len() <= MAX_NAME
}

// The number of 8 bytes.
fn number(bytes: &[u8]) -> u64
    requires { length bytes.now ≡ 8 }
    ensures { result ≡ from_be_bytes w64 bytes.now }
{
    let mut word = [0u8; 8];
    word.copy_from_slice(bytes);
    u64::from_be_bytes(word)
}

/// The entry at the front. `None`: there are too few bytes for one.
pub(crate) fn front_entry(bytes: &[u8]) -> Option<EntryView<'_>>
    ensures value { MatchOption result (length bytes.now < front_size bytes.now)
        (λ view. IsFrontView bytes.now view) }
    ensures short { IfSome result (λ view. length bytes.now ≤ length view.rest.now + 296) }
{
    if bytes.is_empty() {
        return None;
    }
    let name_end = 1 + bytes[0] as usize;
    if bytes.len() < name_end + 40 {
        return None;
    }
    Some(EntryView {
        name: &bytes[1..name_end],
        len: number(&bytes[name_end..name_end + 8]),
        digest: bytes[name_end + 8..name_end + 40].first_chunk()?,
        rest: &bytes[name_end + 40..],
    })
}

/// What follows the first entries, so many. `None`: they don't stand there, or one of them may not
/// follow the one before it.
pub(crate) fn skip_entries(count: u32, bytes: &[u8]) -> Option<&[u8]>
    ensures value { option_copied result ≡ (if are_entries count [] bytes.now
        then Some (rest_after count bytes.now) else None) }
    ensures within { IfSome result (λ rest. length rest.now ≤ length bytes.now) }
    ensures short { IfSome result (λ rest. length bytes.now ≤ length rest.now + 296 * count) }
{
    let mut last: &[u8] = &[];
    let mut left = bytes;
    'each_entry: for _ in 0..count {
        let entry = front_entry(left)?;
        if !may_follow(last, entry.name) || entry.len > MAX_LEN {
            return None;
        }
        last = entry.name;
        left = entry.rest;
    }
    Some(left)
}
