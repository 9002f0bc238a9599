//! An entry where it stands.
ghost use Rattle.std.specs.Prelude.{◌≤◌, ◌^◌};

/// What a manifest says of a name, where it stands: how many bytes stand under the name, at most
/// 2^32, and their SHA-256.
#[derive(Clone, Copy, Debug, PartialEq, Eq)]
pub struct EntryRef<'a> {
    pub name: &'a [u8],
    pub len: u64,
    pub digest: &'a [u8; 32],
    pub ghost fits: { len ≤ 2 ^ 32 },
}
