//! Entries in the place of digests.
ghost use Rattle.std.specs.Prelude.{◌≡◌, ◌↔◌, ◌≤◌, ◌^◌, ◌∷◌, [], length, map, slice_index_or};
ghost use Rattle.std.specs.Prelude.{None, Some, MatchOption, IsTrue};
ghost use Rattle.std.specs.List.{All};
ghost use Rattle.std.specs.Str.{bytes_eq};
ghost use Rattle.merkle_tree.specs.Binding.{entry_pairs};
ghost use Rattle.merkle_tree.specs.Clashes.{first_clash, is_clash};
ghost use Rattle.merkle_clash.specs.Answers.{entry_answer, entry_inputs};
ghost use Rattle.merkle_clash.specs.Entries.{inputs_in};

use crate::inclusion::inclusion_clash;
use merkle_tree::{Clash, DIGEST_LEN, TreeHash};

/// How many bytes an entry has at most that is hashed.
const MAX_ENTRY_LEN: usize = 1 << 60;

/// Two different inputs with one digest, where two entries are compared.
#[derive(Drop)]
pub enum EntryClash {
    /// What is hashed for the entries themselves, the byte 0 and each.
    Entries,
    /// What is hashed into nodes above them.
    Nodes(Clash),
}

// Whether what is hashed for two entries is the same.
fn are_same(first: &[u8], second: &[u8]) -> bool
    ensures { result ≡ bytes_eq (0 ∷ first.now) (0 ∷ second.now) }
{
    first == second
}

// Whether two entries differ and have one digest.
fn do_clash<H: TreeHash>(first: &[u8], second: &[u8]) -> bool
    requires first_short { length first.now ≤ 2 ^ 60 }
    requires second_short { length second.now ≤ 2 ^ 60 }
    ensures { result ≡ is_clash H.hash (entry_inputs first.now second.now) }
{
    !are_same(first, second) && H::leaf(first) == H::leaf(second)
}

/// The first clash where a path leads from an entry, as entry `index` of a list, to the root over
/// the list's digests: that of the entry and `own`, the one that the list has there, or that which
/// [`inclusion_clash`] finds above them. There is one where the path passes `check_inclusion` from
/// the entry's digest to that root, and `entry` isn't `own`. Takes no memory.
pub fn entry_clash<H: TreeHash>(
    digests: &[[u8; DIGEST_LEN]],
    index: usize,
    own: &[u8],
    entry: &[u8],
    path: &[[u8; DIGEST_LEN]],
) -> Option<EntryClash>
    requires own_short { length own.now ≤ 2 ^ 60 }
    requires short { length entry.now ≤ 2 ^ 60 }
    ensures { let clash = entry_answer H.hash digests.now index own.now entry.now path.now in
        MatchOption result (clash ≡ None)
        (λ c. clash ≡ Some (inputs_in entry.now own.now c)) }
{
    if do_clash::<H>(entry, own) {
        return Some(EntryClash::Entries);
    }
    match inclusion_clash::<H>(digests, index, &H::leaf(entry), path) {
        Some(clash) => Some(EntryClash::Nodes(clash)),
        None => None,
    }
}

/// Whether entries are short enough to be hashed.
pub fn are_short(entries: &[&[u8]]) -> bool
    ensures { IsTrue result ↔ All (λ entry. length entry.now ≤ 2 ^ 60) entries.now }
{
    entries.iter().all(|entry| entry.len() <= MAX_ENTRY_LEN)
}

/// The first index at which two lists have different entries with one digest. Where there is none
/// and the lists differ, their digests differ, and `growth_clash` or `roots_clash` of these finds
/// what clashes. Takes no memory.
pub fn leaves_clash<H: TreeHash>(a: &[&[u8]], b: &[&[u8]]) -> Option<usize>
    requires a_short { All (λ entry. length entry.now ≤ 2 ^ 60) a.now }
    requires b_short { All (λ entry. length entry.now ≤ 2 ^ 60) b.now }
    ensures { let p = map (λ entry. entry.now) a.now in
        let q = map (λ entry. entry.now) b.now in
        let clash = first_clash H.hash (entry_pairs p q) in
        MatchOption result (clash ≡ None)
        (λ k. clash ≡ Some (entry_inputs (slice_index_or p k []) (slice_index_or q k []))) }
{
    let len = a.len().min(b.len());
    'each_entry: for k in 0..len {
        if do_clash::<H>(a[k], b[k]) {
            return Some(k);
        }
    }
    None
}
