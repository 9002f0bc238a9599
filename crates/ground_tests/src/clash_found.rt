//! Clashes that `merkle_clash` finds under a hash function that has them, worked by hand: it tells
//! the first byte of an entry alone, and of a node that of the digest on its left.
use crate::clash_hash::ByteHash;
use crate::shown::shows;
use merkle_clash::{
    EntryClash, are_short, entry_clash, growth_clash, inclusion_clash, leaves_clash, roots_clash,
};
use merkle_tree::Clash;

const A: [u8; 32] = [b'a'; 32];

const B: [u8; 32] = [b'b'; 32];

const C: [u8; 32] = [b'c'; 32];

const D: [u8; 32] = [b'd'; 32];

const E: [u8; 32] = [b'e'; 32];

// Whether a clash is of a node over these two digests and of one over those.
fn is_of(found: Option<Clash>, first: [&[u8; 32]; 2], second: [&[u8; 32]; 2]) -> bool {
    let Some(clash) = found else {
        return false;
    };
    let nodes_first = clash.first.left == *first[0] && clash.first.right == *first[1];
    nodes_first && clash.second.left == *second[0] && clash.second.right == *second[1]
}

// In two lists with one root, in a growth and on a path.
fn are_found_in_nodes() -> bool {
    let in_roots = roots_clash::<ByteHash>(&[A, B, C], &[A, E, D]);
    let in_growth = growth_clash::<ByteHash>(&[A, B, C], &[A, B, E, D], &[C, D, A]);
    let on_path = inclusion_clash::<ByteHash>(&[A, B, C, D], 1, &E, &[A, C]);
    is_of(in_roots, [&A, &C], [&A, &D])
        && is_of(in_growth, [&A, &C], [&A, &E])
        && is_of(on_path, [&A, &E], [&A, &B])
}

fn is_found_in_entries() -> bool {
    let (a, b): (&[&[u8]], &[&[u8]]) = (&[b"a1", b"b1"], &[b"a1", b"b2"]);
    let in_place = entry_clash::<ByteHash>(&[A, B, C, D], 1, b"b1", b"b2", &[A, C]);
    matches!(in_place, Some(EntryClash::Entries))
        && are_short(a)
        && are_short(b)
        && leaves_clash::<ByteHash>(a, b) == Some(1)
}

#[test]
fn clashes_are_those_worked_by_hand(rt: HostRuntime) {
    shows(&rt, are_found_in_nodes() && is_found_in_entries());
}
